//! SDC: from the bytes of a text of constraints to the clock, the windows of ports and their loads.
#![tactic(auto)]

mod change;
mod clocks;
mod constraints;
mod levels;
mod listed;
mod mentions;
mod numbers;
mod objects;
mod origins;
mod port_table;
mod ports;
mod progress;
mod read;
mod set_numbers;
mod source;

pub use constraints::{Clock, Constraints};
pub use port_table::PortTable;
pub use ports::{PortBit, PortSet, Sides};
pub use read::read_sdc;
