//! Structural Verilog (IEEE 1364): from the bytes of a netlist to its nets, ports and instances.
#![tactic(auto)]

mod context;
mod forms;
mod item;
mod name;
mod netlist;
mod nets;
mod pin_names;
mod port;
mod read;
mod sort;
mod state;

pub use name::Name;
pub use netlist::{Instance, Modules, Net, Netlist, PortRole, Wire};
pub use nets::named_bit;
pub use port::PortFound;
pub use read::{read_modules, read_netlist};
