//! Look-ups by hash: the nets of a netlist by bits, by names and by the nodes of parasitics; the cells of a library and
//! their pins by names.
#![tactic(auto)]

mod bits;
mod cells;
mod first;
mod index;
mod names;
mod nodes;
mod odd;
mod pin_places;
mod places;
mod split;
mod wires;

pub use bits::{count_bits, number_at, width};
pub use cells::CellIndex;
pub use first::set_first;
pub use index::{NetBits, NetIndex};
pub use nodes::NodeIndex;
