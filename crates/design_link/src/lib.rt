//! Linking: the design that a library, a netlist, parasitics and constraints make together.
#![tactic(auto)]

mod clock;
mod copies;
mod gathering;
mod laws;
mod linking;
mod names;
mod nets;
mod sizes;

pub use laws::linking_has_one_outcome;
pub use link_rules::{LinkFault, LinkRefusal};
pub use linking::link;
