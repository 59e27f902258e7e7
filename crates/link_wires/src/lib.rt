//! The wires of nets: from parasitics to one tree and its couplings for each net (IEEE 1481, Elmore 1948).
#![tactic(auto)]

mod charges;
mod fault;
mod first;
mod index;
mod kept;
mod marks;
mod nodes;
mod parts;
mod tree;
mod wire;

pub use kept::{KeptWire, form};
pub use wire::{NetWire, wires};
