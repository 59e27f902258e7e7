//! Whether two switching windows can be under way at the same time, by which factors the coupling capacitors
//! of a net count then, and the ranges of loads and wire delays that follow. Times and slews are in fs, loads
//! in aF.
#![tactic(auto)]

mod active;
mod factor;
mod load;
mod overlaps;
mod victim;
mod wire;

pub use active::{active_from, active_to, overlap};
pub use factor::factors;
pub use load::{load_range, load_ranges};
pub use overlaps::Overlaps;
pub use victim::Victim;
pub use wire::{wire_range, wire_ranges};
