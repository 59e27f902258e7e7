//! SPEF (IEEE 1481): from the bytes of extracted parasitics to the capacitors and resistors of each net.
#![tactic(auto)]

mod context;
mod forms;
mod item;
mod map;
mod marks;
mod names;
mod net_forms;
mod parasitics;
mod read;
mod slots;
mod sort;
mod state;
mod values;
mod words;

pub use parasitics::{CapText, NameId, Parasitics, ResText, WireText};
pub use read::read_spef;
