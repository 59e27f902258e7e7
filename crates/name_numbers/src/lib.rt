//! Names and their numbers, in the order in which the names were first seen, and values by name.
#![tactic(auto)]

mod bytes;
mod key;
mod names;
mod table;

pub use bytes::write_eights;
pub use key::TextKey;
pub use names::{Named, Names};
pub use table::NameTable;
