//! Names of which many begin alike: the bytes with which they begin are kept once.
#![tactic(auto)]

mod by_parts;
mod owned;
mod parts;
mod prefix;
mod table;

pub use by_parts::ByParts;
pub use owned::{KeptName, PrefixedName};
pub use parts::NameParts;
pub use prefix::Prefix;
pub use table::PrefixedTable;
