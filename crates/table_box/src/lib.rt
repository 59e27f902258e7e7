//! Values of look-up tables, and their exact ranges over boxes of slews and loads.
#![tactic(auto)]

mod cell;
mod corners;
mod groups;
mod lines;
mod monotone;
mod pair;
mod place;
mod ranges;
mod segment;
mod stretch;
mod values;

pub use groups::table_groups;
pub use pair::TablePair;
pub use ranges::range;
pub use values::at;
