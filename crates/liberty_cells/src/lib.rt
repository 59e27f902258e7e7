//! What a Liberty text means (Liberty reference manual): the units, tables, cells, pins and timing groups of a library.
#![tactic(auto)]

mod cell;
mod cell_pins;
mod cells;
mod kinds;
mod library;
mod library_text;
mod names;
mod pin;
mod pins;
mod reading;
mod related;
mod timing;
mod timings;
mod values;

pub use cell::Cell;
pub use cell_pins::CellPins;
pub use library::Library;
pub use pin::{Pin, Role};
pub use reading::read_library;
pub use related::{NamesLeft, RelatedNames};
pub use timing::{Sense, Timing, TimingKind};
