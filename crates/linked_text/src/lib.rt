//! Linked texts: the parts of a design as lines of words and decimal numbers, read and
//! written byte for byte.
#![tactic(auto)]

mod bodies;
mod checks;
mod design;
mod fault;
mod field;
mod head;
mod head_lines;
mod heads;
mod laws;
mod line;
mod net_lines;
mod parts;
mod read_line;
mod scan;
mod table_lines;
mod tables;
mod write;
mod write_check;
mod write_net;
mod write_table;
mod writer;

pub use design::{has_numbered_lines, read_linked, read_linked_text};
pub use fault::LinkedFault;
pub use field::quantity;
pub use laws::{lines_are_counted, sound_texts_differ, texts_are_of_designs, texts_mean_one};
pub use line::{four, three};
pub use write::write_linked;
