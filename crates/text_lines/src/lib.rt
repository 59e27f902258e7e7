//! Texts as lines of fields, and the fields and lines that several texts have.
#![tactic(auto)]

mod fields;
mod miller;
mod words;

pub use fields::{push_bare_number, push_number, push_word};
pub use miller::push_miller;
pub use words::{check_word, edge_word};
