//! The forms of SDC commands: from the words of a command to what it says.
#![tactic(auto)]

mod arranged;
mod command;
mod option;
mod picked;
mod slot;
mod statement;
mod units;

pub use picked::Picked;
pub use slot::text_in;
pub use statement::{Statement, statement_of_words};
