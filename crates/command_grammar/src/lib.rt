//! The words after a command's own, by the command's rule: which of them `clap` takes, and what it finds in them.
#![tactic(auto)]

mod grammar;

pub use grammar::{CommandRule, WordsFault, read};
