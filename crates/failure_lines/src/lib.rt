//! The exit status of a failure, and its line on the error stream.
#![tactic(auto)]

mod line;

pub use line::refuse;
