//! Numbers drawn one after another from a source that starts at a given number.
#![tactic(auto)]

mod source;

pub use source::Source;
