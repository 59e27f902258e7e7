//! When the transitions of a net reach its sinks, and how fast they are there. Times and slews are in fs.
#![tactic(auto)]

mod sink;

pub use sink::{SinkWindow, at_sink};
