//! Slacks: how early data is for the places where it has to be in time. Times and slews are in fs.
#![tactic(auto)]

mod check;
mod kinds;
mod laws;
mod margin;
mod point;
mod sinks;
mod slack;

pub use kinds::worst;
pub use laws::a_worst_check_is_unique;
pub use point::{DataSink, data_sink, is_hold, point_name};
pub use slack::{Slack, slacks};
