//! Whole runs of workers in threads of their own, over words that they share.
#![tactic(auto)]

mod both;
mod look;
mod marks;
mod round;
mod settling;
mod workers;

pub use both::{Both, run_both, settle_from, settle_from_in};
pub use settling::{settle, settle_in};
pub use workers::RunRoom;
