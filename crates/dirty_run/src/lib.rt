//! Whole runs of workers in threads of their own, over words with marks: a net is evaluated again only where something
//! that it reads moved.
#![tactic(auto)]

mod look;
mod notes;
mod round;
mod settling;
mod starting;
mod turn;
mod visit;
mod worker;

pub use settling::{settle_dirty, settle_dirty_in};
pub use starting::{settle_dirty_among, settle_dirty_from};
pub use worker::DirtyRoom;
