//! Tests whether the parts of a design are sound: nothing that they refer to is missing, no quantity is out
//! of range, and they keep the limits on size.
#![tactic(auto)]

mod check;
mod coupling;
mod given;
mod limits;
mod names;
mod net;
mod range;
mod sound;

pub use limits::reads_in_all;
pub use sound::is_sound;
