//! Glitch noise: how much of the coupling capacitance of a quiet net can switch at one moment, and the first moment at
//! which it is most. Times are in fs, capacitances in aF.
#![tactic(auto)]

mod change;
mod changes;
mod laws;
mod peak;
mod peaks;
mod shares;
mod sweep;

pub use laws::{an_answer_decides, peaks_are_unique};
pub use peak::Peak;
pub use peaks::noise;
pub use shares::share;
