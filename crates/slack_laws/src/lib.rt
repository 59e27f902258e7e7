//! Laws that go on from transitions to what is reported: what transitions that explain one another leave at checks,
//! which of them meet at coupled nets, and how much of a net's coupling capacitance they switch at one moment.
#![tactic(auto)]

mod laws;

pub use laws::{consistent_keep_checks, marks_of_meetings, switching_has_peaks};
