//! The kinds of a report, and the word of each.
#![tactic(auto)]

mod kind;

pub use kind::ReportKind;
