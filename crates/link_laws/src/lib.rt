//! The law of `link` and `solve` together: what `solve` means of a text that `link` printed is what `report` means of
//! the same four files.
#![tactic(auto)]

mod laws;

pub use laws::solve_after_link_is_report;
