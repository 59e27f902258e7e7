//! The text report of a design and its least and greatest windows.
#![tactic(auto)]

mod checked;
mod checks;
mod edge_windows;
mod fields;
mod guilty;
mod laws;
mod noise;
mod paths;
mod points;
mod report;
mod sections;
mod size;
mod summary;
mod tally;
mod unconstrained;
mod windows;
mod worst;

pub use laws::{
    a_depth_is_unique, a_report_is_unique, a_summary_is_unique, what_is_checked_is_unique,
};
pub use report::write_report;
pub use report_kind::ReportKind;
pub use summary::{write_summary, write_summary_by};
