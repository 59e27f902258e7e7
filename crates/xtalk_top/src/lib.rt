//! The top call: it makes the text that the words of a command line ask for, of the files that they name.
#![tactic(auto)]

mod counted;
mod design_report;
mod eco;
mod edit_lines;
mod edit_refusal;
mod edits;
mod generated;
mod input;
mod link;
mod replay;
mod report;
mod runs;
mod solution;
mod solve;
mod text_report;
mod top;
mod warm_run;

pub use call_meaning::{calls_agree, one_outcome_is_meant, workers_change_nothing};
pub use command_line::{
    BlockFiles, EcoJob, Engine, FileName, GenJob, Job, LinkJob, ReplayJob, ReportJob, SolveJob,
    WordsFault, parse_words,
};
pub use top::{xtalk, xtalk_gated};
pub use warm_run::warm;
