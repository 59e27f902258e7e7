//! The words of the command line, and the job that they ask for.
#![tactic(auto)]

mod file_name;
mod values;
mod words;

pub use command_grammar::WordsFault;
pub use file_name::FileName;
pub use values::Engine;
pub use words::{
    BlockFiles, EcoJob, GenJob, Job, LinkJob, ReplayJob, ReportJob, SolveJob, parse_words,
};
