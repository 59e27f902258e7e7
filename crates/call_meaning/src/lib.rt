//! What a call means: the text or the refusal that the words of a command line and the files that they name come to,
//! and why a call has no text. Definitions, their laws, and the failures that they speak of.
#![tactic(auto)]

mod laws;
mod refusal;

pub use laws::{calls_agree, one_outcome_is_meant, workers_change_nothing};
pub use refusal::{
    DesignRefusal, Failure, FileRefusal, PassedLimit, Refusal, Stop, TextRefusal, Unlinked,
};
