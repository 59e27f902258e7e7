//! Laws of all runs: how many rounds one can take, and that no set of transitions that explain one another leaves the
//! greatest windows.
#![tactic(auto)]

mod laws;

pub use laws::{
    chains_are_short, consistent_lie_within_envelope, consistent_lie_within_greatest,
    operator_keeps_consistent,
};
