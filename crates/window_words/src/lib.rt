//! Words that hold the bounds of windows, for workers in threads of their own: each of their steps is one step on one
//! word, under a rule that every step keeps.
#![tactic(auto)]

mod board;
mod rule;
mod seated;
mod view;

pub use board::{Pass, SharedBoard};
pub use seated::Seated;
pub use view::{Role, View};
