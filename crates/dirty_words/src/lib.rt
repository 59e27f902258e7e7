//! Words that hold the bounds of windows, with a mark for each net that may have to be evaluated again: a net is
//! evaluated again only where something that it reads moved. Each step of a worker is one step on one word, under a
//! rule that every step keeps.
#![tactic(auto)]

mod board;
mod reader_lists;
mod reversing;
mod rule;
mod view;

pub use board::{DirtyBoard, DirtyPass};
pub use reader_lists::Readers;
pub use reversing::readers;
pub use view::{DirtyView, Flight};
