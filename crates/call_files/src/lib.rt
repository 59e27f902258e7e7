//! The files of a call: the bytes of each, and the design that the four files of a block make.
#![tactic(auto)]

mod block;
mod input;

pub use block::read_block;
pub use input::read_file;
