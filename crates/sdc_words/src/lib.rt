//! The words of SDC texts: from the bytes of a text to its commands.
#![tactic(auto)]

mod commands;
mod items;
mod part;
mod partial;
mod word;

pub use commands::{Command, Commands};
pub use items::first_item;
pub use word::{NameList, Word};
