//! The groups of a Liberty text (Liberty reference manual): a library, its groups within groups, and their attributes.
#![tactic(auto)]

mod attributes;
mod building;
mod context;
mod forms;
mod group;
mod item;
mod reading;
mod sort;
mod span;
mod values;

pub use forms::MOST_OPEN;
pub use group::{Attribute, Group};
pub use reading::read_groups;
pub use span::Span;
pub use values::Values;
