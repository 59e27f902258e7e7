//! The units, the templates and the tables of a Liberty library (Liberty reference manual), by the groups of its text.
#![tactic(auto)]

mod axis;
mod contents;
mod items;
mod name;
mod numbers;
mod refusal;
mod search;
mod table;
mod template;
mod units;

pub use axis::{Axes, Axis, Index, Side, Variable};
pub use contents::{content, only, text_in};
pub use items::first_item;
pub use name::only_name;
pub use numbers::Numbers;
pub use search::{attribute, first_named, has_group, is_group};
pub use table::table_of;
pub use template::{Template, templates_of};
pub use units::{Scales, units_of};
