//! The window operator at one net: what the windows of all nets make of that net's window. Times and slews are
//! in fs, loads in aF.
#![tactic(auto)]

mod arc;
mod closing;
mod evaluation;
mod operator;
mod pin;
mod ranges;
mod reads;
mod tables;

pub use closing::{closed, closed_part, closed_part_grouped};
pub use operator::{eval, eval_grouped, eval_widest, eval_widest_grouped};
pub use reads::{ReadLists, read_lists};
