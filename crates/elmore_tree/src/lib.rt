//! The Elmore form of a wire: sums of products of the resistance that two paths share and a capacitance.
//! Resistances are in milliohms, capacitances in aF, delays in fs.
#![tactic(auto)]

mod elmore;
mod fault;
mod form;
mod order;
mod part;
mod reached;
mod sums;
mod tree;
mod walk;

pub use elmore::{check, coefficients};
pub use fault::TreeFault;
pub use form::{SinkForm, WireForm};
pub use part::{Resistor, Tap};
pub use tree::Tree;
