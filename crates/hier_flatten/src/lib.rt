//! Netlists of several modules: from the modules of a text to one flat netlist.
#![tactic(auto)]

mod alone;
mod below;
mod build;
mod circle;
mod counting;
mod fault;
mod fits;
mod flat;
mod growing;
mod index;
mod names;
mod places;
mod plain;
mod stack;
mod tables;
mod tally;
mod tops;
mod totals;
mod wires;

pub use alone::lone_module;
pub use fault::FlatFault;
pub use flat::flatten;
