//! Laws of netlists of several modules: a flat netlist connects bits alone, and a text of one module is its own flat
//! netlist.
#![tactic(auto)]

mod laws;

pub use laws::{
    flat_netlists_connect_bits, modules_mean_one_thing, one_module_is_itself,
    other_refusals_are_same,
};
