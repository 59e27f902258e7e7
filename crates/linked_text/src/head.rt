//! What the lines at the front of a text say, and the lines of the nets.

use xt_model::Name;

/// How many tables, nets and checks there are.
#[derive(Clone, Copy)]
pub struct Counts {
    pub tables: u32,
    pub nets: u32,
    pub checks: u32,
}

/// The head of a net: its name, whether it is an input port, its load in aF, and how many couplings, sinks
/// and arcs it has.
#[derive(Drop)]
pub struct NetHead {
    pub name: Name,
    pub input: bool,
    pub load: i64,
    pub couplings: u32,
    pub sinks: u32,
    pub arcs: u32,
}

/// How many couplings, coefficients and arcs some nets have in all.
#[derive(Clone, Copy)]
pub struct Sums {
    pub couplings: u128,
    pub coefficients: u128,
    pub arcs: u128,
}
