//! Tests of the Elmore form of a wire, by wires whose sums were worked out by hand. No crate depends on this one.
#![tactic(auto)]

#[cfg(test)]
mod sound;
#[cfg(test)]
mod sums;
#[cfg(test)]
mod wire;
