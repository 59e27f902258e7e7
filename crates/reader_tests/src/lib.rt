//! Tests of the readers of Liberty, Verilog, SPEF and SDC, of the tokens, numbers and names that they depend on, and of
//! the flat netlist of several modules: short texts, and what they mean or why they are refused. No crate depends on
//! this one.
#![tactic(auto)]

#[cfg(test)]
mod flat;
#[cfg(test)]
mod groups;
#[cfg(test)]
mod liberty;
#[cfg(test)]
mod names;
#[cfg(test)]
mod numbers;
#[cfg(test)]
mod rows;
#[cfg(test)]
mod sdc;
#[cfg(test)]
mod spef;
#[cfg(test)]
mod tokens;
#[cfg(test)]
mod verilog;
#[cfg(test)]
mod words;
