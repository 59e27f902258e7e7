//! Tests of linked texts: which are read, and what the others are refused by. No crate depends on this one.
#![tactic(auto)]

#[cfg(test)]
mod answer;
#[cfg(test)]
mod lines;
#[cfg(test)]
mod reads;
#[cfg(test)]
mod texts;
#[cfg(test)]
mod whole;
