//! Tests of the commands on the four files of a block: what they link to, their report, and what is refused. No crate
//! depends on this one.
#![tactic(auto)]

#[cfg(test)]
mod block;
#[cfg(test)]
mod call;
#[cfg(test)]
mod cuts;
#[cfg(test)]
mod designs;
#[cfg(test)]
mod faults;
#[cfg(test)]
mod gated;
#[cfg(test)]
mod half;
#[cfg(test)]
mod limits;
#[cfg(test)]
mod linking;
#[cfg(test)]
mod refused;
#[cfg(test)]
mod reports;
#[cfg(test)]
mod small;
