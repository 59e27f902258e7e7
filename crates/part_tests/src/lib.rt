//! Tests of parts at the bottom: files and sinks, tables, overlap, the envelope, soundness of parts.
//! No crate depends on this one.
#![tactic(auto)]

#[cfg(test)]
mod files;
#[cfg(test)]
mod overlap;
#[cfg(test)]
mod rows;
#[cfg(test)]
mod sound;
#[cfg(test)]
mod tables;
#[cfg(test)]
mod widest;
