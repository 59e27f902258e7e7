//! Tests of runs, of words that threads share, and of what is found in the windows of a design: over designs that
//! linked texts give, and over generated ones.
//! No crate depends on this one.
#![tactic(auto)]

#[cfg(test)]
mod findings;
#[cfg(test)]
mod large;
#[cfg(test)]
mod marks;
#[cfg(test)]
mod orders;
#[cfg(test)]
mod passes;
#[cfg(test)]
mod starts;
#[cfg(test)]
mod texts;
#[cfg(test)]
mod threads;
#[cfg(test)]
mod torn;
