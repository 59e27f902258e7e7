//! Tests of the top call, and of the edge of the program: words, texts, limits and faults, over files and streams in
//! memory. No crate depends on this one.
#![tactic(auto)]

#[cfg(test)]
mod call;
#[cfg(test)]
mod checks;
#[cfg(test)]
mod designs;
#[cfg(test)]
mod eco;
#[cfg(test)]
mod edge;
#[cfg(test)]
mod edits;
#[cfg(test)]
mod gated;
#[cfg(test)]
mod generated;
#[cfg(test)]
mod large;
#[cfg(test)]
mod limits;
#[cfg(test)]
mod miller;
#[cfg(test)]
mod noise;
#[cfg(test)]
mod outside;
#[cfg(test)]
mod patterns;
#[cfg(test)]
mod refused_texts;
#[cfg(test)]
mod solving;
#[cfg(test)]
mod words;
