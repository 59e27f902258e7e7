//! What linking means: the nets, arcs, checks and wires that a library, a netlist, parasitics and constraints make
//! together, and what is refused. Definitions, and the faults that they speak of.
#![tactic(auto)]

mod circuit;
mod fault;

pub use circuit::{Circuit, End, NetDriver, NetPins, Sink};
pub use fault::{LinkFault, LinkRefusal};
