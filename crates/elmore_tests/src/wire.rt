//! Wires of the tests.

use crate::sound::is_sound;
use elmore_tree::{Resistor, Tap, Tree, TreeFault, WireForm, coefficients};
use std::alloc::{AllocError, Global};

/// A wire with its root at node 0: the capacitance to ground of each node, resistors as two nodes and a value, taps as
/// a node and a capacitance, and the node of each sink.
pub struct Wire {
    pub ground: &'static [i64],
    pub resistors: &'static [(u32, u32, i64)],
    pub taps: &'static [(u32, i64)],
    pub sinks: &'static [u32],
}

/// A wire with its root at node 0, if one may be made of these parts.
pub fn made(
    ground: Vec<i64>,
    resistors: Vec<Resistor>,
    taps: Vec<Tap>,
    sinks: Vec<u32>,
) -> Option<Tree> {
    if !is_sound(&ground, &resistors, &taps, &sinks) {
        return None;
    }
    Some(Tree::new(ground.len() as u32, 0, resistors, ground, taps, sinks))
}

/// The resistors of these nodes and values.
fn resistors(alloc: Global, rows: &[(u32, u32, i64)]) -> Result<Vec<Resistor>, AllocError> {
    let mut resistors = Vec::new(alloc);
    for (a, b, value) in rows {
        resistors.push(Resistor {
            a: *a,
            b: *b,
            value: *value,
        })?;
    }
    Ok(resistors)
}

/// The taps of these nodes and capacitances.
fn taps(alloc: Global, rows: &[(u32, i64)]) -> Result<Vec<Tap>, AllocError> {
    let mut taps = Vec::new(alloc);
    for (node, cap) in rows {
        taps.push(Tap {
            node: *node,
            cap: *cap,
        })?;
    }
    Ok(taps)
}

/// The form of a wire, or why there is none.
pub fn form_of(alloc: Global, wire: &Wire) -> Result<WireForm, TreeFault> {
    let ground = wire.ground.to_vec(alloc)?;
    let resistors = resistors(alloc, wire.resistors)?;
    let taps = taps(alloc, wire.taps)?;
    let sinks = wire.sinks.to_vec(alloc)?;
    match made(ground, resistors, taps, sinks) {
        Some(tree) => coefficients(alloc, &tree),
        None => Err(TreeFault::NoMemory),
    }
}
