//! Paths through a design.

use xt_model::{Edge, NetId, Row};

/// A step of a path: over the wire from the net before it to an input of a cell, and through the cell to an edge of
/// this net. `arc` is the number of the arc in the net's list, `wire` and `delay` are the delays of the two in fs.
#[derive(Clone, Copy, Debug, PartialEq, Eq)]
pub struct PathStep {
    pub net: NetId,
    pub edge: Edge,
    pub arc: u32,
    pub wire: i64,
    pub delay: i64,
}

/// A path from an edge of a source, which switches at `time` in fs, over these steps in order.
#[derive(Debug, Drop)]
pub struct Path {
    pub net: NetId,
    pub edge: Edge,
    pub time: i64,
    pub steps: Row<PathStep>,
}
