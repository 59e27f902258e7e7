//! What the aggressors of a net can do together.

use xt_model::{Edge, NetId};

/// The greatest sum of coupling capacitors of a net, in aF, whose aggressors can have this edge under way at one
/// moment, and the first such moment in fs: in a design with a clock period the first from 0 on, within one period.
/// `ppm` is the sum as a part of the load of the net and all its couplings, in millionths of the supply, rounded down:
/// the step of voltage that charge sharing gives a net that nothing holds.
#[derive(Clone, Copy, Debug, PartialEq, Eq)]
pub struct Peak {
    pub victim: NetId,
    pub edge: Edge,
    pub sum: i64,
    pub moment: i64,
    pub ppm: u32,
}
