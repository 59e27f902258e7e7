use crate::edge::Edge;
use crate::given::GivenPair;
use crate::name::Name;
use crate::row::Row;

/// The number of a net of a design.
#[derive(Clone, Copy, Debug, PartialEq, Eq, PartialOrd, Ord, Hash)]
pub struct NetId(pub u32);

/// A coupling capacitor of a net, in aF, to another net.
#[derive(Clone, Copy, Debug, PartialEq, Eq)]
pub struct Coupling {
    pub to: NetId,
    pub cap: i64,
}

/// A pin that a net drives. Its Elmore delay is linear in the Miller factors of the net's couplings:
/// `base` plus a factor times a coefficient for each coupling, in milliohms times attofarads.
#[derive(Debug, Drop)]
pub struct SinkPin {
    pub name: Name,
    pub base: i128,
    pub coefs: Row<i128>,
}

/// A timing arc into a net: from a sink of the net `from` and an edge there to an edge here, with the
/// numbers of its delay table and its slew table.
#[derive(Clone, Copy, Debug, PartialEq, Eq)]
pub struct TimingArc {
    pub from: NetId,
    pub sink: u32,
    pub input: Edge,
    pub output: Edge,
    pub delay: u32,
    pub slew: u32,
}

/// A net: its load to ground in aF, its couplings, the pins that it drives and the arcs that drive it.
/// A source has no arcs, and `given` constrains it; what a net with arcs is given is bottom. `input` tells
/// an input port.
#[derive(Debug, Drop)]
pub struct Net {
    pub name: Name,
    pub input: bool,
    pub load: i64,
    pub given: GivenPair,
    pub couplings: Row<Coupling>,
    pub sinks: Row<SinkPin>,
    pub arcs: Row<TimingArc>,
}
