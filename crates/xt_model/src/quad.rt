ghost use Rattle.std.specs.Prelude.{◌≡◌, ◌↔◌, ◌≤ℤ◌, IsTrue};
ghost use Rattle.xt_model.specs.Quads.{bottom, is_live, IsWithin, join_of, meet_of, quad_at};

use crate::edge::Edge;
use crate::limits::TOP_BOUND;

/// The window of one edge of one net: the earliest and latest time of its transition at the driver's
/// output in fs, and the least and greatest slew of it in fs.
#[derive(Clone, Copy, Debug, PartialEq, Eq)]
pub struct Quad {
    pub tlo: i64,
    pub thi: i64,
    pub slo: i64,
    pub shi: i64,
}

/// The windows of the two edges of one net.
#[derive(Clone, Copy, Debug, PartialEq, Eq)]
pub struct Pair {
    pub rise: Quad,
    pub fall: Quad,
}

/// Whether the range from `low` to `high` has no end outside that from `outer_low` to `outer_high`.
fn is_inside(low: i64, high: i64, outer_low: i64, outer_high: i64) -> bool
    ensures { IsTrue result ↔ ((outer_low ≤ℤ low) × (high ≤ℤ outer_high)) }
{
    outer_low <= low && high <= outer_high
}

impl Quad {
    /// The window of an edge that never switches; it lies within every window with bounds up to 2^62.
    pub const BOTTOM: Quad = Quad {
        tlo: TOP_BOUND,
        thi: -TOP_BOUND,
        slo: TOP_BOUND,
        shi: -TOP_BOUND,
    };

    /// `Quad::BOTTOM`.
    pub fn bottom() -> Quad
        ensures { result ≡ bottom }
    {
        Quad::BOTTOM
    }

    /// Whether the edge can switch at all.
    pub fn live(&self) -> bool
        ensures { result ≡ is_live self.now }
    {
        self.tlo <= self.thi && self.slo <= self.shi
    }

    /// Whether no bound of this window lies outside those of `other`.
    pub fn within(&self, other: &Quad) -> bool
        ensures { IsTrue result ↔ IsWithin self.now other.now }
    {
        is_inside(self.tlo, self.thi, other.tlo, other.thi)
            && is_inside(self.slo, self.shi, other.slo, other.shi)
    }

    /// The least window that both lie within.
    pub fn join(&self, other: &Quad) -> Quad
        ensures { result ≡ join_of self.now other.now }
    {
        Quad {
            tlo: self.tlo.min(other.tlo),
            thi: self.thi.max(other.thi),
            slo: self.slo.min(other.slo),
            shi: self.shi.max(other.shi),
        }
    }

    /// The greatest window that lies within both.
    pub fn meet(&self, other: &Quad) -> Quad
        ensures { result ≡ meet_of self.now other.now }
    {
        Quad {
            tlo: self.tlo.max(other.tlo),
            thi: self.thi.min(other.thi),
            slo: self.slo.max(other.slo),
            shi: self.shi.min(other.shi),
        }
    }

    /// Whether the two are the same window.
    pub fn same(&self, other: &Quad) -> bool
        ensures { IsTrue result ↔ (self.now ≡ other.now) }
    {
        self.tlo == other.tlo
            && self.thi == other.thi
            && self.slo == other.slo
            && self.shi == other.shi
    }
}

impl Pair {
    /// The window of one of the edges.
    pub fn at(&self, edge: Edge) -> Quad
        ensures { result ≡ quad_at self.now edge }
    {
        match edge {
            Edge::Rise => self.rise,
            Edge::Fall => self.fall,
        }
    }

    /// Whether the two are the same windows.
    pub fn same(&self, other: &Pair) -> bool
        ensures { IsTrue result ↔ (self.now ≡ other.now) }
    {
        self.rise.same(&other.rise) && self.fall.same(&other.fall)
    }
}
