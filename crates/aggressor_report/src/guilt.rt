//! What an aggressor can do to an edge of a victim.

ghost use Rattle.std.specs.Prelude.{◌≡◌, ◌<◌, length};
ghost use Rattle.aggressor_report.specs.Guilt.{mark_of, entry_of, is_guilty};

use crate::mark::Mark;
use crate::window::window_at;
use miller_bits::overlap;
use xt_model::{Coupling, Design, Edge, NetId, Windows};

/// What the aggressor of a coupling can do to an edge of the victim: speed it up, or slow it down. The
/// coupling has this number in the victim's list.
#[derive(Clone, Copy, Debug, PartialEq, Eq)]
pub struct Guilt {
    pub victim: NetId,
    pub edge: Edge,
    pub coupling: u32,
    pub fast: Mark,
    pub slow: Mark,
}

/// The mark of an edge of a victim and an edge of an aggressor. Where the least windows overlap, the greatest are not
/// looked at.
#[inline(always)]
fn mark(
    design: &Design,
    low: &Windows,
    high: &Windows,
    victim: NetId,
    edge: Edge,
    aggressor: NetId,
    aggressor_edge: Edge,
) -> Mark
    requires low { length low.now ≡ length design.now.nets }
    requires high { length high.now ≡ length design.now.nets }
    requires victim { victim.0 < length design.now.nets }
    requires aggressor { aggressor.0 < length design.now.nets }
    ensures { result ≡ mark_of design.now low.now high.now victim.0 edge aggressor.0 aggressor_edge }
{
    let period = design.period();
    if overlap(
        &window_at(low, victim, edge),
        &window_at(low, aggressor, aggressor_edge),
        period,
    ) {
        return Mark::Sure;
    }
    if overlap(
        &window_at(high, victim, edge),
        &window_at(high, aggressor, aggressor_edge),
        period,
    ) {
        return Mark::Possible;
    }
    Mark::No
}

impl Guilt {
    /// The entry of an edge of the victim and its coupling of this number.
    #[inline(always)]
    pub(crate) fn new(
        design: &Design,
        low: &Windows,
        high: &Windows,
        victim: NetId,
        edge: Edge,
        number: u32,
        coupling: &Coupling,
    ) -> Guilt
        requires low { length low.now ≡ length design.now.nets }
        requires high { length high.now ≡ length design.now.nets }
        requires victim { victim.0 < length design.now.nets }
        requires aggressor { coupling.now.to.0 < length design.now.nets }
        ensures { result ≡ entry_of design.now low.now high.now victim edge number coupling.now }
    {
        Guilt {
            victim,
            edge,
            coupling: number,
            fast: mark(design, low, high, victim, edge, coupling.to, edge),
            slow: mark(design, low, high, victim, edge, coupling.to, edge.other()),
        }
    }

    /// Whether the aggressor can do something to the edge.
    #[inline(always)]
    pub(crate) fn is_guilty(&self) -> bool
        ensures { result ≡ is_guilty self.now }
    {
        !(self.fast.is_no() && self.slow.is_no())
    }
}
