ghost use Rattle.std.specs.Prelude.{◌↔◌, IsTrue};
ghost use Rattle.xt_model.specs.Sound.{IsConstraint, IsGiven, IsSlew, IsTime, LeavesGiven};

use crate::range::{is_slew, is_time};
use xt_model::{Pair, Quad, TimingArc};

/// Whether the times of the window are in range.
fn has_times(quad: &Quad) -> bool
    ensures { IsTrue result ↔ (IsTime quad.now.tlo × IsTime quad.now.thi) }
{
    is_time(quad.tlo) && is_time(quad.thi)
}

/// Whether the slews of the window are in range.
fn has_slews(quad: &Quad) -> bool
    ensures { IsTrue result ↔ (IsSlew quad.now.slo × IsSlew quad.now.shi) }
{
    is_slew(quad.slo) && is_slew(quad.shi)
}

/// Whether the window is live, with times and slews in their ranges.
fn is_constraint(quad: &Quad) -> bool
    ensures { IsTrue result ↔ IsConstraint quad.now }
{
    quad.live() && has_times(quad) && has_slews(quad)
}

/// Whether the window may be given for an edge of a source: it never switches, or is a constraint.
fn is_given(quad: &Quad) -> bool
    ensures { IsTrue result ↔ IsGiven quad.now }
{
    quad.same(&Quad::bottom()) || is_constraint(quad)
}

/// Whether a net with these arcs is given nothing, which a source may be.
fn leaves_given(given: &Pair, arcs: &[TimingArc]) -> bool
    ensures { IsTrue result ↔ LeavesGiven given.now arcs.now }
{
    arcs.is_empty() || (given.rise.same(&Quad::bottom()) && given.fall.same(&Quad::bottom()))
}

/// Whether a net with these arcs may be given the windows.
pub(crate) fn is_sound_given(given: &Pair, arcs: &[TimingArc]) -> bool
    ensures { IsTrue result ↔ (IsGiven given.now.rise × IsGiven given.now.fall × LeavesGiven given.now arcs.now) }
{
    is_given(&given.rise) && is_given(&given.fall) && leaves_given(given, arcs)
}
