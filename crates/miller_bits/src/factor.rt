//! By which factors the coupling capacitors of a net count (Miller 1920), in quarters.

ghost use Rattle.std.specs.Prelude.{◌≡◌, ◌<◌, ◌≤◌, length, IfSome, IsSome};
ghost use Rattle.std.specs.List.{slice_get};
ghost use Rattle.xt_model.specs.Assign.{quads_of};
ghost use Rattle.xt_model.specs.Limits.{most_factor};
ghost use Rattle.xt_model.specs.Quads.{other_edge};
ghost use Rattle.xt_meaning.specs.Overlap.{overlaps, least_factor, greatest_factor, IsRealPeriod};
ghost use Rattle.miller_bits.specs.Actives.{IsActive};
ghost use Rattle.miller_bits.specs.Views.{HasEdge, HasNet, answers_of, coupling_at, least_by, greatest_by};

use crate::active::Active;
use xt_model::{Bounds, Design, Edge, Miller, NetId, window};

/// The least factor, by whether the aggressor can switch the same way at the same time.
fn least_factor(miller: Miller, overlaps: bool) -> u8
    ensures value { result ≡ least_by miller overlaps }
    ensures few { result ≤ most_factor }
{
    if overlaps { miller.low() } else { miller.mid() }
}

/// The greatest factor, by whether the aggressor can switch the other way at the same time.
fn greatest_factor(miller: Miller, overlaps: bool) -> u8
    ensures value { result ≡ greatest_by miller overlaps }
    ensures few { result ≤ most_factor }
{
    if overlaps {
        miller.high()
    } else {
        miller.mid()
    }
}

/// The clock period of a design in fs.
fn period(design: &Design) -> Option<i64>
    ensures value { result ≡ design.now.period }
    ensures least { IsRealPeriod result }
{
    design.period()
}

/// The factors of a coupling whose aggressor can switch either way at any time.
pub(crate) fn widest_factors(miller: Miller) -> (u8, u8)
    ensures least { result.0 ≡ miller.low }
    ensures greatest { result.1 ≡ miller.high }
    ensures few_least { result.0 ≤ most_factor }
    ensures few_greatest { result.1 ≤ most_factor }
{
    (least_factor(miller, true), greatest_factor(miller, true))
}

/// The factors of a coupling to an aggressor, of an edge with this window. Where the edge never switches, it looks at
/// no other window.
#[inline(always)]
pub(crate) fn factors_of<V: Bounds>(
    design: &Design,
    own: &Active,
    edge: Edge,
    view: &V,
    aggressor: NetId,
) -> (u8, u8)
    requires own { IsActive own.now }
    requires words { HasNet (V.has view.now) aggressor.0 }
    ensures least { let other = quads_of (V.bound_of view.now) aggressor.0 edge in
        result.0 ≡ least_by design.now.miller (overlaps design.now.period own.now.window other) }
    ensures greatest { let other = quads_of (V.bound_of view.now) aggressor.0 (other_edge edge) in
        result.1 ≡ greatest_by design.now.miller (overlaps design.now.period own.now.window other) }
    ensures few_least { result.0 ≤ most_factor }
    ensures few_greatest { result.1 ≤ most_factor }
{
    let miller = design.miller();
    if !own.live {
        return (least_factor(miller, false), greatest_factor(miller, false));
    }
    let period = period(design);
    let same_way = own.overlaps(&window(view, aggressor, edge), period);
    let other_way = own.overlaps(&window(view, aggressor, edge.other()), period);
    (
        least_factor(miller, same_way),
        greatest_factor(miller, other_way),
    )
}

/// The least and the greatest factor, in quarters, by which the coupling of this number of a net counts at an
/// edge, by the windows of the view and the design's Miller numbers: the low one at least where the aggressor's
/// same edge overlaps, the high one at most where its other edge does, and else the middle one.
pub fn factors<V: Bounds>(
    design: &Design,
    view: &V,
    net: NetId,
    edge: Edge,
    coupling: usize,
) -> (u8, u8)
    requires net { net.0 < length design.now.nets }
    requires coupling { IsSome (coupling_at (slice_get design.now.nets net.0) coupling) }
    requires words { HasEdge (V.has view.now) net.0 edge }
    requires aggressor { IfSome
        (coupling_at (slice_get design.now.nets net.0) coupling)
        (λ k. HasNet (V.has view.now) k.to.0) }
    ensures least { let b = answers_of design.now (V.bound_of view.now) in
        IfSome
        (coupling_at (slice_get design.now.nets net.0) coupling)
        (λ k. result.0 ≡ least_factor design.now.miller b net.0 edge k) }
    ensures greatest { let b = answers_of design.now (V.bound_of view.now) in
        IfSome
        (coupling_at (slice_get design.now.nets net.0) coupling)
        (λ k. result.1 ≡ greatest_factor design.now.miller b net.0 edge k) }
{
    let victim = design.net(net.0 as usize);
    let own = Active::of(window(view, net, edge));
    let aggressor = victim.couplings.as_slice()[coupling].to;
    factors_of(design, &own, edge, view, aggressor)
}
