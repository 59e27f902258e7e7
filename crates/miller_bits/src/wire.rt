ghost use Rattle.std.specs.Prelude.{◌≡◌, ◌<◌, ◌≤◌, ◌*◌, ◌^◌, length, Some, pos, ◌+ℤ◌, ◌≤ℤ◌, ◌*ℤ◌};
ghost use Rattle.std.specs.List.{slice_get};
ghost use Rattle.xt_model.specs.Limits.{most_couplings, most_factor};
ghost use Rattle.xt_model.specs.Sound.{HasSink, IsProduct, IsSoundSink};
ghost use Rattle.xt_meaning.specs.Wires.{elmore_delay, product_sum, wire_delay};
ghost use Rattle.xt_meaning.specs.Operator.{wire_range};
ghost use Rattle.miller_bits.specs.Ranges.{IsRangeOfDelays, IsRangeOfProducts};
ghost use Rattle.miller_bits.specs.Views.{HasVictim, answers_of};

use crate::overlaps::Overlaps;
use crate::victim::Victim;
use xt_model::{Bounds, Design, Edge, NetId, SinkPin};

/// A coefficient in milliohms times attofarads, times a factor in quarters.
fn scaled(factor: u8, coef: i128) -> i128
    requires factor { factor ≤ most_factor }
    requires coef { IsProduct coef }
    ensures value { result ≡ pos factor *ℤ coef }
    ensures low { pos 0 ≤ℤ result }
    ensures high { result ≤ℤ pos (12 * 2 ^ 102) }
{
    i128::from(factor) * coef
}

/// The base of a sink in quarters of a milliohm times an attofarad.
fn in_quarters(base: i128) -> i128
    requires { IsProduct base }
    ensures value { result ≡ pos 4 *ℤ base }
    ensures low { pos 0 ≤ℤ result }
    ensures high { result ≤ℤ pos (2 ^ 104) }
{
    4 * base
}

/// The delay in fs of a sum in quarters of a milliohm times an attofarad, by 64 bits where the sum fits.
fn elmore_delay(quarters: i128) -> i128
    ensures { result ≡ elmore_delay quarters }
{
    if let Ok(quarters) = i64::try_from(quarters) {
        return i128::from(quarters.div_euclid(4_000_000));
    }
    quarters.div_euclid(4_000_000)
}

/// At two edges of one net, the base of a sink, and of each coupling its least and its greatest factor times the sink's
/// coefficient, summed, in quarters.
#[inline(always)]
fn product_sums<'a, V: Bounds>(
    a: &Victim<'a, V>,
    b: &Victim<'a, V>,
    sink: &SinkPin,
) -> ((i128, i128), (i128, i128))
    requires net { b.now.net ≡ a.now.net }
    requires few { length a.now.net.couplings ≤ most_couplings }
    requires sink { IsSoundSink (length a.now.net.couplings) sink.now }
    ensures a_least { result.0.0 ≡ (pos 4 *ℤ sink.now.base) +ℤ product_sum a.now.least sink.now.coefs }
    ensures a_greatest { result.0.1 ≡ (pos 4 *ℤ sink.now.base) +ℤ product_sum a.now.greatest sink.now.coefs }
    ensures b_least { result.1.0 ≡ (pos 4 *ℤ sink.now.base) +ℤ product_sum b.now.least sink.now.coefs }
    ensures b_greatest { result.1.1 ≡ (pos 4 *ℤ sink.now.base) +ℤ product_sum b.now.greatest sink.now.coefs }
    ensures a_range { IsRangeOfProducts result.0 }
    ensures b_range { IsRangeOfProducts result.1 }
{
    let base = in_quarters(sink.base);
    let mut a_least = base;
    let mut a_greatest = base;
    let mut b_least = base;
    let mut b_greatest = base;
    for (index, coef) in sink.coefs.as_slice().iter().enumerate() {
        let (a_low, a_high) = a.factors(index);
        let (b_low, b_high) = b.factors(index);
        a_least += scaled(a_low, *coef);
        a_greatest += scaled(a_high, *coef);
        b_least += scaled(b_low, *coef);
        b_greatest += scaled(b_high, *coef);
    }
    ((a_least, a_greatest), (b_least, b_greatest))
}

/// The least and the greatest delay in fs of two sums in quarters of a milliohm times an attofarad.
fn delays_of(quarters: (i128, i128)) -> (i128, i128)
    requires { IsRangeOfProducts quarters }
    ensures least { result.0 ≡ elmore_delay quarters.0 }
    ensures greatest { result.1 ≡ elmore_delay quarters.1 }
    ensures range { IsRangeOfDelays result }
{
    (elmore_delay(quarters.0), elmore_delay(quarters.1))
}

/// At two edges of one net, the least and the greatest delay in fs of the wire to one of its sinks, with every coupling
/// at its least and at its greatest factor (Elmore 1948). The quarters are summed before they are rounded down. Linear
/// in the couplings, in one pass over them for both edges.
#[inline(always)]
pub fn wire_ranges<'a, V: Bounds>(
    a: &Victim<'a, V>,
    b: &Victim<'a, V>,
    sink: usize,
) -> ((i128, i128), (i128, i128))
    requires net { b.now.net ≡ a.now.net }
    requires sink { sink < length a.now.net.sinks }
    ensures a_least { result.0.0 ≡ wire_delay a.now.least a.now.net sink }
    ensures a_greatest { result.0.1 ≡ wire_delay a.now.greatest a.now.net sink }
    ensures b_least { result.1.0 ≡ wire_delay b.now.least b.now.net sink }
    ensures b_greatest { result.1.1 ≡ wire_delay b.now.greatest b.now.net sink }
    ensures a_range { IsRangeOfDelays result.0 }
    ensures b_range { IsRangeOfDelays result.1 }
{
    let (a_sums, b_sums) = product_sums(a, b, &a.net.sinks.as_slice()[sink]);
    (delays_of(a_sums), delays_of(b_sums))
}

impl<'a, V: Bounds> Victim<'a, V> {
    /// The least and the greatest delay in fs of the wire to one of its net's sinks, as `wire_ranges` gives them.
    pub fn wire_range(&self, sink: usize) -> (i128, i128)
        requires { sink < length self.now.net.sinks }
        ensures least { result.0 ≡ wire_delay self.now.least self.now.net sink }
        ensures greatest { result.1 ≡ wire_delay self.now.greatest self.now.net sink }
        ensures least_natural { pos 0 ≤ℤ result.0 }
        ensures greatest_natural { pos 0 ≤ℤ result.1 }
        ensures greatest_small { result.1 ≤ℤ pos (2 ^ 105) }
    {
        wire_ranges(self, self, sink).0
    }
}

/// The least and the greatest delay in fs of the wire from a net's driver to one of its sinks at an edge, with
/// every coupling at its least and at its greatest factor (Elmore 1948). Linear in the couplings.
pub fn wire_range<V: Bounds>(
    design: &Design,
    view: &V,
    net: NetId,
    edge: Edge,
    sink: usize,
) -> (i128, i128)
    requires sink { HasSink design.now net.0 sink }
    requires words { HasVictim (V.has view.now) design.now net.0 edge }
    ensures least { let b = answers_of design.now (V.bound_of view.now) in
        result.0 ≡ (wire_range design.now.miller b net.0 edge sink (slice_get design.now.nets net.0)).least }
    ensures greatest { let b = answers_of design.now (V.bound_of view.now) in
        result.1 ≡ (wire_range design.now.miller b net.0 edge sink (slice_get design.now.nets net.0)).most }
{
    Victim::new(design, Overlaps::OfWindows, view, net, edge).wire_range(sink)
}
