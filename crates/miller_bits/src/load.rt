ghost use Rattle.std.specs.Prelude.{◌≡◌, ◌<◌, ◌≤◌, ◌^◌, length, IfSome, pos, ◌+ℤ◌, ◌≤ℤ◌, ◌*ℤ◌};
ghost use Rattle.std.specs.Int.{int_div_euclid};
ghost use Rattle.std.specs.List.{slice_get};
ghost use Rattle.xt_model.specs.Limits.{most_factor};
ghost use Rattle.xt_model.specs.Sound.{IsCap};
ghost use Rattle.xt_meaning.specs.Operator.{load_range};
ghost use Rattle.xt_meaning.specs.Wires.{cap_sum, load_of};
ghost use Rattle.miller_bits.specs.Ranges.{IsRangeOfCaps};
ghost use Rattle.miller_bits.specs.Views.{HasVictim, answers_of};

use crate::overlaps::Overlaps;
use crate::victim::Victim;
use xt_model::{Bounds, Design, Edge, NetId};

/// A capacitance in aF, times a factor in quarters.
fn scaled(factor: u8, cap: i64) -> i64
    requires factor { factor ≤ most_factor }
    requires cap { IsCap cap }
    ensures value { result ≡ pos factor *ℤ cap }
    ensures low { pos 0 ≤ℤ result }
    ensures high { result ≤ℤ pos (2 ^ 50) }
{
    i64::from(factor) * cap
}

/// At two edges of one net, of each coupling its least and its greatest factor times its capacitance, summed, in
/// quarters of an aF.
#[inline(always)]
fn cap_sums<'a, V: Bounds>(a: &Victim<'a, V>, b: &Victim<'a, V>) -> ((i64, i64), (i64, i64))
    requires net { b.now.net ≡ a.now.net }
    ensures a_least { result.0.0 ≡ cap_sum a.now.least a.now.net.couplings }
    ensures a_greatest { result.0.1 ≡ cap_sum a.now.greatest a.now.net.couplings }
    ensures b_least { result.1.0 ≡ cap_sum b.now.least a.now.net.couplings }
    ensures b_greatest { result.1.1 ≡ cap_sum b.now.greatest a.now.net.couplings }
    ensures a_range { IsRangeOfCaps result.0 }
    ensures b_range { IsRangeOfCaps result.1 }
{
    let mut a_least = 0;
    let mut a_greatest = 0;
    let mut b_least = 0;
    let mut b_greatest = 0;
    for (index, coupling) in a.net.couplings.as_slice().iter().enumerate() {
        let (a_low, a_high) = a.factors(index);
        let (b_low, b_high) = b.factors(index);
        a_least += scaled(a_low, coupling.cap);
        a_greatest += scaled(a_high, coupling.cap);
        b_least += scaled(b_low, coupling.cap);
        b_greatest += scaled(b_high, coupling.cap);
    }
    ((a_least, a_greatest), (b_least, b_greatest))
}

/// A load to ground in aF, and a sum in quarters of an aF, rounded down to whole ones.
fn with_quarters(load: i64, quarters: i64) -> i64
    requires load { IsCap load }
    requires natural { pos 0 ≤ℤ quarters }
    requires small { quarters ≤ℤ pos (2 ^ 50) }
    ensures { result ≡ load +ℤ int_div_euclid quarters (pos 4) }
{
    load + quarters.div_euclid(4)
}

/// A load to ground in aF, and two sums in quarters of an aF, each rounded down to whole ones.
fn range_with_quarters(load: i64, quarters: (i64, i64)) -> (i64, i64)
    requires load { IsCap load }
    requires quarters { IsRangeOfCaps quarters }
    ensures least { result.0 ≡ load +ℤ int_div_euclid quarters.0 (pos 4) }
    ensures greatest { result.1 ≡ load +ℤ int_div_euclid quarters.1 (pos 4) }
{
    (
        with_quarters(load, quarters.0),
        with_quarters(load, quarters.1),
    )
}

/// At two edges of one net its least and its greatest load in aF: its load to ground, and of each coupling its least
/// and its greatest factor times its capacitance. The quarters are summed before they are rounded down. Linear in the
/// couplings, in one pass over them for both edges.
#[inline(always)]
pub fn load_ranges<'a, V: Bounds>(a: &Victim<'a, V>, b: &Victim<'a, V>) -> ((i64, i64), (i64, i64))
    requires net { b.now.net ≡ a.now.net }
    ensures a_least { result.0.0 ≡ load_of a.now.least a.now.net }
    ensures a_greatest { result.0.1 ≡ load_of a.now.greatest a.now.net }
    ensures b_least { result.1.0 ≡ load_of b.now.least b.now.net }
    ensures b_greatest { result.1.1 ≡ load_of b.now.greatest b.now.net }
{
    let (a_sums, b_sums) = cap_sums(a, b);
    let load = a.net.load;
    (
        range_with_quarters(load, a_sums),
        range_with_quarters(load, b_sums),
    )
}

impl<'a, V: Bounds> Victim<'a, V> {
    /// Its least and its greatest load in aF, as `load_ranges` gives them.
    pub fn load_range(&self) -> (i64, i64)
        ensures least { result.0 ≡ load_of self.now.least self.now.net }
        ensures greatest { result.1 ≡ load_of self.now.greatest self.now.net }
    {
        load_ranges(self, self).0
    }
}

/// The least and the greatest load of a net in aF at an edge: its load to ground, and of each coupling its
/// least and its greatest factor times its capacitance. Linear in the couplings.
pub fn load_range<V: Bounds>(design: &Design, view: &V, net: NetId, edge: Edge) -> (i64, i64)
    requires net { net.0 < length design.now.nets }
    requires words { HasVictim (V.has view.now) design.now net.0 edge }
    ensures least { let b = answers_of design.now (V.bound_of view.now) in
        IfSome
        (slice_get design.now.nets net.0)
        (λ n. result.0 ≡ (load_range design.now.miller b net.0 edge n).least) }
    ensures greatest { let b = answers_of design.now (V.bound_of view.now) in
        IfSome
        (slice_get design.now.nets net.0)
        (λ n. result.1 ≡ (load_range design.now.miller b net.0 edge n).most) }
{
    Victim::new(design, Overlaps::OfWindows, view, net, edge).load_range()
}
