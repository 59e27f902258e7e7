ghost use Rattle.std.specs.Prelude.{◌≡◌, ◌↔◌, ◌^◌, IsTrue, Some, None, pos, neg_ℤ, ◌-ℤ◌, ◌≤ℤ◌};
ghost use Rattle.std.specs.Int.{int_div_euclid};
ghost use Rattle.xt_model.specs.Quads.{IsBound, IsInRange};
ghost use Rattle.xt_meaning.specs.Overlap.{half_up, active_from, active_to};
ghost use Rattle.xt_meaning.specs.Overlap.{ranges_meet, overlaps, Overlap, IsRealPeriod};
ghost use Rattle.miller_bits.specs.Actives.{IsActive};

use xt_model::Quad;

/// Half of a slew, rounded up: a shift rounds down.
fn half_up(slew: i64) -> i64
    requires { IsBound slew }
    ensures value { result ≡ half_up slew }
    ensures low { neg_ℤ (pos (2 ^ 61)) ≤ℤ result }
    ensures high { result ≤ℤ pos (2 ^ 61) }
{
    (slew + 1) >> 1
}

/// From when a transition of the window can be under way, in fs.
pub fn active_from(window: &Quad) -> i64
    requires { IsInRange window.now }
    ensures { result ≡ active_from window.now }
{
    window.tlo - half_up(window.shi)
}

/// To when a transition of the window can be under way, in fs.
pub fn active_to(window: &Quad) -> i64
    requires { IsInRange window.now }
    ensures { result ≡ active_to window.now }
{
    window.thi + half_up(window.shi)
}

/// The time in fs from one moment to another.
fn distance(from: i64, to: i64) -> i128
    ensures value { result ≡ to -ℤ from }
    ensures low { neg_ℤ (pos (2 ^ 64)) ≤ℤ result }
    ensures high { result ≤ℤ pos (2 ^ 64) }
{
    i128::from(to) - i128::from(from)
}

/// How many whole periods there are in a distance in fs, rounded down.
fn whole_periods(distance: i128, period: i64) -> i128
    requires period { pos 1 ≤ℤ period }
    requires low { neg_ℤ (pos (2 ^ 64)) ≤ℤ distance }
    requires high { distance ≤ℤ pos (2 ^ 64) }
    ensures value { result ≡ int_div_euclid distance period }
    ensures low { neg_ℤ (pos (2 ^ 64)) ≤ℤ result }
    ensures high { result ≤ℤ pos (2 ^ 64) }
{
    distance.div_euclid(i128::from(period))
}

/// Whether two ranges of times have a time in common as they are; both hold their ends.
fn meet_unmoved(a_from: i64, a_to: i64, b_from: i64, b_to: i64) -> bool
    ensures { result ≡ ranges_meet None a_from a_to b_from b_to }
{
    a_from <= b_to && b_from <= a_to
}

/// Whether they have a time in common where the second is moved by some whole number of periods: the least
/// number that brings its end to the first range is at most the greatest that leaves its start there. It divides twice,
/// and stays a call so that the test of the ranges as they are is short.
#[inline(never)]
fn meet_moved(a_from: i64, a_to: i64, b_from: i64, b_to: i64, period: i64) -> bool
    requires { pos 1 ≤ℤ period }
    ensures { result ≡ ranges_meet (Some period) a_from a_to b_from b_to }
{
    let least = -whole_periods(distance(a_from, b_to), period);
    let greatest = whole_periods(distance(b_from, a_to), period);
    least <= greatest
}

/// Whether two ranges of times meet, one of them moved by some whole number of periods. Divides only where they
/// do not meet as they are.
fn ranges_meet(a_from: i64, a_to: i64, b_from: i64, b_to: i64, period: Option<i64>) -> bool
    requires { IsRealPeriod period }
    ensures { result ≡ ranges_meet period a_from a_to b_from b_to }
{
    if meet_unmoved(a_from, a_to, b_from, b_to) {
        return true;
    }
    match period {
        None => false,
        Some(period) => meet_moved(a_from, a_to, b_from, b_to, period),
    }
}

/// A window, with whether its edge can switch, and from when and to when a transition of it can be under way: from the
/// earliest time less half of the greatest slew, to the latest time and half of the greatest slew.
#[derive(Clone, Copy)]
pub(crate) struct Active {
    pub window: Quad,
    pub live: bool,
    from: i64,
    to: i64,
}

impl Active {
    /// This window.
    #[inline]
    pub fn of(window: Quad) -> Active
        requires { IsInRange window }
        ensures window { result.window ≡ window }
        ensures active { IsActive result }
    {
        Active {
            window,
            live: window.live(),
            from: active_from(&window),
            to: active_to(&window),
        }
    }

    /// Whether it overlaps another window: both can switch, and their active ranges meet.
    #[inline(always)]
    pub fn overlaps(&self, other: &Quad, period: Option<i64>) -> bool
        requires active { IsActive self.now }
        requires second { IsInRange other.now }
        requires period { IsRealPeriod period }
        ensures { result ≡ overlaps period self.now.window other.now }
    {
        self.live
            && other.live()
            && ranges_meet(
                self.from,
                self.to,
                active_from(other),
                active_to(other),
                period,
            )
    }
}

/// Whether two windows overlap: both can switch, and their active ranges meet, in a design with a clock period,
/// in fs, also where one of them is moved by any whole number of periods.
pub fn overlap(a: &Quad, b: &Quad, period: Option<i64>) -> bool
    requires first { IsInRange a.now }
    requires second { IsInRange b.now }
    requires period { IsRealPeriod period }
    ensures meaning { IsTrue result ↔ Overlap period a.now b.now }
    ensures value { result ≡ overlaps period a.now b.now }
{
    Active::of(*a).overlaps(b, period)
}
