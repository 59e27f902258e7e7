//! Whether what decides the windows that the operator makes of a net is the same in windows of two times.

ghost use Rattle.std.specs.Prelude.{◌≡◌, ℕ, ◌<◌, length, IfSome, IsTrue};
ghost use Rattle.xt_model.specs.declared.edge.Edge.{Edge};
ghost use Rattle.xt_model.specs.Assign.{Assignment};
ghost use Rattle.xt_model.specs.Quads.{IsInRange, IsPairInRange, quad_at};
ghost use Rattle.xt_meaning.specs.Overlap.{IsRealPeriod, overlaps};
ghost use Rattle.xt_meaning.specs.Reads.{HoldsOfReads};
ghost use Rattle.chaos_core.specs.Alike.{AreDecidedAlike, HasSameAnswers};
ghost use Rattle.chaos_core.specs.Spared.{AreRead, IsStill, HasAnswersAlike};
ghost use Rattle.chaos_core.specs.Spared.{IsInputAlike, AreInputsAlike, IsOwnAlike};

use crate::answers::period;
use miller_bits::overlap;
use xt_model::{Design, NetId, Pair, Quad};

/// The windows of a net at two times.
#[derive(Drop)]
pub(crate) struct Twice {
    pub(crate) before: Pair,
    pub(crate) after: Pair,
    ghost before_range: { IsPairInRange before },
    ghost after_range: { IsPairInRange after },
}

/// Whether the first two windows overlap and the last two do, or neither.
fn overlap_alike(period: Option<i64>, a: &Quad, b: &Quad, c: &Quad, d: &Quad) -> bool
    requires period { IsRealPeriod period }
    requires first { IsInRange a.now }
    requires second { IsInRange b.now }
    requires third { IsInRange c.now }
    requires fourth { IsInRange d.now }
    ensures { IsTrue result → overlaps period a.now b.now ≡ overlaps period c.now d.now }
{
    if overlap(a, b, period) {
        return overlap(c, d, period);
    }
    !overlap(c, d, period)
}

/// Whether a window and a later one overlap the windows of a net alike, each those of its time.
fn meets_alike(period: Option<i64>, before: &Quad, after: &Quad, other: &Twice) -> bool
    requires period { IsRealPeriod period }
    requires before { IsInRange before.now }
    requires after { IsInRange after.now }
    ensures { IsTrue result → (f : Edge) → overlaps period before.now (quad_at other.now.before f)
        ≡ overlaps period after.now (quad_at other.now.after f) }
{
    overlap_alike(period, before, &other.before.rise, after, &other.after.rise)
        && overlap_alike(period, before, &other.before.fall, after, &other.after.fall)
}

/// Whether the windows of two nets overlap alike before and after.
fn meet_alike(period: Option<i64>, own: &Twice, other: &Twice) -> bool
    requires period { IsRealPeriod period }
    ensures { IsTrue result → (e f : Edge)
        → overlaps period (quad_at own.now.before e) (quad_at other.now.before f)
        ≡ overlaps period (quad_at own.now.after e) (quad_at other.now.after f) }
{
    meets_alike(period, &own.before.rise, &own.after.rise, other)
        && meets_alike(period, &own.before.fall, &own.after.fall, other)
}

/// Windows of two times, at some nets of a design.
pub(crate) trait TwoTimes {
    ghost has: { Self → ℕ → Type 0 };

    ghost earlier: { Self → Assignment };

    ghost later: { Self → Assignment };

    /// Whether a net has the same windows at both.
    fn is_still(&self, net: NetId) -> bool
        requires { has self.now net.0 }
        ensures { IsTrue result → IsStill (earlier self.now) (later self.now) net.0 };

    /// The windows of a net.
    fn twice(&self, net: NetId) -> Twice
        requires { has self.now net.0 }
        ensures before { (e : Edge) → quad_at result.before e ≡ earlier self.now net.0 e }
        ensures after { (e : Edge) → quad_at result.after e ≡ later self.now net.0 e };
}

/// Whether the overlap answers for a net, which is said to be still only where it is, and another are the same. Looks
/// at their windows only where one of the two is not still.
fn answers_alike<T: TwoTimes>(
    two: &T,
    period: Option<i64>,
    net: NetId,
    still: bool,
    other: NetId,
) -> bool
    requires period { IsRealPeriod period }
    requires own { T.has two.now net.0 }
    requires other { T.has two.now other.0 }
    requires still { IsTrue still → IsStill (T.earlier two.now) (T.later two.now) net.0 }
    ensures { IsTrue result → HasSameAnswers period (T.earlier two.now) (T.later two.now) net.0 other.0 }
{
    if still && two.is_still(other) {
        return true;
    }
    meet_alike(period, &two.twice(net), &two.twice(other))
}

/// Whether the overlap answers at the couplings of a net are the same, which is said to be still only where it is.
fn has_answers_alike<T: TwoTimes>(two: &T, design: &Design, net: NetId, still: bool) -> bool
    requires there { net.0 < length design.now.nets }
    requires read { AreRead design.now (T.has two.now) net.0 }
    requires still { IsTrue still → IsStill (T.earlier two.now) (T.later two.now) net.0 }
    ensures { IsTrue result → HasAnswersAlike design.now (T.earlier two.now) (T.later two.now) net.0 }
{
    let period = period(design);
    let own = design.net(net.0 as usize);
    for coupling in own.couplings.as_slice() {
        if !answers_alike(two, period, net, still, coupling.to) {
            return false;
        }
    }
    true
}

/// Whether the windows of an input net are the same, and the overlap answers at its couplings. Where that is known, it
/// does not look again.
pub(crate) fn is_input_alike<T: TwoTimes>(
    two: &T,
    design: &Design,
    input: NetId,
    known: Option<NetId>,
) -> bool
    requires there { input.0 < length design.now.nets }
    requires read { AreRead design.now (T.has two.now) input.0 }
    requires known { IfSome known (λ m. IsInputAlike design.now (T.earlier two.now) (T.later two.now) m.0) }
    ensures { IsTrue result → IsInputAlike design.now (T.earlier two.now) (T.later two.now) input.0 }
{
    if let Some(known) = known {
        if known.0 == input.0 {
            return true;
        }
    }
    two.is_still(input) && has_answers_alike(two, design, input, true)
}

/// Whether that is so for all input nets of a net.
fn are_inputs_alike<T: TwoTimes>(two: &T, design: &Design, net: NetId) -> bool
    requires there { net.0 < length design.now.nets }
    requires read { HoldsOfReads (T.has two.now) design.now net.0 }
    ensures { IsTrue result → AreInputsAlike design.now (T.earlier two.now) (T.later two.now) net.0 }
{
    let own = design.net(net.0 as usize);
    let mut known = None;
    for arc in own.arcs.as_slice() {
        if !is_input_alike(two, design, arc.from, known) {
            return false;
        }
        known = Some(arc.from);
    }
    true
}

/// Whether the overlap answers at the couplings of a net with arcs are the same.
pub(crate) fn is_own_alike<T: TwoTimes>(two: &T, design: &Design, net: NetId) -> bool
    requires there { net.0 < length design.now.nets }
    requires read { HoldsOfReads (T.has two.now) design.now net.0 }
    ensures { IsTrue result → IsOwnAlike design.now (T.earlier two.now) (T.later two.now) net.0 }
{
    if design.net(net.0 as usize).arcs.len() == 0 {
        return true;
    }
    let still = two.is_still(net);
    has_answers_alike(two, design, net, still)
}

/// Whether what decides a net is the same at both times: the windows of its inputs, and the overlap answers at its own
/// couplings and at those of its inputs.
pub(crate) fn is_decided_alike<T: TwoTimes>(two: &T, design: &Design, net: NetId) -> bool
    requires there { net.0 < length design.now.nets }
    requires read { HoldsOfReads (T.has two.now) design.now net.0 }
    ensures { IsTrue result → AreDecidedAlike design.now (T.earlier two.now) (T.later two.now) net.0 }
{
    are_inputs_alike(two, design, net) && is_own_alike(two, design, net)
}
