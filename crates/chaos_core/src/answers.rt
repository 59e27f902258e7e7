//! Which overlap answers turn where a net moves.

ghost use Rattle.std.specs.Prelude.{◌≡◌, ℕ, ◌<◌, ◌⊎◌, length, slice_index, IsTrue, IfSome};
ghost use Rattle.std.specs.List.{All, Contains, slice_get};
ghost use Rattle.xt_model.specs.declared.edge.Edge.{Edge};
ghost use Rattle.xt_model.specs.Assign.{Assignment, assigned};
ghost use Rattle.xt_model.specs.Quads.{IsInRange, IsPairInRange, IsWithin, quad_at};
ghost use Rattle.xt_meaning.specs.Barrier.{IsNoFurther};
ghost use Rattle.xt_meaning.specs.Fixpoint.{IsWindows};
ghost use Rattle.xt_meaning.specs.Overlap.{IsRealPeriod, overlaps};
ghost use Rattle.net_eval.specs.ReadLists.{ids};
ghost use Rattle.chaos_core.specs.TurnMarks.{AreListed, AreTold, HaveTold, MeetAlike};

use crate::listed::NetLists;
use crate::marks::TurnMarks;
use miller_bits::overlap;
use xt_model::{Design, Direction, NetId, Pair, Quad, Windows};

/// A net's move, with the clock period in fs: of its windows before and after, the ones within and the ones around.
#[derive(Drop)]
struct Move<'a> {
    period: Option<i64>,
    inner: &'a Pair,
    outer: &'a Pair,
    ghost inner_range: { IsPairInRange inner.now },
    ghost outer_range: { IsPairInRange outer.now },
    ghost within: { (e : Edge) → IsWithin (quad_at inner.now e) (quad_at outer.now e) },
}

/// Whether two windows, of which one lies within the other, both overlap a third or both do not: what the inner one
/// overlaps, the outer one does too.
fn overlap_alike(period: Option<i64>, inner: &Quad, outer: &Quad, other: &Quad) -> bool
    requires period { IsRealPeriod period }
    requires inner { IsInRange inner.now }
    requires outer { IsInRange outer.now }
    requires other { IsInRange other.now }
    requires within { IsWithin inner.now outer.now }
    ensures { IsTrue result → overlaps period inner.now other.now ≡ overlaps period outer.now other.now }
{
    if overlap(inner, other, period) {
        return true;
    }
    !overlap(outer, other, period)
}

/// Whether they overlap both windows of a net alike.
fn meets_alike(period: Option<i64>, inner: &Quad, outer: &Quad, other: &Pair) -> bool
    requires period { IsRealPeriod period }
    requires inner { IsInRange inner.now }
    requires outer { IsInRange outer.now }
    requires other { IsPairInRange other.now }
    requires within { IsWithin inner.now outer.now }
    ensures { IsTrue result → (f : Edge)
        → overlaps period inner.now (quad_at other.now f) ≡ overlaps period outer.now (quad_at other.now f) }
{
    overlap_alike(period, inner, outer, &other.rise)
        && overlap_alike(period, inner, outer, &other.fall)
}

/// Whether a net that moves overlaps the windows of another as before.
fn meet_alike(moved: &Move, other: &Pair) -> bool
    requires period { IsRealPeriod moved.now.period }
    requires other { IsPairInRange other.now }
    ensures { IsTrue result → (e f : Edge)
        → overlaps moved.now.period (quad_at moved.now.inner.now e) (quad_at other.now f)
        ≡ overlaps moved.now.period (quad_at moved.now.outer.now e) (quad_at other.now f) }
{
    meets_alike(moved.period, &moved.inner.rise, &moved.outer.rise, other)
        && meets_alike(moved.period, &moved.inner.fall, &moved.outer.fall, other)
}

/// The clock period of a design in fs.
pub(crate) fn period(design: &Design) -> Option<i64>
    ensures value { result ≡ design.now.period }
    ensures least { IsRealPeriod result }
{
    design.period()
}

/// The move of a net in a direction.
fn move_of<'a>(
    period: Option<i64>,
    direction: Direction,
    before: &'a Pair,
    after: &'a Pair,
) -> Move<'a>
    requires period { IsRealPeriod period }
    requires before { IsPairInRange before.now }
    requires after { IsPairInRange after.now }
    requires further { (e : Edge) → IsNoFurther direction (quad_at before.now e) (quad_at after.now e) }
    ensures period { IsRealPeriod result.period }
    ensures alike { (W : Assignment) (m : ℕ) → MeetAlike result.period result.inner.now result.outer.now W m
        → MeetAlike period before.now after.now W m }
{
    if direction == Direction::Narrow {
        return Move {
            period,
            inner: after,
            outer: before,
        };
    }
    Move {
        period,
        inner: before,
        outer: after,
    }
}

/// Notes an answer for a net, unless one is noted or it overlaps a net that moves as before.
fn tell_one(windows: &Windows, moved: &Move, other: NetId, noted: NetId, marks: &mut TurnMarks)
    requires period { IsRealPeriod moved.now.period }
    requires other { other.0 < length windows.now }
    requires noted { noted.0 < length marks.old.answers }
    ensures told { MeetAlike moved.now.period moved.now.inner.now moved.now.outer.now (assigned windows.now) other.0
        ⊎ (slice_index marks.new.answers noted.0 ≡ marks.old.turn) }
    ensures each { AreTold marks.old.turn marks.old.answers marks.new.answers }
    ensures rest { marks.new ≡ record marks.old { answers = marks.new.answers } }
{
    if marks.has_answer(noted) {
        return;
    }
    if meet_alike(moved, &windows.pair(other.0 as usize)) {
        return;
    }
    marks.note_answer(noted);
}

/// Notes for a net that moves whether an answer at its own couplings turns.
fn tell_own(windows: &Windows, design: &Design, moved: &Move, net: NetId, marks: &mut TurnMarks)
    requires period { IsRealPeriod moved.now.period }
    requires net { net.0 < length design.now.nets }
    requires windows { length windows.now ≡ length design.now.nets }
    requires marks { length marks.old.answers ≡ length design.now.nets }
    ensures own { IfSome (slice_get design.now.nets net.0) (λ n. All (λ k.
        MeetAlike moved.now.period moved.now.inner.now moved.now.outer.now (assigned windows.now) k.to.0
        ⊎ (slice_index marks.new.answers net.0 ≡ marks.old.turn)) n.couplings) }
    ensures each { AreTold marks.old.turn marks.old.answers marks.new.answers }
    ensures rest { marks.new ≡ record marks.old { answers = marks.new.answers } }
{
    let own = design.net(net.0 as usize);
    for coupling in own.couplings.as_slice() {
        tell_one(windows, moved, coupling.to, net, marks);
    }
}

/// Notes for each of several nets, in whose coupling lists a net is that moves, whether an answer turns there.
fn tell_others(windows: &Windows, moved: &Move, others: &[NetId], marks: &mut TurnMarks)
    requires period { IsRealPeriod moved.now.period }
    requires windows { length windows.now ≡ length marks.old.answers }
    requires inside { All (λ m. m.0 < length marks.old.answers) others.now }
    ensures others { (m : ℕ) → Contains (ids others.now) m →
        MeetAlike moved.now.period moved.now.inner.now moved.now.outer.now (assigned windows.now) m
        ⊎ (slice_index marks.new.answers m ≡ marks.old.turn) }
    ensures each { AreTold marks.old.turn marks.old.answers marks.new.answers }
    ensures rest { marks.new ≡ record marks.old { answers = marks.new.answers } }
{
    for other in others {
        tell_one(windows, moved, *other, *other, marks);
    }
}

/// Notes in which nets an answer turns, where a net moves from its windows to others.
pub(crate) fn tell(
    windows: &Windows,
    design: &Design,
    listed: &NetLists,
    direction: Direction,
    net: NetId,
    pair: &Pair,
    marks: &mut TurnMarks,
)
    requires windows { IsWindows design.now windows.now }
    requires listed { AreListed design.now listed.now }
    requires net { net.0 < length design.now.nets }
    requires further { (e : Edge) → IsNoFurther direction (assigned windows.now net.0 e) (quad_at pair.now e) }
    requires range { IsPairInRange pair.now }
    requires marks { length marks.old.answers ≡ length design.now.nets }
    ensures told { HaveTold design.now (assigned windows.now) net.0 pair.now
        marks.old.turn marks.old.answers marks.new.answers }
    ensures rest { marks.new ≡ record marks.old { answers = marks.new.answers } }
{
    let before = windows.pair(net.0 as usize);
    let moved = move_of(period(design), direction, &before, pair);
    tell_own(windows, design, &moved, net, marks);
    tell_others(windows, &moved, listed.of(net), marks);
}
