//! A look at all words of a board: the windows that are in them, and whether the operator gives these back.

ghost use Rattle.std.specs.Prelude.{◌≡◌, ◌↔◌, ℕ, ◌+◌, ◌*◌, ◌/◌, ◌<◌, ◌≤◌, false, length, IsTrue};
ghost use Rattle.std.specs.List.{All, slice_index_or};
ghost use Rattle.std.specs.Thread.{IsSync};
ghost use Rattle.xt_model.specs.declared.edge.Edge.{Edge};
ghost use Rattle.xt_model.specs.Limits.{most_nets};
ghost use Rattle.xt_model.specs.Quads.{IsBound, IsInRange, IsPairInRange, quad_at};
ghost use Rattle.xt_model.specs.Assign.{quads_of};
ghost use Rattle.xt_meaning.specs.Barrier.{IsFittingStart, IsWithinEnvelope};
ghost use Rattle.xt_meaning.specs.Words.{bounds_in, numbers_of};
ghost use Rattle.table_box.specs.Groups.{AreGroups};
ghost use Rattle.net_eval.specs.Closing.{IsSteadyAt};
ghost use Rattle.chaos_core.specs.Boards.{nets_of};
ghost use Rattle.chaos_core.specs.Looks.{AreUnmoved, IsLook};
ghost use Rattle.chaos_core.specs.Memories.{AreKept};
ghost use Rattle.chaos_core.specs.Rounds.{AreClosed, HasCarried};
ghost use Rattle.window_words.specs.Boards.{IsAlone, IsOf};
ghost use Rattle.window_words.specs.Steps.{IsRested};
ghost use Rattle.chaos_run.specs.Looks.{IsLookBetween, quad_from};

use crate::marks::mark_decided;
use chaos_core::bound_of;
use net_eval::closed_part_grouped;
use std::mem;
use std::thread::{Threads, join_mut};
use window_words::{Pass, SharedBoard};
use xt_model::{Design, Pair, Quad, Windows};

/// The bound in a word.
fn load_bound(board: &SharedBoard, first: &mut Pass, word: usize) -> i64
    requires own { IsOf board.now first.old }
    requires alone { IsAlone first.old.view }
    requires word { word < 8 * nets_of first.old.view.setting }
    ensures own { IsOf board.now first.new }
    ensures view { first.new.view ≡ first.old.view }
    ensures bound { result ≡ bounds_in first.old.view.seen word }
    ensures range { IsBound result }
    ensures rested { IsRested first.old.view }
{
    bound_of(board.load(first, word))
}

/// The window whose four words begin at a word.
fn load_quad(board: &SharedBoard, first: &mut Pass, from: usize) -> Quad
    requires own { IsOf board.now first.old }
    requires alone { IsAlone first.old.view }
    requires words { from + 4 ≤ 8 * nets_of first.old.view.setting }
    ensures own { IsOf board.now first.new }
    ensures view { first.new.view ≡ first.old.view }
    ensures quad { result ≡ quad_from (bounds_in first.old.view.seen) from }
    ensures range { IsInRange result }
    ensures rested { IsRested first.old.view }
{
    Quad {
        tlo: load_bound(board, first, from),
        thi: load_bound(board, first, from + 1),
        slo: load_bound(board, first, from + 2),
        shi: load_bound(board, first, from + 3),
    }
}

/// The windows of a net.
fn load_pair(board: &SharedBoard, first: &mut Pass, net: usize) -> Pair
    requires own { IsOf board.now first.old }
    requires alone { IsAlone first.old.view }
    requires few { nets_of first.old.view.setting ≤ most_nets }
    requires net { net < nets_of first.old.view.setting }
    ensures own { IsOf board.now first.new }
    ensures view { first.new.view ≡ first.old.view }
    ensures pair { (e : Edge) → quad_at result e ≡ quads_of (bounds_in first.old.view.seen) net e }
    ensures range { IsPairInRange result }
    ensures rested { IsRested first.old.view }
{
    Pair {
        rise: load_quad(board, first, 8 * net),
        fall: load_quad(board, first, 8 * net + 4),
    }
}

/// Gives each net the windows that are in its words, and marks the nets that have these in `before`, and no other.
fn load_all(
    board: &SharedBoard,
    first: &mut Pass,
    before: &Windows,
    windows: &mut Windows,
    unmoved: &mut [bool],
)
    requires own { IsOf board.now first.old }
    requires alone { IsAlone first.old.view }
    requires count { length windows.old ≡ nets_of first.old.view.setting }
    requires before { length before.now ≡ length windows.old }
    requires unmoved { length unmoved.old ≡ length windows.old }
    ensures own { IsOf board.now first.new }
    ensures view { first.new.view ≡ first.old.view }
    ensures count { length windows.new ≡ length windows.old }
    ensures unmoved { AreUnmoved before.now windows.new unmoved.new }
    ensures numbers { numbers_of windows.new ≡ first.old.view.seen }
    ensures range { All IsPairInRange windows.new }
    ensures kept { AreKept first.old.view.setting first.old.view.seen }
    ensures rested { 0 < nets_of first.old.view.setting → IsRested first.old.view }
{
    // What the first has seen, where there is no word to load.
    first.respects();
    for net in 0..windows.pairs().len() {
        let pair = load_pair(board, first, net);
        unmoved[net] = before.pair(net).same(&pair);
        windows.set(net, pair);
    }
}

/// This many shares of a count, of `shares` in all.
fn part(count: u32, some: u32, shares: u32) -> u32
    requires some { some ≤ shares }
    requires shares { 0 < shares }
    ensures value { result ≡ count * some / shares }
    ensures most { result ≤ count }
{
    (u64::from(count) * u64::from(some) / u64::from(shares)) as u32
}

/// Takes the mark from each net.
fn unmark(marks: &mut [bool])
    ensures count { length marks.new ≡ length marks.old }
    ensures none { (net : ℕ) → IsTrue (slice_index_or marks.new net false) → ⊥ }
{
    for net in 0..marks.len() {
        marks[net] = false;
    }
}

/// Whether the operator gives the windows of a net back. Marks the net where it does, and evaluates none that has a
/// mark.
fn is_steady(
    design: &Design,
    groups: &[usize],
    windows: &Windows,
    net: u32,
    next: u32,
    mark: &mut bool,
) -> bool
    requires groups { AreGroups design.now.tables groups.now }
    requires count { length windows.now ≡ length design.now.nets }
    requires within { IsWithinEnvelope design.now windows.now }
    requires net { net < length design.now.nets }
    requires next { next ≡ net + 1 }
    requires marked { IsTrue mark.old → IsSteadyAt design.now windows.now net }
    ensures marked { IsTrue mark.new → IsSteadyAt design.now windows.now net }
    ensures steady { IsTrue result ↔ IsSteadyAt design.now windows.now net }
{
    if *mark {
        return true;
    }
    if !closed_part_grouped(design, groups, windows, net, next) {
        return false;
    }
    *mark = true;
    true
}

/// Whether the operator gives the windows back at each net from number `from` to before number `to`, whose marks these
/// are. It looks from the first of them up, and marks those up to the first that is not steady.
fn closed_up(
    design: &Design,
    groups: &[usize],
    windows: &Windows,
    from: u32,
    to: u32,
    marks: &mut [bool],
) -> bool
    requires groups { AreGroups design.now.tables groups.now }
    requires within { IsWithinEnvelope design.now windows.now }
    requires end { to ≤ length design.now.nets }
    requires look { IsLookBetween design.now windows.now from to marks.old }
    ensures look { IsLookBetween design.now windows.now from to marks.new }
    ensures closed { IsTrue result ↔ ((n : ℕ) → from ≤ n → n < to → IsSteadyAt design.now windows.now n) }
{
    for net in from..to {
        let mark = &mut marks[(net - from) as usize];
        if !is_steady(design, groups, windows, net, net + 1, mark) {
            return false;
        }
    }
    true
}

/// Whether the operator gives the windows back at each net from number `from` to before number `to`, whose marks these
/// are. It looks from the last of them down, and marks those down to the first that is not steady.
fn closed_down(
    design: &Design,
    groups: &[usize],
    windows: &Windows,
    from: u32,
    to: u32,
    marks: &mut [bool],
) -> bool
    requires groups { AreGroups design.now.tables groups.now }
    requires within { IsWithinEnvelope design.now windows.now }
    requires end { to ≤ length design.now.nets }
    requires look { IsLookBetween design.now windows.now from to marks.old }
    ensures look { IsLookBetween design.now windows.now from to marks.new }
    ensures closed { IsTrue result ↔ ((n : ℕ) → from ≤ n → n < to → IsSteadyAt design.now windows.now n) }
{
    for step in from..to {
        let net = to - 1 - (step - from);
        let mark = &mut marks[(net - from) as usize];
        if !is_steady(design, groups, windows, net, net + 1, mark) {
            return false;
        }
    }
    true
}

/// Whether the operator gives the windows back at each net from number `from` to before number `to`, whose marks these
/// are. Each of this many threads decides it of a share of the nets from the last of them down, since what a round left
/// unsteady is mostly far from the inputs, and marks those down to the first that is not steady.
#[cycle(halves)]
fn closed_by<R: Threads + Sync>(
    rt: &R,
    design: &Design,
    groups: &[usize],
    windows: &Windows,
    from: u32,
    to: u32,
    shares: u32,
    marks: &mut [bool],
) -> bool
    requires groups { AreGroups design.now.tables groups.now }
    requires within { IsWithinEnvelope design.now windows.now }
    requires end { to ≤ length design.now.nets }
    requires look { IsLookBetween design.now windows.now from to marks.old }
    ensures look { IsLookBetween design.now windows.now from to marks.new }
    ensures closed { IsTrue result ↔ ((n : ℕ) → from ≤ n → n < to → IsSteadyAt design.now windows.now n) }
{
    if shares <= 1 {
        return closed_down(design, groups, windows, from, to, marks);
    }
    let some = shares / 2;
    let rest = shares - some;
    let count = part(to - from, some, shares);
    let middle = from + count;
    let (left, right) = marks.split_at_mut(count as usize);
    both_halves(
        rt, design, groups, windows, from, middle, to, some, rest, left, right,
    )
}

/// Whether the operator gives the windows back at each net from number `from` to before number `to`. Up to before
/// number `middle`, whose marks are `left`, `some` threads decide it, and beside them `rest` threads from there on,
/// whose marks are `right`. Where no thread can be had, one half is decided after the other.
#[cycle(halves)]
fn both_halves<R: Threads + Sync>(
    rt: &R,
    design: &Design,
    groups: &[usize],
    windows: &Windows,
    from: u32,
    middle: u32,
    to: u32,
    some: u32,
    rest: u32,
    left: &mut [bool],
    right: &mut [bool],
) -> bool
    requires groups { AreGroups design.now.tables groups.now }
    requires within { IsWithinEnvelope design.now windows.now }
    requires end { to ≤ length design.now.nets }
    requires some { 0 < some }
    requires rest { 0 < rest }
    requires left { IsLookBetween design.now windows.now from middle left.old }
    requires right { IsLookBetween design.now windows.now middle to right.old }
    ensures left { IsLookBetween design.now windows.now from middle left.new }
    ensures right { IsLookBetween design.now windows.now middle to right.new }
    ensures closed { IsTrue result ↔ ((n : ℕ) → from ≤ n → n < to → IsSteadyAt design.now windows.now n) }
{
    let mut front = || -> bool
        requires { IsSync R.row × AreGroups design.now.tables groups.now × IsWithinEnvelope design.now windows.now
            × (middle ≤ length design.now.nets) × IsLookBetween design.now windows.now from middle left.now }
        ensures { IsLookBetween design.entry.now windows.entry.now from middle left.exit.now
            × (IsTrue result ↔ ((n : ℕ) → from ≤ n → n < middle → IsSteadyAt design.entry.now windows.entry.now n)) }
    { closed_by(rt, design, groups, windows, from, middle, some, left) };
    let mut back = || -> bool
        requires { IsSync R.row × AreGroups design.now.tables groups.now × IsWithinEnvelope design.now windows.now
            × (to ≤ length design.now.nets) × IsLookBetween design.now windows.now middle to right.now }
        ensures { IsLookBetween design.entry.now windows.entry.now middle to right.exit.now
            × (IsTrue result ↔ ((n : ℕ) → middle ≤ n → n < to → IsSteadyAt design.entry.now windows.entry.now n)) }
    { closed_by(rt, design, groups, windows, middle, to, rest, right) };
    let (before, after) = join_mut(rt, &mut front, &mut back);
    before && after
}

/// Whether the operator gives the windows back at every net, decided by this many threads. What a start leaves unsteady
/// is mostly among the inputs, which are mostly the first nets, and what a round leaves so mostly near these or among
/// the last nets. So one thread looks at the first eighth of the nets from the first up, and at the last eighth from
/// the last down; where all of these are steady, all threads look at the rest. Each thread marks those that it finds
/// steady.
fn closed_from_ends<R: Threads + Sync>(
    rt: &R,
    design: &Design,
    groups: &[usize],
    marks: &mut [bool],
    windows: &Windows,
    shares: u32,
) -> bool
    requires groups { AreGroups design.now.tables groups.now }
    requires look { IsLook design.now windows.now marks.old }
    requires within { IsWithinEnvelope design.now windows.now }
    ensures look { IsLook design.now windows.now marks.new }
    ensures closed { IsTrue result ↔ ((n : ℕ) → n < length design.now.nets → IsSteadyAt design.now windows.now n) }
{
    let nets = design.nets().len() as u32;
    let first = nets / 8;
    let last = nets - first;
    let (before, rest) = marks.split_at_mut(first as usize);
    let (between, after) = rest.split_at_mut((last - first) as usize);
    if !closed_up(design, groups, windows, 0, first, before) {
        return false;
    }
    if !closed_down(design, groups, windows, last, nets, after) {
        return false;
    }
    closed_by(rt, design, groups, windows, first, last, shares, between)
}

/// Loads each word by the first pass into the windows, and decides whether the words are closed, by this many threads.
/// Marks nets that it finds steady, and no other. Takes no memory.
pub(crate) fn look<R: Threads + Sync>(
    rt: &R,
    board: &SharedBoard,
    first: &mut Pass,
    design: &Design,
    groups: &[usize],
    before: &Windows,
    windows: &mut Windows,
    unmoved: &mut [bool],
    marks: &mut [bool],
    shares: u32,
) -> bool
    requires own { IsOf board.now first.old }
    requires alone { IsAlone first.old.view }
    requires design { board.now.setting.design ≡ design.now }
    requires groups { AreGroups design.now.tables groups.now }
    requires count { length windows.old ≡ length design.now.nets }
    requires before { length before.now ≡ length design.now.nets }
    requires unmoved { length unmoved.old ≡ length design.now.nets }
    requires marks { length marks.old ≡ length design.now.nets }
    ensures own { IsOf board.now first.new }
    ensures view { first.new.view ≡ first.old.view }
    ensures numbers { numbers_of windows.new ≡ first.old.view.seen }
    ensures fits { IsFittingStart board.now.setting.way design.now windows.new }
    ensures kept { AreKept board.now.setting first.old.view.seen }
    ensures rested { 0 < length design.now.nets → IsRested first.old.view }
    ensures look { IsLook design.now windows.new marks.new }
    ensures unmoved { length unmoved.new ≡ length unmoved.old }
    ensures closed { IsTrue result ↔ AreClosed design.now first.old.view.seen }
{
    load_all(board, first, before, windows, unmoved);
    unmark(marks);
    closed_from_ends(rt, design, groups, marks, windows, shares)
}

/// A look as by [`look`] after a round from the words of these windows, which it leaves in `before`. It marks the nets
/// of which the round did not move what decides them, evaluates only others, and marks those that it finds steady too.
pub(crate) fn look_again<R: Threads + Sync>(
    rt: &R,
    board: &SharedBoard,
    first: &mut Pass,
    design: &Design,
    groups: &[usize],
    before: &mut Windows,
    windows: &mut Windows,
    unmoved: &mut [bool],
    marks: &mut [bool],
    shares: u32,
) -> bool
    requires own { IsOf board.now first.old }
    requires alone { IsAlone first.old.view }
    requires design { board.now.setting.design ≡ design.now }
    requires groups { AreGroups design.now.tables groups.now }
    requires fits { IsFittingStart board.now.setting.way design.now windows.old }
    requires before { length before.old ≡ length design.now.nets }
    requires unmoved { length unmoved.old ≡ length design.now.nets }
    requires marks { length marks.old ≡ length design.now.nets }
    requires carried { IsRested first.old.view
        → HasCarried board.now.setting (numbers_of windows.old) first.old.view.seen }
    ensures own { IsOf board.now first.new }
    ensures view { first.new.view ≡ first.old.view }
    ensures numbers { numbers_of windows.new ≡ first.old.view.seen }
    ensures fits { IsFittingStart board.now.setting.way design.now windows.new }
    ensures kept { AreKept board.now.setting first.old.view.seen }
    ensures rested { 0 < length design.now.nets → IsRested first.old.view }
    ensures look { IsLook design.now windows.new marks.new }
    ensures before { length before.new ≡ length before.old }
    ensures unmoved { length unmoved.new ≡ length unmoved.old }
    ensures closed { IsTrue result ↔ AreClosed design.now first.old.view.seen }
{
    mem::swap(before, windows);
    load_all(board, first, before, windows, unmoved);
    mark_decided(rt, design, unmoved, before, windows, marks, shares);
    closed_from_ends(rt, design, groups, marks, windows, shares)
}
