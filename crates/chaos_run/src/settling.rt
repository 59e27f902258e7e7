//! A whole run on a board: looks and rounds until the words are closed.

ghost use Rattle.std.specs.Prelude.{◌≡◌, ◌↔◌, ℕ, ◌+◌, ◌*◌, ◌<◌, ◌≤◌, List, length, IfErr, IfOk};
ghost use Rattle.xt_model.specs.declared.direction.Direction.TheVariants.{Narrow};
ghost use Rattle.xt_model.specs.Limits.{most_workers};
ghost use Rattle.xt_model.specs.Build.{IsRoundBound};
ghost use Rattle.xt_model.specs.Assign.{assigned};
ghost use Rattle.xt_meaning.specs.Barrier.{IsFittingStart};
ghost use Rattle.xt_meaning.specs.Laws.{IsExtremeFixpoint};
ghost use Rattle.xt_meaning.specs.Words.{numbers_of};
ghost use Rattle.run_laws.specs.Transitions.{Transition, AreConsistent};
ghost use Rattle.run_laws.specs.Laws.{LieWithin};
ghost use Rattle.table_box.specs.Groups.{AreGroups};
ghost use Rattle.net_eval.specs.ReadLists.{AreReadLists};
ghost use Rattle.chaos_core.specs.Rounds.{AreClosed, AreTurns};
ghost use Rattle.window_words.specs.Boards.{IsAlone, IsOf};
ghost use Rattle.chaos_run.specs.Rounds.{AreIdle, IsRoomFor, IsRun, workers_in};

use crate::look::{look, look_again};
use crate::round::round;
use crate::workers::{Run, RunRoom, Workers};
use chaos_core::{Gate, Settled};
use net_eval::ReadLists;
use std::alloc::Global;
use std::thread::Threads;
use window_words::{Pass, SharedBoard};
use xt_model::{Design, Direction, NoMemory, Windows};

/// Looks at all words, and makes rounds until they are closed; the windows are then those that are in the words.
/// Gives how many rounds were made. Takes no memory.
fn run_rounds<'a, R: Threads + Sync, G: Gate>(
    rt: &R,
    run: &Run<'a, G>,
    groups: &[usize],
    workers: &mut Workers<'a>,
    first: &mut Pass,
    before: &mut Windows,
    windows: &mut Windows,
    unmoved: &mut [bool],
    marks: &mut [bool],
) -> u64
    requires groups { AreGroups run.now.design.now.tables groups.now }
    requires run { IsRun run.now.board.now run.now.design.now run.now.lists.now run.now.direction }
    requires own { IsOf run.now.board.now first.old }
    requires alone { IsAlone first.old.view }
    requires idle { AreIdle run.now.lists.now workers.old }
    requires some { 0 < length workers.old.idle.items }
    requires few { length workers.old.idle.items ≤ most_workers }
    requires count { length windows.old ≡ length run.now.design.now.nets }
    requires before { length before.old ≡ length run.now.design.now.nets }
    requires unmoved { length unmoved.old ≡ length run.now.design.now.nets }
    requires marks { length marks.old ≡ length run.now.design.now.nets }
    ensures own { IsOf run.now.board.now first.new }
    ensures alone { IsAlone first.new.view }
    ensures fits { IsFittingStart run.now.direction run.now.design.now windows.new }
    ensures extreme { IsExtremeFixpoint run.now.direction run.now.design.now windows.new }
    ensures seen { first.new.view.seen ≡ numbers_of windows.new }
    ensures closed { (result ≡ 0) ↔ AreClosed run.now.design.now first.old.view.seen }
    ensures split { 0 < result → first.new.view.split ≡ length workers.old.idle.items }
    ensures few { (bound : ℕ) → IsRoundBound run.now.design.now.nets bound → result ≤ bound }
    ensures made { first.new.view.made ≡ first.old.view.made + 8 * length run.now.design.now.nets * result }
    ensures turns { AreTurns run.now.board.now.setting result first.old.view.seen first.new.view.seen }
{
    let shares = workers.idle.as_slice().len() as u32;
    let mut done = look(
        rt, run.board, first, run.design, groups, before, windows, unmoved, marks, shares,
    );
    let mut rounds: u64 = 0;
    'rounds: while !done {
        prove!(rounds < run.design.bound());
        rounds += 1;
        round(rt, run, groups, workers, first, rounds, windows, marks);
        done = look_again(
            rt, run.board, first, run.design, groups, before, windows, unmoved, marks, shares,
        );
    }
    rounds
}

/// A run as by [`settle`], in a room that is there already: it takes no memory.
pub fn settle_in<'a, R: Threads + Sync, G: Gate>(
    rt: &R,
    room: RunRoom<'a>,
    board: &'a SharedBoard,
    first: &mut Pass,
    design: &'a Design,
    lists: &'a ReadLists,
    direction: Direction,
    gate: &'a G,
) -> Settled
    requires room { IsRoomFor design.now lists.now room }
    requires own { IsOf board.now first.old }
    requires alone { IsAlone first.old.view }
    requires design { board.now.setting.design ≡ design.now }
    requires direction { board.now.setting.way ≡ direction }
    requires lists { AreReadLists design.now lists.now }
    requires some { 1 ≤ workers_in room }
    requires few { workers_in room ≤ most_workers }
    ensures own { IsOf board.now first.new }
    ensures alone { IsAlone first.new.view }
    ensures extreme { IsExtremeFixpoint direction design.now result.windows }
    ensures seen { first.new.view.seen ≡ numbers_of result.windows }
    ensures closed { (result.rounds ≡ 0) ↔ AreClosed design.now first.old.view.seen }
    ensures split { 0 < result.rounds → first.new.view.split ≡ workers_in room.entry }
    ensures few { (bound : ℕ) → IsRoundBound design.now.nets bound → result.rounds ≤ bound }
    ensures made { first.new.view.made ≡ first.old.view.made + 8 * length design.now.nets * result.rounds }
    ensures turns { AreTurns board.now.setting result.rounds first.old.view.seen (numbers_of result.windows) }
    ensures consistent { direction ≡ Narrow → (xs : List Transition) → AreConsistent design.now xs
        → LieWithin (assigned result.windows) xs }
{
    let RunRoom {
        workers,
        before,
        windows,
        unmoved,
        marks,
        groups,
    } = room;
    let mut workers = workers;
    let mut before = before;
    let mut windows = windows;
    let mut unmoved = unmoved;
    let mut marks = marks;
    let run = Run {
        board,
        design,
        lists,
        direction,
        gate,
    };
    let rounds = run_rounds(
        rt,
        &run,
        groups.as_slice(),
        &mut workers,
        first,
        &mut before,
        &mut windows,
        unmoved.as_mut_slice(),
        marks.as_mut_slice(),
    );
    Settled { windows, rounds }
}

/// Looks at all words of a board by its first pass, and while they are not closed makes a round of this many workers in
/// threads of their own. The windows that then are in the words are the least fixpoint in widening and the greatest
/// in narrowing, whatever the workers do when, and in narrowing all transitions that explain one another lie within
/// them. No run makes more rounds than the design's bound. Each round publishes the words of all nets once, so the pass
/// then knows of exactly eight publications more for each net and round that is counted. Each began at words that are
/// not closed, and carries them at least as far as the operator does.
/// All memory is taken before the first look: where there is none, nothing was done.
pub fn settle<R: Threads + Sync, G: Gate>(
    rt: &R,
    alloc: Global,
    board: &SharedBoard,
    first: &mut Pass,
    design: &Design,
    lists: &ReadLists,
    direction: Direction,
    workers: u32,
    gate: &G,
) -> Result<Settled, NoMemory>
    requires own { IsOf board.now first.old }
    requires alone { IsAlone first.old.view }
    requires design { board.now.setting.design ≡ design.now }
    requires direction { board.now.setting.way ≡ direction }
    requires lists { AreReadLists design.now lists.now }
    requires some { 1 ≤ workers }
    requires few { workers ≤ most_workers }
    ensures own { IsOf board.now first.new }
    ensures alone { IsAlone first.new.view }
    ensures extreme { IfOk result (λ settled. IsExtremeFixpoint direction design.now settled.windows) }
    ensures seen { IfOk result (λ settled. first.new.view.seen ≡ numbers_of settled.windows) }
    ensures closed { IfOk result (λ settled. (settled.rounds ≡ 0) ↔ AreClosed design.now first.old.view.seen) }
    ensures split { IfOk result (λ settled. 0 < settled.rounds → first.new.view.split ≡ workers) }
    ensures few { IfOk result (λ settled. (bound : ℕ) → IsRoundBound design.now.nets bound → settled.rounds ≤ bound) }
    ensures made { IfOk result (λ settled. first.new.view.made
        ≡ first.old.view.made + 8 * length design.now.nets * settled.rounds) }
    ensures turns { IfOk result (λ settled. AreTurns board.now.setting settled.rounds first.old.view.seen
        (numbers_of settled.windows)) }
    ensures consistent { direction ≡ Narrow → IfOk result (λ settled. (xs : List Transition)
        → AreConsistent design.now xs → LieWithin (assigned settled.windows) xs) }
    ensures untouched { IfErr result (λ _. first.new ≡ first.old) }
{
    let room = RunRoom::new(alloc, design, lists, workers)?;
    Ok(settle_in(rt, room, board, first, design, lists, direction, gate))
}
