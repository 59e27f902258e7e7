//! A whole run on a board with marks: looks at the marks, and rounds until none is set.

ghost use Rattle.std.specs.Prelude.{◌≡◌, ℕ, ◌+◌, ◌*◌, ◌<◌, ◌≤◌, List, length, IfErr, IfOk};
ghost use Rattle.std.specs.List.{Contains};
ghost use Rattle.xt_model.specs.declared.direction.Direction.TheVariants.{Narrow};
ghost use Rattle.xt_model.specs.Limits.{most_workers};
ghost use Rattle.xt_model.specs.Build.{IsRoundBound};
ghost use Rattle.xt_model.specs.Assign.{assigned};
ghost use Rattle.xt_meaning.specs.Laws.{IsExtremeFixpoint};
ghost use Rattle.xt_meaning.specs.Words.{numbers_of};
ghost use Rattle.run_laws.specs.Transitions.{Transition, AreConsistent};
ghost use Rattle.run_laws.specs.Laws.{LieWithin};
ghost use Rattle.net_eval.specs.ReadLists.{AreReadLists};
ghost use Rattle.chaos_core.specs.Memories.{AreKept};
ghost use Rattle.chaos_core.specs.Rounds.{AreClosed};
ghost use Rattle.dirty_words.specs.Readers.{AreReaders};
ghost use Rattle.dirty_words.specs.Boards.{IsAlone, IsFree, IsOf};
ghost use Rattle.dirty_run.specs.Visits.{IsRun};
ghost use Rattle.dirty_run.specs.Rounds.{AreIdle, AreMarkedTurns, IsRoomFor, workers_in};

use crate::look::look;
use crate::round::round;
use crate::worker::{DirtyRoom, Run, Workers};
use chaos_core::{Gate, Settled, set_pairs};
use dirty_words::{DirtyBoard, DirtyPass, Readers};
use net_eval::ReadLists;
use std::alloc::Global;
use std::thread::Threads;
use xt_model::{Design, Direction, NoMemory};

/// Looks at all marks, and makes rounds until none is set. Gives how many rounds were made. Takes no memory.
fn run_rounds<R: Threads + Sync, G: Gate>(
    rt: &R,
    run: &Run<'_, G>,
    workers: &mut Workers,
    first: &mut DirtyPass,
) -> u64
    requires run { IsRun run.now.board.now run.now.design.now run.now.groups.now
        run.now.lists.now run.now.readers.now run.now.direction }
    requires own { IsOf run.now.board.now first.old }
    requires alone { IsAlone first.old.view }
    requires free { IsFree first.old.view }
    requires idle { AreIdle run.now.design.now run.now.lists.now workers.old }
    requires some { 0 < length workers.old.idle.items }
    requires few { length workers.old.idle.items ≤ most_workers }
    ensures own { IsOf run.now.board.now first.new }
    ensures alone { IsAlone first.new.view }
    ensures free { IsFree first.new.view }
    ensures clear { (net : ℕ) → net < length run.now.design.now.nets → Contains first.new.view.clear net }
    ensures kept { AreKept run.now.board.now.run.setting first.new.view.base.seen }
    ensures closed { AreClosed run.now.design.now first.new.view.base.seen }
    ensures split { 0 < result → first.new.view.base.split ≡ length workers.old.idle.items }
    ensures few { (bound : ℕ) → IsRoundBound run.now.design.now.nets bound → result ≤ bound + 1 }
    ensures made { first.new.view.base.made
        ≤ first.old.view.base.made + 8 * length run.now.design.now.nets * result }
    ensures turns { AreMarkedTurns run.now.board.now.run.setting result
        first.old.view.base.seen first.new.view.base.seen }
{
    let nets = run.design.nets().len() as u32;
    let bound = run.design.bound();
    let mut any = look(run.board, first, nets);
    let mut rounds: u64 = 0;
    'rounds: while any {
        prove!(rounds <= bound);
        rounds += 1;
        round(rt, run, workers, first, rounds);
        any = look(run.board, first, nets);
    }
    rounds
}

/// A run as by [`settle_dirty`], in a room that is there already: it takes no memory.
pub fn settle_dirty_in<R: Threads + Sync, G: Gate>(
    rt: &R,
    room: DirtyRoom,
    board: &DirtyBoard,
    first: &mut DirtyPass,
    design: &Design,
    lists: &ReadLists,
    readers: &Readers,
    direction: Direction,
    gate: &G,
) -> Settled
    requires room { IsRoomFor design.now lists.now room }
    requires own { IsOf board.now first.old }
    requires alone { IsAlone first.old.view }
    requires free { IsFree first.old.view }
    requires design { board.now.run.setting.design ≡ design.now }
    requires direction { board.now.run.setting.way ≡ direction }
    requires lists { AreReadLists design.now lists.now }
    requires readers { AreReaders lists.now readers.now }
    requires some { 1 ≤ workers_in room }
    requires few { workers_in room ≤ most_workers }
    ensures own { IsOf board.now first.new }
    ensures alone { IsAlone first.new.view }
    ensures free { IsFree first.new.view }
    ensures clear { (net : ℕ) → net < length design.now.nets → Contains first.new.view.clear net }
    ensures extreme { IsExtremeFixpoint direction design.now result.windows }
    ensures seen { first.new.view.base.seen ≡ numbers_of result.windows }
    ensures split { 0 < result.rounds → first.new.view.base.split ≡ workers_in room }
    ensures few { (bound : ℕ) → IsRoundBound design.now.nets bound → result.rounds ≤ bound + 1 }
    ensures made { first.new.view.base.made
        ≤ first.old.view.base.made + 8 * length design.now.nets * result.rounds }
    ensures turns { AreMarkedTurns board.now.run.setting result.rounds
        first.old.view.base.seen (numbers_of result.windows) }
    ensures consistent { direction ≡ Narrow → (xs : List Transition) → AreConsistent design.now xs
        → LieWithin (assigned result.windows) xs }
{
    // The read lists with which the board was opened are those of its design, and a design has one read list a net.
    board.has_read_lists();
    let DirtyRoom {
        groups,
        workers,
        windows,
        words,
    } = room;
    let mut workers = workers;
    let mut windows = windows;
    let mut words = words;
    let groups = groups.as_slice();
    let run = Run {
        board,
        design,
        groups,
        lists,
        readers,
        direction,
        gate,
    };
    let rounds = run_rounds(rt, &run, &mut workers, first);
    board.load_words(first, &mut words);
    set_pairs(&mut windows, words.as_slice());
    Settled { windows, rounds }
}

/// Looks at the marks of a board by its first pass, and while one is set makes a round of this many workers in threads
/// of their own: a net that is drawn is taken, and where its mark was set, it is evaluated and published, and where a
/// word moved, its readers are marked. Where no mark is left, every net is known to be clear, and the windows that then
/// are in the words are the least fixpoint in widening and the greatest in narrowing, whatever the workers do when; and
/// in narrowing all transitions that explain one another lie within them. The run makes at most one round more than the
/// design's bound, since marks may be left where the words are closed: each round but the last began at words that were
/// not closed. None publishes more than the words of all nets once a round. All memory is taken before the first look:
/// where there is none, nothing was done. The read lists are the design's, and the readers are theirs.
pub fn settle_dirty<R: Threads + Sync, G: Gate>(
    rt: &R,
    alloc: Global,
    board: &DirtyBoard,
    first: &mut DirtyPass,
    design: &Design,
    lists: &ReadLists,
    readers: &Readers,
    direction: Direction,
    workers: u32,
    gate: &G,
) -> Result<Settled, NoMemory>
    requires own { IsOf board.now first.old }
    requires alone { IsAlone first.old.view }
    requires free { IsFree first.old.view }
    requires design { board.now.run.setting.design ≡ design.now }
    requires direction { board.now.run.setting.way ≡ direction }
    requires lists { AreReadLists design.now lists.now }
    requires readers { AreReaders lists.now readers.now }
    requires some { 1 ≤ workers }
    requires few { workers ≤ most_workers }
    ensures own { IsOf board.now first.new }
    ensures alone { IsAlone first.new.view }
    ensures free { IsFree first.new.view }
    ensures clear { IfOk result (λ _. (net : ℕ) → net < length design.now.nets → Contains first.new.view.clear net) }
    ensures extreme { IfOk result (λ settled. IsExtremeFixpoint direction design.now settled.windows) }
    ensures seen { IfOk result (λ settled. first.new.view.base.seen ≡ numbers_of settled.windows) }
    ensures split { IfOk result (λ settled. 0 < settled.rounds → first.new.view.base.split ≡ workers) }
    ensures few { IfOk result (λ settled. (bound : ℕ) → IsRoundBound design.now.nets bound
        → settled.rounds ≤ bound + 1) }
    ensures made { IfOk result (λ settled. first.new.view.base.made
        ≤ first.old.view.base.made + 8 * length design.now.nets * settled.rounds) }
    ensures turns { IfOk result (λ settled. AreMarkedTurns board.now.run.setting settled.rounds
        first.old.view.base.seen (numbers_of settled.windows)) }
    ensures consistent { direction ≡ Narrow → IfOk result (λ settled. (xs : List Transition)
        → AreConsistent design.now xs → LieWithin (assigned settled.windows) xs) }
    ensures untouched { IfErr result (λ _. first.new ≡ first.old) }
{
    let room = DirtyRoom::new(alloc, design, lists, workers)?;
    Ok(settle_dirty_in(
        rt, room, board, first, design, lists, readers, direction, gate,
    ))
}
