//! How the runs of a design are made, and the windows in which they end.

ghost use Rattle.std.specs.Prelude.{◌≡◌, ◌↔◌, ◌<◌, IfOk, IfSome, IsTrue};
ghost use Rattle.std.specs.Thread.{IsSync};
ghost use Rattle.xt_model.specs.declared.direction.Direction.TheVariants.{Narrow, Widen};
ghost use Rattle.xt_model.specs.Parts.{Parts};
ghost use Rattle.xt_meaning.specs.Barrier.{IsFittingStart};
ghost use Rattle.net_eval.specs.ReadLists.{AreReadLists};
ghost use Rattle.dirty_words.specs.Readers.{AreReaders};
ghost use Rattle.command_line.specs.Words.{IsWorkerCount};
ghost use Rattle.xtalk_top.specs.Runs.{high_end, low_end, turns_by, IsEndOf, IsRoomOf};
ghost use Rattle.xtalk_top.specs.declared.runs.Turns.TheVariants.{InThreads};

use chaos_core::{Gate, Settled, settle_picked};
use chaos_run::{Both, RunRoom, settle_from, settle_from_in};
use command_line::Engine;
use dirty_run::{settle_dirty_among, settle_dirty_from};
use dirty_words::{Readers, readers};
use net_eval::ReadLists;
use std::alloc::Global;
use std::thread::{Threads, join};
use xt_model::Direction::{Narrow, Widen};
use xt_model::{Design, Direction, NoMemory, Windows};

/// Where and in which order workers take their turns.
#[derive(Clone, Copy)]
pub enum Turns {
    /// Several in threads of their own, which pass a gate in each round; one alone in this thread, and it passes none.
    InThreads,
    /// All in this thread, as a source that starts at this number picks them.
    Picked(u64),
    /// By marks, several in threads of their own, one alone in this thread. Each passes a gate in each round. A net is
    /// evaluated only where its mark is set.
    ByMarks,
}

impl Turns {
    /// The turns of workers in threads, by an engine.
    pub fn by(engine: Engine) -> Turns
        ensures { result ≡ turns_by engine }
    {
        match engine {
            Engine::Rounds => Turns::InThreads,
            Engine::Marks => Turns::ByMarks,
        }
    }
}

/// How the runs of a design are made: by how many workers each, from 1 to 64, and how these take turns.
#[derive(Clone, Copy)]
pub struct Runs {
    pub workers: u32,
    pub turns: Turns,
}

// The readers of the read lists, where several workers run by marks, for all runs on them.
fn readers_for(alloc: Global, lists: &ReadLists, runs: Runs) -> Result<Option<Readers>, NoMemory>
    ensures { IfOk result (λ readers. IfSome readers
        (λ some. (d : Parts) → AreReadLists d lists.now → AreReaders lists.now some)) }
{
    match runs.turns {
        Turns::ByMarks if 1 < runs.workers => Ok(Some(readers(alloc, lists)?)),
        _ => Ok(None),
    }
}

/// A run from a fitting start by this many workers in threads, by rounds, in a room where there is one for it. Fails
/// only for want of memory.
fn run_in_threads<R: Threads + Sync, G: Gate>(
    rt: &R,
    alloc: Global,
    gate: &G,
    design: &Design,
    lists: &ReadLists,
    room: Option<RunRoom<'_>>,
    direction: Direction,
    start: &Windows,
    workers: u32,
) -> Result<Settled, NoMemory>
    requires start { IsFittingStart direction design.now start.now }
    requires lists { AreReadLists design.now lists.now }
    requires room { IfSome room (IsRoomOf design.now lists.now workers) }
    requires workers { IsWorkerCount workers }
    ensures { IfOk result (IsEndOf direction design.now InThreads start.now) }
{
    match room {
        Some(room) => settle_from_in(rt, alloc, room, design, lists, direction, start, gate),
        None => settle_from(rt, alloc, design, lists, direction, start, workers, gate),
    }
}

/// A run from a fitting start, by readers of the read lists where it is by marks and they are known. Fails only for
/// want of memory.
fn run_from<R: Threads + Sync, G: Gate>(
    rt: &R,
    alloc: Global,
    gate: &G,
    design: &Design,
    lists: &ReadLists,
    readers: Option<&Readers>,
    direction: Direction,
    start: &Windows,
    runs: Runs,
) -> Result<Settled, NoMemory>
    requires start { IsFittingStart direction design.now start.now }
    requires lists { AreReadLists design.now lists.now }
    requires readers { IfSome readers (λ some. AreReaders lists.now some.now) }
    requires workers { IsWorkerCount runs.workers }
    ensures { IfOk result (IsEndOf direction design.now runs.turns start.now) }
{
    let Runs { workers, turns } = runs;
    match turns {
        Turns::InThreads => run_in_threads(
            rt, alloc, gate, design, lists, None, direction, start, workers,
        ),
        Turns::Picked(number) => settle_picked(
            alloc, design, lists, direction, start, workers, number,
        ),
        Turns::ByMarks => match readers {
            Some(readers) => settle_dirty_among(
                rt, alloc, design, lists, readers, direction, start, workers, gate,
            ),
            None => settle_dirty_from(rt, alloc, design, lists, direction, start, workers, gate),
        },
    }
}

/// What a run that widens and one that narrows have ended in.
fn both_of(least: Settled, greatest: Settled) -> Both
    ensures low { low_end result ≡ least }
    ensures high { high_end result ≡ greatest }
{
    Both {
        low: least.windows,
        high: greatest.windows,
        low_rounds: least.rounds,
        high_rounds: greatest.rounds,
    }
}

/// Whether both runs are made at the same time: those of several workers by rounds in threads.
pub fn are_at_once(runs: Runs) -> bool
    ensures { IsTrue result ↔ ((runs.turns ≡ InThreads) × (1 < runs.workers)) }
{
    matches!(runs.turns, Turns::InThreads) && 1 < runs.workers
}

/// Both runs by rounds in threads at the same time, the wider one in a further thread, each by all workers, and in a
/// room where there is one for it. Where no thread can be had for it, it is made after the narrower one. Fails only for
/// want of memory, when both have ended.
pub fn both_at_once<R: Threads + Sync, G: Gate>(
    rt: &R,
    alloc: Global,
    gate: &G,
    design: &Design,
    lists: &ReadLists,
    rooms: (Option<RunRoom<'_>>, Option<RunRoom<'_>>),
    low: &Windows,
    high: &Windows,
    workers: u32,
) -> Result<Both, NoMemory>
    requires low { IsFittingStart Widen design.now low.now }
    requires high { IsFittingStart Narrow design.now high.now }
    requires lists { AreReadLists design.now lists.now }
    requires workers { IsWorkerCount workers }
    requires low_room { IfSome rooms.0 (IsRoomOf design.now lists.now workers) }
    requires high_room { IfSome rooms.1 (IsRoomOf design.now lists.now workers) }
    ensures least { IfOk result (λ found. IsEndOf Widen design.now InThreads low.now (low_end found)) }
    ensures greatest { IfOk result (λ found. IsEndOf Narrow design.now InThreads high.now (high_end found)) }
{
    let (low_room, high_room) = rooms;
    let (least, greatest) = join(
        rt,
        move || -> Result<Settled, NoMemory>
            requires { IsSync R.row × IsFittingStart Widen design.now low.now × AreReadLists design.now lists.now
                × IsWorkerCount workers × IfSome low_room (IsRoomOf design.now lists.now workers) }
            ensures { IfOk result (IsEndOf Widen design.entry.now InThreads low.entry.now) }
        {
            run_in_threads(
                rt, alloc, gate, design, lists, low_room, Widen, low, workers,
            )
        },
        move || -> Result<Settled, NoMemory>
            requires { IsSync R.row × IsFittingStart Narrow design.now high.now × AreReadLists design.now lists.now
                × IsWorkerCount workers × IfSome high_room (IsRoomOf design.now lists.now workers) }
            ensures { IfOk result (IsEndOf Narrow design.entry.now InThreads high.entry.now) }
        {
            run_in_threads(
                rt, alloc, gate, design, lists, high_room, Narrow, high, workers,
            )
        },
    );
    let least = least?;
    let greatest = greatest?;
    Ok(both_of(least, greatest))
}

/// Runs twice, wider from `low` and narrower from `high`: to the least and the greatest windows of a design, in rounds
/// within its bound, or by marks within one more. By rounds in threads a run makes none just where its start is a
/// fixpoint, and with several workers both runs are made at the same time. Fails only for want of memory.
pub fn both_from<R: Threads + Sync, G: Gate>(
    rt: &R,
    alloc: Global,
    gate: &G,
    design: &Design,
    lists: &ReadLists,
    low: &Windows,
    high: &Windows,
    runs: Runs,
) -> Result<Both, NoMemory>
    requires low { IsFittingStart Widen design.now low.now }
    requires high { IsFittingStart Narrow design.now high.now }
    requires lists { AreReadLists design.now lists.now }
    requires workers { IsWorkerCount runs.workers }
    ensures least { IfOk result (λ found. IsEndOf Widen design.now runs.turns low.now (low_end found)) }
    ensures greatest { IfOk result (λ found. IsEndOf Narrow design.now runs.turns high.now (high_end found)) }
{
    if are_at_once(runs) {
        return both_at_once(
            rt,
            alloc,
            gate,
            design,
            lists,
            (None, None),
            low,
            high,
            runs.workers,
        );
    }
    let readers = readers_for(alloc, lists, runs)?;
    let readers = readers.as_ref();
    let least = run_from(rt, alloc, gate, design, lists, readers, Widen, low, runs)?;
    let greatest = run_from(rt, alloc, gate, design, lists, readers, Narrow, high, runs)?;
    Ok(both_of(least, greatest))
}
