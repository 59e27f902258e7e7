//! A whole run on one thread: rounds until the words are closed.

ghost use Rattle.std.specs.Prelude.{◌≡◌, ℕ, ◌<◌, ◌≤◌, List, length, IfOk};
ghost use Rattle.std.specs.List.{All};
ghost use Rattle.xt_model.specs.declared.direction.Direction.TheVariants.{Narrow};
ghost use Rattle.xt_model.specs.Levels.{IsOrder};
ghost use Rattle.xt_model.specs.Limits.{most_workers};
ghost use Rattle.xt_model.specs.Build.{IsRoundBound};
ghost use Rattle.xt_model.specs.Assign.{assigned};
ghost use Rattle.xt_meaning.specs.Barrier.{IsFittingStart};
ghost use Rattle.xt_meaning.specs.Laws.{IsExtremeFixpoint};
ghost use Rattle.xt_meaning.specs.Words.{numbers_of};
ghost use Rattle.run_laws.specs.Transitions.{Transition, AreConsistent};
ghost use Rattle.run_laws.specs.Laws.{LieWithin};
ghost use Rattle.table_box.specs.Groups.{AreGroups};
ghost use Rattle.net_eval.specs.ReadLists.{AreReadLists};
ghost use Rattle.chaos_core.specs.Knowing.{IsKnown};
ghost use Rattle.chaos_core.specs.Memories.{IsKept};
ghost use Rattle.chaos_core.specs.Rounds.{HasRoom, Settles};

use crate::gate::{Gate, OpenGate};
use crate::known::Known;
use crate::memory::MemoryBoard;
use crate::round::new_workers;
use crate::worker::Worker;
use drawn_numbers::Source;
use net_eval::ReadLists;
use std::alloc::Global;
use table_box::table_groups;
use xt_model::{Design, Direction, NoMemory, Windows};

/// The windows in which a run ended, and the rounds that it made.
#[derive(Debug, Drop)]
pub struct Settled {
    pub windows: Windows,
    pub rounds: u64,
}

/// Makes rounds on a board at its start until the words are closed. The first worker passes the gate before each. Takes
/// no memory.
fn settle_on<G: Gate>(
    board: &mut MemoryBoard,
    workers: &mut [Worker],
    windows: Windows,
    known: Known,
    design: &Design,
    groups: &[usize],
    lists: &ReadLists,
    direction: Direction,
    number: u64,
    gate: &G,
) -> Settled
    requires groups { AreGroups design.now.tables groups.now }
    requires design { board.old.setting.design ≡ design.now }
    requires direction { board.old.setting.way ≡ direction }
    requires start { board.old.words ≡ numbers_of board.old.setting.start }
    requires kept { IsKept board.old }
    requires numbers { numbers_of windows ≡ board.old.words }
    requires fits { IsFittingStart direction design.now windows }
    requires known { IsKnown design.now (length workers.old) board.old.words known }
    requires lists { AreReadLists design.now lists.now }
    requires some { 0 < length workers.old }
    requires few { length workers.old ≤ most_workers }
    requires rooms { All (HasRoom lists.now) workers.old }
    ensures extreme { IsExtremeFixpoint direction design.now result.windows }
    ensures rounds { (order : List ℕ) → IsOrder design.now.nets order
        → Settles board.old.setting lists.now order (length workers.old) number result.windows result.rounds }
    ensures few { (bound : ℕ) → IsRoundBound design.now.nets bound → result.rounds ≤ bound }
{
    let mut windows = windows;
    let mut known = known;
    let mut source = Source::new(number);
    let mut done = known.look(design, groups, &windows);
    let mut rounds: u64 = 0;
    'rounds: while !done {
        prove!(rounds < design.bound());
        rounds += 1;
        gate.pass(1, rounds);
        done = known.round(
            board,
            workers,
            design,
            groups,
            lists,
            direction,
            &mut source,
            &mut windows,
        );
    }
    Settled { windows, rounds }
}

/// Makes rounds from a fitting start, as [`settle_picked`] does; the first worker passes the gate before each.
fn settle_gated<G: Gate>(
    alloc: Global,
    design: &Design,
    lists: &ReadLists,
    direction: Direction,
    start: &Windows,
    workers: u32,
    number: u64,
    gate: &G,
) -> Result<Settled, NoMemory>
    requires start { IsFittingStart direction design.now start.now }
    requires lists { AreReadLists design.now lists.now }
    requires some { 1 ≤ workers }
    requires few { workers ≤ most_workers }
    ensures extreme { IfOk result (λ settled. IsExtremeFixpoint direction design.now settled.windows) }
    ensures rounds { IfOk result (λ settled. (order : List ℕ) → IsOrder design.now.nets order
        → Settles (record { design = design.now; way = direction; start = start.now })
        lists.now order workers number settled.windows settled.rounds) }
    ensures few { IfOk result (λ settled. (bound : ℕ) → IsRoundBound design.now.nets bound → settled.rounds ≤ bound) }
    ensures consistent { direction ≡ Narrow → IfOk result (λ settled. (xs : List Transition)
        → AreConsistent design.now xs → LieWithin (assigned settled.windows) xs) }
{
    let mut board = MemoryBoard::new(alloc, design, direction, start)?;
    let windows = board.windows(alloc)?;
    let known = Known::new(alloc, &board, design, workers)?;
    let groups = table_groups(alloc, design.tables())?;
    let mut workers = new_workers(alloc, lists, workers)?;
    Ok(settle_on(
        &mut board,
        workers.as_mut_slice(),
        windows,
        known,
        design,
        groups.as_slice(),
        lists,
        direction,
        number,
        gate,
    ))
}

/// Makes rounds from a fitting start, in each of which this many workers take turns until all are done, as numbers from
/// a source that starts at `number` pick them, until the words are closed. The windows are then the least fixpoint in
/// widening and the greatest in narrowing, whatever the workers and the number, and in narrowing all transitions that
/// explain one another lie within them. No run makes more rounds than the design's bound. All memory is taken before
/// the first look.
pub fn settle_picked(
    alloc: Global,
    design: &Design,
    lists: &ReadLists,
    direction: Direction,
    start: &Windows,
    workers: u32,
    number: u64,
) -> Result<Settled, NoMemory>
    requires start { IsFittingStart direction design.now start.now }
    requires lists { AreReadLists design.now lists.now }
    requires some { 1 ≤ workers }
    requires few { workers ≤ most_workers }
    ensures extreme { IfOk result (λ settled. IsExtremeFixpoint direction design.now settled.windows) }
    ensures rounds { IfOk result (λ settled. (order : List ℕ) → IsOrder design.now.nets order
        → Settles (record { design = design.now; way = direction; start = start.now })
        lists.now order workers number settled.windows settled.rounds) }
    ensures few { IfOk result (λ settled. (bound : ℕ) → IsRoundBound design.now.nets bound → settled.rounds ≤ bound) }
    ensures consistent { direction ≡ Narrow → IfOk result (λ settled. (xs : List Transition)
        → AreConsistent design.now xs → LieWithin (assigned settled.windows) xs) }
{
    settle_gated(
        alloc, design, lists, direction, start, workers, number, &OpenGate,
    )
}

/// A run of one worker from a fitting start, as by [`settle_picked`]; the worker passes the gate before each round.
pub fn settle_alone<G: Gate>(
    alloc: Global,
    design: &Design,
    lists: &ReadLists,
    direction: Direction,
    start: &Windows,
    gate: &G,
) -> Result<Settled, NoMemory>
    requires start { IsFittingStart direction design.now start.now }
    requires lists { AreReadLists design.now lists.now }
    ensures extreme { IfOk result (λ settled. IsExtremeFixpoint direction design.now settled.windows) }
    ensures rounds { IfOk result (λ settled. (order : List ℕ) → IsOrder design.now.nets order
        → Settles (record { design = design.now; way = direction; start = start.now })
        lists.now order 1 0 settled.windows settled.rounds) }
    ensures few { IfOk result (λ settled. (bound : ℕ) → IsRoundBound design.now.nets bound → settled.rounds ≤ bound) }
    ensures consistent { direction ≡ Narrow → IfOk result (λ settled. (xs : List Transition)
        → AreConsistent design.now xs → LieWithin (assigned settled.windows) xs) }
{
    settle_gated(alloc, design, lists, direction, start, 1, 0, gate)
}
