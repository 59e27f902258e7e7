//! A run by marks on words of its own.

ghost use Rattle.std.specs.Prelude.{◌≡◌, ℕ, ◌+◌, ◌≤◌, List, IfOk};
ghost use Rattle.xt_model.specs.declared.direction.Direction.TheVariants.{Narrow};
ghost use Rattle.xt_model.specs.Limits.{most_workers};
ghost use Rattle.xt_model.specs.Build.{IsRoundBound};
ghost use Rattle.xt_model.specs.Assign.{assigned};
ghost use Rattle.xt_meaning.specs.Barrier.{IsFittingStart};
ghost use Rattle.xt_meaning.specs.Laws.{IsExtremeFixpoint};
ghost use Rattle.xt_meaning.specs.Words.{numbers_of};
ghost use Rattle.run_laws.specs.Transitions.{Transition, AreConsistent};
ghost use Rattle.run_laws.specs.Laws.{LieWithin};
ghost use Rattle.net_eval.specs.ReadLists.{AreReadLists};
ghost use Rattle.dirty_words.specs.Readers.{AreReaders};
ghost use Rattle.dirty_run.specs.Rounds.{AreMarkedTurns};

use crate::settling::settle_dirty;
use chaos_core::{Gate, Settled, settle_alone};
use dirty_words::{DirtyBoard, Readers, readers};
use net_eval::ReadLists;
use std::alloc::Global;
use std::thread::Threads;
use xt_model::{Design, Direction, NoMemory, Windows};

/// A run by marks from a fitting start, by workers in threads of their own on a board that they share, one alone too.
/// The readers are those of the read lists, and serve every run on them. In all else it is as [`settle_dirty_from`].
pub fn settle_dirty_among<R: Threads + Sync, G: Gate>(
    rt: &R,
    alloc: Global,
    design: &Design,
    lists: &ReadLists,
    readers: &Readers,
    direction: Direction,
    start: &Windows,
    workers: u32,
    gate: &G,
) -> Result<Settled, NoMemory>
    requires start { IsFittingStart direction design.now start.now }
    requires lists { AreReadLists design.now lists.now }
    requires readers { AreReaders lists.now readers.now }
    requires some { 1 ≤ workers }
    requires few { workers ≤ most_workers }
    ensures extreme { IfOk result (λ settled. IsExtremeFixpoint direction design.now settled.windows) }
    ensures few { IfOk result (λ settled. (bound : ℕ) → IsRoundBound design.now.nets bound
        → settled.rounds ≤ bound + 1) }
    ensures turns { IfOk result (λ settled. AreMarkedTurns
        (record { design = design.now; way = direction; start = start.now }) settled.rounds
        (numbers_of start.now) (numbers_of settled.windows)) }
    ensures consistent { direction ≡ Narrow → IfOk result (λ settled. (xs : List Transition)
        → AreConsistent design.now xs → LieWithin (assigned settled.windows) xs) }
{
    let (board, mut first) = DirtyBoard::open(alloc, design, lists, direction, start)?;
    settle_dirty(
        rt, alloc, &board, &mut first, design, lists, readers, direction, workers, gate,
    )
}

/// A run from a fitting start on words of its own, by this many workers, in which a net is evaluated again only where
/// something that it reads moved: several run in threads of their own on a board that they share, by marks; one alone
/// takes its turns on words in memory. Each passes the gate in each round. The windows are then the least fixpoint in
/// widening and the greatest in narrowing, whatever the workers, and in narrowing all transitions that explain one
/// another lie within them. The run makes at most one round more than the design's bound. Fails only for want of
/// memory.
pub fn settle_dirty_from<R: Threads + Sync, G: Gate>(
    rt: &R,
    alloc: Global,
    design: &Design,
    lists: &ReadLists,
    direction: Direction,
    start: &Windows,
    workers: u32,
    gate: &G,
) -> Result<Settled, NoMemory>
    requires start { IsFittingStart direction design.now start.now }
    requires lists { AreReadLists design.now lists.now }
    requires some { 1 ≤ workers }
    requires few { workers ≤ most_workers }
    ensures extreme { IfOk result (λ settled. IsExtremeFixpoint direction design.now settled.windows) }
    ensures few { IfOk result (λ settled. (bound : ℕ) → IsRoundBound design.now.nets bound
        → settled.rounds ≤ bound + 1) }
    ensures turns { IfOk result (λ settled. AreMarkedTurns
        (record { design = design.now; way = direction; start = start.now }) settled.rounds
        (numbers_of start.now) (numbers_of settled.windows)) }
    ensures consistent { direction ≡ Narrow → IfOk result (λ settled. (xs : List Transition)
        → AreConsistent design.now xs → LieWithin (assigned settled.windows) xs) }
{
    if workers == 1 {
        return settle_alone(alloc, design, lists, direction, start, gate);
    }
    let readers = readers(alloc, lists)?;
    settle_dirty_among(
        rt, alloc, design, lists, &readers, direction, start, workers, gate,
    )
}
