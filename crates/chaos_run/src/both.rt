//! The least and the greatest windows of a design, by two runs.

ghost use Rattle.std.specs.Prelude.{◌≡◌, ◌↔◌, ℕ, ◌≤◌, List, IfOk};
ghost use Rattle.xt_model.specs.declared.direction.Direction.TheVariants.{Narrow, Widen};
ghost use Rattle.xt_model.specs.Limits.{most_workers};
ghost use Rattle.xt_model.specs.Build.{IsRoundBound};
ghost use Rattle.xt_model.specs.Assign.{assigned};
ghost use Rattle.xt_meaning.specs.Barrier.{IsFittingStart};
ghost use Rattle.xt_meaning.specs.Fixpoint.{IsFixpoint, IsLeastFixpoint, IsGreatestFixpoint};
ghost use Rattle.xt_meaning.specs.Laws.{IsExtremeFixpoint, quiet_windows};
ghost use Rattle.xt_meaning.specs.Words.{numbers_of};
ghost use Rattle.run_laws.specs.Transitions.{Transition, AreConsistent};
ghost use Rattle.run_laws.specs.Laws.{LieWithin};
ghost use Rattle.net_eval.specs.ReadLists.{AreReadLists};
ghost use Rattle.chaos_core.specs.Rounds.{AreTurns};
ghost use Rattle.chaos_run.specs.Rounds.{IsRoomFor, SettlesAlone, workers_in};

use crate::settling::settle_in;
use crate::workers::RunRoom;
use chaos_core::{Gate, Settled, settle_picked};
use envelope::quiet;
use net_eval::ReadLists;
use std::alloc::Global;
use std::thread::Threads;
use window_words::SharedBoard;
use xt_model::{Design, Direction, NoMemory, Windows};

/// The least and the greatest windows of a design, and the rounds that each took.
#[derive(Debug, Drop)]
pub struct Both {
    pub low: Windows,
    pub high: Windows,
    pub low_rounds: u64,
    pub high_rounds: u64,
}

/// A run as by [`settle_from`] of several workers, in a room that is there already. Fails only for want of memory, and
/// takes none but for its words.
pub fn settle_from_in<R: Threads + Sync, G: Gate>(
    rt: &R,
    alloc: Global,
    room: RunRoom<'_>,
    design: &Design,
    lists: &ReadLists,
    direction: Direction,
    start: &Windows,
    gate: &G,
) -> Result<Settled, NoMemory>
    requires room { IsRoomFor design.now lists.now room }
    requires start { IsFittingStart direction design.now start.now }
    requires lists { AreReadLists design.now lists.now }
    requires some { 1 ≤ workers_in room }
    requires few { workers_in room ≤ most_workers }
    ensures extreme { IfOk result (λ settled. IsExtremeFixpoint direction design.now settled.windows) }
    ensures closed { IfOk result (λ settled. (settled.rounds ≡ 0) ↔ IsFixpoint design.now start.now) }
    ensures few { IfOk result (λ settled. (bound : ℕ) → IsRoundBound design.now.nets bound → settled.rounds ≤ bound) }
    ensures turns { IfOk result (λ settled. AreTurns
        (record { design = design.now; way = direction; start = start.now }) settled.rounds
        (numbers_of start.now) (numbers_of settled.windows)) }
    ensures consistent { direction ≡ Narrow → IfOk result (λ settled. (xs : List Transition)
        → AreConsistent design.now xs → LieWithin (assigned settled.windows) xs) }
{
    let (board, mut first) = SharedBoard::open(alloc, design, direction, start)?;
    Ok(settle_in(rt, room, &board, &mut first, design, lists, direction, gate))
}

/// A run from a fitting start on words of its own, with this many workers: several run in threads of their own on a
/// board that they share, and pass the gate in each round; one alone takes its turns on words in memory, and passes no
/// gate. The windows are then the least fixpoint in widening and the greatest in narrowing, whatever the workers, and
/// in narrowing all transitions that explain one another lie within them. The run makes no more rounds than the
/// design's bound, and none just where its start is a fixpoint; one worker alone makes the fewest of the machine's
/// after which the words are closed. Fails only for want of memory.
pub fn settle_from<R: Threads + Sync, G: Gate>(
    rt: &R,
    alloc: Global,
    design: &Design,
    lists: &ReadLists,
    direction: Direction,
    start: &Windows,
    workers: u32,
    gate: &G,
) -> Result<Settled, NoMemory>
    requires start { IsFittingStart direction design.now start.now }
    requires lists { AreReadLists design.now lists.now }
    requires some { 1 ≤ workers }
    requires few { workers ≤ most_workers }
    ensures extreme { IfOk result (λ settled. IsExtremeFixpoint direction design.now settled.windows) }
    ensures closed { IfOk result (λ settled. (settled.rounds ≡ 0) ↔ IsFixpoint design.now start.now) }
    ensures few { IfOk result (λ settled. (bound : ℕ) → IsRoundBound design.now.nets bound → settled.rounds ≤ bound) }
    ensures turns { IfOk result (λ settled. AreTurns
        (record { design = design.now; way = direction; start = start.now }) settled.rounds
        (numbers_of start.now) (numbers_of settled.windows)) }
    ensures alone { workers ≡ 1 → IfOk result (λ settled. SettlesAlone
        (record { design = design.now; way = direction; start = start.now }) lists.now settled.windows settled.rounds) }
    ensures consistent { direction ≡ Narrow → IfOk result (λ settled. (xs : List Transition)
        → AreConsistent design.now xs → LieWithin (assigned settled.windows) xs) }
{
    if workers == 1 {
        return settle_picked(alloc, design, lists, direction, start, 1, 0);
    }
    let room = RunRoom::new(alloc, design, lists, workers)?;
    settle_from_in(rt, alloc, room, design, lists, direction, start, gate)
}

/// Runs twice, each time with this many workers: wider from windows in which nothing switches, and narrower from `top`.
/// Several workers run in threads of their own, and pass the gate in each round; one alone takes its turns on words in
/// memory, and passes no gate.
/// The windows are the least and the greatest fixpoint, whatever the workers, and all transitions that explain one
/// another lie within the greatest. Neither run makes more rounds than the design's bound, and it makes none just where
/// its start is a fixpoint.
pub fn run_both<R: Threads + Sync, G: Gate>(
    rt: &R,
    alloc: Global,
    design: &Design,
    lists: &ReadLists,
    top: &Windows,
    workers: u32,
    gate: &G,
) -> Result<Both, NoMemory>
    requires start { IsFittingStart Narrow design.now top.now }
    requires lists { AreReadLists design.now lists.now }
    requires some { 1 ≤ workers }
    requires few { workers ≤ most_workers }
    ensures least { IfOk result (λ both. IsLeastFixpoint design.now both.low) }
    ensures greatest { IfOk result (λ both. IsGreatestFixpoint design.now both.high) }
    ensures low_closed { IfOk result (λ both. (both.low_rounds ≡ 0)
        ↔ IsFixpoint design.now (quiet_windows design.now)) }
    ensures high_closed { IfOk result (λ both. (both.high_rounds ≡ 0) ↔ IsFixpoint design.now top.now) }
    ensures few { IfOk result (λ both. (bound : ℕ) → IsRoundBound design.now.nets bound
        → (both.low_rounds ≤ bound) × (both.high_rounds ≤ bound)) }
    ensures low_turns { IfOk result (λ both. AreTurns
        (record { design = design.now; way = Widen; start = quiet_windows design.now }) both.low_rounds
        (numbers_of (quiet_windows design.now)) (numbers_of both.low)) }
    ensures high_turns { IfOk result (λ both. AreTurns
        (record { design = design.now; way = Narrow; start = top.now }) both.high_rounds
        (numbers_of top.now) (numbers_of both.high)) }
    ensures low_alone { workers ≡ 1 → IfOk result (λ both. SettlesAlone
        (record { design = design.now; way = Widen; start = quiet_windows design.now }) lists.now both.low
        both.low_rounds) }
    ensures high_alone { workers ≡ 1 → IfOk result (λ both. SettlesAlone
        (record { design = design.now; way = Narrow; start = top.now }) lists.now both.high both.high_rounds) }
    ensures consistent { IfOk result (λ both. (xs : List Transition) → AreConsistent design.now xs
        → LieWithin (assigned both.high) xs) }
{
    let low = {
        let bottom = quiet(alloc, design)?;
        settle_from(
            rt,
            alloc,
            design,
            lists,
            Direction::Widen,
            &bottom,
            workers,
            gate,
        )?
    };
    let high = settle_from(
        rt,
        alloc,
        design,
        lists,
        Direction::Narrow,
        top,
        workers,
        gate,
    )?;
    Ok(Both {
        low: low.windows,
        high: high.windows,
        low_rounds: low.rounds,
        high_rounds: high.rounds,
    })
}
