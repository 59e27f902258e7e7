//! The least and the greatest windows of a design after an edit.

ghost use Rattle.std.specs.Prelude.{◌≡◌, ◌↔◌, ℕ, ◌≤◌, IfOk};
ghost use Rattle.xt_model.specs.Build.{IsRoundBound};
ghost use Rattle.xt_meaning.specs.Envelope.{IsAccepted, IsEnvelope};
ghost use Rattle.xt_meaning.specs.Fixpoint.{IsFixpoint, IsGreatestFixpoint, IsLeastFixpoint};
ghost use Rattle.eco_warm.specs.Starts.{IsAfterEdit, high_start, low_start};
ghost use Rattle.command_line.specs.Words.{IsWorkerCount};

use crate::runs::{Runs, Turns, both_from};
use chaos_core::Gate;
use chaos_run::Both;
use eco_warm::{Edited, StartWindows, starts};
use net_eval::read_lists;
use std::alloc::Global;
use std::thread::Threads;
use xt_model::{Design, NoMemory, Windows};

/// The least and the greatest windows of a design after an edit, from those of the design before it and the envelope of
/// the design after it, by this many workers, from 1 to 64: runs from where `starts` says. Neither makes more rounds
/// than the design's bound, and it makes none just where its start is a fixpoint. Fails only for want of memory.
pub fn warm<R: Threads + Sync, G: Gate>(
    rt: &R,
    alloc: Global,
    before: &Design,
    after: &Edited,
    old: &Both,
    top: &Windows,
    workers: u32,
    gate: &G,
) -> Result<Both, NoMemory>
    requires edit { IsAfterEdit before.now after.now.design after.now.change }
    requires low { IsLeastFixpoint before.now old.now.low }
    requires high { IsGreatestFixpoint before.now old.now.high }
    requires envelope { IsEnvelope after.now.design top.now }
    requires accepted { IsAccepted after.now.design top.now }
    requires workers { IsWorkerCount workers }
    ensures least { IfOk result (λ both. IsLeastFixpoint after.now.design both.low) }
    ensures greatest { IfOk result (λ both. IsGreatestFixpoint after.now.design both.high) }
    ensures low_closed { IfOk result (λ both. (both.low_rounds ≡ 0)
        ↔ IsFixpoint after.now.design (low_start after.now.change after.now.design old.now.low)) }
    ensures high_closed { IfOk result (λ both. (both.high_rounds ≡ 0)
        ↔ IsFixpoint after.now.design (high_start after.now.change old.now.high top.now)) }
    ensures few { IfOk result (λ both. (bound : ℕ) → IsRoundBound after.now.design.nets bound
        → (both.low_rounds ≤ bound) × (both.high_rounds ≤ bound)) }
{
    let StartWindows { low, high } = starts(alloc, before, after, &old.low, &old.high, top)?;
    let design = &after.design;
    let lists = read_lists(alloc, design)?;
    let turns = Turns::InThreads;
    let runs = Runs { workers, turns };
    both_from(rt, alloc, gate, design, &lists, &low, &high, runs)
}
