//! The report of a design.

ghost use Rattle.std.specs.Prelude.{IfOk, IfErr};
ghost use Rattle.xt_model.specs.Levels.{AreLevelled};
ghost use Rattle.xt_model.specs.Sound.{IsSound};
ghost use Rattle.command_line.specs.Words.{IsWorkerCount};
ghost use Rattle.call_meaning.specs.Outcome.{DesignMeans, prints};
ghost use Rattle.call_meaning.specs.Call.{IsStop};
ghost use Rattle.call_meaning.specs.Eco.{AreFound, HasEnvelope};

use crate::runs::Runs;
use crate::solution::{solved, solved_within};
use call_meaning::Stop;
use chaos_core::Gate;
use chaos_run::Both;
use report_text::{ReportKind, write_report};
use std::alloc::Global;
use std::mem;
use std::thread::Threads;
use xt_model::{Design, NoMemory, Windows};

// The report of a design whose least and greatest windows are found.
fn report_in(
    alloc: Global,
    design: &Design,
    found: &Both,
    kind: ReportKind,
) -> Result<Vec<u8>, Stop>
    requires { AreFound design.now found.now.low found.now.high }
    ensures ok { IfOk result (λ text. DesignMeans kind design.now (prints text.items)) }
    ensures stop { IfErr result (IsStop (DesignMeans kind design.now) (λ _. ⊥)) }
{
    match write_report(alloc, design, &found.low, &found.high, kind) {
        Ok(text) => Ok(text),
        Err(NoMemory) => Err(Stop::NoMemory),
    }
}

/// The report of a design whose envelope `top` keeps the limits: of its least and its greatest windows.
pub fn report_within<R: Threads + Sync, G: Gate>(
    rt: &R,
    alloc: Global,
    gate: &G,
    design: &Design,
    top: &Windows,
    kind: ReportKind,
    runs: Runs,
) -> Result<Vec<u8>, Stop>
    requires sound { IsSound design.now }
    requires levelled { AreLevelled design.now.nets }
    requires top { HasEnvelope design.now top.now }
    requires workers { IsWorkerCount runs.workers }
    ensures ok { IfOk result (λ text. DesignMeans kind design.now (prints text.items)) }
    ensures stop { IfErr result (IsStop (DesignMeans kind design.now) (λ _. ⊥)) }
{
    match solved_within(rt, alloc, gate, design, top, runs) {
        Ok(found) => report_in(alloc, design, &found, kind),
        Err(NoMemory) => Err(Stop::NoMemory),
    }
}

/// The report of a design: of its least and its greatest windows.
pub fn report<R: Threads + Sync, G: Gate>(
    rt: &R,
    alloc: Global,
    gate: &G,
    design: &Design,
    kind: ReportKind,
    runs: Runs,
) -> Result<Vec<u8>, Stop>
    requires sound { IsSound design.now }
    requires levelled { AreLevelled design.now.nets }
    requires workers { IsWorkerCount runs.workers }
    ensures ok { IfOk result (λ text. DesignMeans kind design.now (prints text.items)) }
    ensures stop { IfErr result (IsStop (DesignMeans kind design.now) (λ _. ⊥)) }
{
    let (found, lists) = solved(rt, alloc, gate, design, runs)?;
    mem::drop(lists);
    report_in(alloc, design, &found, kind)
}
