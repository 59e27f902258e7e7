//! The least and the greatest windows of a design, or the limit that it passes.

ghost use Rattle.std.specs.Prelude.{◌<◌, length, IfOk, IfErr};
ghost use Rattle.std.specs.Thread.{IsSync};
ghost use Rattle.xt_model.specs.Levels.{AreLevelled};
ghost use Rattle.xt_model.specs.Sound.{IsSound};
ghost use Rattle.net_eval.specs.ReadLists.{AreReadLists};
ghost use Rattle.envelope.specs.Firsts.{IsFaultOfEnvelope};
ghost use Rattle.envelope.specs.Renewal.{IsEnvelopeBut};
ghost use Rattle.command_line.specs.Words.{IsWorkerCount};
ghost use Rattle.xtalk_top.specs.Runs.{IsBeginning};
ghost use Rattle.call_meaning.specs.Outcome.{SolvedMeans};
ghost use Rattle.call_meaning.specs.Call.{IsStop};
ghost use Rattle.call_meaning.specs.Eco.{AreFound, HasEnvelope};

use crate::runs::{Runs, are_at_once, both_at_once, both_from};
use call_meaning::{DesignRefusal, PassedLimit, Refusal, Stop};
use chaos_core::Gate;
use chaos_run::{Both, RunRoom};
use envelope::{EnvelopeFault, envelope_by, quiet, renewed};
use net_eval::{ReadLists, read_lists};
use std::alloc::Global;
use std::thread::{Threads, join};
use xt_model::{Design, Name, NetId, NoMemory, Windows};

/// The envelope of a design, by this many threads.
pub fn envelope_of<R: Threads + Sync>(
    rt: &R,
    alloc: Global,
    design: &Design,
    threads: u32,
) -> Result<Windows, Stop>
    ensures top { IfOk result (HasEnvelope design.now) }
    ensures stop { IfErr result (IsStop (SolvedMeans (λ _. ⊥) design.now) (λ _. ⊥)) }
{
    match envelope_by(rt, alloc, design, threads) {
        Ok(top) => Ok(top),
        Err(fault) => Err(no_envelope(alloc, design, fault)),
    }
}

/// The envelope of a design, from windows that are its envelope but for two nets and those that read them.
pub fn envelope_renewed(
    alloc: Global,
    design: &Design,
    old: Windows,
    first: NetId,
    second: NetId,
) -> Result<Windows, Stop>
    requires first { first.0 < length design.now.nets }
    requires second { second.0 < length design.now.nets }
    requires old { IsEnvelopeBut design.now first.0 second.0 old }
    ensures top { IfOk result (HasEnvelope design.now) }
    ensures stop { IfErr result (IsStop (SolvedMeans (λ _. ⊥) design.now) (λ _. ⊥)) }
{
    match renewed(alloc, design, old, first, second) {
        Ok(top) => Ok(top),
        Err(fault) => Err(no_envelope(alloc, design, fault)),
    }
}

// Why a design has no envelope that keeps the limits: the first that is passed, with the name of the net.
fn no_envelope(alloc: Global, design: &Design, fault: EnvelopeFault) -> Stop
    requires { IsFaultOfEnvelope design.now fault }
    ensures { IsStop (SolvedMeans (λ _. ⊥) design.now) (λ _. ⊥) result }
{
    let EnvelopeFault::Limit { net, what, value } = fault else {
        return Stop::NoMemory;
    };
    let name = design.net(net.0 as usize).name.bytes();
    match Name::from_slice(alloc, name) {
        Ok(name) => Stop::Refused(Refusal::Design(DesignRefusal::Limit(PassedLimit {
            what,
            name: Some(name),
            value,
        }))),
        Err(_) => Stop::NoMemory,
    }
}

/// What both runs of a design begin with beside its envelope: its read lists, windows in which nothing switches, and a
/// room for each run.
#[derive(Drop)]
struct Beginning<'a> {
    lists: ReadLists,
    bottom: Windows,
    low: RunRoom<'a>,
    high: RunRoom<'a>,
}

/// What both runs of a design, each by this many workers, begin with beside its envelope.
fn begun_with<'a>(alloc: Global, design: &Design, workers: u32) -> Result<Beginning<'a>, NoMemory>
    ensures { IfOk result (IsBeginning design.now workers) }
{
    let lists = read_lists(alloc, design)?;
    let low = RunRoom::new(alloc, design, &lists, workers)?;
    let high = RunRoom::new(alloc, design, &lists, workers)?;
    let bottom = quiet(alloc, design)?;
    Ok(Beginning {
        lists,
        bottom,
        low,
        high,
    })
}

/// The least and the greatest windows of a design, from its read lists and its envelope `top`, which keeps the limits:
/// runs twice, wider from windows in which nothing switches, and narrower from `top`. Fails only for want of memory.
fn solved_by<R: Threads + Sync, G: Gate>(
    rt: &R,
    alloc: Global,
    gate: &G,
    design: &Design,
    lists: &ReadLists,
    top: &Windows,
    runs: Runs,
) -> Result<Both, NoMemory>
    requires sound { IsSound design.now }
    requires levelled { AreLevelled design.now.nets }
    requires lists { AreReadLists design.now lists.now }
    requires top { HasEnvelope design.now top.now }
    requires workers { IsWorkerCount runs.workers }
    ensures { IfOk result (λ found. AreFound design.now found.low found.high) }
{
    let bottom = quiet(alloc, design)?;
    both_from(rt, alloc, gate, design, lists, &bottom, top, runs)
}

/// The least and the greatest windows of a design, from its envelope `top`, as `solved_by` finds them.
pub fn solved_within<R: Threads + Sync, G: Gate>(
    rt: &R,
    alloc: Global,
    gate: &G,
    design: &Design,
    top: &Windows,
    runs: Runs,
) -> Result<Both, NoMemory>
    requires sound { IsSound design.now }
    requires levelled { AreLevelled design.now.nets }
    requires top { HasEnvelope design.now top.now }
    requires workers { IsWorkerCount runs.workers }
    ensures { IfOk result (λ found. AreFound design.now found.low found.high) }
{
    let lists = read_lists(alloc, design)?;
    solved_by(rt, alloc, gate, design, &lists, top, runs)
}

/// The least and the greatest windows of a design, as `solved_by` finds them, and its read lists: both runs at the same
/// time, with what they begin with made already. Fails only for want of memory.
fn solved_from<R: Threads + Sync, G: Gate>(
    rt: &R,
    alloc: Global,
    gate: &G,
    design: &Design,
    begun: Beginning<'_>,
    top: &Windows,
    workers: u32,
) -> Result<(Both, ReadLists), NoMemory>
    requires sound { IsSound design.now }
    requires levelled { AreLevelled design.now.nets }
    requires begun { IsBeginning design.now workers begun }
    requires top { HasEnvelope design.now top.now }
    requires workers { IsWorkerCount workers }
    ensures { IfOk result (λ solved. AreFound design.now solved.0.low solved.0.high) }
{
    let Beginning {
        lists,
        bottom,
        low,
        high,
    } = begun;
    let rooms = (Some(low), Some(high));
    let found = both_at_once(
        rt, alloc, gate, design, &lists, rooms, &bottom, top, workers,
    )?;
    Ok((found, lists))
}

/// The least and the greatest windows of a design, as `solved_by` finds them, and its read lists. All but the envelope
/// that the runs begin with is made beside it, in another thread.
fn solved_at_once<R: Threads + Sync, G: Gate>(
    rt: &R,
    alloc: Global,
    gate: &G,
    design: &Design,
    runs: Runs,
) -> Result<(Both, ReadLists), Stop>
    requires sound { IsSound design.now }
    requires levelled { AreLevelled design.now.nets }
    requires workers { IsWorkerCount runs.workers }
    ensures found { IfOk result (λ solved. AreFound design.now solved.0.low solved.0.high) }
    ensures stop { IfErr result (IsStop (SolvedMeans (λ _. ⊥) design.now) (λ _. ⊥)) }
{
    let workers = runs.workers;
    let (top, begun) = join(
        rt,
        move || -> Result<Windows, Stop>
            requires { IsSync R.row }
            ensures { IfOk result (HasEnvelope design.entry.now)
                × IfErr result (IsStop (SolvedMeans (λ _. ⊥) design.entry.now) (λ _. ⊥)) }
        { envelope_of(rt, alloc, design, workers) },
        move || -> Result<Beginning<'_>, NoMemory>
            ensures { IfOk result (IsBeginning design.entry.now workers) }
        { begun_with(alloc, design, workers) },
    );
    let top = top?;
    let Ok(begun) = begun else {
        return Err(Stop::NoMemory);
    };
    match solved_from(rt, alloc, gate, design, begun, &top, workers) {
        Ok(solved) => Ok(solved),
        Err(NoMemory) => Err(Stop::NoMemory),
    }
}

/// The least and the greatest windows of a design, and its read lists, or why it has none within the limits.
pub fn solved<R: Threads + Sync, G: Gate>(
    rt: &R,
    alloc: Global,
    gate: &G,
    design: &Design,
    runs: Runs,
) -> Result<(Both, ReadLists), Stop>
    requires sound { IsSound design.now }
    requires levelled { AreLevelled design.now.nets }
    requires workers { IsWorkerCount runs.workers }
    ensures found { IfOk result (λ solved. AreFound design.now solved.0.low solved.0.high) }
    ensures stop { IfErr result (IsStop (SolvedMeans (λ _. ⊥) design.now) (λ _. ⊥)) }
{
    if are_at_once(runs) {
        return solved_at_once(rt, alloc, gate, design, runs);
    }
    let top = envelope_of(rt, alloc, design, 1)?;
    let Ok(lists) = read_lists(alloc, design) else {
        return Err(Stop::NoMemory);
    };
    match solved_by(rt, alloc, gate, design, &lists, &top, runs) {
        Ok(found) => Ok((found, lists)),
        Err(NoMemory) => Err(Stop::NoMemory),
    }
}
