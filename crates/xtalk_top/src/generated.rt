//! The command `gen`.

ghost use Rattle.std.specs.Prelude.{◌≡◌, ℕ, length, IfOk, IfErr};
ghost use Rattle.std.specs.Thread.{IsSync};
ghost use Rattle.xt_model.specs.Levels.{AreLevelled, IsDepth, IsPairCount};
ghost use Rattle.xt_model.specs.Sound.{IsSound};
ghost use Rattle.text_lines.specs.Lines.{text_of};
ghost use Rattle.design_gen.specs.Laws.{IsCount};
ghost use Rattle.report_text.specs.Summary.{summary};
ghost use Rattle.command_line.specs.Words.{IsWorkerCount};
ghost use Rattle.call_meaning.specs.Outcome.{prints};
ghost use Rattle.call_meaning.specs.Call.{IsStop};
ghost use Rattle.call_meaning.specs.Gen.{GenMeans, SummaryMeans};

use crate::runs::{Runs, Turns};
use crate::solution::solved;
use call_meaning::Stop;
use chaos_core::Gate;
use command_line::GenJob;
use design_gen::{drop_design, generate_by};
use net_eval::ReadLists;
use report_text::{write_summary, write_summary_by};
use std::alloc::Global;
use std::mem;
use std::thread::{Threads, join};
use xt_model::{Design, NoMemory, Windows};

/// The fewest nets in a share that a thread counts: to begin a thread takes as long as to count some tens of nets.
const LEAST_SHARE: u32 = 256;

/// The text of the summary of a design and of its least and greatest windows. The read lists, which are not needed any
/// more, are given back beside it where several threads count, else after it.
fn written<R: Threads + Sync>(
    rt: &R,
    alloc: Global,
    design: &Design,
    low: &Windows,
    high: &Windows,
    lists: ReadLists,
    workers: u32,
) -> Result<Vec<u8>, NoMemory>
    requires low { length low.now ≡ length design.now.nets }
    requires high { length high.now ≡ length design.now.nets }
    requires workers { IsWorkerCount workers }
    ensures { IfOk result (λ text. (pairs : ℕ) × (depth : ℕ)
        × IsPairCount design.now.nets pairs × IsDepth design.now.nets depth
        × (text.items ≡ text_of (summary design.now pairs depth low.now high.now))) }
{
    // Shares are uneven: with four for each worker the last thread is not long alone.
    let shares = (4 * workers).min(design.nets().len() as u32 / LEAST_SHARE);
    if workers <= 1 || shares <= 1 {
        return write_summary(alloc, design, low, high);
    }
    let (text, ()) = join(
        rt,
        move || -> Result<Vec<u8>, NoMemory>
            requires { IsSync R.row × (length low.now ≡ length design.now.nets)
                × (length high.now ≡ length design.now.nets) }
            ensures { IfOk result (λ text. (pairs : ℕ) × (depth : ℕ)
                × IsPairCount design.entry.now.nets pairs × IsDepth design.entry.now.nets depth
                × (text.items ≡ text_of (summary design.entry.now pairs depth low.entry.now high.entry.now))) }
        { write_summary_by(rt, alloc, design, low, high, shares) },
        move || mem::drop(lists),
    );
    text
}

/// The summary of a design: of its least and its greatest windows.
fn summary<R: Threads + Sync, G: Gate>(
    rt: &R,
    alloc: Global,
    gate: &G,
    design: &Design,
    runs: Runs,
) -> Result<Vec<u8>, Stop>
    requires sound { IsSound design.now }
    requires levelled { AreLevelled design.now.nets }
    requires workers { IsWorkerCount runs.workers }
    ensures ok { IfOk result (λ text. SummaryMeans design.now (prints text.items)) }
    ensures stop { IfErr result (IsStop (SummaryMeans design.now) (λ _. ⊥)) }
{
    let (found, lists) = solved(rt, alloc, gate, design, runs)?;
    match written(
        rt,
        alloc,
        design,
        &found.low,
        &found.high,
        lists,
        runs.workers,
    ) {
        Ok(text) => Ok(text),
        Err(NoMemory) => Err(Stop::NoMemory),
    }
}

/// The summary of the generated design of the job's number and count of nets, solved by the job's workers.
pub fn summary_of_generated<R: Threads + Sync, G: Gate>(
    rt: &R,
    alloc: Global,
    gate: &G,
    job: GenJob,
) -> Result<Vec<u8>, Stop>
    requires nets { IsCount job.nets }
    requires workers { IsWorkerCount job.workers }
    ensures ok { IfOk result (λ text. GenMeans job (prints text.items)) }
    ensures stop { IfErr result (IsStop (GenMeans job) (λ _. ⊥)) }
{
    let GenJob {
        number,
        nets,
        workers,
    } = job;
    let turns = Turns::InThreads;
    let runs = Runs { workers, turns };
    match generate_by(rt, alloc, number, nets, workers) {
        Ok(design) => {
            let text = summary(rt, alloc, gate, &design, runs);
            drop_design(rt, alloc, design, workers);
            text
        }
        Err(NoMemory) => Err(Stop::NoMemory),
    }
}
