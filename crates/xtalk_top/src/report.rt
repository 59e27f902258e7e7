//! The command `report`.

ghost use Rattle.std.specs.Prelude.{◌≡◌, IfErr};
ghost use Rattle.command_line.specs.Words.{Text, IsWorkerCount};
ghost use Rattle.call_meaning.specs.Outcome.{prints};
ghost use Rattle.call_meaning.specs.Opened.{FailsAfter, HasValue, OpensFirst, block_files};
ghost use Rattle.call_meaning.specs.Call.{Answers};
ghost use Rattle.call_meaning.specs.Report.{ReportMeans};
ghost use Rattle.call_meaning.specs.declared.refusal.Failure.TheVariants.{NoText};

use crate::counted::counted_by;
use crate::design_report::report;
use crate::runs::{Runs, Turns};
use call_files::read_block;
use call_meaning::Stop;
use chaos_core::Gate;
use command_line::ReportJob;
use std::alloc::Global;
use std::mem;
use std::thread::Threads;
use xt_io::Files;

/// The report of the design that the four files of the job's block make, by the job's Miller numbers where it has any,
/// solved by the job's workers.
pub fn report_of_block<R: Threads + Sync, F: Files, G: Gate>(
    rt: &R,
    alloc: Global,
    gate: &G,
    files: &mut F,
    job: ReportJob,
) -> Result<Vec<u8>, Stop>
    requires { IsWorkerCount job.workers }
    ensures means { let Meant = ReportMeans job (F.content files.old) in
        Answers result (λ text. Meant (prints text.items)) Meant (F.faults files.old) (F.faults files.new) }
    ensures opened { OpensFirst (block_files job.files) (HasValue result) (F.opened files.old) (F.opened files.new) }
    ensures stopped { IfErr result (λ stop. FailsAfter (block_files job.files)
        (F.opened files.old) (F.opened files.new) (NoText stop)) }
    ensures content { (m : Text) → F.content files.new m ≡ F.content files.old m }
{
    let ReportJob {
        files: block,
        workers,
        kind,
        miller,
        engine,
    } = job;
    let design = read_block(alloc, files, block)?;
    let design = counted_by(design, miller);
    let turns = Turns::by(engine);
    let runs = Runs { workers, turns };
    let text = report(rt, alloc, gate, &design, kind, runs);
    mem::drop(design);
    text
}
