//! The command `solve`.

ghost use Rattle.std.specs.Prelude.{◌≡◌, [], ◌∷◌};
ghost use Rattle.xt_io.specs.Outside.{AreOpened};
ghost use Rattle.command_line.specs.Words.{Text, IsWorkerCount};
ghost use Rattle.call_meaning.specs.Outcome.{prints};
ghost use Rattle.call_meaning.specs.Call.{Answers};
ghost use Rattle.call_meaning.specs.Solve.{SolveMeans};

use crate::runs::{Runs, Turns};
use crate::text_report::report_of_text;
use call_meaning::Stop;
use chaos_core::Gate;
use command_line::SolveJob;
use std::alloc::Global;
use std::thread::Threads;
use xt_io::Files;

/// The report of the design whose linked text the job's file holds, by the job's Miller numbers where it has any,
/// solved by the job's workers.
pub fn solve<R: Threads + Sync, F: Files, G: Gate>(
    rt: &R,
    alloc: Global,
    gate: &G,
    files: &mut F,
    job: SolveJob,
) -> Result<Vec<u8>, Stop>
    requires { IsWorkerCount job.workers }
    ensures means { let Meant = SolveMeans job (F.content files.old) in
        Answers result (λ text. Meant (prints text.items)) Meant (F.faults files.old) (F.faults files.new) }
    ensures opened { AreOpened (job.file ∷ []) (F.opened files.old) (F.opened files.new) }
    ensures content { (m : Text) → F.content files.new m ≡ F.content files.old m }
{
    let SolveJob {
        file,
        workers,
        kind,
        miller,
        engine,
    } = job;
    let turns = Turns::by(engine);
    let runs = Runs { workers, turns };
    report_of_text(rt, alloc, gate, files, file, miller, kind, runs)
}
