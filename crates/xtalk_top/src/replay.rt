//! The command `replay`.

ghost use Rattle.std.specs.Prelude.{◌≡◌, [], ◌∷◌};
ghost use Rattle.xt_io.specs.Outside.{AreOpened};
ghost use Rattle.command_line.specs.Words.{Text, IsWorkerCount};
ghost use Rattle.call_meaning.specs.Outcome.{prints};
ghost use Rattle.call_meaning.specs.Call.{Answers};
ghost use Rattle.call_meaning.specs.Replay.{ReplayMeans};

use crate::runs::{Runs, Turns};
use crate::text_report::report_of_text;
use call_meaning::Stop;
use chaos_core::Gate;
use command_line::ReplayJob;
use report_text::ReportKind;
use std::alloc::Global;
use std::thread::Threads;
use xt_io::Files;

/// The whole report of the design whose linked text the job's file holds, by the job's Miller numbers where it has any,
/// solved by the job's workers in the order of its number.
pub fn replay<R: Threads + Sync, F: Files, G: Gate>(
    rt: &R,
    alloc: Global,
    gate: &G,
    files: &mut F,
    job: ReplayJob,
) -> Result<Vec<u8>, Stop>
    requires { IsWorkerCount job.workers }
    ensures means { let Meant = ReplayMeans job (F.content files.old) in
        Answers result (λ text. Meant (prints text.items)) Meant (F.faults files.old) (F.faults files.new) }
    ensures opened { AreOpened (job.file ∷ []) (F.opened files.old) (F.opened files.new) }
    ensures content { (m : Text) → F.content files.new m ≡ F.content files.old m }
{
    let ReplayJob {
        file,
        order,
        workers,
        miller,
    } = job;
    let turns = Turns::Picked(order);
    let runs = Runs { workers, turns };
    report_of_text(rt, alloc, gate, files, file, miller, ReportKind::All, runs)
}
