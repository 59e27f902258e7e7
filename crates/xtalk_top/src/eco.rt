//! The command `eco`.

ghost use Rattle.std.specs.Prelude.{◌≡◌, [], ◌∷◌, IfErr};
ghost use Rattle.command_line.specs.Words.{Text, IsWorkerCount};
ghost use Rattle.call_meaning.specs.Outcome.{prints};
ghost use Rattle.call_meaning.specs.Opened.{FailsAfter, HasValue, OpensFirst};
ghost use Rattle.call_meaning.specs.Call.{Answers};
ghost use Rattle.call_meaning.specs.Eco.{EcoMeans};
ghost use Rattle.call_meaning.specs.declared.refusal.Failure.TheVariants.{NoText};

use crate::counted::counted_by;
use crate::edits::report_of_edits;
use crate::input::read_design;
use call_files::read_file;
use call_meaning::Stop;
use chaos_core::Gate;
use command_line::EcoJob;
use std::alloc::Global;
use std::mem;
use std::thread::Threads;
use xt_io::Files;

/// The whole report of the design whose linked text the job's file holds, by the job's Miller numbers where it has any,
/// after the edits that the job's second file says, solved by the job's workers.
pub fn eco<R: Threads + Sync, F: Files, G: Gate>(
    rt: &R,
    alloc: Global,
    gate: &G,
    files: &mut F,
    job: EcoJob,
) -> Result<Vec<u8>, Stop>
    requires { IsWorkerCount job.workers }
    ensures means { let Meant = EcoMeans job (F.content files.old) in
        Answers result (λ text. Meant (prints text.items)) Meant (F.faults files.old) (F.faults files.new) }
    ensures opened { OpensFirst (job.file ∷ job.edits ∷ []) (HasValue result)
        (F.opened files.old) (F.opened files.new) }
    ensures stopped { IfErr result (λ stop. FailsAfter (job.file ∷ job.edits ∷ [])
        (F.opened files.old) (F.opened files.new) (NoText stop)) }
    ensures content { (m : Text) → F.content files.new m ≡ F.content files.old m }
{
    let EcoJob {
        file,
        edits,
        workers,
        miller,
    } = job;
    let (file, bytes) = read_file(alloc, files, file)?;
    let design = read_design(alloc, file, bytes)?;
    match read_file(alloc, files, edits) {
        Ok((edits, lines)) => {
            let design = counted_by(design, miller);
            report_of_edits(rt, alloc, gate, &edits, &lines, design, workers)
        }
        Err(stop) => {
            mem::drop(design);
            Err(stop)
        }
    }
}
