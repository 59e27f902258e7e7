//! The report of the design in a linked text.

ghost use Rattle.std.specs.Prelude.{◌≡◌, [], ◌∷◌};
ghost use Rattle.xt_io.specs.Outside.{AreOpened};
ghost use Rattle.command_line.specs.Words.{Text, IsWorkerCount};
ghost use Rattle.call_meaning.specs.Outcome.{TextReportMeans, prints};
ghost use Rattle.call_meaning.specs.Call.{Answers};

use crate::counted::counted_by;
use crate::design_report::report;
use crate::input::read_design;
use crate::runs::Runs;
use call_files::read_file;
use call_meaning::Stop;
use chaos_core::Gate;
use command_line::FileName;
use report_text::ReportKind;
use std::alloc::Global;
use std::mem;
use std::thread::Threads;
use xt_io::Files;
use xt_model::Miller;

/// The report of the design whose linked text the file holds, by these Miller numbers where there are any.
pub fn report_of_text<R: Threads + Sync, F: Files, G: Gate>(
    rt: &R,
    alloc: Global,
    gate: &G,
    files: &mut F,
    file: FileName,
    miller: Option<Miller>,
    kind: ReportKind,
    runs: Runs,
) -> Result<Vec<u8>, Stop>
    requires { IsWorkerCount runs.workers }
    ensures means { let Meant = TextReportMeans file miller kind (F.content files.old) in
        Answers result (λ text. Meant (prints text.items)) Meant (F.faults files.old) (F.faults files.new) }
    ensures opened { AreOpened (file ∷ []) (F.opened files.old) (F.opened files.new) }
    ensures content { (m : Text) → F.content files.new m ≡ F.content files.old m }
{
    let (file, bytes) = read_file(alloc, files, file)?;
    let design = read_design(alloc, file, bytes)?;
    let design = counted_by(design, miller);
    let text = report(rt, alloc, gate, &design, kind, runs);
    mem::drop(design);
    text
}
