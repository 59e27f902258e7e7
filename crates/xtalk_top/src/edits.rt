//! The edits of a text, made one after another, and the report of the last design.

ghost use Rattle.std.specs.Prelude.{◌≡◌, IfOk, IfErr};
ghost use Rattle.xt_model.specs.Levels.{AreLevelled};
ghost use Rattle.xt_model.specs.Sound.{IsSound};
ghost use Rattle.linked_text.specs.Fields.{fields_of};
ghost use Rattle.report_kind.specs.declared.kind.ReportKind.TheVariants.{All};
ghost use Rattle.eco_warm.specs.Edits.{edited};
ghost use Rattle.eco_warm.specs.Possible.{IsAllowed, IsEditOf};
ghost use Rattle.eco_warm.specs.Reading.{edit_in};
ghost use Rattle.command_line.specs.Words.{IsWorkerCount};
ghost use Rattle.call_meaning.specs.Outcome.{Outcome, DesignMeans, LimitsMean, prints};
ghost use Rattle.call_meaning.specs.Call.{IsStop};
ghost use Rattle.call_meaning.specs.Eco.{EditMeans, EditsMean, HasEnvelope, IsAfterLine};
ghost use Rattle.call_meaning.specs.Eco.{LinesMean, ReadMeans, lines_of};

use crate::design_report::report_within;
use crate::edit_lines::next_line;
use crate::edit_refusal::stop_of;
use crate::runs::{Runs, Turns};
use crate::solution::{envelope_of, envelope_renewed};
use call_meaning::Stop;
use chaos_core::Gate;
use command_line::FileName;
use eco_warm::{Edit, design_after, nets_after, read_edit};
use report_text::ReportKind;
use std::alloc::Global;
use std::mem;
use std::thread::Threads;
use xt_model::{Design, Windows};

// The design after the edit, with its envelope.
fn after_edit(
    alloc: Global,
    file: &FileName,
    number: u32,
    edit: &Edit,
    design: Design,
    top: Windows,
) -> Result<(Design, Windows), Stop>
    requires between { IsEditOf design.nets edit.now }
    requires sound { IsSound design }
    requires top { HasEnvelope design top }
    ensures design { IfOk result (λ s. s.0 ≡ edited edit.now design) }
    ensures allowed { IfOk result (λ _. IsAllowed edit.now design.nets) }
    ensures top { IfOk result (λ s. HasEnvelope s.0 s.1) }
    ensures stop { IfErr result (IsStop
        (λ o. EditMeans file.now number edit.now design (λ after. LimitsMean after ⊥ o) o) (λ _. ⊥)) }
{
    let (first, second) = match nets_after(alloc, &design, edit) {
        Ok(nets) => nets,
        Err(fault) => {
            let stop = stop_of(alloc, file, number, &design, fault);
            mem::drop(design);
            return Err(stop);
        }
    };
    let after = design_after(design, edit, first, second);
    let (a, b) = edit.nets();
    match envelope_renewed(alloc, &after.design, top, a, b) {
        Ok(top) => Ok((after.design, top)),
        Err(stop) => {
            mem::drop(after);
            Err(stop)
        }
    }
}

// The design after the edit that the line of this number says, with its envelope.
fn after_line(
    alloc: Global,
    file: &FileName,
    number: u32,
    line: &[u8],
    design: Design,
    top: Windows,
) -> Result<(Design, Windows), Stop>
    requires sound { IsSound design }
    requires top { HasEnvelope design top }
    ensures after { IfOk result (λ s. IsAfterLine design line.now s.0) }
    ensures top { IfOk result (λ s. HasEnvelope s.0 s.1) }
    ensures stop { let read = edit_in design.nets (fields_of line.now) in IfErr result (IsStop
        (λ o. ReadMeans file.now number read design (λ after. LimitsMean after ⊥ o) o) (λ _. ⊥)) }
{
    match read_edit(alloc, &design, line) {
        Ok(edit) => after_edit(alloc, file, number, &edit, design, top),
        Err(fault) => {
            let stop = stop_of(alloc, file, number, &design, fault);
            mem::drop(design);
            Err(stop)
        }
    }
}

// The design after all edits of a text, with its envelope.
fn after_edits(
    alloc: Global,
    file: &FileName,
    text: &[u8],
    design: Design,
    top: Windows,
) -> Result<(Design, Windows), Stop>
    requires sound { IsSound design }
    requires levelled { AreLevelled design.nets }
    requires top { HasEnvelope design top }
    ensures leads { IfOk result (λ s. (o : Outcome) → DesignMeans All s.0 o
        → LinesMean file.now (lines_of text.now) 0 design o) }
    ensures sound { IfOk result (λ s. IsSound s.0) }
    ensures levelled { IfOk result (λ s. AreLevelled s.0.nets) }
    ensures top { IfOk result (λ s. HasEnvelope s.0 s.1) }
    ensures stop { IfErr result (IsStop (LinesMean file.now (lines_of text.now) 0 design) (λ _. ⊥)) }
{
    let mut design = design;
    let mut top = top;
    let mut rest = text;
    let mut count = 0;
    'lines: while let Some((line, more)) = next_line(alloc, file, rest, count)? {
        count += 1;
        let (next, next_top) = after_line(alloc, file, count, line, design, top)?;
        design = next;
        top = next_top;
        rest = more;
    }
    Ok((design, top))
}

/// The report of a design after the edits that the text of this file says. Of the designs on the way only the envelopes
/// are made, which have to keep the limits; the last one is solved.
pub fn report_of_edits<R: Threads + Sync, G: Gate>(
    rt: &R,
    alloc: Global,
    gate: &G,
    file: &FileName,
    text: &[u8],
    design: Design,
    workers: u32,
) -> Result<Vec<u8>, Stop>
    requires sound { IsSound design }
    requires levelled { AreLevelled design.nets }
    requires workers { IsWorkerCount workers }
    ensures ok { IfOk result (λ report. EditsMean file.now text.now design (prints report.items)) }
    ensures stop { IfErr result (IsStop (EditsMean file.now text.now design) (λ _. ⊥)) }
{
    let top = match envelope_of(rt, alloc, &design, workers) {
        Ok(top) => top,
        Err(stop) => {
            mem::drop(design);
            return Err(stop);
        }
    };
    let (design, top) = after_edits(alloc, file, text, design, top)?;
    let turns = Turns::InThreads;
    let runs = Runs { workers, turns };
    let report = report_within(rt, alloc, gate, &design, &top, ReportKind::All, runs);
    mem::drop(design);
    report
}
