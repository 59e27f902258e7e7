//! The report of a design.

ghost use Rattle.std.specs.Prelude.{◌≡◌, ℕ, length, OnOk, IfOk};
ghost use Rattle.xt_model.specs.declared.edge.Edge.{Edge};
ghost use Rattle.xt_model.specs.Assign.{assigned};
ghost use Rattle.xt_meaning.specs.Barrier.{IsWithinEnvelope};
ghost use Rattle.xt_meaning.specs.Operator.{step};
ghost use Rattle.report_text.specs.Report.{Appends, IsHead, IsReportOf};

use crate::sections::{push_sections, sections_of};
use crate::size::{push_clock, push_size, push_title};
use report_kind::ReportKind;
use std::alloc::{AllocError, Global};
use text_lines::{push_miller, push_word};
use xt_model::{Design, NoMemory, Windows};

// Appends the lines that every report begins with.
fn push_head(out: &mut Vec<u8>, design: &Design) -> Result<(), AllocError>
    ensures { OnOk result (Appends (IsHead design.now) out.old.items out.new.items) }
{
    push_title(out)?;
    push_size(out, design, design.pairs(), design.levels())?;
    push_clock(out, design)?;
    push_miller(out, &design.miller())
}

/// The report of a design and of its least and greatest windows, one pair a net, as text in lines, with the lines that
/// its kind is to have. Takes time in proportion to the nets, the couplings, the arcs, the checks with the couplings of
/// the nets that they look at, and the bytes. Fails only for want of memory.
pub fn write_report(
    alloc: Global,
    design: &Design,
    low: &Windows,
    high: &Windows,
    kind: ReportKind,
) -> Result<Vec<u8>, NoMemory>
    requires low_count { length low.now ≡ length design.now.nets }
    requires low_within { IsWithinEnvelope design.now low.now }
    requires high_count { length high.now ≡ length design.now.nets }
    requires high_within { IsWithinEnvelope design.now high.now }
    requires closed { (n : ℕ) (e : Edge) → step design.now high.now n e ≡ assigned high.now n e }
    ensures { IfOk result (λ text. IsReportOf kind design.now low.now high.now text.items) }
{
    let mut out = Vec::new(alloc);
    push_head(&mut out, design)?;
    push_sections(&mut out, alloc, sections_of(kind), design, low, high)?;
    push_word(&mut out, b"end", b'\n')?;
    Ok(out)
}
