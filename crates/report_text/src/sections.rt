//! The sections of a report, by its kind.

ghost use Rattle.std.specs.Prelude.{◌≡◌, ℕ, length, OnOk};
ghost use Rattle.xt_model.specs.declared.edge.Edge.{Edge};
ghost use Rattle.xt_model.specs.Assign.{assigned};
ghost use Rattle.xt_meaning.specs.Barrier.{IsWithinEnvelope};
ghost use Rattle.xt_meaning.specs.Operator.{step};
ghost use Rattle.report_text.specs.Report.{Appends, AreSections, IsSection, sections_of};

use crate::checked::push_checked;
use crate::guilty::push_guilty;
use crate::noise::push_noise;
use crate::unconstrained::push_unconstrained;
use crate::windows::push_windows;
use report_kind::ReportKind;
use std::alloc::Global;
use xt_model::{Design, NoMemory, Windows};

/// A part of a report, between its lines on the design as a whole and its end.
#[derive(Clone, Copy)]
pub enum Section {
    /// The least and the greatest window of each edge.
    Windows,
    /// The input ports for which nothing is given.
    Unconstrained,
    /// The couplings that can change a victim's delay.
    Guilty,
    /// The slacks of the checks, and the worst of each kind with the path of its data.
    Checks,
    /// The peaks of glitch noise, by the greatest windows.
    Noise,
}

/// What a report of each kind has, in its order.
pub fn sections_of(kind: ReportKind) -> &'static [Section]
    ensures { result.now ≡ sections_of kind }
{
    match kind {
        ReportKind::All => &[
            Section::Windows,
            Section::Unconstrained,
            Section::Guilty,
            Section::Checks,
        ],
        ReportKind::Checks => &[Section::Unconstrained, Section::Checks],
        ReportKind::Noise => &[Section::Noise],
    }
}

// Appends the lines of a section.
fn push_section(
    out: &mut Vec<u8>,
    alloc: Global,
    section: Section,
    design: &Design,
    low: &Windows,
    high: &Windows,
) -> Result<(), NoMemory>
    requires low_count { length low.now ≡ length design.now.nets }
    requires low_within { IsWithinEnvelope design.now low.now }
    requires high_count { length high.now ≡ length design.now.nets }
    requires high_within { IsWithinEnvelope design.now high.now }
    requires closed { (n : ℕ) (e : Edge) → step design.now high.now n e ≡ assigned high.now n e }
    ensures { let IsOwn = IsSection section design.now low.now high.now in
        OnOk result (Appends IsOwn out.old.items out.new.items) }
{
    match section {
        Section::Windows => {
            push_windows(out, design.nets(), low, high)?;
            Ok(())
        }
        Section::Unconstrained => {
            push_unconstrained(out, design.nets())?;
            Ok(())
        }
        Section::Guilty => push_guilty(out, alloc, design, low, high),
        Section::Checks => push_checked(out, alloc, design, low, high),
        Section::Noise => push_noise(out, alloc, design, high),
    }
}

/// Appends the lines of these sections.
pub fn push_sections(
    out: &mut Vec<u8>,
    alloc: Global,
    sections: &[Section],
    design: &Design,
    low: &Windows,
    high: &Windows,
) -> Result<(), NoMemory>
    requires low_count { length low.now ≡ length design.now.nets }
    requires low_within { IsWithinEnvelope design.now low.now }
    requires high_count { length high.now ≡ length design.now.nets }
    requires high_within { IsWithinEnvelope design.now high.now }
    requires closed { (n : ℕ) (e : Edge) → step design.now high.now n e ≡ assigned high.now n e }
    ensures { let AreOwn = AreSections sections.now design.now low.now high.now in
        OnOk result (Appends AreOwn out.old.items out.new.items) }
{
    for section in sections {
        push_section(out, alloc, *section, design, low, high)?;
    }
    Ok(())
}
