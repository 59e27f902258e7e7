//! The lines of a report on the checks of a design.

ghost use Rattle.std.specs.Prelude.{◌≡◌, ◌++◌, ◌<◌, ℕ, length, IfOk, IfSome, OnOk};
ghost use Rattle.std.specs.List.{All};
ghost use Rattle.xt_model.specs.declared.edge.Edge.{Edge};
ghost use Rattle.xt_model.specs.Assign.{assigned};
ghost use Rattle.xt_meaning.specs.Barrier.{IsWithinEnvelope};
ghost use Rattle.xt_meaning.specs.Operator.{step};
ghost use Rattle.text_lines.specs.Lines.{text_of};
ghost use Rattle.report_text.specs.Worst.{IsChecked};
ghost use Rattle.report_text.specs.Paths.{AreOfDesign};
ghost use Rattle.report_text.specs.Report.{Appends, IsSection, checked_lines};
ghost use Rattle.report_text.specs.declared.sections.Section.TheVariants.{Checks};

use crate::checks::push_checks;
use crate::paths::push_worst_path;
use crate::worst::{WorstPath, worst_of};
use slack_report::{Slack, slacks};
use std::alloc::{AllocError, Global};
use std::mem::drop;
use xt_model::{Design, NoMemory, Row, Windows};

/// The slacks of the checks of a design, and the worst setup check and the worst hold check with their paths.
#[derive(Drop)]
pub struct Checked {
    pub slacks: Row<Slack>,
    pub setup: Option<WorstPath>,
    pub hold: Option<WorstPath>,
}

impl Checked {
    /// The slacks and the worst paths of a design in its least and its greatest windows. Fails only for want of memory.
    pub fn of(
        alloc: Global,
        design: &Design,
        low: &Windows,
        high: &Windows,
    ) -> Result<Checked, NoMemory>
        requires low_count { length low.now ≡ length design.now.nets }
        requires low_within { IsWithinEnvelope design.now low.now }
        requires high_count { length high.now ≡ length design.now.nets }
        requires high_within { IsWithinEnvelope design.now high.now }
        requires closed { (n : ℕ) (e : Edge) → step design.now high.now n e ≡ assigned high.now n e }
        ensures is_checked { IfOk result (IsChecked design.now low.now high.now) }
        ensures named { IfOk result (AreOfDesign design.now) }
    {
        let slacks = slacks(alloc, design, low, high)?;
        let setup = worst_of(alloc, design, high, &slacks, false)?;
        let hold = worst_of(alloc, design, high, &slacks, true)?;
        Ok(Checked {
            slacks: Row::from_vec(slacks),
            setup,
            hold,
        })
    }
}

// Appends the lines on these checks, and on the worst of each kind.
fn push_lines(out: &mut Vec<u8>, design: &Design, checked: &Checked) -> Result<(), AllocError>
    requires { AreOfDesign design.now checked.now }
    ensures { OnOk result (out.new.items ≡ out.old.items ++ text_of (checked_lines design.now checked.now)) }
{
    push_checks(out, design, checked.slacks.as_slice())?;
    push_worst_path(out, design, &checked.setup)?;
    push_worst_path(out, design, &checked.hold)
}

/// Appends the lines on the checks of a design in its least and its greatest windows, and on the worst of each kind.
pub fn push_checked(
    out: &mut Vec<u8>,
    alloc: Global,
    design: &Design,
    low: &Windows,
    high: &Windows,
) -> Result<(), NoMemory>
    requires low_count { length low.now ≡ length design.now.nets }
    requires low_within { IsWithinEnvelope design.now low.now }
    requires high_count { length high.now ≡ length design.now.nets }
    requires high_within { IsWithinEnvelope design.now high.now }
    requires closed { (n : ℕ) (e : Edge) → step design.now high.now n e ≡ assigned high.now n e }
    ensures { let IsOwn = IsSection Checks design.now low.now high.now in
        OnOk result (Appends IsOwn out.old.items out.new.items) }
{
    let checked = Checked::of(alloc, design, low, high)?;
    let pushed = push_lines(out, design, &checked);
    drop(checked);
    Ok(pushed?)
}
