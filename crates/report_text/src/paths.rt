//! The lines on the worst check of a kind and on the path of its data.

ghost use Rattle.std.specs.Prelude.{◌≡◌, ◌++◌, ◌<◌, length, map, IfSome, OnOk};
ghost use Rattle.std.specs.List.{All};
ghost use Rattle.text_lines.specs.Lines.{line_text, text_of};
ghost use Rattle.report_text.specs.Paths.{IsOfDesign, end_line, path_lines, source_line, step_line, worst_line};
ghost use Rattle.report_text.specs.Paths.{worst_lines};

use crate::fields::push_time;
use crate::points::point_of;
use crate::worst::WorstPath;
use aggressor_report::{Path, PathStep};
use slack_report::{Slack, is_hold, point_name};
use std::alloc::AllocError;
use text_lines::{check_word, edge_word, push_word};
use xt_model::Design;

/// Appends the line that tells which check it is.
fn push_worst(out: &mut Vec<u8>, design: &Design, slack: &Slack) -> Result<(), AllocError>
    requires { slack.now.point < length design.now.checks }
    ensures { OnOk result (out.new.items ≡ out.old.items ++ line_text (worst_line design.now slack.now)) }
{
    let point = point_of(design, slack);
    push_word(out, b"path", b' ')?;
    push_word(out, check_word(is_hold(point)), b' ')?;
    push_word(out, point_name(point), b' ')?;
    push_word(out, edge_word(slack.edge), b' ')?;
    push_time(out, slack.greatest, b'\n')
}

/// Appends the line on the source of a path.
fn push_source(out: &mut Vec<u8>, design: &Design, path: &Path) -> Result<(), AllocError>
    requires { path.now.net.0 < length design.now.nets }
    ensures { OnOk result (out.new.items ≡ out.old.items ++ line_text (source_line design.now path.now)) }
{
    let source = design.net(path.net.0 as usize);
    push_word(out, b"from", b' ')?;
    push_word(out, source.name.bytes(), b' ')?;
    push_word(out, edge_word(path.edge), b' ')?;
    push_time(out, path.time, b'\n')
}

/// Appends the line of a step.
fn push_step(out: &mut Vec<u8>, design: &Design, step: &PathStep) -> Result<(), AllocError>
    requires { step.now.net.0 < length design.now.nets }
    ensures { OnOk result (out.new.items ≡ out.old.items ++ line_text (step_line design.now step.now)) }
{
    let net = design.net(step.net.0 as usize);
    push_word(out, b"step", b' ')?;
    push_word(out, net.name.bytes(), b' ')?;
    push_word(out, edge_word(step.edge), b' ')?;
    push_word(out, b"wire", b' ')?;
    push_time(out, step.wire, b' ')?;
    push_word(out, b"delay", b' ')?;
    push_time(out, step.delay, b'\n')
}

/// Appends the line of each step.
fn push_steps(out: &mut Vec<u8>, design: &Design, steps: &[PathStep]) -> Result<(), AllocError>
    requires { All (λ s. s.net.0 < length design.now.nets) steps.now }
    ensures { OnOk result (out.new.items ≡ out.old.items ++ text_of (map (step_line design.now) steps.now)) }
{
    for step in steps {
        push_step(out, design, step)?;
    }
    Ok(())
}

/// Appends the line on the wire after the last step.
fn push_end(out: &mut Vec<u8>, wire: i64) -> Result<(), AllocError>
    ensures { OnOk result (out.new.items ≡ out.old.items ++ line_text (end_line wire)) }
{
    push_word(out, b"to", b' ')?;
    push_word(out, b"wire", b' ')?;
    push_time(out, wire, b'\n')
}

/// Appends the lines of a check and of the path of its data.
fn push_path(out: &mut Vec<u8>, design: &Design, worst: &WorstPath) -> Result<(), AllocError>
    requires { IsOfDesign design.now worst.now }
    ensures { OnOk result (out.new.items ≡ out.old.items ++ text_of (path_lines design.now worst.now)) }
{
    push_worst(out, design, &worst.slack)?;
    push_source(out, design, &worst.path)?;
    push_steps(out, design, worst.path.steps.as_slice())?;
    push_end(out, worst.wire)
}

/// Appends the lines of the worst check of a kind and of the path of its data, and nothing where there is none.
pub fn push_worst_path(
    out: &mut Vec<u8>,
    design: &Design,
    worst: &Option<WorstPath>,
) -> Result<(), AllocError>
    requires { IfSome worst.now (IsOfDesign design.now) }
    ensures { OnOk result (out.new.items ≡ out.old.items ++ text_of (worst_lines design.now worst.now)) }
{
    match worst {
        Some(worst) => push_path(out, design, worst),
        None => Ok(()),
    }
}
