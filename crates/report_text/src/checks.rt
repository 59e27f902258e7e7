//! The lines on checks.

ghost use Rattle.std.specs.Prelude.{◌≡◌, ◌++◌, ◌<◌, length, OnOk};
ghost use Rattle.std.specs.List.{All};
ghost use Rattle.text_lines.specs.Lines.{line_text, text_of};
ghost use Rattle.report_text.specs.Checks.{check_line, check_lines, slack_line};

use crate::fields::push_time;
use crate::points::point_of;
use slack_report::{Slack, is_hold, point_name};
use std::alloc::AllocError;
use text_lines::{check_word, edge_word, push_word};
use xt_model::Design;

/// Appends the line of a check of the point of this name.
#[tactic(auto, unfolding(text_lines::specs::Fields::field))]
fn push_slack(out: &mut Vec<u8>, name: &[u8], hold: bool, slack: &Slack) -> Result<(), AllocError>
    ensures { OnOk result (out.new.items ≡ out.old.items ++ line_text (slack_line name.now hold slack.now)) }
{
    push_word(out, b"check", b' ')?;
    push_word(out, name, b' ')?;
    push_word(out, edge_word(slack.edge), b' ')?;
    push_word(out, check_word(hold), b' ')?;
    if slack.idle {
        return push_word(out, b"idle", b'\n');
    }
    push_time(out, slack.greatest, b' ')?;
    push_time(out, slack.least, b'\n')
}

/// Appends the line of a check.
fn push_check(out: &mut Vec<u8>, design: &Design, slack: &Slack) -> Result<(), AllocError>
    requires { slack.now.point < length design.now.checks }
    ensures { OnOk result (out.new.items ≡ out.old.items ++ line_text (check_line design.now slack.now)) }
{
    let point = point_of(design, slack);
    push_slack(out, point_name(point), is_hold(point), slack)
}

/// Appends the line of each of these checks.
pub fn push_checks(out: &mut Vec<u8>, design: &Design, slacks: &[Slack]) -> Result<(), AllocError>
    requires { All (λ s. s.point < length design.now.checks) slacks.now }
    ensures { OnOk result (out.new.items ≡ out.old.items ++ text_of (check_lines design.now slacks.now)) }
{
    for slack in slacks {
        push_check(out, design, slack)?;
    }
    Ok(())
}
