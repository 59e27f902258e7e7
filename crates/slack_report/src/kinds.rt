//! The check of a kind with the least slack.

ghost use Rattle.std.specs.Prelude.{◌≡◌, ◌↔◌, ℕ, IsTrue, MatchOption};
ghost use Rattle.slack_report.specs.Kinds.{Counts, HasNone, IsWorst, worse_of};

use crate::point::is_hold;
use crate::slack::Slack;
use xt_model::Design;

/// Whether a check is of this kind, and not idle.
fn counts(design: &Design, hold: bool, slack: &Slack) -> bool
    ensures { IsTrue result ↔ Counts design.now hold slack.now }
{
    match design.checks().get(slack.point as usize) {
        Some(point) => is_hold(point) == hold && !slack.idle,
        None => false,
    }
}

/// Of the worst check so far and a later one the one with less slack in the greatest windows, the first of equals.
fn worse(so_far: Option<Slack>, next: &Slack) -> Slack
    ensures { result ≡ worse_of so_far next.now }
{
    match so_far {
        Some(slack) if slack.greatest <= next.greatest => slack,
        _ => *next,
    }
}

/// Of these checks of a design the one of a kind, hold or setup, that is not idle and has the least slack in the
/// greatest windows, the first of equals; none where all of the kind are idle. Linear in the checks.
pub fn worst(design: &Design, slacks: &[Slack], hold: bool) -> Option<Slack>
    ensures { MatchOption result
        (HasNone design.now hold slacks.now)
        (λ s. (i : ℕ) × IsWorst design.now hold slacks.now i s) }
{
    let mut worst = None;
    for slack in slacks {
        if counts(design, hold, slack) {
            worst = Some(worse(worst, slack));
        }
    }
    worst
}
