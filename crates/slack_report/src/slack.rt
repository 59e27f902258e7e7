//! The slacks of the checks of a design.

ghost use Rattle.std.specs.Prelude.{◌≡◌, ◌++◌, length, map, pos, IfOk, OnOk};
ghost use Rattle.std.specs.List.{All};
ghost use Rattle.xt_model.specs.Assign.{assigned};
ghost use Rattle.xt_model.specs.Limits.{most_period};
ghost use Rattle.xt_model.specs.Sound.{IsBetween, IsConstraint, IsSoundCheck};
ghost use Rattle.xt_meaning.specs.Barrier.{IsWithinEnvelope};
ghost use Rattle.slack_report.specs.Checks.{IsSoundReference, IsSoundTest, check_at, listed};
ghost use Rattle.slack_report.specs.Kept.{KeepsOnly};
ghost use Rattle.slack_report.specs.Points.{IsAtPoint};
ghost use Rattle.slack_report.specs.Slacks.{period_of, slack_against, slack_by, slack_in, slack_of, slacks};

use crate::check::{Check, Reference};
use crate::margin::{flop_slack, needed, port_slack};
use crate::sinks::SinkTable;
use std::alloc::{AllocError, Global};
use xt_model::{CheckPoint, Design, Edge, NoMemory, Quad, Windows};

/// The slack in fs of an edge of the data at the check point of this number: how much later for a setup check, or
/// earlier for a hold check, the data could come. `greatest` is the slack in the greatest windows, and `least` that
/// in the least windows. A check whose data or clock never switches is idle, and has 0 for both.
#[derive(Clone, Copy, Debug, PartialEq, Eq)]
pub struct Slack {
    pub point: u32,
    pub edge: Edge,
    pub idle: bool,
    pub greatest: i64,
    pub least: i64,
}

/// The clock period in fs, 0 where there is none.
fn period(design: &Design) -> i64
    ensures value { result ≡ period_of design.now }
    ensures range { IsBetween (pos 0) most_period result }
{
    design.period().unwrap_or(0)
}

/// The slack of data against what it is checked for; none where that is a clock that never rises.
fn slack_against(
    design: &Design,
    windows: &Windows,
    sinks: &mut SinkTable,
    hold: bool,
    datum: &Quad,
    reference: &Reference,
) -> Result<Option<i64>, AllocError>
    requires count { length windows.now ≡ length design.now.nets }
    requires within { IsWithinEnvelope design.now windows.now }
    requires datum { IsConstraint datum.now }
    requires reference { IsSoundReference design.now reference.now }
    requires only { KeepsOnly design.now (assigned windows.now) sinks.old }
    ensures value { IfOk result
        (λ s. s ≡ slack_against design.now (assigned windows.now) hold datum.now reference.now) }
    ensures only { OnOk result (KeepsOnly design.now (assigned windows.now) sinks.new) }
{
    match reference {
        Reference::Clock { net, sink, table } => {
            let Some(clock) = sinks.at(design, windows, *net, Edge::Rise, *sink)? else {
                return Ok(None);
            };
            let need = needed(&design.tables()[*table as usize], &clock.window, datum);
            Ok(Some(flop_slack(hold, period(design), need, &clock.window, datum)))
        }
        Reference::Outside { delay } => Ok(Some(port_slack(hold, period(design), *delay, datum))),
    }
}

/// The slack of a check in these windows; none where its data or its clock never switches.
fn slack_in(
    design: &Design,
    windows: &Windows,
    sinks: &mut SinkTable,
    check: &Check,
) -> Result<Option<i64>, AllocError>
    requires count { length windows.now ≡ length design.now.nets }
    requires within { IsWithinEnvelope design.now windows.now }
    requires sound { IsSoundTest design.now check.now }
    requires only { KeepsOnly design.now (assigned windows.now) sinks.old }
    ensures value { IfOk result (λ s. s ≡ slack_in design.now (assigned windows.now) check.now) }
    ensures only { OnOk result (KeepsOnly design.now (assigned windows.now) sinks.new) }
{
    let Some(datum) = sinks.at(design, windows, check.net, check.edge, check.sink)? else {
        return Ok(None);
    };
    slack_against(
        design,
        windows,
        sinks,
        check.hold,
        &datum.window,
        &check.reference,
    )
}

impl Slack {
    /// A check with its slack in the greatest windows and in the least.
    fn by(check: &Check, greatest: Option<i64>, least: Option<i64>) -> Slack
        ensures { result ≡ slack_by check.now greatest least }
    {
        match (greatest, least) {
            (Some(greatest), Some(least)) => Slack {
                point: check.point,
                edge: check.edge,
                idle: false,
                greatest,
                least,
            },
            _ => Slack {
                point: check.point,
                edge: check.edge,
                idle: true,
                greatest: 0,
                least: 0,
            },
        }
    }
}

/// Appends the slack of an edge at a check point, which has this number, where it has a check.
fn push_edge(
    out: &mut Vec<Slack>,
    design: &Design,
    low: &Windows,
    low_sinks: &mut SinkTable,
    high: &Windows,
    high_sinks: &mut SinkTable,
    number: u32,
    point: &CheckPoint,
    edge: Edge,
) -> Result<(), AllocError>
    requires low_count { length low.now ≡ length design.now.nets }
    requires low_within { IsWithinEnvelope design.now low.now }
    requires high_count { length high.now ≡ length design.now.nets }
    requires high_within { IsWithinEnvelope design.now high.now }
    requires low_only { KeepsOnly design.now (assigned low.now) low_sinks.old }
    requires high_only { KeepsOnly design.now (assigned high.now) high_sinks.old }
    requires sound { IsSoundCheck design.now point.now }
    ensures slack { OnOk result (out.new.items ≡ out.old.items
        ++ map (slack_of design.now (assigned low.now) (assigned high.now)) (listed (check_at number point.now edge))) }
    ensures low_only { OnOk result (KeepsOnly design.now (assigned low.now) low_sinks.new) }
    ensures high_only { OnOk result (KeepsOnly design.now (assigned high.now) high_sinks.new) }
{
    let Some(check) = Check::of(number, point, edge) else {
        return Ok(());
    };
    let greatest = slack_in(design, high, high_sinks, &check)?;
    let least = slack_in(design, low, low_sinks, &check)?;
    out.push(Slack::by(&check, greatest, least))?;
    Ok(())
}

/// The slacks of the checks of a design.
fn all_slacks(
    alloc: Global,
    design: &Design,
    low: &Windows,
    high: &Windows,
) -> Result<Vec<Slack>, AllocError>
    requires low_count { length low.now ≡ length design.now.nets }
    requires low_within { IsWithinEnvelope design.now low.now }
    requires high_count { length high.now ≡ length design.now.nets }
    requires high_within { IsWithinEnvelope design.now high.now }
    ensures { IfOk result (λ all. all.items ≡ slacks design.now low.now high.now) }
{
    let points = design.checks();
    let mut low_sinks = SinkTable::new(alloc);
    let mut high_sinks = SinkTable::new(alloc);
    let mut all = Vec::new(alloc);
    for (number, point) in points.iter().enumerate() {
        push_edge(
            &mut all,
            design,
            low,
            &mut low_sinks,
            high,
            &mut high_sinks,
            number as u32,
            point,
            Edge::Rise,
        )?;
        push_edge(
            &mut all,
            design,
            low,
            &mut low_sinks,
            high,
            &mut high_sinks,
            number as u32,
            point,
            Edge::Fall,
        )?;
    }
    Ok(all)
}

/// The slacks of the checks of a design in its least and its greatest windows: for each check point in order, of the
/// rise and then of the fall, where the point has a table or a time for that edge. Linear in the checks, and in the
/// wire coefficients of the sinks that they look at, however many look at one sink; takes memory for the windows at
/// these sinks beside the slacks. Fails only for want of memory.
pub fn slacks(
    alloc: Global,
    design: &Design,
    low: &Windows,
    high: &Windows,
) -> Result<Vec<Slack>, NoMemory>
    requires low_count { length low.now ≡ length design.now.nets }
    requires low_within { IsWithinEnvelope design.now low.now }
    requires high_count { length high.now ≡ length design.now.nets }
    requires high_within { IsWithinEnvelope design.now high.now }
    ensures value { IfOk result (λ all. all.items ≡ slacks design.now low.now high.now) }
    ensures points { IfOk result (λ all. All (IsAtPoint design.now (assigned high.now)) all.items) }
{
    let all = all_slacks(alloc, design, low, high)?;
    Ok(all)
}
