//! The worst check of a kind, and the path of its data.

ghost use Rattle.std.specs.Prelude.{◌≡◌, ◌<◌, ℕ, List, false, length, IfOk};
ghost use Rattle.std.specs.List.{All};
ghost use Rattle.xt_model.specs.declared.edge.Edge.{Edge};
ghost use Rattle.xt_model.specs.Assign.{assigned};
ghost use Rattle.xt_model.specs.Quads.{IsLive};
ghost use Rattle.xt_model.specs.Sound.{HasSink};
ghost use Rattle.xt_meaning.specs.Barrier.{IsWithinEnvelope};
ghost use Rattle.xt_meaning.specs.Operator.{step};
ghost use Rattle.sink_windows.specs.Sinks.{wire_in};
ghost use Rattle.slack_report.specs.declared.slack.Slack.{Slack};
ghost use Rattle.slack_report.specs.Points.{IsAtPoint};
ghost use Rattle.slack_report.specs.Kinds.{IsWorst};
ghost use Rattle.aggressor_report.specs.Passages.{end_of};
ghost use Rattle.report_text.specs.Worst.{IsWorstOf, IsWorstPath};

use crate::points::point_of;
use aggressor_report::{Path, worst_path};
use sink_windows::at_sink;
use slack_report::{Slack, data_sink, worst};
use std::alloc::Global;
use xt_model::{Design, Edge, NetId, NoMemory, Windows};

/// The worst check of a kind: its slack, the path by which its data comes in the greatest windows, and the delay in fs
/// of the wire from the end of the path to the place of the check.
#[derive(Drop)]
pub struct WorstPath {
    pub slack: Slack,
    pub path: Path,
    pub wire: i64,
}

/// The delay of the wire from a live edge of a net to one of its sinks: the greatest that goes with the latest time
/// there, or the least that goes with the earliest.
fn wire_to(design: &Design, windows: &Windows, net: NetId, edge: Edge, sink: u32, late: bool) -> i64
    requires count { length windows.now ≡ length design.now.nets }
    requires within { IsWithinEnvelope design.now windows.now }
    requires sink { HasSink design.now net.0 sink }
    requires live { IsLive (assigned windows.now net.0 edge) }
    ensures { result ≡ end_of late (wire_in design.now (assigned windows.now) net.0 edge sink) }
{
    let Some(at) = at_sink(design, windows, net, edge, sink) else {
        unreachable!()
    };
    if late {
        at.greatest_wire
    } else {
        at.least_wire
    }
}

/// A check, which is the worst of its kind, with the path of its data.
fn with_path(
    alloc: Global,
    design: &Design,
    windows: &Windows,
    slack: Slack,
    hold: bool,
) -> Result<WorstPath, NoMemory>
    requires count { length windows.now ≡ length design.now.nets }
    requires within { IsWithinEnvelope design.now windows.now }
    requires closed { (n : ℕ) (e : Edge) → step design.now windows.now n e ≡ assigned windows.now n e }
    requires placed { IsAtPoint design.now (assigned windows.now) slack }
    requires there { slack.point < length design.now.checks }
    requires active { slack.idle ≡ false }
    ensures { (all : List Slack) (i : ℕ) → IsWorst design.now hold all i slack
        → IfOk result (IsWorstPath design.now (assigned windows.now) hold all) }
{
    let point = point_of(design, &slack);
    let at = data_sink(point);
    let path = worst_path(alloc, design, windows, at.net, slack.edge, !hold)?;
    let wire = wire_to(design, windows, at.net, slack.edge, at.sink, !hold);
    Ok(WorstPath { slack, path, wire })
}

/// The worst of these checks of a kind, hold or setup, with the path of its data; none where all of the kind are idle.
/// Linear in the checks, and in the arcs of the nets along the path and in their couplings. Fails only for want of
/// memory.
pub fn worst_of(
    alloc: Global,
    design: &Design,
    windows: &Windows,
    slacks: &[Slack],
    hold: bool,
) -> Result<Option<WorstPath>, NoMemory>
    requires count { length windows.now ≡ length design.now.nets }
    requires within { IsWithinEnvelope design.now windows.now }
    requires closed { (n : ℕ) (e : Edge) → step design.now windows.now n e ≡ assigned windows.now n e }
    requires placed { All (IsAtPoint design.now (assigned windows.now)) slacks.now }
    ensures { IfOk result (IsWorstOf design.now (assigned windows.now) hold slacks.now) }
{
    match worst(design, slacks, hold) {
        Some(slack) => {
            let found = with_path(alloc, design, windows, slack, hold)?;
            Ok(Some(found))
        }
        None => Ok(None),
    }
}
