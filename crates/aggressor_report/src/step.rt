//! The step of a path that leads to an edge of a net.

ghost use Rattle.std.specs.Prelude.{◌≡◌, ◌<◌, ◌≤ℤ◌, length, IfSome};
ghost use Rattle.std.specs.List.{slice_get};
ghost use Rattle.xt_model.specs.Assign.{assigned};
ghost use Rattle.xt_model.specs.Quads.{same_edge};
ghost use Rattle.xt_model.specs.Sound.{IsSoundArc};
ghost use Rattle.xt_meaning.specs.Barrier.{IsWithinEnvelope};
ghost use Rattle.xt_meaning.specs.Operator.{Range};
ghost use Rattle.aggressor_report.specs.Passages.{passage_to};
ghost use Rattle.aggressor_report.specs.Paths.{IsGiven, IsStep, loads_in};

use crate::passage::{Passage, passage_through};
use crate::path::PathStep;
use crate::window::bound_at;
use miller_bits::load_range;
use xt_model::{Design, Edge, NetId, TimingArc, Windows};

/// Where a step comes from, and the step.
#[derive(Clone, Copy, Debug)]
pub(crate) struct LastStep {
    pub from: NetId,
    pub input: Edge,
    pub step: PathStep,
}

/// The least and the greatest load of a net in aF at an edge.
fn loads(design: &Design, windows: &Windows, net: NetId, edge: Edge) -> (i64, i64)
    requires net { net.0 < length design.now.nets }
    requires count { length windows.now ≡ length design.now.nets }
    ensures value { let loads : Range = record { least = result.0; most = result.1 } in
        IfSome
        (slice_get design.now.nets net.0)
        (λ n. loads ≡ loads_in design.now (assigned windows.now) net.0 edge n) }
    ensures order { result.0 ≤ℤ result.1 }
{
    prove!((net.0 as usize) < design.nets().len());
    load_range(design, windows, net, edge)
}

/// Whether an arc drives this edge of its net.
fn drives(arc: &TimingArc, edge: Edge) -> bool
    ensures { result ≡ same_edge arc.now.output edge }
{
    arc.output == edge
}

/// What is spent on an arc which drives this edge, of a net with this range of loads, and leads to this bound of it;
/// none for another arc.
fn passage_to(
    design: &Design,
    windows: &Windows,
    arc: &TimingArc,
    load: (i64, i64),
    edge: Edge,
    bound: i64,
    late: bool,
) -> Option<Passage>
    requires count { length windows.now ≡ length design.now.nets }
    requires within { IsWithinEnvelope design.now windows.now }
    requires sound { IsSoundArc design.now arc.now }
    requires load { load.0 ≤ℤ load.1 }
    ensures { let loads : Range = record { least = load.0; most = load.1 } in
        result ≡ passage_to late design.now (assigned windows.now) loads edge bound arc.now }
{
    if !drives(arc, edge) {
        return None;
    }
    let passage = passage_through(design, windows, arc, load, late)?;
    if passage.time != bound {
        return None;
    }
    Some(passage)
}

/// The step that leads to an edge of a net, some arc of which gives the bound of its window. Linear in the net's arcs
/// and in the couplings of the net and of the arcs' inputs.
pub(crate) fn last_step(
    design: &Design,
    windows: &Windows,
    net: NetId,
    edge: Edge,
    late: bool,
) -> LastStep
    requires net { net.0 < length design.now.nets }
    requires count { length windows.now ≡ length design.now.nets }
    requires within { IsWithinEnvelope design.now windows.now }
    requires given { IsGiven late design.now (assigned windows.now) net.0 edge }
    ensures step { IsStep late design.now (assigned windows.now) result.from.0 result.input result.step }
    ensures net { result.step.net.0 ≡ net.0 }
    ensures edge { result.step.edge ≡ edge }
{
    let driven = design.net(net.0 as usize);
    let load = loads(design, windows, net, edge);
    let bound = bound_at(windows, net, edge, late);
    for (number, arc) in driven.arcs.as_slice().iter().enumerate() {
        if let Some(passage) = passage_to(design, windows, arc, load, edge, bound, late) {
            return LastStep {
                from: arc.from,
                input: arc.input,
                step: PathStep {
                    net,
                    edge,
                    arc: number as u32,
                    wire: passage.wire,
                    delay: passage.delay,
                },
            };
        }
    }
    unreachable!()
}
