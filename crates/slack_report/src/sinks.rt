//! The windows at sinks, each kept once it was asked for.

ghost use Rattle.std.specs.Prelude.{◌≡◌, IfOk, IfSome, OnOk, length};
ghost use Rattle.xt_model.specs.declared.edge.Edge.TheVariants.{Rise, Fall};
ghost use Rattle.xt_model.specs.Assign.{assigned};
ghost use Rattle.xt_model.specs.Sound.{HasSink, IsConstraint};
ghost use Rattle.xt_meaning.specs.Barrier.{IsWithinEnvelope};
ghost use Rattle.sink_windows.specs.Sinks.{sink_window};
ghost use Rattle.slack_report.specs.Checks.{at_edge};
ghost use Rattle.slack_report.specs.Kept.{IsAtSink, KeepsOnly, KeepsNothing};

use crate::check::at_edge;
use sink_windows::{SinkWindow, at_sink};
use std::alloc::{AllocError, Global};
use std::collections::HashMap;
use xt_model::{Design, Edge, NetId, Windows};

/// A sink: the one of this number of a net.
#[derive(Clone, Copy, PartialEq, Eq, Hash)]
pub(crate) struct Place {
    pub net: NetId,
    pub sink: u32,
}

/// The windows of the edges of a net at one of its sinks; none of an edge that never switches.
#[derive(Clone, Copy)]
pub(crate) struct EdgeWindows {
    pub rise: Option<SinkWindow>,
    pub fall: Option<SinkWindow>,
}

/// The windows at the sinks that were asked for. Where many checks look at a sink, the couplings of its net are summed
/// for the first of them alone.
#[derive(Drop)]
pub(crate) struct SinkTable {
    pub kept: HashMap<Place, EdgeWindows>,
}

impl EdgeWindows {
    /// The windows of both edges of a net at the sink of this number in its list.
    fn at(design: &Design, windows: &Windows, place: Place) -> EdgeWindows
        requires count { length windows.now ≡ length design.now.nets }
        requires within { IsWithinEnvelope design.now windows.now }
        requires sink { HasSink design.now place.net.0 place.sink }
        ensures { IsAtSink design.now (assigned windows.now) place result }
    {
        EdgeWindows {
            rise: at_sink(design, windows, place.net, Edge::Rise, place.sink),
            fall: at_sink(design, windows, place.net, Edge::Fall, place.sink),
        }
    }
}

impl SinkTable {
    /// Nothing was asked for.
    pub fn new(alloc: Global) -> SinkTable
        ensures { KeepsNothing result }
    {
        SinkTable {
            kept: HashMap::new(alloc),
        }
    }

    /// The windows of both edges of a net at the sink of this number in its list.
    fn both(
        &mut self,
        design: &Design,
        windows: &Windows,
        place: Place,
    ) -> Result<EdgeWindows, AllocError>
        requires count { length windows.now ≡ length design.now.nets }
        requires within { IsWithinEnvelope design.now windows.now }
        requires sink { HasSink design.now place.net.0 place.sink }
        requires only { KeepsOnly design.now (assigned windows.now) self.old }
        ensures there { IfOk result (IsAtSink design.now (assigned windows.now) place) }
        ensures only { OnOk result (KeepsOnly design.now (assigned windows.now) self.new) }
    {
        if let Some(found) = self.kept.get(&place) {
            return Ok(*found);
        }
        let found = EdgeWindows::at(design, windows, place);
        self.kept.insert(place, found)?;
        Ok(found)
    }

    /// The window of an edge of a net at the sink of this number in its list, by these windows; none where the edge
    /// never switches.
    pub fn at(
        &mut self,
        design: &Design,
        windows: &Windows,
        net: NetId,
        edge: Edge,
        sink: u32,
    ) -> Result<Option<SinkWindow>, AllocError>
        requires count { length windows.now ≡ length design.now.nets }
        requires within { IsWithinEnvelope design.now windows.now }
        requires sink { HasSink design.now net.0 sink }
        requires only { KeepsOnly design.now (assigned windows.now) self.old }
        ensures value { IfOk result (λ w. w ≡ sink_window design.now (assigned windows.now) net.0 edge sink) }
        ensures limits { IfOk result (λ w. IfSome w (λ s. IsConstraint s.window)) }
        ensures only { OnOk result (KeepsOnly design.now (assigned windows.now) self.new) }
    {
        let both = self.both(design, windows, Place { net, sink })?;
        Ok(at_edge(edge, both.rise, both.fall))
    }
}
