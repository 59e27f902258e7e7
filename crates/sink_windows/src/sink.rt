//! The window of an edge of a net after the wire to one of its sinks.

ghost use Rattle.std.specs.Prelude.{◌≡◌, ◌<◌, ◌^◌, length, IfSome, pos, ◌+ℤ◌, ◌≤ℤ◌};
ghost use Rattle.xt_model.specs.Assign.{assigned};
ghost use Rattle.xt_model.specs.Sound.{HasSink, IsConstraint, IsSlew};
ghost use Rattle.xt_meaning.specs.Wires.{slew_growth};
ghost use Rattle.xt_meaning.specs.Barrier.{IsWithinEnvelope};
ghost use Rattle.net_eval.specs.Arcs.{wire_of};
ghost use Rattle.net_eval.specs.Room.{FitsWire};
ghost use Rattle.sink_windows.specs.Sinks.{behind, sink_window};

use miller_bits::{Overlaps, Victim};
use xt_model::{Design, Edge, NetId, Quad, Windows};

/// The window of an edge of a net at one of its sinks, and the least and the greatest delay of the wire to there. All
/// are in fs.
#[derive(Clone, Copy, Debug, PartialEq, Eq)]
pub struct SinkWindow {
    pub window: Quad,
    pub least_wire: i64,
    pub greatest_wire: i64,
}

/// The least and the greatest delay of the wire from an edge of a net to one of its sinks.
fn wire(victim: &Victim<Windows>, sink: usize) -> (i64, i64)
    requires sink { sink < length victim.now.net.sinks }
    requires fits { FitsWire victim.now.window (wire_of victim.now sink) }
    ensures { record { least = result.0; most = result.1 } ≡ wire_of victim.now sink }
{
    let (least, greatest) = victim.wire_range(sink);
    (least as i64, greatest as i64)
}

/// A slew after a wire of this delay: it grows by 11/5 of the delay.
fn slew_behind(slew: i64, wire: i64) -> i64
    requires slew { IsSlew slew }
    requires low { pos 0 ≤ℤ wire }
    requires high { wire ≤ℤ pos (2 ^ 47) }
    ensures { result ≡ slew +ℤ slew_growth wire }
{
    slew + (11 * wire).div_euclid(5)
}

/// A window after a wire with these least and greatest delays.
fn behind(window: &Quad, wire: (i64, i64)) -> Quad
    requires { FitsWire window.now (record { least = wire.0; most = wire.1 }) }
    ensures { result ≡ behind window.now (record { least = wire.0; most = wire.1 }) }
{
    Quad {
        tlo: window.tlo + wire.0,
        thi: window.thi + wire.1,
        slo: slew_behind(window.slo, wire.0),
        shi: slew_behind(window.shi, wire.1),
    }
}

/// The window of an edge of a net at the sink of this number in its list, by these windows; none where the edge never
/// switches. Linear in the net's couplings.
pub fn at_sink(
    design: &Design,
    windows: &Windows,
    net: NetId,
    edge: Edge,
    sink: u32,
) -> Option<SinkWindow>
    requires count { length windows.now ≡ length design.now.nets }
    requires within { IsWithinEnvelope design.now windows.now }
    requires sink { HasSink design.now net.0 sink }
    ensures value { result ≡ sink_window design.now (assigned windows.now) net.0 edge sink }
    ensures limits { IfSome result (λ s. IsConstraint s.window) }
{
    prove!((net.0 as usize) < design.nets().len());
    let victim = Victim::new(design, Overlaps::OfWindows, windows, net, edge);
    let window = victim.window();
    if !window.live() {
        return None;
    }
    let wire = wire(&victim, sink as usize);
    Some(SinkWindow {
        window: behind(&window, wire),
        least_wire: wire.0,
        greatest_wire: wire.1,
    })
}
