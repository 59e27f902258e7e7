//! Sink pins of nets, at which arcs begin.

ghost use Rattle.std.specs.Prelude.{◌≡◌, IsTrue};
ghost use Rattle.xt_model.specs.declared.edge.Edge.{Edge};
ghost use Rattle.xt_model.specs.Sound.{HasSink};
ghost use Rattle.miller_bits.specs.Views.{HasVictim};
ghost use Rattle.net_eval.specs.Pins.{IsPin, IsInputPin, edge_of_pin};
ghost use Rattle.net_eval.specs.Scenes.{IsReady, scene_of};

use miller_bits::{Overlaps, Victim, wire_ranges};
use xt_model::{Bounds, Design, Edge, NetId, Quad, TimingArc};

/// An edge of a sink pin: the window of its net, and the least and the greatest delay of the wire to the pin, in fs.
#[derive(Clone, Copy)]
pub(crate) struct PinEdge {
    pub window: Quad,
    pub least_wire: i128,
    pub greatest_wire: i128,
}

/// A sink pin of a net, at both edges.
#[derive(Clone, Copy)]
pub(crate) struct Pin {
    net: u32,
    sink: u32,
    rise: PinEdge,
    fall: PinEdge,
}

impl Pin {
    /// A sink pin of a net, by the windows of a view. Linear in the couplings of the net.
    #[inline(always)]
    pub fn of<V: Bounds>(
        design: &Design,
        overlaps: Overlaps,
        view: &V,
        net: NetId,
        sink: u32,
    ) -> Pin
        requires sink { HasSink design.now net.0 sink }
        requires words { (e : Edge) → HasVictim (V.has view.now) design.now net.0 e }
        ensures net { result.net ≡ net.0 }
        ensures sink { result.sink ≡ sink }
        ensures pin { IsPin (scene_of overlaps design.now (V.bound_of view.now)) result }
    {
        let rise = Victim::new(design, overlaps, view, net, Edge::Rise);
        let fall = Victim::new(design, overlaps, view, net, Edge::Fall);
        let (rise_wire, fall_wire) = wire_ranges(&rise, &fall, sink as usize);
        Pin {
            net: net.0,
            sink,
            rise: PinEdge {
                window: rise.window(),
                least_wire: rise_wire.0,
                greatest_wire: rise_wire.1,
            },
            fall: PinEdge {
                window: fall.window(),
                least_wire: fall_wire.0,
                greatest_wire: fall_wire.1,
            },
        }
    }

    /// Whether an arc begins at it.
    fn is_input_of(&self, arc: &TimingArc) -> bool
        ensures { IsTrue result → (self.now.net ≡ arc.now.from.0) × (self.now.sink ≡ arc.now.sink) }
    {
        self.net == arc.from.0 && self.sink == arc.sink
    }

    /// One of its edges.
    pub fn at(&self, edge: Edge) -> PinEdge
        ensures { result ≡ edge_of_pin self.now edge }
    {
        match edge {
            Edge::Rise => self.rise,
            Edge::Fall => self.fall,
        }
    }

    /// Makes it the pin at which an arc begins, by the windows of a view. Where several arcs in a row begin at one pin,
    /// the ranges of its wire are taken once.
    #[inline(always)]
    pub fn move_to<V: Bounds>(
        &mut self,
        arc: &TimingArc,
        design: &Design,
        overlaps: Overlaps,
        view: &V,
    )
        requires pin { IsPin (scene_of overlaps design.now (V.bound_of view.now)) self.old }
        requires ready { IsReady (V.has view.now) (scene_of overlaps design.now (V.bound_of view.now)) arc.now }
        ensures { IsInputPin (scene_of overlaps design.now (V.bound_of view.now)) arc.now self.new }
    {
        if self.is_input_of(arc) {
            return;
        }
        *self = Pin::of(design, overlaps, view, arc.from, arc.sink);
    }
}
