//! What one timing arc contributes to the window of the net that it drives.

ghost use Rattle.std.specs.Prelude.{◌≡◌, ◌<◌, ◌≤ℤ◌, length};
ghost use Rattle.xt_model.specs.Quads.{IsInRange, IsLive, same_edge};
ghost use Rattle.xt_model.specs.Sound.{IsSoundArc};
ghost use Rattle.xt_meaning.specs.Operator.{Range, contribution_by};
ghost use Rattle.net_eval.specs.Arcs.{joined};
ghost use Rattle.net_eval.specs.Pins.{wire_to};
ghost use Rattle.net_eval.specs.Room.{FitsWire};
ghost use Rattle.net_eval.specs.Tables.{AreNumbered, AreTables, loads_at};

use crate::pin::PinEdge;
use crate::ranges::{arrival, as_slew, slew_behind};
use crate::tables::EdgeTables;
use table_box::TablePair;
use xt_model::{Design, Edge, Quad, TimingArc};

/// Whether two edges are the same.
fn same_edge(a: Edge, b: Edge) -> bool
    ensures { result ≡ same_edge a b }
{
    match (a, b) {
        (Edge::Rise, Edge::Rise) | (Edge::Fall, Edge::Fall) => true,
        (Edge::Rise, Edge::Fall) | (Edge::Fall, Edge::Rise) => false,
    }
}

/// The place of the arc with whose tables those of an edge begin: the second arc, where it leads to the edge and the
/// first does not, and else the first.
pub(crate) fn place_to(arcs: &[TimingArc], edge: Edge) -> usize
    requires { 0 < length arcs.now }
    ensures { result < length arcs.now }
{
    if arcs.len() == 1 || same_edge(arcs[0].output, edge) {
        return 0;
    }
    if same_edge(arcs[1].output, edge) {
        1
    } else {
        0
    }
}

/// The least and the greatest delay of the wire to an edge of a pin.
fn wire_to(input: &PinEdge) -> (i64, i64)
    requires fits { FitsWire input.now.window (wire_to input.now) }
    ensures { record { least = result.0; most = result.1 } ≡ wire_to input.now }
{
    (input.least_wire as i64, input.greatest_wire as i64)
}

/// The output window of an arc of a design, from its input window, the range of the wire before it and its tables
/// at its load.
#[inline(always)]
fn contribution(
    design: &Design,
    arc: &TimingArc,
    input: &Quad,
    wire: (i64, i64),
    tables: &TablePair,
) -> Quad
    requires tables { AreNumbered design.now arc.now.delay arc.now.slew tables.now }
    requires fits { FitsWire input.now (record { least = wire.0; most = wire.1 }) }
    ensures value { let before : Range = record { least = wire.0; most = wire.1 } in
        result ≡ contribution_by design.now arc.now input.now before (loads_at tables.now) }
    ensures range { IsInRange result }
{
    let least_slew = slew_behind(input.slo, wire.0);
    let most_slew = slew_behind(input.shi, wire.1);
    let (delays, slews) = tables.over_slews(least_slew, most_slew);
    Quad {
        tlo: arrival(input.tlo, wire.0, delays.0),
        thi: arrival(input.thi, wire.1, delays.1),
        slo: as_slew(slews.0),
        shi: as_slew(slews.1),
    }
}

/// A window of an edge, joined with what an arc of a design contributes to it, where the edge of the pin at its input
/// can switch, to a net whose range of loads is `load`. Before that it makes the edge's tables those of the arc.
#[inline(always)]
pub(crate) fn with_arc<'a>(
    design: &'a Design,
    arc: &TimingArc,
    edge: Edge,
    input: &PinEdge,
    load: (i64, i64),
    tables: &mut EdgeTables<'a>,
    quad: Quad,
) -> Quad
    requires sound { IsSoundArc design.now arc.now }
    requires fits { IsLive input.now.window → FitsWire input.now.window (wire_to input.now) }
    requires load { load.0 ≤ℤ load.1 }
    requires tables { let behind : Range = record { least = load.0; most = load.1 } in
        AreTables design.now behind tables.old }
    requires range { IsInRange quad }
    ensures value { let behind : Range = record { least = load.0; most = load.1 } in
        result ≡ joined design.now edge behind quad arc.now input.now.window (wire_to input.now) }
    ensures tables { let behind : Range = record { least = load.0; most = load.1 } in
        AreTables design.now behind tables.new }
    ensures range { IsInRange result }
{
    if !same_edge(arc.output, edge) {
        return quad;
    }
    if !input.window.live() {
        return quad;
    }
    tables.turn_to(arc, design, load);
    quad.join(&contribution(design, arc, &input.window, wire_to(input), &tables.pair))
}
