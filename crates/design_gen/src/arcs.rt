//! The timing arcs of a generated design.

ghost use Rattle.std.specs.Prelude.{◌≡◌, ◌<◌, ◌++◌, IfOk, OnOk};
ghost use Rattle.xt_model.specs.Quads.{other_edge};
ghost use Rattle.design_gen.specs.Taps.{driver_of, pins};
ghost use Rattle.design_gen.specs.Generated.{arc_of, arcs_of, arcs_of_pin};

use crate::drawn::Drawn;
use crate::drivers::sources;
use std::alloc::{AllocError, Global};
use xt_model::{Edge, NetId, Row, TimingArc};

/// The arc of an inverting cell from this edge of a sink.
fn arc(driver: u32, sink: u32, input: Edge) -> TimingArc
    ensures { result ≡ arc_of driver sink input (other_edge input) }
{
    TimingArc {
        from: NetId(driver),
        sink,
        input,
        output: input.other(),
        delay: 0,
        slew: 1,
    }
}

/// Appends the arcs of an input pin.
fn push_arcs(out: &mut Vec<TimingArc>, drawn: &Drawn, pin: u32) -> Result<(), AllocError>
    requires { pin < pins drawn.now.nets }
    ensures { OnOk result (out.new.items
        ≡ out.old.items ++ arcs_of_pin (driver_of drawn.now.number drawn.now.nets) pin) }
{
    let (driver, place) = (drawn.driver(pin), drawn.place(pin));
    out.push(arc(driver, place, Edge::Rise))?;
    out.push(arc(driver, place, Edge::Fall))?;
    Ok(())
}

/// The arcs of a net: those of its two input pins, none for a source.
pub(crate) fn arcs(alloc: Global, drawn: &Drawn, net: u32) -> Result<Row<TimingArc>, AllocError>
    requires { net < drawn.now.nets }
    ensures { IfOk result (λ row.
        row ≡ arcs_of drawn.now.nets (driver_of drawn.now.number drawn.now.nets) net) }
{
    let first = sources(drawn.nets());
    if net < first {
        return Ok(Row::from_vec(Vec::new(alloc)));
    }
    let pin = 2 * (net - first);
    let mut arcs = Vec::with_capacity(alloc, 4)?;
    push_arcs(&mut arcs, drawn, pin)?;
    push_arcs(&mut arcs, drawn, pin + 1)?;
    Ok(Row::from_vec(arcs))
}
