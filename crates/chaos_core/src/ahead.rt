//! What an evaluation of a net goes over in the design, read before it begins.

ghost use Rattle.std.specs.Prelude.{◌≡◌};

use crate::looked::Looked;
use crate::worker::Worker;
use xt_model::{Design, Net, NetId, TimingArc};

/// Whether the first coupling of a net has no capacitance.
#[inline(always)]
fn couples_by_zero(net: &Net) -> bool {
    match net.couplings.as_slice().first() {
        Some(coupling) => coupling.cap == 0,
        None => false,
    }
}

/// Whether the first coefficient of the wire to a sink of a net is 0.
#[inline(always)]
fn wires_by_zero(net: &Net, sink: u32) -> bool {
    let Some(sink) = net.sinks.as_slice().get(sink as usize) else {
        return false;
    };
    match sink.coefs.as_slice().first() {
        Some(coef) => *coef == 0,
        None => false,
    }
}

/// Whether the first coupling of the net at the input of an arc, or the first coefficient of the wire to the arc, is 0.
#[inline(always)]
fn begins_by_zero(nets: &[Net], arc: &TimingArc) -> bool {
    match nets.get(arc.from.0 as usize) {
        Some(input) => couples_by_zero(input) | wires_by_zero(input, arc.sink),
        None => false,
    }
}

/// Whether a number is 0 among the first of the rows that an evaluation of a net goes over: the couplings of the net
/// and of its inputs, and the coefficients of the wires from these; of arcs from one net in a row, those of the first.
#[inline(always)]
pub(crate) fn reads_zero(nets: &[Net], net: NetId) -> bool {
    let Some(own) = nets.get(net.0 as usize) else {
        return false;
    };
    let mut zero = couples_by_zero(own);
    // Arcs from one net mostly come one after the other, at one pin.
    let mut last = net;
    for arc in own.arcs.as_slice() {
        if arc.from.0 != last.0 {
            zero |= begins_by_zero(nets, arc);
            last = arc.from;
        }
    }
    zero
}

/// Reads the first number of the rows that an evaluation of a net goes over, unless a look has marked the net. So the
/// memory is asked for all of them at once; an evaluation asks for one when it has computed with the one before. The
/// worker keeps an answer that depends on all of them, since else they need not be read.
#[inline(always)]
pub(crate) fn read_ahead(
    worker: &mut Worker,
    design: &Design,
    net: NetId,
    look: Option<&Looked<'_>>,
)
    ensures { worker.new ≡ worker.old }
{
    if let Some(look) = look {
        if let Some(true) = look.marks.get(net.0 as usize) {
            return;
        }
    }
    worker.has_read_zero = reads_zero(design.nets(), net);
}
