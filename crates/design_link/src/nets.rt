//! The nets of a design from their pins and their wires.

ghost use Rattle.std.specs.Prelude.{◌≡◌, ◌<◌, ◌^◌, length, map, IfOk};
ghost use Rattle.std.specs.List.{All};
ghost use Rattle.xt_model.specs.Names.{IsName};
ghost use Rattle.elmore_tree.specs.Sums.{IsSinkSums};
ghost use Rattle.link_rules.specs.Bare.{filled_sinks};
ghost use Rattle.link_rules.specs.Ends.{sink_name};
ghost use Rattle.design_link.specs.Nets.{plain_sink, net_by, Fits, FitAll, IsMade, AreMade};

use elmore_tree::{SinkForm, WireForm};
use link_pins::take_last;
use link_rules::{NetPins, Sink};
use link_wires::{KeptWire, form};
use std::alloc::{AllocError, Global};
use std::mem;
use xt_model::{Coupling, Net, Row, SinkPin};

/// A sink with the sums of its wire.
fn sink_pin(sink: Sink, form: SinkForm) -> SinkPin
    ensures value { result ≡ record { name = sink_name sink.end; base = form.base; coefs = form.coefs } }
    ensures sums { IsSinkSums form }
{
    let Sink { end, cap: _ } = sink;
    let (base, coefs) = form.into_parts();
    SinkPin {
        name: end.into_name(),
        base,
        coefs,
    }
}

/// The sinks of a net with the sums of its wire. More sinks than fit 32 bits are out of memory.
fn sink_pins(
    alloc: Global,
    sinks: Vec<Sink>,
    forms: Vec<SinkForm>,
) -> Result<Row<SinkPin>, AllocError>
    requires { length forms.items ≡ length sinks.items }
    ensures value { IfOk result (λ s. s ≡ filled_sinks (map plain_sink sinks.items) forms.items) }
    ensures sums { IfOk result (λ s. All IsSinkSums forms.items) }
    ensures few { IfOk result (λ _. length sinks.items < 2 ^ 32) }
{
    if sinks.len() > u32::MAX as usize {
        return Err(AllocError);
    }
    let mut made = Vec::with_capacity(alloc, sinks.len())?;
    let mut left = forms.into_iter();
    let mut rest = sinks.into_iter();
    'filled: while let Some(form) = left.next() {
        let Some(sink) = rest.next() else {
            unreachable!()
        };
        made.push(sink_pin(sink, form))?;
    }
    Ok(Row::from_vec(made))
}

/// A net by its pins, with its couplings and the form of its wire. More sinks than fit 32 bits are out of memory.
fn formed_net(
    alloc: Global,
    pins: NetPins,
    couplings: Row<Coupling>,
    form: WireForm,
) -> Result<Net, AllocError>
    requires { length form.sinks ≡ length pins.sinks }
    ensures is { IfOk result (λ n. n ≡ net_by pins couplings form) }
    ensures sums { IfOk result (λ _. All IsSinkSums form.sinks) }
    ensures name { IfOk result (λ _. IsName pins.name) }
    ensures few { IfOk result (λ _. length pins.sinks < 2 ^ 32) }
{
    prove!(!pins.name.bytes().is_empty());
    let NetPins {
        name,
        input,
        given,
        driver,
        sinks,
        arcs,
    } = pins;
    mem::drop(driver);
    let WireForm { load, sinks: forms } = form;
    let sinks = sink_pins(alloc, sinks.into_vec(), forms.into_vec())?;
    Ok(Net {
        name,
        input,
        load,
        given,
        couplings,
        sinks,
        arcs,
    })
}

/// A net by its pins with its wire. More sinks than fit 32 bits are out of memory.
fn net_of(alloc: Global, pins: NetPins, wire: KeptWire) -> Result<Net, AllocError>
    requires { Fits pins wire }
    ensures { IfOk result (IsMade pins wire) }
{
    let form = form(alloc, &wire)?;
    let couplings = wire.into_couplings(alloc);
    formed_net(alloc, pins, couplings, form)
}

/// Nets by their pins with their wires, which are used up one by one: from the end of a list in reverse, so that the
/// memory of those that are used up is given back.
pub fn nets_of(
    alloc: Global,
    mut circuit: Vec<NetPins>,
    mut wires: Vec<KeptWire>,
) -> Result<Vec<Net>, AllocError>
    requires { FitAll circuit.items wires.items }
    ensures { IfOk result (λ nets. AreMade circuit.items wires.items nets.items) }
{
    let mut nets = Vec::with_capacity(alloc, circuit.len())?;
    circuit.reverse();
    wires.reverse();
    'nets: while let Some(pins) = take_last(&mut circuit) {
        let Some(wire) = take_last(&mut wires) else {
            unreachable!()
        };
        nets.push(net_of(alloc, pins, wire)?)?;
    }
    Ok(nets)
}
