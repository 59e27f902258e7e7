//! The sinks of nets.

ghost use Rattle.std.specs.Prelude.{◌≡◌, ◌<◌, ◌++◌, [], ◌∷◌, length, map, filter, Some, IsSome, IfSome, IfOk, OnOk};
ghost use Rattle.std.specs.List.{All, slice_get};
ghost use Rattle.std.specs.Option.{IsSomeAnd};
ghost use Rattle.liberty_cells.specs.declared.library.Library.{Library};
ghost use Rattle.verilog_net.specs.Bits.{Bit, bits};
ghost use Rattle.link_rules.specs.Circuit.{port_sinks, pin_sink};
ghost use Rattle.link_rules.specs.Pins.{Connected, end_of, is_input, pins as pins_of};
ghost use Rattle.verilog_net.specs.Sound.{IsSoundNetlist};
ghost use Rattle.link_pins.specs.Rows.{ArePinSinks, AreSinks, ArePlaces};
ghost use Rattle.link_pins.specs.Seen.{bit_at, AreBits, ArePins, HasShortNames, connected_at};

use crate::bits::BitAt;
use crate::names::net_name;
use crate::pins::PinOn;
use crate::ports::port_load;
use link_index::{CellIndex, NetBits, NetIndex};
use link_rules::{End, Sink};
use sdc_read::Constraints;
use std::alloc::{AllocError, Global};
use verilog_net::PortRole;

/// The sinks of one net.
#[derive(Drop)]
pub struct NetSinks {
    pub sinks: Vec<Sink>,
}

/// The sinks of each net, and where each pin is among the sinks of its net, which is told of input pins alone.
#[derive(Drop)]
pub struct Sinks {
    pub nets: Vec<NetSinks>,
    pub places: Vec<u32>,
}

/// The end of a net that a pin is.
pub fn end_of<'a>(
    alloc: Global,
    cells: &CellIndex<'a>,
    nets: &NetBits<'a>,
    pin: PinOn,
) -> Result<End, AllocError>
    requires there { IsSome (connected_at cells.now nets.now pin) }
    requires short { IfSome (connected_at cells.now nets.now pin) HasShortNames }
    ensures { IfOk result (λ e. IsSomeAnd (connected_at cells.now nets.now pin) (λ c. e ≡ end_of c)) }
{
    let instance = &nets.netlist().instances.as_slice()[pin.instance as usize];
    End::pin(alloc, instance.name.bytes(), pin.of(cells).name().bytes())
}

impl NetSinks {
    /// Adds a pin that is on the net, where it is an input pin; the answer is how many sinks come before it. One that
    /// does not fit 32 bits is out of memory.
    fn add<'a>(
        &mut self,
        alloc: Global,
        cells: &CellIndex<'a>,
        nets: &NetIndex<'a>,
        pin: PinOn,
    ) -> Result<u32, AllocError>
        requires there { IsSome (connected_at cells.now nets.now pin) }
        requires short { IfSome (connected_at cells.now nets.now pin) HasShortNames }
        ensures place { IfOk result (λ place. place ≡ length self.old.sinks.items) }
        ensures sinks { OnOk result
            ((c : Connected) → connected_at cells.now nets.now pin ≡ Some c
            → self.new.sinks.items
            ≡ self.old.sinks.items ++ map pin_sink (filter (λ d. is_input d.pin.role) (c ∷ []))) }
    {
        let Ok(place) = u32::try_from(self.sinks.len()) else {
            return Err(AllocError);
        };
        if pin.is_input(cells) {
            self.sinks.push(Sink {
                end: end_of(alloc, cells, nets.bits(), pin)?,
                cap: pin.of(cells).cap(),
            })?;
        }
        Ok(place)
    }
}

/// How many input pins each net has, or the greatest number of 32 bits.
fn input_counts<'a>(
    alloc: Global,
    cells: &CellIndex<'a>,
    nets: &NetIndex<'a>,
    pins: &[PinOn],
) -> Result<Vec<u32>, AllocError>
    requires sound { IsSoundNetlist nets.now }
    requires pins { ArePins cells.now nets.now pins.now }
    ensures { IfOk result (λ v. length v.items ≡ length (bits nets.now.nets)) }
{
    let mut counts: Vec<u32> = vec![in alloc; 0; nets.count() as usize]?;
    for pin in pins {
        if pin.is_input(cells) {
            let net = pin.net as usize;
            let count = counts[net].saturating_add(1);
            counts[net] = count;
        }
    }
    Ok(counts)
}

/// No sink on each net, with room for as many as there are input pins.
fn no_sinks<'a>(
    alloc: Global,
    cells: &CellIndex<'a>,
    nets: &NetIndex<'a>,
    pins: &[PinOn],
) -> Result<Vec<NetSinks>, AllocError>
    requires sound { IsSoundNetlist nets.now }
    requires pins { ArePins cells.now nets.now pins.now }
    ensures count { IfOk result (λ v. length v.items ≡ length (bits nets.now.nets)) }
    ensures none { IfOk result (λ v. All (λ row. row.sinks.items ≡ []) v.items) }
{
    let counts = input_counts(alloc, cells, nets, pins)?;
    let mut rows = Vec::with_capacity(alloc, counts.len())?;
    for count in &counts {
        let sinks = Vec::with_capacity(alloc, *count as usize)?;
        rows.push(NetSinks { sinks })?;
    }
    Ok(rows)
}

/// The sinks that pins are, on all nets.
fn pin_sinks<'a>(
    alloc: Global,
    cells: &CellIndex<'a>,
    nets: &NetIndex<'a>,
    pins: &[PinOn],
) -> Result<Sinks, AllocError>
    requires sound { IsSoundNetlist nets.now }
    requires pins { ArePins cells.now nets.now pins.now }
    ensures sinks { IfOk result (λ s. ArePinSinks nets.now.nets (pins_of cells.now nets.now) s.nets.items) }
    ensures places { IfOk result (λ s. ArePlaces (pins_of cells.now nets.now) s.places.items) }
{
    let mut rows = no_sinks(alloc, cells, nets, pins)?;
    let mut places = Vec::with_capacity(alloc, pins.len())?;
    for pin in pins {
        let place = rows[pin.net as usize].add(alloc, cells, nets, *pin)?;
        places.push(place)?;
    }
    Ok(Sinks { nets: rows, places })
}

/// Adds the port of a net to its sinks, where it is an output port.
fn add_port<'a>(
    alloc: Global,
    nets: &NetIndex<'a>,
    net: u32,
    constraints: &Constraints,
    bit: BitAt,
    row: &mut Vec<Sink>,
) -> Result<(), AllocError>
    requires there { net < length (bits nets.now.nets) }
    requires sound { IsSoundNetlist nets.now }
    ensures { OnOk result
        ((library : Library) (b : Bit) → slice_get (bits nets.now.nets) net ≡ Some b → bit ≡ bit_at b
        → row.new.items ≡ row.old.items ++ port_sinks library nets.now constraints.now b b.role) }
{
    match bit.role {
        PortRole::Output => {
            row.push(Sink {
                end: End::port(net_name(alloc, nets, net)?),
                cap: port_load(constraints, bit),
            })?;
        }
        _ => {}
    }
    Ok(())
}

/// The sinks of all nets: input pins in order, then output ports.
pub fn sinks_of<'a>(
    alloc: Global,
    cells: &CellIndex<'a>,
    nets: &NetIndex<'a>,
    constraints: &Constraints,
    bits: &[BitAt],
    pins: &[PinOn],
) -> Result<Sinks, AllocError>
    requires sound { IsSoundNetlist nets.now }
    requires bits { AreBits nets.now.nets bits.now }
    requires pins { ArePins cells.now nets.now pins.now }
    ensures sinks { IfOk result (λ s. AreSinks cells.now nets.now constraints.now s.nets.items) }
    ensures places { IfOk result (λ s. ArePlaces (pins_of cells.now nets.now) s.places.items) }
{
    let mut sinks = pin_sinks(alloc, cells, nets, pins)?;
    for net in 0..nets.count() {
        let place = net as usize;
        add_port(
            alloc,
            nets,
            net,
            constraints,
            bits[place],
            &mut sinks.nets[place].sinks,
        )?;
    }
    Ok(sinks)
}
