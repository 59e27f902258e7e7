//! What things are connected to in the flat netlist.

ghost use Rattle.std.specs.Prelude.{◌≡◌, ◌++◌, map, option_map, option_to_list, IfOk, OnOk};
ghost use Rattle.std.specs.List.{slice_get};
ghost use Rattle.hier_flatten.specs.Tables.{IsTableOf};
ghost use Rattle.hier_flatten.specs.Flat.{or_open, range_of, bit_within, flat_wire, flat_pins, wire_of};

use crate::places::{bit_at, place_in, range_at};
use crate::tables::put_first;
use name_numbers::{NameTable, Named, TextKey};
use std::alloc::{AllocError, Global};
use verilog_net::{Name, Net, Wire};

/// What a net of a module is in the flat netlist.
fn meant_at(meant: &[Wire], decl: u32) -> Wire
    ensures { result ≡ or_open (slice_get meant.now decl) }
{
    match meant.get(decl as usize) {
        Some(wire) => *wire,
        None => Wire::Open,
    }
}

/// The range of the flat net of this number, by those of all.
fn flat_range(flat: &[Option<(u32, u32)>], decl: u32) -> Option<(u32, u32)>
    ensures { result ≡ range_of decl flat.now }
{
    match flat.get(decl as usize) {
        Some(range) => *range,
        None => None,
    }
}

/// The bit at a place of what a net is in the flat netlist, whose nets have these ranges.
fn bit_within(flat: &[Option<(u32, u32)>], place: u32, wire: Wire) -> Wire
    ensures { result ≡ bit_within flat.now place wire }
{
    let Wire::Whole { decl } = wire else {
        return wire;
    };
    match bit_at(flat_range(flat, decl), place) {
        Some(bit) => Wire::Bit { decl, bit },
        None => Wire::Open,
    }
}

/// What something is connected to in the flat netlist, by what it is connected to in a module with these nets.
pub fn flat_wire(
    flat: &[Option<(u32, u32)>],
    nets: &NameTable<Net>,
    meant: &[Wire],
    wire: Wire,
) -> Wire
    ensures { result ≡ flat_wire flat.now nets.now meant.now wire }
{
    match wire {
        Wire::Open => Wire::Open,
        Wire::Constant => Wire::Constant,
        Wire::Bit { decl, bit } => {
            bit_within(
                flat,
                place_in(range_at(nets, decl), bit),
                meant_at(meant, decl),
            )
        }
        Wire::Whole { decl } => meant_at(meant, decl),
    }
}

/// The pins of an instance with what they are connected to in the flat netlist.
pub fn flat_pins(
    alloc: Global,
    flat: &[Option<(u32, u32)>],
    nets: &NameTable<Net>,
    meant: &[Wire],
    pins: &[(Name, Wire)],
) -> Result<Vec<(Name, Wire)>, AllocError>
    ensures { IfOk result (λ ps. ps.items ≡ flat_pins flat.now nets.now meant.now pins.now) }
{
    let mut connected = Vec::with_capacity(alloc, pins.len())?;
    let mut rest = pins;
    'pins: while let [pin, more @ ..] = rest {
        let (name, wire) = pin;
        let name = name.shared()?;
        connected.push((name, flat_wire(flat, nets, meant, *wire)))?;
        rest = more;
    }
    Ok(connected)
}

/// The connections of an instance by the names of its pins.
pub fn pins_by_name<'a>(
    alloc: Global,
    key: TextKey,
    pins: &'a [(Name, Wire)],
) -> Result<Named<'a, Wire>, AllocError>
    ensures { IfOk result (λ t. IsTableOf pins.entry.now t) }
{
    let mut table = Named::new(alloc, key);
    let mut rest = pins;
    'pins: while let [pin, more @ ..] = rest {
        let (name, wire) = pin;
        put_first(&mut table, name.bytes(), *wire)?;
        rest = more;
    }
    Ok(table)
}

/// What a net of a module is connected to outside, by the pins of the module's instance.
fn wire_of<'a>(
    flat: &[Option<(u32, u32)>],
    nets: &NameTable<Net>,
    meant: &[Wire],
    pins: &Named<'a, Wire>,
    inner: (&'a [u8], &Net),
) -> Wire
    ensures { result ≡ wire_of flat.now nets.now meant.now pins.now (inner.entry.0.now, inner.entry.1.now) }
{
    let (name, net) = inner;
    if !net.role.is_directed() {
        return Wire::Open;
    }
    match pins.get(name) {
        Some(wire) => flat_wire(flat, nets, meant, *wire),
        None => Wire::Open,
    }
}

/// Appends what a net of a module is connected to outside.
fn push_wire<'a>(
    flat: &[Option<(u32, u32)>],
    nets: &NameTable<Net>,
    meant: &[Wire],
    pins: &Named<'a, Wire>,
    net: Option<(&'a [u8], &Net)>,
    connected: &mut Vec<Wire>,
) -> Result<(), AllocError>
    ensures { OnOk result (connected.new.items ≡ connected.old.items
        ++ map (wire_of flat.now nets.now meant.now pins.now)
        (option_to_list (option_map (λ e. (e.0.now, e.1.now)) net.entry))) }
{
    if let Some(net) = net {
        connected.push(wire_of(flat, nets, meant, pins, net))?;
    }
    Ok(())
}

/// What the nets of a module are connected to outside, one after another.
pub fn wires_of<'a>(
    alloc: Global,
    flat: &[Option<(u32, u32)>],
    nets: &NameTable<Net>,
    meant: &[Wire],
    pins: &Named<'a, Wire>,
    inner: &'a NameTable<Net>,
) -> Result<Vec<Wire>, AllocError>
    ensures { IfOk result (λ ws. ws.items ≡ map (wire_of flat.now nets.now meant.now pins.now) inner.entry.now) }
{
    let mut connected = Vec::with_capacity(alloc, inner.len() as usize)?;
    for number in 0..inner.len() {
        push_wire(flat, nets, meant, pins, inner.get(number), &mut connected)?;
    }
    Ok(connected)
}
