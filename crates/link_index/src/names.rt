//! The names of the bits of nets.

ghost use Rattle.std.specs.Prelude.{◌≡◌, ◌<◌, ◌^◌, map, length, Some, IfOk, OnOk};
ghost use Rattle.std.specs.List.{All, slice_get};
ghost use Rattle.std.specs.Option.{IsSomeAnd};
ghost use Rattle.verilog_net.specs.Bits.{bits, bit_name, numbers_of};
ghost use Rattle.text_forms.specs.Names.{IsShortName};
ghost use Rattle.verilog_net.specs.Sound.{IsSoundNetlist};
ghost use Rattle.link_index.specs.Bits.{width};
ghost use Rattle.link_index.specs.Nets.{HasNames};
ghost use Rattle.link_index.specs.Names.{with_names, net_names, AreNames};

use crate::bits::{number_at, width};
use itoa::Buffer;
use name_numbers::NameTable;
use std::alloc::{AllocError, Global};
use verilog_net::{Net, Netlist};

/// The name of a bit of a bus.
fn bit_name(alloc: Global, name: &[u8], bit: u32) -> Result<Vec<u8>, AllocError>
    ensures { IfOk result (λ v. v.items ≡ bit_name name.now bit) }
{
    let mut buffer = Buffer::new();
    let mut whole = Vec::from_slice(alloc, name)?;
    whole.push(b'[')?;
    whole.extend_from_slice(buffer.format(bit).as_bytes())?;
    whole.push(b']')?;
    Ok(whole)
}

/// Enters the names of the bits of a bus from the left bound on.
fn add_bus(
    alloc: Global,
    names: &mut NameTable<()>,
    name: &[u8],
    left: u32,
    right: u32,
) -> Result<(), AllocError>
    requires few { width (Some (left, right)) < 2 ^ 32 }
    requires short { IsShortName name.now }
    requires spelled { AreNames names.old }
    ensures entered { OnOk result
        (names.new ≡ with_names names.old (map (bit_name name.now) (numbers_of (left, right)))) }
    ensures spelled { OnOk result (AreNames names.new) }
{
    let count = width(Some((left, right))) as u32;
    for place in 0..count {
        let whole = bit_name(alloc, name, number_at(left, right, place))?;
        names.set(alloc, whole.as_slice(), ())?;
    }
    Ok(())
}

/// Enters the names of the bits of the net of this number.
fn add_net(
    alloc: Global,
    names: &mut NameTable<()>,
    nets: &NameTable<Net>,
    number: u32,
) -> Result<(), AllocError>
    requires inside { number < length nets.now }
    requires few { length (bits nets.now) < 2 ^ 32 }
    requires short { All (λ net. IsShortName net.0) nets.now }
    requires spelled { AreNames names.old }
    ensures entered { OnOk result
        (IsSomeAnd (slice_get nets.now number) (λ e. names.new ≡ with_names names.old (net_names e.0 e.1.range))) }
    ensures spelled { OnOk result (AreNames names.new) }
{
    match nets.get(number) {
        None => Ok(()),
        Some((name, net)) => match net.range {
            None => names.set(alloc, name, ()),
            Some((left, right)) => add_bus(alloc, names, name, left, right),
        },
    }
}

/// A table of the names of all bits.
pub fn names_of(alloc: Global, netlist: &Netlist) -> Result<NameTable<()>, AllocError>
    requires sound { IsSoundNetlist netlist.now }
    requires few { length (bits netlist.now.nets) < 2 ^ 32 }
    ensures names { IfOk result (HasNames netlist.now.nets) }
    ensures spelled { IfOk result AreNames }
{
    let nets = &netlist.nets;
    let mut names = NameTable::new(alloc, nets.key());
    for number in 0..nets.len() {
        add_net(alloc, &mut names, nets, number)?;
    }
    Ok(names)
}
