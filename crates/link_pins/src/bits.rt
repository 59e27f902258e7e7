//! The bits of nets in order.

ghost use Rattle.std.specs.Prelude.{◌≡◌, ◌<◌, ◌++◌, length, map, IfOk, OnOk};
ghost use Rattle.std.specs.List.{slice_get};
ghost use Rattle.std.specs.Option.{IsSomeAnd};
ghost use Rattle.verilog_net.specs.Bits.{bits_by, numbers_of};
ghost use Rattle.link_pins.specs.Seen.{bit_at, numbered_bit, AreBits};

use link_index::{number_at, width};
use name_numbers::NameTable;
use std::alloc::{AllocError, Global};
use verilog_net::{Net, Netlist, PortRole};

/// A bit: the number of its net's name in the netlist, its own as the range has it, and its direction.
#[derive(Clone, Copy)]
pub struct BitAt {
    pub decl: u32,
    pub bit: u32,
    pub role: PortRole,
}

/// Adds the bits of a bus from its left bound to its right.
fn add_bus(
    bits: &mut Vec<BitAt>,
    decl: u32,
    role: PortRole,
    left: u32,
    right: u32,
) -> Result<(), AllocError>
    ensures { OnOk result (bits.new.items ≡ bits.old.items ++ map (numbered_bit decl role) (numbers_of (left, right))) }
{
    for place in 0..width(Some((left, right))) {
        let bit = number_at(left, right, place as u32);
        bits.push(BitAt { decl, bit, role })?;
    }
    Ok(())
}

/// Adds the bits of the net of this number; one of number 0 without a range.
fn add_net(bits: &mut Vec<BitAt>, nets: &NameTable<Net>, number: u32) -> Result<(), AllocError>
    requires { number < length nets.now }
    ensures { OnOk result
        (IsSomeAnd (slice_get nets.now number)
        (λ e. bits.new.items ≡ bits.old.items ++ map bit_at (bits_by number e.0 e.1.role e.1.range))) }
{
    match nets.get(number) {
        None => Ok(()),
        Some((_, net)) => match net.range {
            None => Ok(bits.push(BitAt {
                decl: number,
                bit: 0,
                role: net.role,
            })?),
            Some((left, right)) => add_bus(bits, number, net.role, left, right),
        },
    }
}

/// All bits, a net without a range as one bit of number 0.
pub fn bits_of(alloc: Global, netlist: &Netlist) -> Result<Vec<BitAt>, AllocError>
    ensures { IfOk result (λ v. AreBits netlist.now.nets v.items) }
{
    let mut bits = Vec::new(alloc);
    for number in 0..netlist.nets.len() {
        add_net(&mut bits, &netlist.nets, number)?;
    }
    Ok(bits)
}
