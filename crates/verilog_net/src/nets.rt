//! The nets of a module by their names.

ghost use Rattle.std.specs.Prelude.{◌≡◌, ℕ, ◌+◌, ◌-◌, ◌<◌, ◌≤◌, ◌==◌, [], length, slice_index, IfSome, IfOk, OnOk};
ghost use Rattle.name_numbers.specs.Names.{with_value};
ghost use Rattle.verilog_net.specs.Nets.{number_of, closed_number, bit_from, has_bit, named_bit};
ghost use Rattle.verilog_net.specs.Nets.{same_range, joined_role, is_directed, is_port, most_bit};
ghost use Rattle.verilog_net.specs.Nets.{bit_nets_of, with_bit_net, with_net, has_bit_net};
ghost use Rattle.std.specs.List.{list_any};

use crate::netlist::{Net, PortRole};
use itoa::Buffer;
use name_numbers::{NameTable, Named};
use std::alloc::{AllocError, Global};
use xt_model::Row;

/// The greatest number of a bit.
const MOST_BIT: u32 = 1_048_575;

/// The number of a bit or a bound, unless it is too great.
#[tactic(auto, using(crate::proofs::Numbers::value_grows))]
pub fn number_of(digits: &[u8]) -> Option<u32>
    ensures value { result ≡ number_of digits.now }
    ensures within { IfSome result (λ n. n ≤ most_bit) }
{
    let mut number: u32 = 0;
    let mut rest = digits;
    'digits: while let [digit, more @ ..] = rest {
        if number > MOST_BIT {
            return None;
        }
        number = number * 10 + digit.saturating_sub(b'0') as u32;
        rest = more;
    }
    if number > MOST_BIT {
        None
    } else {
        Some(number)
    }
}

/// The number of a bit as its name has it, with the `]` that ends the bytes.
fn closed_number(bytes: &[u8]) -> Option<u32>
    ensures { result ≡ closed_number bytes.now }
{
    let [digits @ .., b']'] = bytes else {
        return None;
    };
    let number = number_of(digits)?;
    let mut buffer = Buffer::new();
    if buffer.format(number).as_bytes() == digits {
        Some(number)
    } else {
        None
    }
}

/// Whether the last byte is a `]`, as that of a bit's name is.
fn ends_bit(name: &[u8]) -> bool
    ensures { result ≡ (slice_index name.now (length name.now - 1) == 93) }
{
    matches!(name, [.., b']'])
}

/// Where the `[` of a bit's name is, and the number of the bit.
fn bit_place(name: &[u8]) -> Option<(usize, u32)>
    ensures value { result ≡ bit_from 0 name.now }
    ensures within { IfSome result (λ p. p.0 < length name.now) }
{
    // Most names are no bit's, which their last byte shows.
    if !ends_bit(name) {
        return None;
    }
    let mut at: usize = 0;
    let mut rest = name;
    'bytes: while let [byte, more @ ..] = rest {
        if *byte == b'[' {
            if let Some(bit) = closed_number(more) {
                return Some((at, bit));
            }
        }
        at += 1;
        rest = more;
    }
    None
}

/// Whether a bus has a bit.
pub fn has_bit(range: (u32, u32), bit: u32) -> bool
    ensures { result ≡ has_bit range bit }
{
    let (left, right) = range;
    left <= bit && bit <= right || right <= bit && bit <= left
}

/// The bit that has this name: the number of its bus, its own number, and the role of the bus.
#[tactic(auto, unfolding(crate::specs::Nets::named_bit))]
pub fn named_bit(nets: &NameTable<Net>, name: &[u8]) -> Option<(u32, u32, PortRole)>
    ensures { result ≡ named_bit name.now nets.now }
{
    let (at, bit) = bit_place(name)?;
    let (number, net) = nets.find(&name[..at])?;
    let range = net.range?;
    if has_bit(range, bit) {
        Some((number, bit, net.role))
    } else {
        None
    }
}

/// Whether both are ranges with the same bounds, or none is a range.
pub fn same_range(one: Option<(u32, u32)>, other: Option<(u32, u32)>) -> bool
    ensures { result ≡ same_range one other }
{
    match (one, other) {
        (None, None) => true,
        (Some((left, right)), Some((other_left, other_right))) => left == other_left
            && right == other_right,
        _ => false,
    }
}

impl PortRole {
    /// What a net is that is declared as this and then as the other; it cannot have both directions.
    pub fn joined(self, other: PortRole) -> Option<PortRole>
        ensures { result ≡ joined_role self other }
    {
        match (self, other) {
            (PortRole::Inner, role) => Some(role),
            (PortRole::Input, PortRole::Output) => None,
            (PortRole::Output, PortRole::Input) => None,
            (role, _) => Some(role),
        }
    }

    /// Whether the net has a direction.
    pub fn is_directed(self) -> bool
        ensures { result ≡ is_directed self }
    {
        !matches!(self, PortRole::Inner)
    }
}

/// Whether the name is that of a net with a direction, or of a bit of one.
#[tactic(auto, unfolding(crate::specs::Nets::is_port))]
pub fn is_port(nets: &NameTable<Net>, name: &[u8]) -> bool
    ensures { result ≡ is_port name.now nets.now }
{
    if let Some((_, net)) = nets.find(name) {
        return net.role.is_directed();
    }
    match named_bit(nets, name) {
        Some((_, _, role)) => role.is_directed(),
        None => false,
    }
}

/// Takes out the numbers of a bus.
fn take_numbers<'a>(
    alloc: Global,
    bit_nets: &mut Named<'a, Row<u32>>,
    bus: &'a [u8],
) -> Result<Vec<u32>, AllocError>
    ensures numbers { IfOk result (λ ns. ns.items ≡ bit_nets_of bus.entry.now bit_nets.old) }
    ensures emptied { OnOk result (bit_nets.new ≡ with_value bus.entry.now [] bit_nets.old) }
{
    match bit_nets.replace(bus, Row::from_vec(Vec::new(alloc)))? {
        Some(numbers) => Ok(numbers.into_vec()),
        None => Ok(Vec::new(alloc)),
    }
}

/// Notes that a further net has the name of this bit of this bus.
fn note_bit<'a>(
    alloc: Global,
    bit_nets: &mut Named<'a, Row<u32>>,
    bus: &'a [u8],
    bit: u32,
) -> Result<(), AllocError>
    ensures { OnOk result (bit_nets.new ≡ with_bit_net bus.entry.now bit bit_nets.old) }
{
    let mut numbers = take_numbers(alloc, bit_nets, bus)?;
    numbers.push(bit)?;
    bit_nets.set(bus, Row::from_vec(numbers))?;
    Ok(())
}

/// Notes that a further net has this name, which may be that of a bit.
#[tactic(auto, unfolding(crate::specs::Nets::with_net))]
pub fn note_net<'a>(
    alloc: Global,
    bit_nets: &mut Named<'a, Row<u32>>,
    name: &'a [u8],
) -> Result<(), AllocError>
    ensures { OnOk result (bit_nets.new ≡ with_net name.entry.now bit_nets.old) }
{
    let Some((at, bit)) = bit_place(name) else {
        return Ok(());
    };
    note_bit(alloc, bit_nets, &name[..at], bit)
}

/// Whether a bus has one of these bits.
fn has_one(range: (u32, u32), bits: &[u32]) -> bool
    ensures { result ≡ list_any (has_bit range) bits.now }
{
    bits.iter().any(|bit| has_bit(range, *bit))
}

/// Whether some net has the name of a bit of this bus.
#[tactic(auto, unfolding(crate::specs::Nets::has_bit_net))]
pub fn has_bit_net<'a>(
    bit_nets: &Named<'a, Row<u32>>,
    bus: &'a [u8],
    range: Option<(u32, u32)>,
) -> bool
    ensures { result ≡ has_bit_net bus.entry.now range bit_nets.now }
{
    let Some(range) = range else {
        return false;
    };
    match bit_nets.get(bus) {
        Some(bits) => has_one(range, bits.as_slice()),
        None => false,
    }
}
