//! The bits of the nets of a netlist, numbered one after another.

ghost use Rattle.std.specs.Prelude.{◌≡◌, ◌+◌, ◌<◌, ◌≤◌, ◌^◌, length, position, Some, IfOk};
ghost use Rattle.std.specs.List.{slice_get};
ghost use Rattle.std.specs.Option.{IsSomeAnd};
ghost use Rattle.verilog_net.specs.Bits.{bits, numbers_of};
ghost use Rattle.link_rules.specs.Bits.{is_bit, net_of};
ghost use Rattle.link_index.specs.Bits.{width, offset, AreStarts};

use name_numbers::NameTable;
use std::alloc::{AllocError, Global};
use verilog_net::{Net, Wire};

/// How many bits a net with this range has.
pub fn width(range: Option<(u32, u32)>) -> u64
    ensures value { result ≡ width range }
    ensures most { result ≤ 2 ^ 32 }
{
    match range {
        None => 1,
        Some((left, right)) => {
            if left <= right {
                u64::from(right) - u64::from(left) + 1
            } else {
                u64::from(left) - u64::from(right) + 1
            }
        }
    }
}

/// How many bits the net of this number has.
fn net_width(nets: &NameTable<Net>, number: u32) -> u64
    requires { number < length nets.now }
    ensures value { IsSomeAnd (slice_get nets.now number) (λ e. result ≡ width e.1.range) }
    ensures most { result ≤ 2 ^ 32 }
{
    match nets.get(number) {
        Some((_, net)) => width(net.range),
        None => 0,
    }
}

/// The number of a bit of a bus, by its place from the left bound on.
pub fn number_at(left: u32, right: u32, place: u32) -> u32
    requires { place < width (Some (left, right)) }
    ensures { slice_get (numbers_of (left, right)) place ≡ Some result }
{
    if left <= right {
        left + place
    } else {
        left - place
    }
}

/// How many bits before a bit its bus has, from the left bound of its range on; none where the bus has no such bit.
fn offset(range: Option<(u32, u32)>, bit: u32) -> Option<u32>
    ensures { result ≡ offset range bit }
{
    match range {
        None => { if bit == 0 { Some(0) } else { None } }
        Some((left, right)) => {
            if left <= bit && bit <= right {
                Some(bit - left)
            } else if right <= bit && bit <= left {
                Some(left - bit)
            } else {
                None
            }
        }
    }
}

/// How many nets a design of these nets has: one for each bit.
pub fn count_bits(nets: &NameTable<Net>) -> u64
    ensures { result ≡ length (bits nets.now) }
{
    let mut count = 0;
    for number in 0..nets.len() {
        count += net_width(nets, number);
    }
    count
}

/// The number of the first bit of each net.
pub fn starts(alloc: Global, nets: &NameTable<Net>) -> Result<Vec<u32>, AllocError>
    requires { length (bits nets.now) < 2 ^ 32 }
    ensures { IfOk result (λ v. AreStarts nets.now v.items) }
{
    let mut starts = Vec::new(alloc);
    let mut next = 0;
    for number in 0..nets.len() {
        starts.push(next as u32)?;
        next += net_width(nets, number);
    }
    Ok(starts)
}

/// The number of the net that a bit is, by its net and its own number; none where there is no such bit.
fn bit_at(nets: &NameTable<Net>, starts: &[u32], decl: u32, bit: u32) -> Option<u32>
    requires few { length (bits nets.now) < 2 ^ 32 }
    requires starts { AreStarts nets.now starts.now }
    ensures { result ≡ position (is_bit decl bit) (bits nets.now) }
{
    match nets.get(decl) {
        None => None,
        Some((_, net)) => match offset(net.range, bit) {
            None => None,
            Some(before) => Some(starts[decl as usize] + before),
        },
    }
}

/// The number of the net that a bit is; none where there is no such bit.
#[tactic(auto, unfolding(link_rules::specs::Bits::net_of))]
pub fn net_at(nets: &NameTable<Net>, starts: &[u32], wire: Wire) -> Option<u32>
    requires few { length (bits nets.now) < 2 ^ 32 }
    requires starts { AreStarts nets.now starts.now }
    ensures { result ≡ net_of nets.now wire }
{
    match wire {
        Wire::Bit { decl, bit } => bit_at(nets, starts, decl, bit),
        Wire::Open | Wire::Constant | Wire::Whole { decl: _ } => None,
    }
}
