//! How wide nets are, and the places of their bits.

ghost use Rattle.std.specs.Prelude.{◌≡◌, ◌≤◌, ◌^◌};
ghost use Rattle.hier_flatten.specs.Places.{distance, width_of, place_in, bit_at};
ghost use Rattle.hier_flatten.specs.Fits.{range_at};

use name_numbers::NameTable;
use verilog_net::Net;

/// How far apart two bits of a bus are.
fn distance(a: u32, b: u32) -> u32
    ensures { result ≡ distance a b }
{
    if a <= b { b - a } else { a - b }
}

/// How many bits a net with this range has.
pub fn width_of(range: Option<(u32, u32)>) -> u64
    ensures value { result ≡ width_of range }
    ensures most { result ≤ 2 ^ 32 }
{
    match range {
        None => 1,
        Some((left, right)) => distance(left, right) as u64 + 1,
    }
}

/// The place of a bit in its net, counted from the left bound on.
pub fn place_in(range: Option<(u32, u32)>, bit: u32) -> u32
    ensures { result ≡ place_in range bit }
{
    match range {
        None => 0,
        Some((left, _)) => distance(left, bit),
    }
}

/// The bit at a place of a net, where it has one.
pub fn bit_at(range: Option<(u32, u32)>, place: u32) -> Option<u32>
    ensures { result ≡ bit_at range place }
{
    let Some((left, right)) = range else {
        return if place == 0 { Some(0) } else { None };
    };
    if left <= right {
        if place <= right - left {
            Some(left + place)
        } else {
            None
        }
    } else {
        if place <= left - right {
            Some(left - place)
        } else {
            None
        }
    }
}

/// The range of the net of this number.
pub fn range_at(nets: &NameTable<Net>, decl: u32) -> Option<(u32, u32)>
    ensures { result ≡ range_at decl nets.now }
{
    match nets.get(decl) {
        Some((_, net)) => net.range,
        None => None,
    }
}
