//! The units of a library.

ghost use Rattle.std.specs.Prelude.{◌≡◌, ◌≤ℤ◌, ◌+ℤ◌, pos, neg_ℤ, IfOk, IfSome, option_map};
ghost use Rattle.liberty_groups.specs.Trees.{tree_of, entry_of};
ghost use Rattle.text_forms.specs.Stops.{Gives};
ghost use Rattle.liberty_tables.specs.Units.{AreScales, time_scale, farads, scaled_unit, time_unit, cap_unit, units_of};

use crate::contents::{content, only};
use crate::search::attribute;
use liberty_groups::{Attribute, Group};
use std::alloc::{AllocError, Global};
use xt_lex::TextFault;
use xt_model::Code;
use xt_number::power_of_ten;

/// The scales of a library: a time is a number of 10^`time` fs, a capacitance one of 10^`cap` aF.
#[derive(Clone, Copy, Debug, PartialEq, Eq)]
pub struct Scales {
    pub time: i32,
    pub cap: i32,
}

/// The scale of a unit of time.
fn time_scale(unit: &[u8]) -> Option<i32>
    ensures exact { result ≡ time_scale unit.now }
    ensures bounds { IfSome result (λ k. (pos 3 ≤ℤ k) × (k ≤ℤ pos 6)) }
{
    if unit == b"1ps".as_slice() {
        Some(3)
    } else if unit == b"10ps".as_slice() {
        Some(4)
    } else if unit == b"100ps".as_slice() {
        Some(5)
    } else if unit == b"1ns".as_slice() {
        Some(6)
    } else {
        None
    }
}

/// The scale of a unit of capacitance without its number.
fn farads(unit: &[u8]) -> Option<i32>
    ensures exact { result ≡ farads unit.now }
    ensures bounds { IfSome result (λ k. (pos 3 ≤ℤ k) × (k ≤ℤ pos 6)) }
{
    if unit.eq_ignore_ascii_case(b"ff") {
        Some(3)
    } else if unit.eq_ignore_ascii_case(b"pf") {
        Some(6)
    } else {
        None
    }
}

/// The scale of a unit of capacitance with its number.
fn scaled(power: i32, unit: i32) -> i32
    requires power { (neg_ℤ (pos 3) ≤ℤ power) × (power ≤ℤ pos 3) }
    requires unit { (pos 3 ≤ℤ unit) × (unit ≤ℤ pos 6) }
    ensures exact { result ≡ unit +ℤ power }
    ensures bounds { (pos 0 ≤ℤ result) × (result ≤ℤ pos 9) }
{
    unit + power
}

/// The scale of a unit of capacitance by the power of ten before it.
fn scaled_unit(power: Option<i32>, unit: Option<i32>) -> Option<i32>
    requires power { IfSome power (λ k. (neg_ℤ (pos 3) ≤ℤ k) × (k ≤ℤ pos 3)) }
    requires unit { IfSome unit (λ k. (pos 3 ≤ℤ k) × (k ≤ℤ pos 6)) }
    ensures exact { result ≡ scaled_unit power unit }
    ensures bounds { IfSome result (λ k. (pos 0 ≤ℤ k) × (k ≤ℤ pos 9)) }
{
    match (power, unit) {
        (Some(power), Some(unit)) => Some(scaled(power, unit)),
        _ => None,
    }
}

/// The unit of time, or the line where it is refused.
fn time_unit(
    alloc: Global,
    bytes: &[u8],
    attribute: Option<&Attribute>,
) -> Result<Result<i32, u32>, AllocError>
    ensures exact { IfOk result
        (λ unit. unit ≡ time_unit bytes.now (option_map (λ a. entry_of a.now) attribute.entry)) }
    ensures bounds { IfOk result (λ unit. IfOk unit (λ k. (pos 3 ≤ℤ k) × (k ≤ℤ pos 6))) }
{
    let Some(attribute) = attribute else {
        return Ok(Ok(6));
    };
    let scale = match only(alloc, bytes, attribute.values())? {
        Some(unit) => time_scale(unit.as_slice()),
        None => None,
    };
    match scale {
        Some(scale) => Ok(Ok(scale)),
        None => Ok(Err(attribute.line)),
    }
}

/// The unit of capacitance, or the line where it is refused.
fn cap_unit(
    alloc: Global,
    bytes: &[u8],
    attribute: Option<&Attribute>,
) -> Result<Result<i32, u32>, AllocError>
    ensures exact { IfOk result
        (λ unit. unit ≡ cap_unit bytes.now (option_map (λ a. entry_of a.now) attribute.entry)) }
    ensures bounds { IfOk result (λ unit. IfOk unit (λ k. (pos 0 ≤ℤ k) × (k ≤ℤ pos 9))) }
{
    let Some(attribute) = attribute else {
        return Ok(Ok(6));
    };
    let [number, unit] = attribute.values() else {
        return Ok(Err(attribute.line));
    };
    let number = content(alloc, bytes, *number)?;
    let unit = content(alloc, bytes, *unit)?;
    match scaled_unit(power_of_ten(number.as_slice()), farads(unit.as_slice())) {
        Some(scale) => Ok(Ok(scale)),
        None => Ok(Err(attribute.line)),
    }
}

/// The units of a library.
#[tactic(auto, unfolding(crate::specs::Units::units_of))]
pub fn units_of(alloc: Global, bytes: &[u8], library: &Group) -> Result<Scales, TextFault>
    ensures exact { Gives (λ s. s) result (units_of bytes.now (tree_of library.now)) }
    ensures bounds { IfOk result AreScales }
{
    let time = time_unit(alloc, bytes, attribute(bytes, b"time_unit", library))?;
    let cap = cap_unit(
        alloc,
        bytes,
        attribute(bytes, b"capacitive_load_unit", library),
    )?;
    match (time, cap) {
        (Ok(time), Ok(cap)) => Ok(Scales { time, cap }),
        (Err(line), Ok(_)) => Err(TextFault::Refused {
            line,
            code: Code::L8,
        }),
        (Ok(_), Err(line)) => Err(TextFault::Refused {
            line,
            code: Code::L8,
        }),
        (Err(line), Err(other)) => {
            let first = if line <= other { line } else { other };
            Err(TextFault::Refused {
                line: first,
                code: Code::L8,
            })
        }
    }
}
