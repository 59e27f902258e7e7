//! What single attributes of cells, pins and timing groups give.

ghost use Rattle.std.specs.Prelude.{◌≡◌, ◌≤ℤ◌, pos, neg_ℤ, IfOk, option_map};
ghost use Rattle.liberty_groups.specs.Trees.{entry_of};
ghost use Rattle.text_forms.specs.Stops.{Gives};
ghost use Rattle.liberty_cells.specs.Kinds.{kind_of, sense_of, role_of};
ghost use Rattle.liberty_cells.specs.Pins.{cap_of};

use crate::pin::Role;
use crate::timing::{Sense, TimingKind};
use liberty_groups::Attribute;
use liberty_tables::only;
use std::alloc::{AllocError, Global};
use xt_lex::TextFault;
use xt_model::Code;
use xt_number::read_fixed;

/// The role of a pin.
pub fn role_of(
    alloc: Global,
    bytes: &[u8],
    attribute: Option<&Attribute>,
) -> Result<Role, AllocError>
    ensures { IfOk result (λ role. role ≡ role_of bytes.now (option_map (λ a. entry_of a.now) attribute.entry)) }
{
    let Some(attribute) = attribute else {
        return Ok(Role::Other);
    };
    match only(alloc, bytes, attribute.values())? {
        Some(direction) => Ok(Role::named(direction.as_slice())),
        None => Ok(Role::Other),
    }
}

/// How the output of a timing group follows its inputs.
pub fn sense_of(
    alloc: Global,
    bytes: &[u8],
    attribute: Option<&Attribute>,
) -> Result<Sense, AllocError>
    ensures { IfOk result (λ sense. sense ≡ sense_of bytes.now (option_map (λ a. entry_of a.now) attribute.entry)) }
{
    let Some(attribute) = attribute else {
        return Ok(Sense::Non);
    };
    match only(alloc, bytes, attribute.values())? {
        Some(sense) => Ok(Sense::named(sense.as_slice())),
        None => Ok(Sense::Non),
    }
}

/// The kind of a timing group of a pin of a role.
pub fn kind_of(
    alloc: Global,
    bytes: &[u8],
    role: Role,
    attribute: Option<&Attribute>,
) -> Result<TimingKind, AllocError>
    ensures { IfOk result
        (λ kind. kind ≡ kind_of bytes.now role (option_map (λ a. entry_of a.now) attribute.entry)) }
{
    let Some(attribute) = attribute else {
        return Ok(TimingKind::named(role, b"combinational"));
    };
    match only(alloc, bytes, attribute.values())? {
        Some(word) => Ok(TimingKind::named(role, word.as_slice())),
        None => Ok(TimingKind::Unsupported),
    }
}

/// The capacitance of a pin, at the scale of capacitances.
pub fn cap_of(
    alloc: Global,
    bytes: &[u8],
    scale: i32,
    attribute: Option<&Attribute>,
) -> Result<i64, TextFault>
    requires low { neg_ℤ (pos 12) ≤ℤ scale }
    requires high { scale ≤ℤ pos 12 }
    ensures { Gives (λ cap. cap) result (cap_of bytes.now scale (option_map (λ a. entry_of a.now) attribute.entry)) }
{
    let Some(attribute) = attribute else {
        return Ok(0);
    };
    let refused = TextFault::Refused {
        line: attribute.line,
        code: Code::L3,
    };
    let Some(number) = only(alloc, bytes, attribute.values())? else {
        return Err(refused);
    };
    match read_fixed(number.as_slice(), scale) {
        Ok(cap) => { if 0 <= cap { Ok(cap) } else { Err(refused) } }
        Err(_) => Err(refused),
    }
}
