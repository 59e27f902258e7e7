//! A line of a text of edits.

ghost use Rattle.std.specs.Prelude.{IfErr, IfOk};
ghost use Rattle.linked_text.specs.Fields.{fields_of};
ghost use Rattle.eco_warm.specs.Possible.{IsEditOf};
ghost use Rattle.eco_warm.specs.Reading.{IsLineFault, Reads, amount_in, edit_in, move_in, shield_in};

use crate::edit::{Edit, EditFault};
use crate::names::nets_in;
use linked_text::{four, quantity, three};
use std::alloc::Global;
use xt_model::Design;

/// The greatest amount of an edit in aF.
const MOST_AMOUNT: i64 = 1 << 40;

/// An amount in aF.
fn amount_in(field: &[u8]) -> Result<i64, EditFault>
    ensures value { Reads (λ by. by) result (amount_in field.now) }
    ensures fault { IfErr result IsLineFault }
{
    match quantity(1, MOST_AMOUNT, field) {
        Some(by) => Ok(by),
        None => Err(EditFault::E2),
    }
}

/// The shield of a line of three fields.
fn shield_in(design: &Design, word: &[u8], a: &[u8], b: &[u8]) -> Result<Edit, EditFault>
    ensures value { Reads (λ e. e) result (shield_in design.now.nets word.now a.now b.now) }
    ensures fault { IfErr result IsLineFault }
{
    if word != b"shield".as_slice() {
        return Err(EditFault::E1);
    }
    let (a, b) = nets_in(design, a, b)?;
    Ok(Edit::Shield { a, b })
}

/// The edit by an amount, of a line of four fields.
fn move_in(design: &Design, word: &[u8], a: &[u8], b: &[u8], by: &[u8]) -> Result<Edit, EditFault>
    ensures value { Reads (λ e. e) result (move_in design.now.nets word.now a.now b.now by.now) }
    ensures fault { IfErr result IsLineFault }
{
    let is_apart = word == b"apart".as_slice();
    if !is_apart && word != b"near".as_slice() {
        return Err(EditFault::E1);
    }
    let by = amount_in(by)?;
    let (a, b) = nets_in(design, a, b)?;
    if is_apart {
        return Ok(Edit::Apart { a, b, by });
    }
    Ok(Edit::Near { a, b, by })
}

/// The edit that a line says, without its newline: `shield A B`, `apart A B D` or `near A B D`, with the names of two
/// nets between which there is a coupling, and an amount in aF; or why it says none. A line that does not begin so, or
/// has another count of fields, is refused first, then the amount, then the names. Linear in the line and the nets.
pub fn read_edit(_: Global, design: &Design, line: &[u8]) -> Result<Edit, EditFault>
    ensures value { Reads (λ e. e) result (edit_in design.now.nets (fields_of line.now)) }
    ensures between { IfOk result (IsEditOf design.now.nets) }
    ensures fault { IfErr result IsLineFault }
{
    if let Some((word, a, b)) = three(line) {
        return shield_in(design, word, a, b);
    }
    if let Some((word, a, b, by)) = four(line) {
        return move_in(design, word, a, b, by);
    }
    Err(EditFault::E1)
}
