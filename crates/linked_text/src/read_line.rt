//! Lines one after another.

ghost use Rattle.std.specs.Prelude.{◌≡◌, ◌≤◌, List, Option, Result, ℕ, length};
ghost use Rattle.xt_model.specs.declared.code.Code.{Code};
ghost use Rattle.text_lines.specs.Lines.{Line};
ghost use Rattle.linked_text.specs.declared.fault.Fault.TheVariants.{Refused};
ghost use Rattle.linked_text.specs.declared.fault.Stop.TheVariants.{At};
ghost use Rattle.linked_text.specs.EachLine.{numbered};
ghost use Rattle.linked_text.specs.Fields.{Finds, each, fields_of};
ghost use Rattle.linked_text.specs.Gives.{Gives, LineGives};
ghost use Rattle.linked_text.specs.Meaning.{Read, line_at, many_at, newlines};

use crate::fault::{Fault, LineStop, NUMBERS, Stop};
use crate::line::{Fields, cut_line};
use crate::scan::count_of;
use std::alloc::Global;
use xt_model::Code;

/// Reads the number in a field.
pub trait FieldReader {
    type Value: Drop;

    ghost of: { Self → List ℕ → Option Self.Value };

    fn read(&self, field: &[u8]) -> Option<Self::Value>
        ensures { Finds (λ x. x) result (of self.now field.now) };
}

/// The number of each of these fields, with room for `count` of them.
pub fn each_field<R: FieldReader>(
    alloc: Global,
    reader: &R,
    count: u32,
    fields: Fields<'_>,
) -> Result<Vec<R::Value>, LineStop>
    ensures { LineGives (λ v. v.items) result (numbered (each (R.of reader.now) fields.entry)) }
{
    let mut values = Vec::with_capacity(alloc, count as usize)?;
    let mut left = fields;
    'fields: while let Some(field) = left.next_field() {
        let Some(value) = reader.read(field) else {
            return Err(NUMBERS);
        };
        values.push(value)?;
    }
    Ok(values)
}

/// Reads a line of one kind.
pub trait LineReader {
    type Value: Drop;

    ghost of: { Self → Line → Result Self.Value Code };

    /// The value of a line, or the first of its tests that it fails.
    fn read(&self, alloc: Global, line: &[u8]) -> Result<Self::Value, LineStop>
        ensures { LineGives (λ x. x) result (of self.now (fields_of line.now)) };
}

/// How many newlines there are.
pub fn newlines(bytes: &[u8]) -> usize
    ensures value { result ≡ newlines bytes.now }
    ensures within { result ≤ length bytes.now }
{
    count_of(b'\n', bytes)
}

/// The refusal of the line that these bytes begin with.
pub fn refused(bytes: &[u8], code: Code) -> Stop
    ensures { result ≡ At (Refused (newlines bytes.now) code) }
{
    Stop::At(Fault::Refused {
        left: newlines(bytes),
        code,
    })
}

/// The value of the line at the front of `bytes`, and the bytes after it.
#[tactic(auto, unfolding(crate::specs::Meaning::line_at))]
pub fn read_line<'a, R: LineReader>(
    alloc: Global,
    reader: &R,
    bytes: &'a [u8],
) -> Result<(R::Value, &'a [u8]), Stop>
    ensures { Gives (λ x. (x.0, x.1.now)) result (line_at (R.of reader.now) bytes.now) }
{
    let Some((line, rest)) = cut_line(bytes) else {
        return Err(refused(bytes, Code::X1));
    };
    match reader.read(alloc, line) {
        Ok(value) => Ok((value, rest)),
        Err(LineStop::Refused(code)) => Err(refused(bytes, code)),
        Err(LineStop::NoMemory) => Err(Stop::NoMemory),
    }
}

/// Reads a value at the front of bytes.
pub trait FrontReader {
    type Value: Drop;

    ghost at: { Self → List ℕ → Read Self.Value };

    /// The value, and the bytes after it.
    fn read_front<'a>(
        &self,
        alloc: Global,
        bytes: &'a [u8],
    ) -> Result<(Self::Value, &'a [u8]), Stop>
        ensures { Gives (λ x. (x.0, x.1.now)) result (at self.now bytes.entry.now) };
}

impl<R: LineReader> FrontReader for R {
    type Value = R::Value;

    ghost at = { λ r. line_at (R.of r) };

    fn read_front<'a>(&self, alloc: Global, bytes: &'a [u8]) -> Result<(R::Value, &'a [u8]), Stop> {
        read_line(alloc, self, bytes)
    }
}

/// Room is made for at most this many values before the first of them is read: a count may be any number, and no more
/// memory is to be taken than lines that are there ask for.
const MOST_ROOM: usize = 64;

/// `count` values, one after another.
pub fn read_many<'a, R: FrontReader>(
    alloc: Global,
    reader: &R,
    count: u32,
    bytes: &'a [u8],
) -> Result<(Vec<R::Value>, &'a [u8]), Stop>
    ensures { Gives (λ x. (x.0.items, x.1.now)) result (many_at (R.at reader.now) count bytes.now) }
{
    let mut values = Vec::with_capacity(alloc, MOST_ROOM.min(count as usize))?;
    let mut rest = bytes;
    let mut left = count;
    while left > 0 {
        left -= 1;
        let (value, after) = reader.read_front(alloc, rest)?;
        values.push(value)?;
        rest = after;
    }
    values.shrink_to_fit();
    Ok((values, rest))
}
