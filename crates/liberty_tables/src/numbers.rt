//! Numbers in words and strings.

ghost use Rattle.std.specs.Prelude.{◌≡◌, ◌≤ℤ◌, ◌^◌, ◌++◌, ◌∷◌, [], ℤ, pos, neg_ℤ, List, Some, None, if◌then◌else◌};
ghost use Rattle.std.specs.Prelude.{IfOk, OnOk};
ghost use Rattle.std.specs.List.{All, slice_index_or};
ghost use Rattle.xt_model.specs.Tables.{IsTableNumber};
ghost use Rattle.liberty_groups.specs.Trees.{entry_of};
ghost use Rattle.liberty_tables.specs.Contents.{content, numbers_in};
ghost use Rattle.liberty_tables.specs.Numbers.{all_fixed, behind, numbers_of};

use crate::contents::{content, plain, text_in};
use crate::items::first_item;
use liberty_groups::{Attribute, Span};
use std::alloc::{AllocError, Global};
use std::marker::Model;
use xt_model::Row;
use xt_number::read_fixed;

/// Numbers of a table, each at most 2^40 in size; contracts see the list of them.
#[derive(Debug, Drop)]
pub struct Numbers {
    items: Vec<i64>,
}

impl Model for Numbers {
    ghost Value = { List ℤ };

    ghost view = { λ n. n.items.items };

    ghost invariant = { λ n. All IsTableNumber n.items.items };
}

impl Numbers {
    /// No number.
    pub fn new(alloc: Global) -> Numbers
        ensures { result ≡ [] }
    {
        Numbers {
            items: Vec::new(alloc),
        }
    }

    /// One more number.
    pub fn push(&mut self, number: i64) -> Result<(), AllocError>
        requires low { neg_ℤ (pos (2 ^ 40)) ≤ℤ number }
        requires high { number ≤ℤ pos (2 ^ 40) }
        ensures { OnOk result (self.new ≡ self.old ++ number ∷ []) }
    {
        self.items.push(number)?;
        Ok(())
    }

    /// The number at a place, and 0 after the last one.
    pub fn at(&self, place: usize) -> i64
        ensures value { result ≡ slice_index_or self.now place (pos 0) }
        ensures low { neg_ℤ (pos (2 ^ 40)) ≤ℤ result }
        ensures high { result ≤ℤ pos (2 ^ 40) }
    {
        match self.items.get(place) {
            Some(number) => *number,
            None => 0,
        }
    }

    /// The numbers.
    pub fn as_slice(&self) -> &[i64]
        ensures { result.now ≡ self.now }
    {
        self.items.as_slice()
    }

    /// A copy of the numbers.
    pub fn copied(&self, alloc: Global) -> Result<Numbers, AllocError>
        ensures { IfOk result (λ copy. copy ≡ self.now) }
    {
        Ok(Numbers {
            items: Vec::from_slice(alloc, self.items.as_slice())?,
        })
    }

    /// The numbers as a row.
    pub fn into_row(self) -> Row<i64>
        ensures value { result ≡ self }
        ensures bounds { All IsTableNumber self }
    {
        let Numbers { items } = self;
        Row::from_vec(items)
    }
}

/// The numbers in a word or a string after others; whether none is refused.
#[tactic(auto, using(crate::proofs::NumberLaws::behind_refused))]
fn add_numbers(scale: i32, text: &[u8], numbers: &mut Numbers) -> Result<bool, AllocError>
    requires low { neg_ℤ (pos 12) ≤ℤ scale }
    requires high { scale ≤ℤ pos 12 }
    ensures { IfOk result (λ all. behind numbers.old (all_fixed scale (numbers_in text.now))
        ≡ (if all then Some numbers.new else None)) }
{
    let mut rest = text;
    'items: while let Some((item, more)) = first_item(true, rest) {
        match read_fixed(item, scale) {
            Ok(number) => numbers.push(number)?,
            Err(_) => return Ok(false),
        }
        rest = more;
    }
    Ok(true)
}

/// The numbers of a value of an attribute after others; whether none is refused.
fn add_value(
    alloc: Global,
    bytes: &[u8],
    scale: i32,
    value: Span,
    numbers: &mut Numbers,
) -> Result<bool, AllocError>
    requires low { neg_ℤ (pos 12) ≤ℤ scale }
    requires high { scale ≤ℤ pos 12 }
    ensures { IfOk result (λ all. behind numbers.old (all_fixed scale (numbers_in (content bytes.now value)))
        ≡ (if all then Some numbers.new else None)) }
{
    if let Some(text) = plain(text_in(bytes, value)) {
        return add_numbers(scale, text, numbers);
    }
    let text = content(alloc, bytes, value)?;
    add_numbers(scale, text.as_slice(), numbers)
}

/// The numbers of an attribute at a scale, where none is refused.
pub fn numbers_of(
    alloc: Global,
    bytes: &[u8],
    scale: i32,
    attribute: &Attribute,
) -> Result<Option<Numbers>, AllocError>
    requires low { neg_ℤ (pos 12) ≤ℤ scale }
    requires high { scale ≤ℤ pos 12 }
    ensures { IfOk result (λ numbers. numbers ≡ numbers_of bytes.now scale (entry_of attribute.now)) }
{
    let mut numbers = Numbers::new(alloc);
    let mut rest = attribute.values();
    'values: while let Some((value, more)) = rest.split_first() {
        if !add_value(alloc, bytes, scale, *value, &mut numbers)? {
            return Ok(None);
        }
        rest = more;
    }
    Ok(Some(numbers))
}
