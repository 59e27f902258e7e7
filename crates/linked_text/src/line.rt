//! Lines and their fields.

ghost use Rattle.std.specs.Prelude.{◌≡◌, ◌+◌, ◌<◌, [], ◌∷◌, List, ℕ, length, take, drop, MatchOption};
ghost use Rattle.linked_text.specs.Fields.{Finds, cut_at, fields_of, five, four, nine, one, seven, three, two};

use crate::scan::{count_of, first, first_near};
use std::marker::Model;

/// The bytes before place `at`, and those after it.
#[inline(always)]
fn parted(at: usize, bytes: &[u8]) -> (&[u8], &[u8])
    requires { at < length bytes.now }
    ensures before { result.0.now ≡ take at bytes.now }
    ensures after { result.1.now ≡ drop (at + 1) bytes.now }
{
    let (before, _) = bytes.split_at(at);
    let (_, after) = bytes.split_at(at + 1);
    (before, after)
}

/// The first line of these bytes, and those after it.
#[tactic(auto, unfolding(crate::specs::Fields::cut_at))]
pub fn cut_line(bytes: &[u8]) -> Option<(&[u8], &[u8])>
    ensures { Finds (λ x. (x.0.now, x.1.now)) result (cut_at 10 bytes.now) }
{
    let at = first(b'\n', bytes)?;
    Some(parted(at, bytes))
}

/// The first field of these bytes, which more fields follow, and those after it.
#[tactic(auto, unfolding(crate::specs::Fields::cut_at))]
fn cut_field(bytes: &[u8]) -> Option<(&[u8], &[u8])>
    ensures { Finds (λ x. (x.0.now, x.1.now)) result (cut_at 32 bytes.now) }
{
    let at = first_near(b' ', bytes)?;
    Some(parted(at, bytes))
}

/// The fields of a line that are still to come, which contracts see as their list.
#[derive(Drop)]
pub struct Fields<'a> {
    rest: &'a [u8],
    more: bool,
}

impl<'a> Model for Fields<'a> {
    ghost use Rattle.std.specs.Prelude.{List, ℕ, [], if◌then◌else◌};
    ghost use Rattle.linked_text.specs.Fields.{fields_of};

    ghost Value = { List (List ℕ) };

    ghost view = { λ f. if f.more then fields_of f.rest.now else [] };
}

impl<'a> Fields<'a> {
    /// All fields of the line.
    pub fn new(line: &'a [u8]) -> Fields<'a>
        ensures { result ≡ fields_of line.entry.now }
    {
        Fields {
            rest: line,
            more: true,
        }
    }

    /// The next field.
    pub fn next_field(&mut self) -> Option<&'a [u8]>
        ensures { MatchOption result ((self.old ≡ []) × (self.new ≡ [])) (λ f. self.old ≡ f.now ∷ self.new) }
    {
        if !self.more {
            return None;
        }
        match cut_field(self.rest) {
            Some((field, rest)) => {
                self.rest = rest;
                Some(field)
            }
            None => {
                self.more = false;
                Some(self.rest)
            }
        }
    }

    /// How many fields are left.
    pub fn len(&self) -> usize
        ensures { result ≡ length self.now }
    {
        if !self.more {
            return 0;
        }
        count_of(b' ', self.rest) + 1
    }
}

type Three<'a> = (&'a [u8], &'a [u8], &'a [u8]);

type Four<'a> = (&'a [u8], &'a [u8], &'a [u8], &'a [u8]);

type Seven<'a> = (
    &'a [u8],
    &'a [u8],
    &'a [u8],
    &'a [u8],
    &'a [u8],
    &'a [u8],
    &'a [u8],
);

type Nine<'a> = (
    &'a [u8],
    &'a [u8],
    &'a [u8],
    &'a [u8],
    &'a [u8],
    &'a [u8],
    &'a [u8],
    &'a [u8],
    &'a [u8],
);

/// The first three fields of a line, which more fields follow, and those after them.
#[inline(always)]
fn cut_three(line: &[u8]) -> Option<Four<'_>>
    ensures { MatchOption result (length (fields_of line.now) < 4)
        (λ x. fields_of line.now ≡ x.0.now ∷ x.1.now ∷ x.2.now ∷ fields_of x.3.now) }
{
    let (first, rest) = cut_field(line)?;
    let (second, rest) = cut_field(rest)?;
    let (third, rest) = cut_field(rest)?;
    Some((first, second, third, rest))
}

/// The field of a line of one.
#[inline(always)]
pub fn one(line: &[u8]) -> Option<&[u8]>
    ensures { Finds (λ x. x.now) result (one (fields_of line.now)) }
{
    match cut_field(line) {
        Some(_) => None,
        None => Some(line),
    }
}

/// The fields of a line of two.
#[inline(always)]
pub fn two(line: &[u8]) -> Option<(&[u8], &[u8])>
    ensures { Finds (λ x. (x.0.now, x.1.now)) result (two (fields_of line.now)) }
{
    let (first, rest) = cut_field(line)?;
    let second = one(rest)?;
    Some((first, second))
}

/// The fields of a line of three.
pub fn three(line: &[u8]) -> Option<Three<'_>>
    ensures { Finds (λ x. (x.0.now, x.1.now, x.2.now)) result (three (fields_of line.now)) }
{
    let (first, rest) = cut_field(line)?;
    let (second, third) = two(rest)?;
    Some((first, second, third))
}

/// The fields of a line of four.
pub fn four(line: &[u8]) -> Option<(&[u8], &[u8], &[u8], &[u8])>
    ensures { Finds (λ x. (x.0.now, x.1.now, x.2.now, x.3.now)) result (four (fields_of line.now)) }
{
    let (first, second, third, rest) = cut_three(line)?;
    let fourth = one(rest)?;
    Some((first, second, third, fourth))
}

/// The fields of a line of five.
pub fn five(line: &[u8]) -> Option<(&[u8], &[u8], &[u8], &[u8], &[u8])>
    ensures { Finds (λ x. (x.0.now, x.1.now, x.2.now, x.3.now, x.4.now)) result (five (fields_of line.now)) }
{
    let (first, second, third, rest) = cut_three(line)?;
    let (fourth, fifth) = two(rest)?;
    Some((first, second, third, fourth, fifth))
}

/// The fields of a line of seven.
pub fn seven(line: &[u8]) -> Option<Seven<'_>>
    ensures { Finds (λ x. (x.0.now, x.1.now, x.2.now, x.3.now, x.4.now, x.5.now, x.6.now))
        result (seven (fields_of line.now)) }
{
    let (first, second, third, rest) = cut_three(line)?;
    let (fourth, fifth, sixth, seventh) = four(rest)?;
    Some((first, second, third, fourth, fifth, sixth, seventh))
}

/// The fields of a line of nine.
pub fn nine(line: &[u8]) -> Option<Nine<'_>>
    ensures { Finds (λ x. (x.0.now, x.1.now, x.2.now, x.3.now, x.4.now, x.5.now, x.6.now, x.7.now, x.8.now))
        result (nine (fields_of line.now)) }
{
    let (first, second, third, rest) = cut_three(line)?;
    let (fourth, fifth, sixth, rest) = cut_three(rest)?;
    let (seventh, eighth, ninth) = three(rest)?;
    Some((
        first, second, third, fourth, fifth, sixth, seventh, eighth, ninth,
    ))
}
