//! Names in two parts.

ghost use Rattle.std.specs.Prelude.{◌≡◌, ◌+◌, ◌<◌, ◌≤◌, ◌++◌, OnOk, IfOk, length};
ghost use Rattle.std.specs.Cmp.Lexicographic.{nat_list_eq_equiv};
ghost use Rattle.std.specs.Cmp.{partial_equiv_from_equiv, on_per, on_equiv};
ghost use Rattle.std.specs.List.{fold};
ghost use Rattle.std.specs.Str.{bytes_eq};
ghost use Rattle.name_numbers.specs.Eights.{eights, same_eights};
ghost use Rattle.name_parts.specs.Parts.{front, whole};

use crate::prefix::Prefix;
use arrayvec::ArrayVec;
use name_numbers::write_eights;
use std::alloc::{AllocError, Global};
use std::hash::{Hash, Hasher};

/// A name in two parts, of which the second goes on where the first ends. Names are equal by their bytes, wherever they
/// are cut.
#[derive(Clone, Copy)]
pub struct NameParts<'a> {
    prefix: Option<&'a Prefix>,
    rest: &'a [u8],
}

/// Whether the bytes of the first two slices are those of the other two, where the first slice is no longer than the
/// third and all bytes are as many.
fn same_from(prefix: &[u8], rest: &[u8], longer: &[u8], last: &[u8]) -> bool
    requires shorter { length prefix.now ≤ length longer.now }
    requires as_many { length (prefix.now ++ rest.now) ≡ length (longer.now ++ last.now) }
    ensures { result ≡ bytes_eq (prefix.now ++ rest.now) (longer.now ++ last.now) }
{
    let (front, behind) = longer.split_at(prefix.len());
    let (middle, end) = rest.split_at(behind.len());
    prefix == front && (middle == behind && end == last)
}

/// Whether the bytes of the first two slices are those of the other two.
fn are_same(prefix: &[u8], rest: &[u8], other: &[u8], last: &[u8]) -> bool
    ensures { result ≡ bytes_eq (prefix.now ++ rest.now) (other.now ++ last.now) }
{
    if prefix.len() + rest.len() != other.len() + last.len() {
        return false;
    }
    if prefix.len() <= other.len() {
        same_from(prefix, rest, other, last)
    } else {
        same_from(other, last, prefix, rest)
    }
}

/// The bytes of two slices, eight at most, in one.
fn joined(first: &[u8], second: &[u8]) -> ArrayVec<u8, 8>
    requires { length first.now + length second.now ≤ 8 }
    ensures { result.items ≡ first.now ++ second.now }
{
    let mut bytes = ArrayVec::new();
    bytes.try_extend_from_slice(first).unwrap();
    bytes.try_extend_from_slice(second).unwrap();
    bytes
}

/// Writes to a hash what is left of a name where its first slice ends, fewer than eight bytes, and its other slice.
fn write_across<H: Hasher>(left: &[u8], rest: &[u8], state: &mut H)
    requires { length left.now < 8 }
    ensures { state.new ≡ fold H.write state.old (eights (left.now ++ rest.now)) }
{
    if left.len() + rest.len() < 8 {
        state.write(joined(left, rest).as_slice());
        return;
    }
    let (front, more) = rest.split_at(8 - left.len());
    state.write(joined(left, front).as_slice());
    let end = write_eights(more, state);
    state.write(end);
}

/// Writes a name to a hash, the second slice after the first.
fn write_both<H: Hasher>(first: &[u8], rest: &[u8], state: &mut H)
    ensures { state.new ≡ fold H.write state.old (eights (first.now ++ rest.now)) }
{
    let left = write_eights(first, state);
    if left.is_empty() {
        let end = write_eights(rest, state);
        state.write(end);
    } else {
        write_across(left, rest, state);
    }
}

impl<'a> NameParts<'a> {
    /// A name of these parts.
    #[inline]
    pub fn new(prefix: &'a Prefix, rest: &'a [u8]) -> NameParts<'a>
        ensures { whole result ≡ prefix.now ++ rest.now }
    {
        NameParts {
            prefix: Some(prefix),
            rest,
        }
    }

    /// A name of these bytes.
    #[inline]
    pub fn of(bytes: &'a [u8]) -> NameParts<'a>
        ensures { whole result ≡ bytes.now }
    {
        NameParts {
            prefix: None,
            rest: bytes,
        }
    }

    /// The bytes with which the name begins.
    #[inline]
    fn front(self) -> &'a [u8]
        ensures { result.now ≡ front self.entry }
    {
        match self.prefix {
            None => b"",
            Some(prefix) => prefix.bytes(),
        }
    }

    /// Appends the bytes of the name.
    pub fn push_to(self, out: &mut Vec<u8>) -> Result<(), AllocError>
        ensures { OnOk result (out.new.items ≡ out.old.items ++ whole self.entry) }
    {
        out.extend_from_slice(self.front())?;
        out.extend_from_slice(self.rest)?;
        Ok(())
    }

    /// The bytes of the name, in memory of their own.
    pub fn to_vec(self, alloc: Global) -> Result<Vec<u8>, AllocError>
        ensures { IfOk result (λ bytes. bytes.items ≡ whole self.entry) }
    {
        let mut bytes = Vec::new(alloc);
        self.push_to(&mut bytes)?;
        Ok(bytes)
    }
}

impl<'a> PartialEq for NameParts<'a> {
    ghost eq = { λ x y. bytes_eq (whole x) (whole y) };

    ghost laws = { on_per whole (partial_equiv_from_equiv nat_list_eq_equiv) };

    fn eq(&self, other: &Self) -> bool {
        are_same(self.front(), self.rest, other.front(), other.rest)
    }
}

impl<'a> Eq for NameParts<'a> {
    ghost laws = { on_equiv whole nat_list_eq_equiv };
}

impl<'a> Hash for NameParts<'a> {
    ghost hash_input = { λ x. eights (whole x) };

    ghost respects_eq = { λ x y. same_eights (whole x) (whole y) };

    fn hash<H: Hasher>(&self, state: &mut H) {
        write_both(self.front(), self.rest, state);
    }
}
