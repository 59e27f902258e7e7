//! The bytes of names as keys of tables.

ghost use Rattle.std.specs.Prelude.{◌≡◌, ◌<◌, ◌++◌, List, ℕ, length};
ghost use Rattle.std.specs.Cmp.Lexicographic.{nat_list_eq_equiv};
ghost use Rattle.std.specs.Cmp.{on_equiv, on_per, partial_equiv_from_equiv};
ghost use Rattle.std.specs.List.{fold};
ghost use Rattle.std.specs.Str.{bytes_eq};
ghost use Rattle.name_numbers.specs.Eights.{eights, same_eights};

use indexmap::Equivalent;
use smallvec::SmallVec;
use std::hash::{Hash, Hasher};

/// Writes bytes to a hash eight at a time. What is left, fewer than eight, is for the caller to write: as it is where
/// the name ends with it, else with the bytes that follow.
#[inline]
pub fn write_eights<'a, H: Hasher>(bytes: &'a [u8], state: &mut H) -> &'a [u8]
    ensures few { length result.now < 8 }
    ensures written { (more : List ℕ)
        → fold H.write state.old (eights (bytes.entry.now ++ more))
        ≡ fold H.write state.new (eights (result.now ++ more)) }
{
    let mut rest = bytes;
    'eights: while rest.len() >= 8 {
        let (eight, more) = rest.split_at(8);
        state.write(eight);
        rest = more;
    }
    rest
}

/// The bytes of a name. They are hashed eight at a time.
#[derive(Clone, Copy)]
pub struct NameBytes<'a> {
    pub(crate) bytes: &'a [u8],
}

impl<'a> PartialEq for NameBytes<'a> {
    ghost eq = { λ x y. bytes_eq x.bytes.now y.bytes.now };

    ghost laws = { on_per (λ n. n.bytes.now) (partial_equiv_from_equiv nat_list_eq_equiv) };

    fn eq(&self, other: &Self) -> bool {
        self.bytes == other.bytes
    }
}

impl<'a> Eq for NameBytes<'a> {
    ghost laws = { on_equiv (λ n. n.bytes.now) nat_list_eq_equiv };
}

impl<'a> Hash for NameBytes<'a> {
    ghost hash_input = { λ n. eights n.bytes.now };

    ghost respects_eq = { λ x y. same_eights x.bytes.now y.bytes.now };

    fn hash<H: Hasher>(&self, state: &mut H) {
        let left = write_eights(self.bytes, state);
        state.write(left);
    }
}

/// A name with bytes of its own, which are hashed as `NameBytes` are. One of at most 16 bytes takes no block of memory.
#[derive(Drop)]
pub struct OwnedName {
    pub(crate) bytes: SmallVec<u8, 16>,
}

impl PartialEq for OwnedName {
    ghost eq = { λ x y. bytes_eq x.bytes.items y.bytes.items };

    ghost laws = { on_per (λ n. n.bytes.items) (partial_equiv_from_equiv nat_list_eq_equiv) };

    fn eq(&self, other: &Self) -> bool {
        self.bytes.as_slice() == other.bytes.as_slice()
    }
}

impl Eq for OwnedName {
    ghost laws = { on_equiv (λ n. n.bytes.items) nat_list_eq_equiv };
}

impl Hash for OwnedName {
    ghost hash_input = { λ n. eights n.bytes.items };

    ghost respects_eq = { λ x y. same_eights x.bytes.items y.bytes.items };

    fn hash<H: Hasher>(&self, state: &mut H) {
        let left = write_eights(self.bytes.as_slice(), state);
        state.write(left);
    }
}

impl<'a> Equivalent<OwnedName> for NameBytes<'a> {
    ghost equivalent = { λ q k. bytes_eq q.bytes.now k.bytes.items };

    ghost respects_hash = { λ q k. same_eights q.bytes.now k.bytes.items };

    ghost respects_eq = { λ q x y. nat_list_eq_equiv.congr q.bytes.now x.bytes.items y.bytes.items };

    fn equivalent(&self, key: &OwnedName) -> bool {
        self.bytes == key.bytes.as_slice()
    }
}
