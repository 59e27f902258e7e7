//! Names with a prefix that others share.

ghost use Rattle.std.specs.Prelude.{◌≡◌};
ghost use Rattle.std.specs.Cmp.Lexicographic.{nat_list_eq_equiv};
ghost use Rattle.std.specs.Cmp.{partial_equiv_from_equiv};
ghost use Rattle.std.specs.Str.{bytes_eq};
ghost use Rattle.name_numbers.specs.Eights.{eights, same_eights};
ghost use Rattle.name_parts.specs.Parts.{whole};

use crate::parts::NameParts;
use crate::prefix::Prefix;
use indexmap::Equivalent;
use smallvec::SmallVec;
use std::alloc::{AllocError, Global};
use std::hash::{Hash, Hasher};
use std::marker::Model;

/// A name that is put together: a prefix, if it has one, and its other bytes, which are its own.
#[derive(Drop)]
pub struct PrefixedName {
    prefix: Option<Prefix>,
    rest: Vec<u8>,
}

impl Model for PrefixedName {
    ghost use Rattle.std.specs.Prelude.{ℕ, List, ◌++◌};
    ghost use Rattle.name_parts.specs.Parts.{or_none};

    ghost Value = { List ℕ };

    ghost view = { λ n. or_none n.prefix ++ n.rest.items };
}

impl PrefixedName {
    ghost use Rattle.std.specs.Prelude.{[], ◌∷◌, ◌++◌, length, IfOk, OnOk, option_map};
    ghost use Rattle.name_parts.specs.Parts.{or_none, whole};

    /// A name of no byte.
    pub fn new(alloc: Global) -> PrefixedName
        ensures { result ≡ [] }
    {
        PrefixedName {
            prefix: None,
            rest: Vec::new(alloc),
        }
    }

    /// Makes this a name of the prefix alone, or of no byte.
    pub fn start(&mut self, prefix: Option<&Prefix>) -> Result<(), AllocError>
        ensures { OnOk result (self.new ≡ or_none (option_map (λ p. p.now) prefix.entry)) }
    {
        self.prefix = match prefix {
            None => None,
            Some(prefix) => Some(prefix.shared()?),
        };
        self.rest.clear();
        Ok(())
    }

    /// One more byte at the end.
    #[inline]
    pub fn push(&mut self, byte: u8) -> Result<(), AllocError>
        ensures { OnOk result (self.new ≡ self.old ++ byte ∷ []) }
    {
        self.rest.push(byte)?;
        Ok(())
    }

    /// How many bytes the name has.
    pub fn len(&self) -> usize
        ensures { result ≡ length self.now }
    {
        match &self.prefix {
            None => self.rest.len(),
            Some(prefix) => prefix.bytes().len() + self.rest.len(),
        }
    }

    /// The name in two parts.
    #[inline]
    pub fn parts(&self) -> NameParts<'_>
        ensures { whole result ≡ self.now }
    {
        match &self.prefix {
            None => NameParts::of(self.rest.as_slice()),
            Some(prefix) => NameParts::new(prefix, self.rest.as_slice()),
        }
    }

    /// The name as a table keeps it, which shares the prefix.
    pub fn kept(&self, alloc: Global) -> Result<KeptName, AllocError>
        ensures { IfOk result (λ n. n ≡ self.now) }
    {
        let prefix = match &self.prefix {
            None => None,
            Some(prefix) => Some(prefix.shared()?),
        };
        Ok(KeptName {
            prefix,
            rest: SmallVec::from_slice(alloc, self.rest.as_slice())?,
        })
    }
}

/// A name that is kept: a prefix, if it has one, and its other bytes, of which up to 16 take no block of memory. Names
/// are equal by their bytes, wherever the prefix ends.
#[derive(Drop)]
pub struct KeptName {
    prefix: Option<Prefix>,
    rest: SmallVec<u8, 16>,
}

impl Model for KeptName {
    ghost use Rattle.std.specs.Prelude.{ℕ, List, ◌++◌};
    ghost use Rattle.name_parts.specs.Parts.{or_none};

    ghost Value = { List ℕ };

    ghost view = { λ n. or_none n.prefix ++ n.rest.items };
}

impl KeptName {
    ghost use Rattle.name_parts.specs.Parts.{whole};

    /// The name in two parts.
    #[inline]
    pub fn parts(&self) -> NameParts<'_>
        ensures { whole result ≡ self.now }
    {
        match &self.prefix {
            None => NameParts::of(self.rest.as_slice()),
            Some(prefix) => NameParts::new(prefix, self.rest.as_slice()),
        }
    }
}

impl PartialEq for KeptName {
    ghost eq = { λ x y. bytes_eq x y };

    ghost laws = { partial_equiv_from_equiv nat_list_eq_equiv };

    fn eq(&self, other: &Self) -> bool {
        self.parts() == other.parts()
    }
}

impl Eq for KeptName {
    ghost laws = { nat_list_eq_equiv };
}

impl Hash for KeptName {
    ghost hash_input = { eights };

    ghost respects_eq = { same_eights };

    fn hash<H: Hasher>(&self, state: &mut H) {
        self.parts().hash(state);
    }
}

impl<'a> Equivalent<KeptName> for NameParts<'a> {
    ghost equivalent = { λ q k. bytes_eq (whole q) k };

    ghost respects_hash = { λ q k. same_eights (whole q) k };

    ghost respects_eq = { λ q x y. nat_list_eq_equiv.congr (whole q) x y };

    fn equivalent(&self, key: &KeptName) -> bool {
        *self == key.parts()
    }
}
