ghost use Rattle.std.specs.Prelude.{◌≡◌, option_map, OnOk, OnErr};
ghost use Rattle.name_numbers.specs.Names.{value_of, with_value};
ghost use Rattle.name_parts.specs.Parts.{whole};

use crate::parts::NameParts;
use indexmap::IndexMap;
use name_numbers::TextKey;
use std::alloc::{AllocError, Global};
use std::marker::Model;

/// Values by names in parts, which the table borrows; contracts see the list of names with their values. A look-up is
/// by hash, takes no memory, and its time is in proportion to the bytes of the name.
#[derive(Drop)]
pub struct ByParts<'a, V> {
    table: IndexMap<NameParts<'a>, V, TextKey>,
}

impl<'a, V> Model for ByParts<'a, V> {
    ghost use Rattle.std.specs.Prelude.{List, ℕ, map};
    ghost use Rattle.name_parts.specs.Parts.{whole};

    ghost Value = { List (List ℕ × V) };

    ghost view = { λ n. map (λ e. (whole e.0, e.1)) n.table.entries };
}

impl<'a, V: Drop> ByParts<'a, V> {
    ghost use Rattle.std.specs.Prelude.{[]};

    /// No name, with the key of the texts that the names come from.
    pub fn new(alloc: Global, key: TextKey) -> ByParts<'a, V>
        ensures { result ≡ [] }
    {
        ByParts {
            table: IndexMap::with_hasher(alloc, key),
        }
    }

    /// The value of a name, where it has one.
    pub fn get(&self, name: NameParts<'a>) -> Option<&V>
        ensures { option_map (λ v. v.now) result ≡ value_of (whole name.entry) self.now }
    {
        self.table.get(&name)
    }

    /// Gives a name its value, in the place of the one that it has.
    pub fn set(&mut self, name: NameParts<'a>, value: V) -> Result<(), AllocError>
        ensures given { OnOk result (self.new ≡ with_value (whole name.entry) value self.old) }
        ensures unchanged { OnErr result (self.new ≡ self.old) }
    {
        self.table.insert(name, value)?;
        Ok(())
    }
}
