ghost use Rattle.std.specs.Prelude.{◌≡◌, ◌<◌, ◌^◌, List, ℕ, length, map, option_map, position, OnOk, OnErr};
ghost use Rattle.std.specs.Str.{bytes_eq};
ghost use Rattle.name_numbers.specs.Names.{found, with_value};
ghost use Rattle.name_parts.specs.Own.{HaveOwnNumbers};
ghost use Rattle.name_parts.specs.Parts.{whole};

use crate::owned::{KeptName, PrefixedName};
use crate::parts::NameParts;
use indexmap::IndexMap;
use name_numbers::TextKey;
use std::alloc::{AllocError, Global};
use std::marker::Model;

/// The greatest number of names that a table has.
const MOST_NAMES: usize = 4_294_967_295;

/// Values by name, in the order in which the names were first seen, with names of its own; contracts see the list of
/// names with their values. Prefixes are shared between the names. A look-up is by hash, and takes no memory; its time
/// is in proportion to the bytes of the name. A table with 4,294,967,295 names has no memory for a further one.
#[derive(Drop)]
pub struct PrefixedTable<V> {
    table: IndexMap<KeptName, V, TextKey>,
}

impl<V> Model for PrefixedTable<V> {
    ghost use Rattle.std.specs.Prelude.{List, ℕ, map, length, ◌<◌, ◌^◌};

    ghost Value = { List (List ℕ × V) };

    ghost view = { λ n. map (λ e. (e.0, e.1)) n.table.entries };

    ghost invariant = { λ n. length n.table.entries < 2 ^ 32 };
}

impl<V: Drop> PrefixedTable<V> {
    ghost use Rattle.std.specs.Prelude.{[]};
    ghost use Rattle.std.specs.List.{slice_get};

    /// No name, with the key of the text that the names come from.
    pub fn new(alloc: Global, key: TextKey) -> PrefixedTable<V>
        ensures { result ≡ [] }
    {
        PrefixedTable {
            table: IndexMap::with_hasher(alloc, key),
        }
    }

    /// The number and the value of a name, where it has one.
    pub fn find(&self, name: &PrefixedName) -> Option<(u32, &V)>
        ensures { option_map (λ f. (f.0, f.1.now)) result ≡ found name.now self.now }
    {
        match self.table.get_full(name.parts()) {
            None => None,
            Some((number, _, value)) => Some((number as u32, value)),
        }
    }

    /// The number of a name in parts, where it has one.
    pub fn number(&self, name: NameParts<'_>) -> Option<u32>
        ensures { result ≡ position (bytes_eq (whole name.entry)) (map (λ e. e.0) self.now) }
    {
        match self.table.get_index_of(name) {
            None => None,
            Some(number) => Some(number as u32),
        }
    }

    /// The name of a number and its value.
    pub fn get(&self, number: u32) -> Option<(NameParts<'_>, &V)>
        ensures { option_map (λ e. (whole e.0, e.1.now)) result ≡ slice_get self.now number }
    {
        match self.table.get_index(number as usize) {
            None => None,
            Some((name, value)) => Some((name.parts(), value)),
        }
    }

    /// Gives a name its value, in the place of the one that it has.
    pub fn set(&mut self, alloc: Global, name: &PrefixedName, value: V) -> Result<(), AllocError>
        ensures given { OnOk result (self.new ≡ with_value name.now value self.old) }
        ensures unchanged { OnErr result (self.new ≡ self.old) }
    {
        if self.table.len() >= MOST_NAMES {
            return Err(AllocError);
        }
        self.table.insert(name.kept(alloc)?, value)?;
        Ok(())
    }

    /// The key that the names are hashed under, for a further table of names of the same text. No contract speaks of
    /// it, as none speaks of time.
    pub fn key(&self) -> TextKey {
        *self.table.hasher()
    }

    /// How many names there are. Each has a number of its own: no two are the same.
    pub fn len(&self) -> u32
        ensures count { result ≡ length self.now }
        ensures own { HaveOwnNumbers (map (λ e. e.0) self.now) }
    {
        self.table.len() as u32
    }
}
