ghost use Rattle.std.specs.Prelude.{◌≡◌, List, ℕ, not, length, map, option_map, IfOk, OnOk, OnErr};
ghost use Rattle.name_numbers.specs.Names.{found, has_name, number_of, value_of, with_name, with_value};

use crate::bytes::NameBytes;
use crate::key::TextKey;
use indexmap::{IndexMap, IndexSet};
use std::alloc::{AllocError, Global};
use std::marker::Model;

/// Names in the order in which they were first seen, which contracts see as the list of their bytes. A name keeps its
/// number: how many names were seen before it. A look-up is by hash under a `TextKey`, and takes no memory.
#[derive(Drop)]
pub struct Names<'a> {
    set: IndexSet<NameBytes<'a>, TextKey>,
}

impl<'a> Model for Names<'a> {
    ghost Value = { List (List ℕ) };

    ghost view = { λ n. map (λ k. k.bytes.now) n.set.keys };
}

impl<'a> Names<'a> {
    ghost use Rattle.std.specs.Prelude.{[]};

    /// No name, with the key of the text that the names come from.
    pub fn new(alloc: Global, key: TextKey) -> Names<'a>
        ensures { result ≡ [] }
    {
        Names {
            set: IndexSet::with_hasher(alloc, key),
        }
    }

    /// The number of the name, and whether it is seen for the first time.
    pub fn enter(&mut self, name: &'a [u8]) -> Result<(usize, bool), AllocError>
        ensures number { IfOk result (λ r. r.0 ≡ number_of name.entry.now self.old) }
        ensures fresh { IfOk result (λ r. r.1 ≡ not (has_name name.entry.now self.old)) }
        ensures entered { OnOk result (self.new ≡ with_name name.entry.now self.old) }
        ensures unchanged { OnErr result (self.new ≡ self.old) }
    {
        Ok(self.set.insert_full(NameBytes { bytes: name })?)
    }

    /// Forgets the names. Those that are seen from now on are numbered from 0 again, in the memory of these.
    pub fn clear(&mut self)
        ensures { self.new ≡ [] }
    {
        self.set.clear();
    }

    /// How many names were seen.
    pub fn len(&self) -> usize
        ensures { result ≡ length self.now }
    {
        self.set.len()
    }
}

/// Values by name, in the order in which the names were first seen; contracts see the list of names with their values.
#[derive(Drop)]
pub struct Named<'a, V> {
    table: IndexMap<NameBytes<'a>, V, TextKey>,
}

impl<'a, V> Model for Named<'a, V> {
    ghost Value = { List (List ℕ × V) };

    ghost view = { λ n. map (λ e. (e.0.bytes.now, e.1)) n.table.entries };
}

impl<'a, V: Drop> Named<'a, V> {
    ghost use Rattle.std.specs.Prelude.{[]};

    /// No name, with the key of the text that the names come from.
    pub fn new(alloc: Global, key: TextKey) -> Named<'a, V>
        ensures { result ≡ [] }
    {
        Named {
            table: IndexMap::with_hasher(alloc, key),
        }
    }

    /// The number and the value of a name, where it has one. It takes no memory.
    pub fn find(&self, name: &'a [u8]) -> Option<(usize, &V)>
        ensures { option_map (λ f. (f.0, f.1.now)) result ≡ found name.entry.now self.now }
    {
        match self.table.get_full(&NameBytes { bytes: name }) {
            None => None,
            Some((number, _, value)) => Some((number, value)),
        }
    }

    /// Gives a name its value, in the place of the one that it has.
    pub fn set(&mut self, name: &'a [u8], value: V) -> Result<(), AllocError>
        ensures given { OnOk result (self.new ≡ with_value name.entry.now value self.old) }
        ensures unchanged { OnErr result (self.new ≡ self.old) }
    {
        self.table.insert(NameBytes { bytes: name }, value)?;
        Ok(())
    }

    /// Gives a name its value, in the place of the one that it has, and hands that out.
    pub fn replace(&mut self, name: &'a [u8], value: V) -> Result<Option<V>, AllocError>
        ensures given { OnOk result (self.new ≡ with_value name.entry.now value self.old) }
        ensures old { IfOk result (λ o. o ≡ value_of name.entry.now self.old) }
    {
        Ok(self.table.insert(NameBytes { bytes: name }, value)?)
    }

    /// The value of a name, where it has one. It takes no memory.
    pub fn get(&self, name: &'a [u8]) -> Option<&V>
        ensures { option_map (λ v. v.now) result ≡ value_of name.entry.now self.now }
    {
        self.table.get(&NameBytes { bytes: name })
    }

    /// How many names there are.
    pub fn len(&self) -> usize
        ensures { result ≡ length self.now }
    {
        self.table.len()
    }
}
