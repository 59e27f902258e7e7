//! What was found for one instance, by the groups of its pins.

ghost use Rattle.std.specs.Prelude.{◌≡◌, ◌<◌, ◌⊎◌, ℕ, [], length, Some, OnOk, option_map};
ghost use Rattle.link_pins.specs.Known.{known};

use std::alloc::{AllocError, Global};

/// A value that was found for a group of the cell at a place, for the instance whose pins begin at a place.
#[derive(Drop)]
pub struct KnownAt<T> {
    pub from: usize,
    pub cell: usize,
    pub value: T,
}

/// Values that were found, of each number of a group in its cell the last.
#[derive(Drop)]
pub struct Known<T> {
    of: Vec<Option<KnownAt<T>>>,
}

impl<T: Drop> Known<T> {
    /// Nothing is found.
    pub fn new(alloc: Global) -> Known<T>
        ensures { result.of.items ≡ [] }
    {
        Known {
            of: Vec::new(alloc),
        }
    }

    /// What was found for the group of this number, of the cell at a place, for the instance whose pins begin at a
    /// place.
    pub fn get(&self, number: usize, cell: usize, from: usize) -> Option<&T>
        ensures { option_map (λ v. v.now) result ≡ known self.now.of.items number cell from }
    {
        match self.of.get(number) {
            None => None,
            Some(None) => None,
            Some(Some(found)) => {
                if found.from == from && found.cell == cell {
                    Some(&found.value)
                } else {
                    None
                }
            }
        }
    }

    /// Makes room for the group of this number.
    fn grow(&mut self, number: usize) -> Result<(), AllocError>
        ensures room { OnOk result (number < length self.new.of.items) }
        ensures same { OnOk result
            ((n c f : ℕ) → known self.new.of.items n c f ≡ known self.old.of.items n c f) }
    {
        'room: while self.of.len() <= number {
            self.of.push(None)?;
        }
        Ok(())
    }

    /// Keeps what was found.
    pub fn put(&mut self, number: usize, found: KnownAt<T>) -> Result<(), AllocError>
        ensures this { OnOk result (known self.new.of.items number found.cell found.from ≡ Some found.value) }
        ensures others { OnOk result ((n c f : ℕ) (x : T) → known self.new.of.items n c f ≡ Some x
            → ((n ≡ number) × (c ≡ found.cell) × (f ≡ found.from) × (x ≡ found.value))
            ⊎ (known self.old.of.items n c f ≡ Some x)) }
    {
        self.grow(number)?;
        self.of[number] = Some(found);
        Ok(())
    }
}
