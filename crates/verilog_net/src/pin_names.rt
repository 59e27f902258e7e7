//! The names of the pins of an instance.

ghost use Rattle.std.specs.Prelude.{◌≡◌, [], not, map, IfOk, OnOk};
ghost use Rattle.name_numbers.specs.Names.{has_name, with_name};

use name_numbers::{Names, TextKey};
use std::alloc::{AllocError, Global};
use std::marker::Model;
use std::mem;

/// How many names are looked through one after another.
const FEW: usize = 8;

/// The names of an instance's pins, which contracts see as the list of these. Most instances have few pins, whose names
/// are looked through one after another; those beyond eight are found by hash.
#[derive(Drop)]
pub struct PinNames<'a> {
    key: TextKey,
    few: Vec<&'a [u8]>,
    others: Names<'a>,
}

impl<'a> Model for PinNames<'a> {
    ghost use Rattle.std.specs.Prelude.{List, ℕ, ◌++◌, map};

    ghost Value = { List (List ℕ) };

    ghost view = { λ n. map (λ k. k.now) n.few.items ++ n.others };
}

/// Whether the name is one of these.
fn is_among(name: &[u8], names: &[&[u8]]) -> bool
    ensures { result ≡ has_name name.now (map (λ k. k.now) names.now) }
{
    let mut rest = names;
    'names: while let [known, more @ ..] = rest {
        if name == *known {
            return true;
        }
        rest = more;
    }
    false
}

impl<'a> PinNames<'a> {
    /// No name, with the key of the text that the names come from.
    pub fn new(alloc: Global, key: TextKey) -> PinNames<'a>
        ensures { result ≡ [] }
    {
        PinNames {
            key,
            few: Vec::new(alloc),
            others: Names::new(alloc, key),
        }
    }

    /// Whether the name is seen for the first time; it has been seen from then on.
    pub fn enter(&mut self, name: &'a [u8]) -> Result<bool, AllocError>
        ensures fresh { IfOk result (λ fresh. fresh ≡ not (has_name name.entry.now self.old)) }
        ensures entered { OnOk result (self.new ≡ with_name name.entry.now self.old) }
    {
        if is_among(name, self.few.as_slice()) {
            return Ok(false);
        }
        if self.few.len() < FEW && self.others.len() == 0 {
            self.few.push(name)?;
            return Ok(true);
        }
        let (_, fresh) = self.others.enter(name)?;
        Ok(fresh)
    }

    /// Forgets the names. The memory of few names serves again; that of many is given back, since to empty it takes as
    /// long as it is large.
    pub fn clear(&mut self, alloc: Global)
        ensures { self.new ≡ [] }
    {
        self.few.clear();
        if self.others.len() > 0 {
            mem::drop(mem::replace(&mut self.others, Names::new(alloc, self.key)));
        }
    }
}
