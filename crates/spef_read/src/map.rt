//! The name map.

use name_numbers::{Named, TextKey};
use name_parts::{Prefix, PrefixedName};
use std::alloc::{AllocError, Global};
use std::marker::Model;

/// The names of a name map by their numbers, which contracts see as the list of these. Most names of a net begin with
/// one number, so that the name that was found last is kept: it is found again without a look-up by hash.
#[derive(Drop)]
pub struct NameMap<'a> {
    names: Named<'a, Prefix>,
    last: Option<(&'a [u8], Prefix)>,
}

impl<'a> Model for NameMap<'a> {
    ghost use Rattle.std.specs.Prelude.{◌≡◌, List, ℕ, Some, IfSome, option_map};
    ghost use Rattle.name_numbers.specs.Names.{found};

    ghost Value = { List (List ℕ × List ℕ) };

    ghost view = { λ m. m.names };

    ghost invariant = { λ m. IfSome m.last (λ l. option_map (λ e. e.1) (found l.0.now m.names) ≡ Some l.1) };
}

impl<'a> NameMap<'a> {
    ghost use Rattle.std.specs.Prelude.{◌≡◌, true, false, [], Some, None, is_some, option_map, IfOk, OnOk};
    ghost use Rattle.name_numbers.specs.Names.{found, with_value};

    /// No name, with the key of the text that the numbers come from.
    pub fn new(alloc: Global, key: TextKey) -> NameMap<'a>
        ensures { result ≡ [] }
    {
        NameMap {
            names: Named::new(alloc, key),
            last: None,
        }
    }

    /// Whether a number has a name.
    pub fn has(&self, number: &'a [u8]) -> bool
        ensures { result ≡ is_some (found number.entry.now self.now) }
    {
        self.names.find(number).is_some()
    }

    /// Gives a number its name, in the place of the one that it has.
    pub fn set(&mut self, number: &'a [u8], name: Prefix) -> Result<(), AllocError>
        ensures { OnOk result (self.new ≡ with_value number.entry.now name self.old) }
    {
        self.last = None;
        self.names.set(number, name)?;
        Ok(())
    }

    /// Makes `out` the name of a number, and says whether there is one.
    pub fn start(&mut self, number: &'a [u8], out: &mut PrefixedName) -> Result<bool, AllocError>
        ensures kept { self.new ≡ self.old }
        ensures known { IfOk result (λ known. known ≡ true
            → option_map (λ e. e.1) (found number.entry.now self.old) ≡ Some out.new) }
        ensures unknown { IfOk result (λ known. known ≡ false → found number.entry.now self.old ≡ None) }
    {
        if let Some((last, name)) = &self.last {
            if *last == number {
                out.start(Some(name))?;
                return Ok(true);
            }
        }
        let Some((_, name)) = self.names.find(number) else {
            return Ok(false);
        };
        out.start(Some(name))?;
        self.last = Some((number, name.shared()?));
        Ok(true)
    }
}
