//! The names of related pins.

ghost use Rattle.std.specs.Prelude.{◌≡◌};
ghost use Rattle.std.specs.List.{list_all};
ghost use Rattle.text_forms.specs.Names.{is_name};
ghost use Rattle.liberty_tables.specs.Contents.{names_in};

use liberty_tables::first_item;
use std::alloc::Global;
use std::marker::Model;
use text_forms::is_name;
use xt_lex::TextFault;
use xt_model::Code;

/// The names of the related pins of a timing group, in the order of the text; contracts see the list of them. What is
/// kept is the string in which white space separates them.
#[derive(Debug, Drop)]
pub struct RelatedNames {
    text: Vec<u8>,
}

impl Model for RelatedNames {
    ghost use Rattle.std.specs.Prelude.{List, ℕ};
    ghost use Rattle.liberty_tables.specs.Contents.{names_in};

    ghost Value = { List (List ℕ) };

    ghost view = { λ r. names_in r.text.items };
}

/// Names of related pins, one after another; contracts see the list of those that are left.
#[derive(Debug, Drop)]
pub struct NamesLeft<'a> {
    rest: &'a [u8],
}

impl<'a> Model for NamesLeft<'a> {
    ghost use Rattle.std.specs.Prelude.{List, ℕ};
    ghost use Rattle.liberty_tables.specs.Contents.{names_in};

    ghost Value = { List (List ℕ) };

    ghost view = { λ n. names_in n.rest.now };
}

/// Whether the items of a string are names.
fn are_names(text: &[u8]) -> bool
    ensures { result ≡ list_all is_name (names_in text.now) }
{
    let mut rest = text;
    'items: while let Some((name, more)) = first_item(false, rest) {
        if !is_name(name) {
            return false;
        }
        rest = more;
    }
    true
}

impl RelatedNames {
    ghost use Rattle.std.specs.Prelude.{[]};
    ghost use Rattle.text_forms.specs.Stops.{Gives};
    ghost use Rattle.liberty_cells.specs.Names.{some_names};

    /// No name.
    pub(crate) fn none(alloc: Global) -> RelatedNames
        ensures { result ≡ [] }
    {
        RelatedNames {
            text: Vec::new(alloc),
        }
    }

    /// The names in a string that is the value of an attribute on a line: one at least.
    pub(crate) fn of_string(line: u32, mut text: Vec<u8>) -> Result<RelatedNames, TextFault>
        ensures { Gives (λ names. names) result (some_names line (names_in text.items)) }
    {
        let refused = TextFault::Refused {
            line,
            code: Code::L1,
        };
        if first_item(false, &text).is_none() {
            return Err(refused);
        }
        if !are_names(&text) {
            return Err(refused);
        }
        text.shrink_to_fit();
        Ok(RelatedNames { text })
    }

    /// The names, from the first on. The next of them takes time in proportion to its bytes.
    pub fn names(&self) -> NamesLeft<'_>
        ensures { result ≡ self.now }
    {
        NamesLeft { rest: &self.text }
    }
}

impl<'a> NamesLeft<'a> {
    ghost use Rattle.std.specs.Prelude.{[], ◌∷◌, MatchOption};

    /// The next name.
    pub fn next(&mut self) -> Option<&'a [u8]>
        ensures { MatchOption result (self.old ≡ []) (λ name. self.old ≡ name.now ∷ self.new) }
    {
        let (name, more) = first_item(false, self.rest)?;
        self.rest = more;
        Some(name)
    }
}
