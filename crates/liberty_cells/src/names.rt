//! Names of cells and pins.

ghost use Rattle.std.specs.Prelude.{◌≡◌, List, ℕ, not, map, IfOk, OnOk};
ghost use Rattle.name_numbers.specs.Names.{has_name, with_name};
ghost use Rattle.text_forms.specs.Stops.{Gives};
ghost use Rattle.liberty_tables.specs.Contents.{content};
ghost use Rattle.liberty_cells.specs.Names.{some_names};

use indexmap::IndexSet;
use liberty_groups::Span;
use liberty_tables::content;
use name_numbers::TextKey;
use smallvec::SmallVec;
use std::alloc::{AllocError, Global};
use std::marker::Model;
use text_forms::is_name;
use xt_lex::TextFault;
use xt_model::{Code, Name};

/// Names that were seen, with their own bytes; contracts see the list of these. One of at most 16 bytes takes no block
/// of memory. A look-up is by hash.
#[derive(Drop)]
pub struct SeenNames {
    set: IndexSet<SmallVec<u8, 16>, TextKey>,
}

impl Model for SeenNames {
    ghost Value = { List (List ℕ) };

    ghost view = { λ n. map (λ k. k.items) n.set.keys };
}

impl SeenNames {
    ghost use Rattle.std.specs.Prelude.{[]};

    /// No name, with the key of the text that the names come from.
    pub fn new(alloc: Global, key: TextKey) -> SeenNames
        ensures { result ≡ [] }
    {
        SeenNames {
            set: IndexSet::with_hasher(alloc, key),
        }
    }

    /// Whether the name is seen for the first time; it has been seen from then on.
    pub fn enter(&mut self, alloc: Global, name: &[u8]) -> Result<bool, AllocError>
        ensures fresh { IfOk result (λ fresh. fresh ≡ not (has_name name.now self.old)) }
        ensures entered { OnOk result (self.new ≡ with_name name.now self.old) }
    {
        let kept = SmallVec::from_slice(alloc, name)?;
        let (_, fresh) = self.set.insert_full(kept)?;
        Ok(fresh)
    }
}

/// The names of a group by its arguments: one at least.
pub fn names_of_group(
    alloc: Global,
    bytes: &[u8],
    line: u32,
    args: &[Span],
) -> Result<Vec<Name>, TextFault>
    ensures { Gives (λ names. names.items) result (some_names line (map (content bytes.now) args.now)) }
{
    let refused = TextFault::Refused {
        line,
        code: Code::L1,
    };
    let mut names = Vec::with_capacity(alloc, args.len())?;
    let mut rest = args;
    'names: while let Some((arg, more)) = rest.split_first() {
        let name = content(alloc, bytes, *arg)?;
        if !is_name(name.as_slice()) {
            return Err(refused);
        }
        names.push(Name::new(name))?;
        rest = more;
    }
    if names.is_empty() {
        return Err(refused);
    }
    Ok(names)
}
