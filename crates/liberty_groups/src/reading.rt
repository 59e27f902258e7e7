//! From the bytes of a library to its groups.

ghost use Rattle.std.specs.Prelude.{◌≡◌, ◌≤◌, length};
ghost use Rattle.liberty_groups.specs.Trees.{tree_of};
ghost use Rattle.liberty_groups.specs.Library.{library_of};
ghost use Rattle.text_forms.specs.Stops.{Gives};

use crate::building::Building;
use crate::context::Context;
use crate::group::Group;
use std::alloc::Global;
use text_forms::{Terms, read_all, tokens_refused};
use xt_lex::{MOST_BYTES, Rules, TextFault};
use xt_model::Code;

/// The library that a Liberty text is: a group of that name, after which only `;` may come.
///
/// A group is `NAME (ARGUMENTS) { ITEMS }`. Its arguments are words and strings, which commas and colons separate. An
/// item is a simple attribute `NAME : VALUE .. ;`, a complex attribute `NAME (ARGUMENTS)` with or without a `;` after
/// it, a group, or `;`. A name is a word, a value a word or a string. At most 64 groups are open at one place.
///
/// A token that does not fit, a `{` beyond the 64 groups, and a byte that is not allowed are `L1`, each at its line; a
/// text that ends too early, also within a string or a comment, is `L2` at its last line. The first refusal counts; one
/// of the tokens themselves comes before all others. Takes time and memory linear in the bytes.
#[tactic(auto, unfolding(crate::specs::Library::library_of))]
pub fn read_groups(alloc: Global, bytes: &[u8]) -> Result<Group, TextFault>
    requires { length bytes.now ≤ MOST_BYTES }
    ensures { Gives tree_of result (library_of bytes.now) }
{
    if let Some(refused) = tokens_refused(bytes, Rules::Liberty, Code::L1, Code::L2) {
        return Err(TextFault::from(refused));
    }
    let mut building = Building::new(alloc);
    let mut terms = Terms::new(bytes, Rules::Liberty);
    read_all(alloc, Context::Start, &mut terms, &mut building)?;
    match building.into_library() {
        Some(library) => Ok(library),
        None => Err(TextFault::Refused {
            line: 1,
            code: Code::L2,
        }),
    }
}
