//! Clocks by their names.

ghost use Rattle.std.specs.Prelude.{◌≡◌, ◌==◌, not, ◌&&◌, length, option_map};
ghost use Rattle.std.specs.List.{list_all};
ghost use Rattle.std.specs.Str.{bytes_eq};
ghost use Rattle.sdc_words.specs.Items.{items_of};
ghost use Rattle.sdc_words.specs.View.{word_text, names_text};
ghost use Rattle.sdc_read.specs.Objects.{names_in, knows, knows_clock};

use crate::constraints::Clock;
use crate::objects::clock_names;
use sdc_words::{NameList, Word, first_item};

/// Whether all items of a list are this name.
fn all_named(name: &[u8], names: &[u8]) -> bool
    ensures { result ≡ list_all (bytes_eq name.now) (items_of names.now) }
{
    let mut rest = names;
    'names: while let Some((item, more)) = first_item(rest) {
        if name != item {
            return false;
        }
        rest = more;
    }
    true
}

/// Whether the names of a list are all this one, and there is one at least.
fn are_all(name: &[u8], names: NameList<'_>) -> bool
    ensures { result ≡ (not (length (names_in (names_text names.entry)) == 0)
        && list_all (bytes_eq name.now) (names_in (names_text names.entry))) }
{
    match names {
        NameList::One(one) => name == one,
        NameList::Many(many) => first_item(many).is_some() && all_named(name, many),
    }
}

/// Whether the clocks of a list are all known, and there is one at least.
#[tactic(auto, unfolding(crate::specs::Objects::knows_clock))]
pub fn knows_clock(clock: &Option<Clock>, list: Word<'_>) -> bool
    ensures { result ≡ knows_clock clock.now (word_text list.entry) }
{
    match (clock, clock_names(list)) {
        (Some(clock), Some(names)) => are_all(clock.name.bytes(), names),
        _ => false,
    }
}
