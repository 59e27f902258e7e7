//! Groups and attributes by their names.

ghost use Rattle.std.specs.Prelude.{◌≡◌, [], ◌∷◌, MatchOption, option_map};
ghost use Rattle.liberty_groups.specs.Trees.{tree_of, entry_of};
ghost use Rattle.liberty_tables.specs.Search.{is_group, has_group, named_among, attribute};

use crate::contents::text_in;
use liberty_groups::{Attribute, Group};

/// Whether a group has this name.
pub fn is_group(bytes: &[u8], word: &[u8], group: &Group) -> bool
    ensures { result ≡ is_group bytes.now word.now (tree_of group.now) }
{
    text_in(bytes, group.name()) == word
}

/// The first group of a name, and the groups after it.
pub fn first_named<'b>(
    bytes: &[u8],
    word: &[u8],
    groups: &'b [Group],
) -> Option<(&'b Group, &'b [Group])>
    ensures { MatchOption result (named_among bytes.now word.now groups.entry.now ≡ [])
        (λ p. named_among bytes.now word.now groups.entry.now
        ≡ tree_of p.0.now ∷ named_among bytes.now word.now p.1.now) }
{
    let mut rest = groups;
    'groups: while let [group, more @ ..] = rest {
        if is_group(bytes, word, group) {
            return Some((group, more));
        }
        rest = more;
    }
    None
}

/// Whether a group of a name is within a group.
pub fn has_group(bytes: &[u8], word: &[u8], group: &Group) -> bool
    ensures { result ≡ has_group bytes.now word.now (tree_of group.now) }
{
    first_named(bytes, word, group.inner()).is_some()
}

/// The last attribute of a name within a group.
pub fn attribute<'b>(bytes: &[u8], word: &[u8], group: &'b Group) -> Option<&'b Attribute>
    ensures { option_map (λ a. entry_of a.now) result ≡ attribute bytes.now word.now (tree_of group.entry.now) }
{
    let mut seen = None;
    let mut rest = group.attributes();
    'attributes: while let Some((attribute, more)) = rest.split_first() {
        if text_in(bytes, attribute.name) == word {
            seen = Some(attribute);
        }
        rest = more;
    }
    seen
}
