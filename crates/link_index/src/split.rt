//! The last delimiter of a name.

ghost use Rattle.std.specs.Prelude.{◌≡◌, Some, None, MatchOption};
ghost use Rattle.link_rules.specs.Nodes.{split_last};

use memchr::memrchr;

/// The bytes before the last delimiter and those after it.
pub fn split_last<'a>(delimiter: u8, name: &'a [u8]) -> Option<(&'a [u8], &'a [u8])>
    ensures { MatchOption result (split_last delimiter name.entry.now ≡ None)
        (λ cut. split_last delimiter name.entry.now ≡ Some (cut.0.now, cut.1.now)) }
{
    match memrchr(delimiter, name) {
        None => None,
        Some(at) => Some((&name[..at], &name[at + 1..])),
    }
}
