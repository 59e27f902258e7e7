//! The pieces of a SPEF text.

ghost use Rattle.std.specs.Prelude.{◌≡◌, ℕ, ◌+◌, ◌<◌, ◌≤◌, length};
ghost use Rattle.xt_lex.specs.Spef.{spef_front};

use crate::bytes::{begins, is_white, opens_comment};
use crate::class::Class;
use crate::front::{Front, to_line_end};
use crate::runs::{past_byte, printables, whites};

/// The piece at the front of a SPEF text.
#[tactic(auto, unfolding(crate::specs::Spef::spef_front))]
#[inline(always)]
pub fn spef_front(first: u8, more: &[u8]) -> Front
    ensures value { result ≡ spef_front first more.now }
    ensures within { result.inner ≤ length more.now }
{
    if is_white(first) {
        Front::piece(Class::Blank, whites(more))
    } else if !first.is_ascii_graphic() {
        Front::piece(Class::Foreign, 0)
    } else if first == b'/' && begins(b'/', more) {
        Front::piece(Class::Comment, to_line_end(more))
    } else if opens_comment(first, more) {
        Front::block_comment(more)
    } else if first == b'"' {
        Front::enclosed(
            Class::Text,
            Class::Unclosed,
            0,
            past_byte(b'"', more),
            more.len(),
        )
    } else {
        Front::piece(Class::Word, printables(more))
    }
}
