//! The piece at the front of some bytes.

ghost use Rattle.std.specs.Prelude.{◌≡◌, ℕ, ◌+◌, ◌<◌, ◌≤◌, length, drop, Option, IfSome};
ghost use Rattle.std.specs.List.{position_or_len};
ghost use Rattle.xt_lex.specs.Bytes.{begins};
ghost use Rattle.xt_lex.specs.Fronts.{piece, enclosed, block_comment, to_line_end};

use crate::bytes::{behind_first, is_newline};
use crate::class::Class;
use crate::runs::past_pair;

/// The piece at the front of some bytes: its class, how many bytes it has after its first one, and whether a line of
/// Verilog or a command of SDC begins where it ends.
#[derive(Clone, Copy)]
pub struct Front {
    pub class: Class,
    pub inner: usize,
    pub fresh: bool,
}

impl Front {
    /// A piece of this class with this many bytes after its first one.
    #[inline]
    pub fn piece(class: Class, inner: usize) -> Front
        ensures { result ≡ piece class inner }
    {
        Front {
            class,
            inner,
            fresh: false,
        }
    }

    /// A piece that ends this many bytes after its opening, or an unclosed one up to the end of the `rest`.
    #[inline]
    pub fn enclosed(
        closed: Class,
        unclosed: Class,
        opening: usize,
        end: Option<usize>,
        rest: usize,
    ) -> Front
        requires { IfSome end (λ n. opening + n ≤ rest) }
        ensures value { result ≡ enclosed closed unclosed opening end rest }
        ensures within { result.inner ≤ rest }
    {
        match end {
            Some(n) => Front::piece(closed, opening + n),
            None => Front::piece(unclosed, rest),
        }
    }

    /// A comment from `/*` to `*/`, where `more` begins at the `*`.
    #[inline(always)]
    pub fn block_comment(more: &[u8]) -> Front
        requires { 0 < length more.now }
        ensures value { result ≡ block_comment more.now }
        ensures within { result.inner ≤ length more.now }
    {
        let end = past_pair(b'*', b'/', behind_first(more));
        Front::enclosed(Class::Comment, Class::Unclosed, 1, end, more.len())
    }
}

/// The number of bytes up to the line's end.
#[inline]
pub fn to_line_end(more: &[u8]) -> usize
    ensures value { result ≡ to_line_end more.now }
    ensures within { result ≤ length more.now }
{
    more.iter().take_while(|byte| !is_newline(**byte)).count()
}
