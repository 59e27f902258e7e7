//! Places in a text.

ghost use Rattle.std.specs.Prelude.{◌≡◌, ℕ, ◌+◌, ◌≤◌, length};
ghost use Rattle.text_forms.specs.Tokens.{token_of};
ghost use Rattle.liberty_groups.specs.Grammar.{span_of};

use crate::sort::Sort;
use text_forms::Term;
use xt_lex::MOST_BYTES;

/// The bytes of a text from `from` up to and without `to`. The span of a string has its quotes.
#[derive(Clone, Copy, Debug, PartialEq, Eq)]
pub struct Span {
    pub from: u32,
    pub to: u32,
}

/// Where a token is.
#[inline]
pub fn span_of(term: Term<'_, Sort>) -> Span
    requires { term.from + length term.text.now ≤ MOST_BYTES }
    ensures { result ≡ span_of (token_of term.entry) }
{
    Span {
        from: term.from,
        to: term.from + term.text.len() as u32,
    }
}
