//! What pieces are.

ghost use Rattle.std.specs.Prelude.{◌≡◌};
ghost use Rattle.xt_lex.specs.Tokens.{kind_of};
ghost use Rattle.xt_lex.specs.Pieces.{is_inline};
ghost use Rattle.xt_lex.specs.Faults.{may_hold_any, is_unclosed};

use crate::token::Kind;

/// What a piece of a text is: a token of some kind, or something beside the tokens.
#[derive(Clone, Copy)]
pub enum Class {
    Word,
    Text,
    Mark,
    Escaped,
    Break,
    /// White space, or a backslash and the newline that it takes away.
    Blank,
    /// A comment.
    Comment,
    /// An attribute or a directive's line.
    Skipped,
    /// A byte at which no other piece begins.
    Foreign,
    /// A comment or a quoted string without its end.
    Unclosed,
    /// An attribute or a braced word without its end.
    UnclosedPlain,
}

impl Class {
    /// The kind of token that a piece is, if it is one.
    #[inline]
    pub fn kind(self) -> Option<Kind>
        ensures { result ≡ kind_of self }
    {
        match self {
            Class::Word => Some(Kind::Word),
            Class::Text => Some(Kind::Text),
            Class::Mark => Some(Kind::Mark),
            Class::Escaped => Some(Kind::Escaped),
            Class::Break => Some(Kind::Break),
            _ => None,
        }
    }

    /// Whether the piece may hold any byte.
    #[inline]
    pub fn may_hold_any(self) -> bool
        ensures { result ≡ may_hold_any self }
    {
        matches!(self, Class::Text | Class::Comment | Class::Unclosed)
    }

    /// Whether no line ends within the piece, whatever its bytes.
    #[inline]
    pub fn is_inline(self) -> bool
        ensures { result ≡ is_inline self }
    {
        matches!(self, Class::Word | Class::Mark)
    }

    /// Whether nothing closes the piece before the text ends.
    #[inline]
    pub fn is_unclosed(self) -> bool
        ensures { result ≡ is_unclosed self }
    {
        matches!(self, Class::Unclosed | Class::UnclosedPlain)
    }
}
