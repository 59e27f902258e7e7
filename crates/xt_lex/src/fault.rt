//! Why a text has no tokens.

ghost use Rattle.std.specs.Prelude.{◌≡◌};
ghost use Rattle.xt_lex.specs.declared.fault.LexFault.TheVariants.{NoMemory};

use std::alloc::{AllocError, AllocFailed};
use thiserror::Error;

/// Why a text has no tokens, with the line of it, counted from 1.
#[derive(Clone, Copy, Debug, PartialEq, Eq, Drop, Error)]
pub enum LexFault {
    /// The text ends before a comment, a string, a braced word or an attribute does; this is its last line.
    #[error("line {0}: the text ends within a token or a comment")]
    Unended(u32),
    /// A byte that is allowed only in comments and quoted strings is elsewhere; this is the line of the first one.
    #[error("line {0}: a byte that may not stand here")]
    Byte(u32),
    #[error("out of memory")]
    NoMemory,
}

impl From<AllocError> for LexFault {
    ghost from_gives = { λ _ e. e ≡ NoMemory };

    fn from(_e: AllocError) -> LexFault {
        LexFault::NoMemory
    }
}

impl<T: Drop> From<AllocFailed<T>> for LexFault {
    ghost from_gives = { λ _ e. e ≡ NoMemory };

    fn from(_e: AllocFailed<T>) -> LexFault {
        LexFault::NoMemory
    }
}
