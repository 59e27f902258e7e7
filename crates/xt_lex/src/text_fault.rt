//! Why a text means nothing.

ghost use Rattle.std.specs.Prelude.{◌≡◌};
ghost use Rattle.xt_lex.specs.declared.text_fault.TextFault.TheVariants.{NoMemory};

use std::alloc::{AllocError, AllocFailed};
use thiserror::Error;
use xt_model::Code;

/// Why a text means nothing: it is refused at a line, counted from 1, by a code of its format, or memory was wanted
/// and there was none.
#[derive(Clone, Copy, Debug, PartialEq, Eq, Drop, Error)]
pub enum TextFault {
    #[error("line {line}: {code:?}")]
    Refused { line: u32, code: Code },
    #[error("out of memory")]
    NoMemory,
}

impl From<AllocError> for TextFault {
    ghost from_gives = { λ _ e. e ≡ NoMemory };

    fn from(_e: AllocError) -> TextFault {
        TextFault::NoMemory
    }
}

impl<T: Drop> From<AllocFailed<T>> for TextFault {
    ghost from_gives = { λ _ e. e ≡ NoMemory };

    fn from(_e: AllocFailed<T>) -> TextFault {
        TextFault::NoMemory
    }
}
