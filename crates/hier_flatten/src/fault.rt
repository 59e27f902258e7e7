//! Why modules have no flat netlist.

ghost use Rattle.std.specs.Prelude.{◌≡◌};
ghost use Rattle.hier_flatten.specs.declared.fault.FlatFault.TheVariants.{NoMemory};

use std::alloc::{AllocError, AllocFailed};
use thiserror::Error;
use xt_model::{Code, LimitKind};

/// Why modules have no flat netlist: it is refused at a line of the text, counted from 1, a limit is passed, or memory
/// was wanted and there was none.
#[derive(Clone, Copy, Debug, PartialEq, Eq, Drop, Error)]
pub enum FlatFault {
    #[error("line {line}: {code:?}")]
    Refused { line: u32, code: Code },
    #[error("a limit is passed")]
    Limit { what: LimitKind },
    #[error("out of memory")]
    NoMemory,
}

impl From<AllocError> for FlatFault {
    ghost from_gives = { λ _ e. e ≡ NoMemory };

    fn from(_e: AllocError) -> FlatFault {
        FlatFault::NoMemory
    }
}

impl<T: Drop> From<AllocFailed<T>> for FlatFault {
    ghost from_gives = { λ _ e. e ≡ NoMemory };

    fn from(_e: AllocFailed<T>) -> FlatFault {
        FlatFault::NoMemory
    }
}
