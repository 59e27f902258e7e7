//! Why what a text says means nothing.

ghost use Rattle.std.specs.Prelude.{◌≡◌};
ghost use Rattle.text_forms.specs.Stops.{fault_at};
ghost use Rattle.text_forms.specs.declared.stop.Stop.TheVariants.{NoMemory};

use std::alloc::{AllocError, AllocFailed};
use xt_lex::TextFault;
use xt_model::Code;

/// Why a form or a command means nothing: it is refused, or memory was wanted and there was none.
#[derive(Clone, Copy, Debug, PartialEq, Eq, Drop)]
pub enum Stop {
    Refused(Code),
    NoMemory,
}

impl Stop {
    /// The fault of the text, where what stops it is at this line.
    pub fn at_line(self, line: u32) -> TextFault
        ensures { result ≡ fault_at line self }
    {
        match self {
            Stop::Refused(code) => TextFault::Refused { line, code },
            Stop::NoMemory => TextFault::NoMemory,
        }
    }
}

impl From<AllocError> for Stop {
    ghost from_gives = { λ _ e. e ≡ NoMemory };

    fn from(_e: AllocError) -> Stop {
        Stop::NoMemory
    }
}

impl<T: Drop> From<AllocFailed<T>> for Stop {
    ghost from_gives = { λ _ e. e ≡ NoMemory };

    fn from(_e: AllocFailed<T>) -> Stop {
        Stop::NoMemory
    }
}
