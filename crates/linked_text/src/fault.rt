//! Why a linked text gives no design.

ghost use Rattle.std.specs.Prelude.{◌≡◌};
ghost use Rattle.linked_text.specs.declared.fault.LineStop.TheVariants as lines;
ghost use Rattle.linked_text.specs.declared.fault.Stop.TheVariants as stops;
ghost use Rattle.linked_text.specs.declared.fault.LinkedFault.TheVariants as faults;

use std::alloc::{AllocError, AllocFailed};
use thiserror::Error;
use xt_model::{Code, LimitKind, Name};

/// Why a line gives no value.
#[derive(Clone, Copy, Drop)]
pub enum LineStop {
    /// The first of its tests that the line fails.
    Refused(Code),
    NoMemory,
}

impl From<AllocError> for LineStop {
    ghost from_gives = { λ _ e. e ≡ lines.NoMemory };

    fn from(_e: AllocError) -> LineStop {
        LineStop::NoMemory
    }
}

impl<T: Drop> From<AllocFailed<T>> for LineStop {
    ghost from_gives = { λ _ e. e ≡ lines.NoMemory };

    fn from(_e: AllocFailed<T>) -> LineStop {
        LineStop::NoMemory
    }
}

/// The first refusal of a text.
#[derive(Drop)]
pub enum Fault {
    /// The line is refused from which on `left` newlines of the text are left.
    Refused {
        left: usize,
        code: Code,
    },
    /// A limit is passed. The name is that of the net where the limit is its greatest load.
    Limit {
        what: LimitKind,
        name: Option<Name>,
        value: u128,
    },
}

/// Why bytes give no value.
#[derive(Drop)]
pub enum Stop {
    At(Fault),
    NoMemory,
}

impl From<AllocError> for Stop {
    ghost from_gives = { λ _ e. e ≡ stops.NoMemory };

    fn from(_e: AllocError) -> Stop {
        Stop::NoMemory
    }
}

impl<T: Drop> From<AllocFailed<T>> for Stop {
    ghost from_gives = { λ _ e. e ≡ stops.NoMemory };

    fn from(_e: AllocFailed<T>) -> Stop {
        Stop::NoMemory
    }
}

/// Why bytes give no design.
#[derive(Debug, Drop, Error)]
pub enum LinkedFault {
    /// The text is refused at this line, counted from 1.
    #[error("line {line}: no linked text")]
    Refused {
        line: u32,
        code: Code,
    },
    /// A limit is passed, by this value: for `Load` that of the net of this name in aF.
    #[error("a limit is passed by {value}")]
    Limit {
        what: LimitKind,
        name: Option<Name>,
        value: u128,
    },
    #[error("out of memory")]
    NoMemory,
}

impl From<AllocError> for LinkedFault {
    ghost from_gives = { λ _ e. e ≡ faults.NoMemory };

    fn from(_e: AllocError) -> LinkedFault {
        LinkedFault::NoMemory
    }
}

/// The words or the number of the fields of a line do not fit.
pub const WORDS: LineStop = LineStop::Refused(Code::X1);

/// A number of a line is not written as it has to be, or out of its range.
pub const NUMBERS: LineStop = LineStop::Refused(Code::X2);

/// A line does not hold together with the lines before it.
pub const HOLDS: LineStop = LineStop::Refused(Code::X3);
