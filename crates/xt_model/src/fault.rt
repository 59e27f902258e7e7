ghost use Rattle.std.specs.Prelude.{◌≡◌};
ghost use Rattle.xt_model.specs.declared.fault.BuildFault.TheVariants.{NoMemory as OutOfMemory};

use crate::net::NetId;
use crate::row::Row;
use std::alloc::{AllocError, AllocFailed};
use thiserror::Error;

/// Memory was wanted and there was none.
#[derive(Clone, Copy, Debug, PartialEq, Eq, Drop, Error)]
#[error("out of memory")]
pub struct NoMemory;

impl From<AllocError> for NoMemory {
    fn from(_e: AllocError) -> NoMemory {
        NoMemory
    }
}

impl<T: Drop> From<AllocFailed<T>> for NoMemory {
    fn from(_e: AllocFailed<T>) -> NoMemory {
        NoMemory
    }
}

/// Why parts make no design: their arcs make a loop, or memory was wanted and there was none. Each net
/// of a loop has an arc from the next, and the last one from the first. Of several loops the first is given: begin
/// at the net of the least number from which one can go back along arcs without end, go back from each net
/// along its first arc that allows this, and the way runs into that loop and round it.
#[derive(Debug, Drop, Error)]
pub enum BuildFault {
    #[error("the timing arcs make a loop")]
    Loop(Row<NetId>),
    #[error("out of memory")]
    NoMemory,
}

impl From<AllocError> for BuildFault {
    ghost from_gives = { λ _ e. e ≡ OutOfMemory };

    fn from(_e: AllocError) -> BuildFault {
        BuildFault::NoMemory
    }
}

impl<T: Drop> From<AllocFailed<T>> for BuildFault {
    ghost from_gives = { λ _ e. e ≡ OutOfMemory };

    fn from(_e: AllocFailed<T>) -> BuildFault {
        BuildFault::NoMemory
    }
}

/// What has a limit.
#[derive(Clone, Copy, Debug, PartialEq, Eq)]
pub enum LimitKind {
    Nets,
    Instances,
    Nodes,
    Load,
    Couplings,
    Coefficients,
    Arcs,
    Tables,
    Checks,
    Reads,
}
