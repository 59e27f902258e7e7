ghost use Rattle.std.specs.Prelude.{◌≡◌};
ghost use Rattle.elmore_tree.specs.declared.fault.TreeFault.TheVariants as faults;

use std::alloc::{AllocError, AllocFailed};
use thiserror::Error;

/// Why a wire has no coefficients.
#[derive(Clone, Copy, Debug, PartialEq, Eq, Drop, Error)]
pub enum TreeFault {
    /// The part joined to the root has at least as many resistors as nodes.
    #[error("the resistors joined to the root are no tree")]
    NotTree,
    /// The least node with a sink, a tap or capacitance to ground that is not joined to the root.
    #[error("node {0} is not joined to the root")]
    NotReached(u32),
    #[error("out of memory")]
    NoMemory,
}

impl From<AllocError> for TreeFault {
    ghost from_gives = { λ _ e. e ≡ faults.NoMemory };

    fn from(_e: AllocError) -> TreeFault {
        TreeFault::NoMemory
    }
}

impl<T: Drop> From<AllocFailed<T>> for TreeFault {
    ghost from_gives = { λ _ e. e ≡ faults.NoMemory };

    fn from(_e: AllocFailed<T>) -> TreeFault {
        TreeFault::NoMemory
    }
}
