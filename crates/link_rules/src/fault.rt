//! Why four files make no design.

ghost use Rattle.std.specs.Prelude.{◌≡◌};
ghost use Rattle.link_rules.specs.declared.fault.LinkFault.TheVariants as faults;

use std::alloc::{AllocError, AllocFailed};
use thiserror::Error;
use xt_model::{LimitKind, Name, Row};

/// What a netlist, its library, its parasitics and its constraints do not agree on.
#[derive(Debug, Drop, Error)]
pub enum LinkRefusal {
    /// The library has no cell of this name.
    #[error("{instance:?}: no cell {cell:?}")]
    K1 { instance: Name, cell: Name },
    /// The cell has no pin of this name.
    #[error("{instance:?}: no pin {pin:?}")]
    K2 { instance: Name, pin: Name },
    /// The net has two drivers.
    #[error("{net:?}: two drivers")]
    K3 { net: Name },
    /// The timing arcs make a loop: each net has an arc from the next, and the last one from the first.
    #[error("the timing arcs make a loop")]
    K4 { nets: Row<Name> },
    /// The resistors of the net that are joined to its driver make no tree.
    #[error("{net:?}: no tree of resistors")]
    K5 { net: Name },
    /// A sink or a capacitor of the net is at a node that no resistors join to the driver.
    #[error("{net:?}: {node:?} is not reached")]
    K6 { net: Name, node: Name },
    /// There is a check and no clock.
    #[error("{check:?}: no clock")]
    K7 { check: Name },
    /// The cell cannot be analysed: it is a latch, or has an inout pin, a timing group of a kind that is not taken, or
    /// one that is related to a pin that is no input.
    #[error("{instance:?}: cell {cell:?} is not taken")]
    K9 { instance: Name, cell: Name },
}

/// Why four files make no design. The name of a limit is that of the net for `Nodes` and `Load`; its value is the
/// number that passes the limit, a load in aF.
#[derive(Debug, Drop, Error)]
pub enum LinkFault {
    #[error("{0}")]
    Refused(LinkRefusal),
    #[error("a limit is passed by {value}")]
    Limit {
        what: LimitKind,
        name: Option<Name>,
        value: u128,
    },
    #[error("out of memory")]
    NoMemory,
}

impl From<AllocError> for LinkFault {
    ghost from_gives = { λ _ e. e ≡ faults.NoMemory };

    fn from(_e: AllocError) -> LinkFault {
        LinkFault::NoMemory
    }
}

impl<T: Drop> From<AllocFailed<T>> for LinkFault {
    ghost from_gives = { λ _ e. e ≡ faults.NoMemory };

    fn from(_e: AllocFailed<T>) -> LinkFault {
        LinkFault::NoMemory
    }
}
