ghost use Rattle.std.specs.Prelude.{◌≡◌};
ghost use Rattle.eco_warm.specs.declared.edit.EditFault.TheVariants.{NoMemory as OutOfMemory};

use std::alloc::{AllocError, AllocFailed};
use xt_model::{Design, NetId, NoMemory, Windows};

/// An edit of the layout between nets `a` and `b`: a shield takes all coupling between them to ground; moved apart,
/// each coupling between them loses `by` aF to ground, as far as it has that much; moved nearer, it gets `by` aF back.
#[derive(Clone, Copy, Debug, PartialEq, Eq)]
pub enum Edit {
    Shield { a: NetId, b: NetId },
    Apart { a: NetId, b: NetId, by: i64 },
    Near { a: NetId, b: NetId, by: i64 },
}

/// What moves between a coupling and ground: all of it to ground, which takes the coupling out; at most this many aF
/// to ground; this many aF from ground.
#[derive(Clone, Copy)]
pub(crate) enum Move {
    Whole,
    ToGround(i64),
    FromGround(i64),
}

/// How an edit moves windows: it makes none wider, or none narrower; or nothing is known of it.
#[derive(Clone, Copy, Debug, PartialEq, Eq)]
pub enum Change {
    Shrinks,
    Grows,
    Neither,
}

/// A design after an edit, and how the edit moves its windows.
#[derive(Debug, Drop)]
pub struct Edited {
    pub design: Design,
    pub change: Change,
}

/// Why there is no edit, or no design after it: wrong words; an amount that cannot be taken; no such net, or no
/// coupling between the two; a load or a base that would fall below 0, or a base or a coefficient past 2^102; a load
/// past 2^46 aF with every coupling counted twice; no memory.
#[derive(Clone, Copy, Debug, PartialEq, Eq, Drop)]
pub enum EditFault {
    E1,
    E2,
    E3,
    E4,
    Load { net: NetId, value: u128 },
    NoMemory,
}

/// Where the two runs of an edited design start.
#[derive(Debug, Drop)]
pub struct StartWindows {
    pub low: Windows,
    pub high: Windows,
}

impl From<AllocError> for EditFault {
    ghost from_gives = { λ _ e. e ≡ OutOfMemory };

    fn from(_e: AllocError) -> EditFault {
        EditFault::NoMemory
    }
}

impl<T: Drop> From<AllocFailed<T>> for EditFault {
    ghost from_gives = { λ _ e. e ≡ OutOfMemory };

    fn from(_e: AllocFailed<T>) -> EditFault {
        EditFault::NoMemory
    }
}

impl From<NoMemory> for EditFault {
    ghost from_gives = { λ _ e. e ≡ OutOfMemory };

    fn from(_e: NoMemory) -> EditFault {
        EditFault::NoMemory
    }
}
