ghost use Rattle.std.specs.Prelude.{◌≡◌};
ghost use Rattle.envelope.specs.declared.fault.EnvelopeFault.TheVariants as faults;

use std::alloc::AllocError;
use thiserror::Error;
use xt_model::NetId;

/// A quantity that has a limit.
#[derive(Clone, Copy, Debug, PartialEq, Eq)]
pub enum What {
    Time,
    Slew,
}

/// A quantity of a net, in fs, that passes its limit.
#[derive(Clone, Copy)]
pub(crate) struct Excess {
    pub net: NetId,
    pub what: What,
    pub value: i128,
}

/// Why there is no envelope that keeps the limits.
#[derive(Clone, Copy, Debug, PartialEq, Eq, Drop, Error)]
pub enum EnvelopeFault {
    /// The first quantity, in fs, that passes its limit: a time beyond 2^46 in size, a slew above 2^40.
    #[error("{what:?} {value} of net {} passes its limit", .net.0)]
    Limit { net: NetId, what: What, value: i128 },
    #[error("out of memory")]
    NoMemory,
}

impl From<AllocError> for EnvelopeFault {
    ghost from_gives = { λ _ e. e ≡ faults.NoMemory };

    fn from(_e: AllocError) -> EnvelopeFault {
        EnvelopeFault::NoMemory
    }
}

impl From<Excess> for EnvelopeFault {
    ghost from_gives = { λ x e. e ≡ faults.Limit x.net x.what x.value };

    fn from(excess: Excess) -> EnvelopeFault {
        EnvelopeFault::Limit {
            net: excess.net,
            what: excess.what,
            value: excess.value,
        }
    }
}
