use crate::limits::MOST_FACTOR;
use std::marker::Model;

/// The factors by which a coupling capacitor counts, in quarters: where the aggressor switches the same
/// way at the same time, where it is quiet, and where it switches the other way.
#[derive(Clone, Copy, Debug, PartialEq, Eq)]
pub struct Miller {
    low: u8,
    mid: u8,
    high: u8,
}

impl Model for Miller {
    ghost use Rattle.xt_model.specs.Miller.{MillerNumbers, IsMiller};

    ghost Value = { MillerNumbers };

    ghost view = { λ m. record { low = m.low; mid = m.mid; high = m.high } };

    ghost inverse = { λ m. record { low = m.low; mid = m.mid; high = m.high } };

    ghost invariant = { λ m. IsMiller (record { low = m.low; mid = m.mid; high = m.high }) };
}

impl Miller {
    ghost use Rattle.std.specs.Prelude.{◌≡◌};
    ghost use Rattle.xt_model.specs.Miller.{IsMiller, miller_of, classical, is_classical};

    /// The three factors in quarters, or none where they fall or the last is above 12.
    pub fn new(low: u8, mid: u8, high: u8) -> Option<Miller>
        ensures { result ≡ miller_of (low, mid, high) }
    {
        Miller::from_numbers(u64::from(low), u64::from(mid), u64::from(high))
    }

    /// The same of numbers of any size.
    pub fn from_numbers(low: u64, mid: u64, high: u64) -> Option<Miller>
        ensures { result ≡ miller_of (low, mid, high) }
    {
        if low <= mid && mid <= high && high <= u64::from(MOST_FACTOR) {
            Some(Miller {
                low: low as u8,
                mid: mid as u8,
                high: high as u8,
            })
        } else {
            None
        }
    }

    /// The classical factors 0, 1 and 2.
    pub fn classical() -> Miller
        ensures { result ≡ classical }
    {
        Miller {
            low: 0,
            mid: 4,
            high: 8,
        }
    }

    /// Whether these are the classical factors, which a text does not have to name.
    pub fn is_classical(&self) -> bool
        ensures { result ≡ is_classical self.now }
    {
        self.low == 0 && self.mid == 4 && self.high == 8
    }

    /// The factor where the aggressor switches the same way at the same time, in quarters.
    pub fn low(&self) -> u8
        ensures value { result ≡ self.now.low }
        ensures sound { IsMiller self.now }
    {
        self.low
    }

    /// The factor where the aggressor is quiet, in quarters.
    pub fn mid(&self) -> u8
        ensures value { result ≡ self.now.mid }
        ensures sound { IsMiller self.now }
    {
        self.mid
    }

    /// The factor where the aggressor switches the other way at the same time, in quarters.
    pub fn high(&self) -> u8
        ensures value { result ≡ self.now.high }
        ensures sound { IsMiller self.now }
    {
        self.high
    }
}
