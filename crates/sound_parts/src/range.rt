ghost use Rattle.std.specs.Prelude.{◌↔◌, pos, neg_ℤ, ◌^◌, IsTrue};
ghost use Rattle.xt_model.specs.Sound.{IsBetween, IsTime, IsSlew, IsCap, IsProduct};

use xt_model::limits::{MOST_CAP, MOST_PRODUCT, MOST_SLEW, MOST_TIME};

/// Whether `x` is from `low` to `high`.
pub(crate) fn is_between(low: i64, high: i64, x: i64) -> bool
    ensures { IsTrue result ↔ IsBetween low high x }
{
    low <= x && x <= high
}

/// Whether `x` is a time in fs: at most 2^46 in size.
pub(crate) fn is_time(x: i64) -> bool
    ensures { IsTrue result ↔ IsTime x }
{
    is_between(-MOST_TIME, MOST_TIME, x)
}

/// Whether `x` is a slew in fs: 0 to 2^40.
pub(crate) fn is_slew(x: i64) -> bool
    ensures { IsTrue result ↔ IsSlew x }
{
    is_between(0, MOST_SLEW, x)
}

/// Whether `x` is a capacitance in aF: 0 to 2^46.
pub(crate) fn is_cap(x: i64) -> bool
    ensures { IsTrue result ↔ IsCap x }
{
    is_between(0, MOST_CAP, x)
}

/// Whether `x` is a product of resistance and capacitance in milliohms times aF: 0 to 2^102.
pub(crate) fn is_product(x: i128) -> bool
    ensures { IsTrue result ↔ IsProduct x }
{
    0 <= x && x <= MOST_PRODUCT
}
