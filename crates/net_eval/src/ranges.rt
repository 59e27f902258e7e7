//! Ranges of table values, and sums of times and slews.

ghost use Rattle.std.specs.Prelude.{◌≡◌, ◌^◌, pos, neg_ℤ, ◌+ℤ◌, ◌≤ℤ◌};
ghost use Rattle.std.specs.Int.{int_max};
ghost use Rattle.xt_model.specs.Sound.{IsSlew, IsTime};
ghost use Rattle.xt_model.specs.Tables.{IsTableNumber};
ghost use Rattle.xt_meaning.specs.Wires.{slew_growth};

/// A value of a slew table as a slew: one below 0 counts as 0.
pub(crate) fn as_slew(value: i64) -> i64
    requires { IsTableNumber value }
    ensures value { result ≡ int_max (pos 0) value }
    ensures slew { IsSlew result }
{
    value.max(0)
}

/// A slew after a wire of this delay: it grows by 11/5 of the delay.
pub(crate) fn slew_behind(slew: i64, wire: i64) -> i64
    requires slew { IsSlew slew }
    requires low { pos 0 ≤ℤ wire }
    requires high { wire ≤ℤ pos (2 ^ 47) }
    ensures { result ≡ slew +ℤ slew_growth wire }
{
    slew + (11 * wire).div_euclid(5)
}

/// The time at the output of a cell: the time at the driver before it, the wire and the cell.
pub(crate) fn arrival(time: i64, wire: i64, delay: i64) -> i64
    requires time { IsTime time }
    requires low { pos 0 ≤ℤ wire }
    requires high { wire ≤ℤ pos (2 ^ 47) }
    requires delay { IsTableNumber delay }
    ensures value { result ≡ (time +ℤ wire) +ℤ delay }
    ensures low { neg_ℤ (pos (2 ^ 48)) ≤ℤ result }
    ensures high { result ≤ℤ pos (2 ^ 48) }
{
    time + wire + delay
}
