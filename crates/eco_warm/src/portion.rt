//! What is left of one coupling and of its coefficients.

ghost use Rattle.std.specs.Prelude.{◌≡◌, ◌*◌, ◌/◌, ◌^◌, ◌<◌, ◌≤◌, MatchOption, pos};
ghost use Rattle.xt_model.specs.Sound.{IsBetween, IsCap, IsProduct};
ghost use Rattle.eco_warm.specs.Edits.{cap_left, coef_left, in_proportion};
ghost use Rattle.eco_warm.specs.Possible.{IsMove};

use crate::edit::Move;

/// The greatest product of resistance and capacitance, in milliohms times aF.
const MOST_PRODUCT: u128 = 1 << 102;

/// What is left of a coupling capacitance, in aF.
pub(crate) fn cap_left(moving: Move, cap: i64) -> i64
    requires moving { IsMove moving }
    requires cap { IsCap cap }
    ensures value { result ≡ cap_left moving cap }
    ensures range { IsBetween (pos 0) (pos (2 ^ 47)) result }
{
    match moving {
        Move::Whole => 0,
        Move::ToGround(by) => cap - by.min(cap),
        Move::FromGround(by) => cap + by,
    }
}

/// A coefficient times what is left of its capacitance over that capacitance, rounded down; none past 2^102. The
/// quotient and the remainder are multiplied apart, so that no product passes 128 bits but that of the quotient, which
/// then is none.
fn part(coef: u128, cap: u128, left: u128) -> Option<u128>
    requires some { 0 < cap }
    requires cap { cap ≤ 2 ^ 46 }
    requires left { left ≤ 2 ^ 47 }
    ensures { MatchOption result (2 ^ 102 < coef * left / cap) (λ r. (r ≡ coef * left / cap) × (r ≤ 2 ^ 102)) }
{
    let whole = (coef / cap).checked_mul(left)?;
    let sum = whole.checked_add(coef % cap * left / cap)?;
    if sum > MOST_PRODUCT {
        return None;
    }
    Some(sum)
}

/// The same of signed numbers; a coefficient without capacitance stays.
fn in_proportion(cap: i64, left: i64, coef: i128) -> Option<i128>
    requires cap { IsCap cap }
    requires left { IsBetween (pos 0) (pos (2 ^ 47)) left }
    requires coef { IsProduct coef }
    ensures { MatchOption result (IsProduct (in_proportion cap left coef) → ⊥)
        (λ r. (r ≡ in_proportion cap left coef) × IsProduct r) }
{
    if cap == 0 {
        return Some(coef);
    }
    let cap = u128::from(cap.unsigned_abs());
    let left = u128::from(left.unsigned_abs());
    let part = part(coef.unsigned_abs(), cap, left)?;
    Some(part as i128)
}

/// What is left of a coefficient of a coupling with this capacitance, in milliohms times aF; none past 2^102.
pub(crate) fn coef_left(moving: Move, cap: i64, coef: i128) -> Option<i128>
    requires moving { IsMove moving }
    requires cap { IsCap cap }
    requires coef { IsProduct coef }
    ensures { MatchOption result (IsProduct (coef_left moving cap coef) → ⊥)
        (λ r. (r ≡ coef_left moving cap coef) × IsProduct r) }
{
    match moving {
        Move::Whole => Some(0),
        Move::ToGround(_) => in_proportion(cap, cap_left(moving, cap), coef),
        Move::FromGround(_) => in_proportion(cap, cap_left(moving, cap), coef),
    }
}
