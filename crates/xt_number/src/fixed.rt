//! Fixed-point values of written numbers.

ghost use Rattle.std.specs.Prelude.{◌≡◌, ◌+◌, ◌*◌, ◌/◌, ◌^◌, ◌<◌, ◌≤◌, ◌↔◌, ℤ, pos, neg_ℤ, ◌≤ℤ◌};
ghost use Rattle.std.specs.Prelude.{IsErrOf, IfOk, MatchOption, is_some};
ghost use Rattle.std.specs.Str.Parse.{AllDigits};
ghost use Rattle.xt_number.specs.Numeral.{IsNoNumber, IsNumberWith};
ghost use Rattle.xt_number.specs.Reading.{numeral_of};
ghost use Rattle.xt_number.specs.Value.{rounded, fixed_from, fixed, IsTooLong, IsBeyond, IsFixed};
ghost use Rattle.xt_number.specs.View.{view};

use crate::fault::NumberFault;
use crate::numeral::{Numeral, split, with_sign};

/// The greatest size of a value.
const MOST: u128 = 1 << 40;

/// The size, or None where it is beyond the range.
fn within(size: u128) -> Option<u128>
    ensures { MatchOption result (2 ^ 40 < size) (λ r. (r ≡ size) × (r ≤ 2 ^ 40)) }
{
    if size <= MOST { Some(size) } else { None }
}

/// Ten to the places, of which there are at most thirty.
fn unit(places: u32) -> u128
    requires { places ≤ 30 }
    ensures value { result ≡ 10 ^ places }
    ensures low { 1 ≤ result }
    ensures high { result ≤ 10 ^ 30 }
{
    10u128.pow(places)
}

/// The mantissa divided by ten to the places, rounded half up.
fn divided(mantissa: u128, places: u32) -> u128
    requires { mantissa < 10 ^ 30 }
    ensures { result ≡ (2 * mantissa + 10 ^ places) / (2 * 10 ^ places) }
{
    if places > 30 {
        return 0;
    }
    let unit = unit(places);
    (2 * mantissa + unit) / (2 * unit)
}

/// The mantissa times ten to the places, or None where that is beyond the range.
fn multiplied(mantissa: u128, places: u32) -> Option<u128>
    ensures { MatchOption result (2 ^ 40 < mantissa * 10 ^ places) (λ r. (r ≡ mantissa * 10 ^ places) × (r ≤ 2 ^ 40)) }
{
    if mantissa == 0 {
        return Some(0);
    }
    if mantissa > MOST || places > 12 {
        return None;
    }
    within(mantissa * unit(places))
}

/// The mantissa times ten to the power, rounded half up, or None where that is beyond the range.
fn rounded_size(mantissa: u128, power: i32) -> Option<u128>
    requires { mantissa < 10 ^ 30 }
    ensures { MatchOption result (2 ^ 40 < rounded mantissa power) (λ r. (r ≡ rounded mantissa power) × (r ≤ 2 ^ 40)) }
{
    let places = power.unsigned_abs();
    if power < 0 {
        within(divided(mantissa, places))
    } else {
        multiplied(mantissa, places)
    }
}

impl Numeral<'_> {
    /// The number times ten to the scale, or what is wrong with it.
    fn fixed(&self, scale: i32) -> Result<i64, NumberFault>
        requires low { neg_ℤ (pos 12) ≤ℤ scale }
        requires high { scale ≤ℤ pos 12 }
        requires whole { AllDigits 10 self.now.whole.now }
        requires fraction { AllDigits 10 self.now.fraction.now }
        requires exponent { AllDigits 10 self.now.exponent.now }
        ensures exact { result ≡ fixed_from (Some (view self.now)) scale }
        ensures bounds { IfOk result (λ x. (neg_ℤ (pos (2 ^ 40)) ≤ℤ x) × (x ≤ℤ pos (2 ^ 40))) }
    {
        let Some(mantissa) = self.mantissa() else {
            return Err(NumberFault::Digits);
        };
        let power = self.power(i128::from(scale));
        let Some(size) = rounded_size(mantissa, power) else {
            return Err(NumberFault::Range);
        };
        Ok(with_sign(self.negative, size) as i64)
    }
}

/// The number that the text writes, times ten to the scale and rounded half away from zero. The
/// scale is from -12 to 12. Of several faults the first in the order of `NumberFault` is the answer.
#[tactic(auto, unfolding(crate::specs::Value::fixed))]
pub fn read_fixed(text: &[u8], scale: i32) -> Result<i64, NumberFault>
    requires low { neg_ℤ (pos 12) ≤ℤ scale }
    requires high { scale ≤ℤ pos 12 }
    ensures exact { result ≡ fixed text.now scale }
    ensures form { IsErrOf result NumberFault.Form ↔ IsNoNumber text.now }
    ensures digits { IsErrOf result NumberFault.Digits ↔ IsNumberWith text.now IsTooLong }
    ensures range { IsErrOf result NumberFault.Range ↔ IsNumberWith text.now (IsBeyond scale) }
    ensures bounds { IfOk result (λ x. (neg_ℤ (pos (2 ^ 40)) ≤ℤ x) × (x ≤ℤ pos (2 ^ 40))) }
    ensures value { (x : ℤ) → (result ≡ Ok x) ↔ IsNumberWith text.now (IsFixed scale x) }
{
    match split(text) {
        None => Err(NumberFault::Form),
        Some(numeral) => numeral.fixed(scale),
    }
}

/// Whether the text is a number.
pub fn is_number(text: &[u8]) -> bool
    ensures exact { result ≡ is_some (numeral_of text.now) }
{
    split(text).is_some()
}
