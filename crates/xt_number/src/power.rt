//! Powers of ten among written numbers.

ghost use Rattle.std.specs.Prelude.{◌≡◌, ◌≢◌, ℕ, ℤ, ◌^◌, ◌<◌, ◌≤◌, ◌↔◌, ◌==◌, length, pos, neg_ℤ, ◌≤ℤ◌};
ghost use Rattle.std.specs.Prelude.{IfSome, MatchOption};
ghost use Rattle.std.specs.List.{prefix_len, list_all};
ghost use Rattle.std.specs.Str.Parse.{AllDigits, digits_value};
ghost use Rattle.xt_number.specs.Numeral.{IsNumberWith};
ghost use Rattle.xt_number.specs.Value.{mantissa, without_zeros, place_at, power_from, power_of, IsTenTo};
ghost use Rattle.xt_number.specs.View.{view};

use crate::numeral::{Numeral, split};

/// The greatest power of ten that a unit may be, up or down.
const GREATEST_POWER: u32 = 3;

/// Whether each digit is zero.
fn are_zeros(digits: &[u8]) -> bool
    ensures { result ≡ list_all (λ d. d == 48) digits.now }
{
    digits.iter().all(|digit| *digit == b'0')
}

/// How many zeros are in front.
fn count_zeros(digits: &[u8]) -> usize
    ensures count { result ≡ prefix_len (λ d. d == 48) digits.now }
    ensures within { result ≤ length digits.now }
{
    digits.iter().take_while(|digit| **digit == b'0').count()
}

/// The digits from the first that is not zero on.
fn skip_zeros(digits: &[u8]) -> &[u8]
    ensures { result.now ≡ without_zeros digits.now }
{
    let (_, rest) = digits.split_at(count_zeros(digits));
    rest
}

/// How many zeros come after a one, or None where the digits are not a one and zeros.
#[tactic(auto, unfolding(crate::specs::Value::place_at))]
fn zeros_behind_one(digits: &[u8]) -> Option<usize>
    ensures { result ≡ place_at digits.now }
{
    match digits {
        [b'1', zeros @ ..] => {
            if are_zeros(zeros) {
                Some(zeros.len())
            } else {
                None
            }
        }
        _ => None,
    }
}

/// The power of ten that the digits write, or None where they write none.
fn place_of_one(digits: &[u8]) -> Option<usize>
    requires { AllDigits 10 digits.now }
    ensures { MatchOption result ((j : ℕ) → digits_value 10 digits.now ≢ 10 ^ j)
        (λ j. (digits_value 10 digits.now ≡ 10 ^ j) × (j < length digits.now)) }
{
    zeros_behind_one(skip_zeros(digits))
}

impl Numeral<'_> {
    /// The power of ten that the mantissa is, or None where it is not one.
    fn place(&self) -> Option<usize>
        requires whole { AllDigits 10 self.now.whole.now }
        requires fraction { AllDigits 10 self.now.fraction.now }
        ensures { MatchOption result ((j : ℕ) → mantissa (view self.now) ≢ 10 ^ j)
            (λ j. mantissa (view self.now) ≡ 10 ^ j) }
    {
        if are_zeros(self.whole) {
            place_of_one(self.fraction)
        } else if are_zeros(self.fraction) {
            Some(place_of_one(self.whole)? + self.fraction.len())
        } else {
            None
        }
    }

    /// The power of ten that the number is, from -3 to 3, or None where it is none of these.
    fn unit_power(&self) -> Option<i32>
        requires whole { AllDigits 10 self.now.whole.now }
        requires fraction { AllDigits 10 self.now.fraction.now }
        requires exponent { AllDigits 10 self.now.exponent.now }
        ensures exact { result ≡ power_from (Some (view self.now)) }
        ensures bounds { IfSome result (λ k. (neg_ℤ (pos 3) ≤ℤ k) × (k ≤ℤ pos 3)) }
    {
        if self.negative {
            return None;
        }
        let place = self.place()?;
        let power = self.power(place as i128);
        if power.unsigned_abs() <= GREATEST_POWER {
            Some(power)
        } else {
            None
        }
    }
}

/// The power of ten, from -3 to 3, that the text writes, or None where it writes another number or
/// none. It may have any number of digits.
#[tactic(auto, unfolding(crate::specs::Value::power_of))]
pub fn power_of_ten(text: &[u8]) -> Option<i32>
    ensures exact { result ≡ power_of text.now }
    ensures bounds { IfSome result (λ k. (neg_ℤ (pos 3) ≤ℤ k) × (k ≤ℤ pos 3)) }
    ensures power { (k : ℤ) → (result ≡ Some k)
        ↔ ((neg_ℤ (pos 3) ≤ℤ k) × (k ≤ℤ pos 3) × IsNumberWith text.now (IsTenTo k)) }
{
    match split(text) {
        None => None,
        Some(numeral) => numeral.unit_power(),
    }
}
