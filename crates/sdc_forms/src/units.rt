//! Units of times and capacitances.

ghost use Rattle.std.specs.Prelude.{◌≡◌, ℤ, pos, neg_ℤ, ◌≤ℤ◌, IfSome};
ghost use Rattle.sdc_forms.specs.Statement.{is_same, one_of, number_power, sum_of, letters_of, number_of};
ghost use Rattle.sdc_forms.specs.Statement.{time_power, cap_power};
ghost use Rattle.sdc_forms.specs.View.{IsPower};

use xt_number::power_of_ten;

/// Whether the word is this one, in any case.
fn is_same(word: &[u8], other: &[u8]) -> bool
    ensures { result ≡ is_same word.now other.now }
{
    word.eq_ignore_ascii_case(other)
}

/// The power of ten by which the letters of a unit are counted: 6 and 3 for the two words, in any case.
fn letter_power(letters: &[u8], first: &[u8], second: &[u8]) -> Option<i32>
    ensures value { result ≡ one_of letters.now first.now (pos 6) second.now (pos 3) }
    ensures bounds { IfSome result (λ k. (pos 3 ≤ℤ k) × (k ≤ℤ pos 6)) }
{
    if is_same(letters, first) {
        Some(6)
    } else if is_same(letters, second) {
        Some(3)
    } else {
        None
    }
}

/// The power of ten of a unit number; none denotes 1.
fn number_power(number: &[u8]) -> Option<i32>
    ensures value { result ≡ number_power number.now }
    ensures bounds { IfSome result (λ k. (neg_ℤ (pos 3) ≤ℤ k) × (k ≤ℤ pos 3)) }
{
    if number.is_empty() {
        Some(0)
    } else {
        power_of_ten(number)
    }
}

/// The sum of two powers, where both are known.
fn sum_of(letters: Option<i32>, number: Option<i32>) -> Option<i32>
    requires letters { IfSome letters (λ k. (pos 3 ≤ℤ k) × (k ≤ℤ pos 6)) }
    requires number { IfSome number (λ k. (neg_ℤ (pos 3) ≤ℤ k) × (k ≤ℤ pos 3)) }
    ensures value { result ≡ sum_of letters number }
    ensures bounds { IfSome result IsPower }
{
    match (letters, number) {
        (Some(k), Some(n)) => Some(k + n),
        _ => None,
    }
}

/// The bytes of a unit before its two letters, and these.
fn split_unit(text: &[u8]) -> (&[u8], &[u8])
    ensures number { result.0.now ≡ number_of text.now }
    ensures letters { result.1.now ≡ letters_of text.now }
{
    text.split_at(text.len().saturating_sub(2))
}

/// A unit of time by the power of ten of its fs.
#[tactic(auto, unfolding(crate::specs::Statement::time_power))]
pub fn time_power(text: &[u8]) -> Option<i32>
    ensures value { result ≡ time_power text.now }
    ensures bounds { IfSome result IsPower }
{
    let (number, letters) = split_unit(text);
    sum_of(letter_power(letters, b"ns", b"ps"), number_power(number))
}

/// A unit of capacitance by the power of ten of its aF.
#[tactic(auto, unfolding(crate::specs::Statement::cap_power))]
pub fn cap_power(text: &[u8]) -> Option<i32>
    ensures value { result ≡ cap_power text.now }
    ensures bounds { IfSome result IsPower }
{
    let (number, letters) = split_unit(text);
    sum_of(letter_power(letters, b"pf", b"ff"), number_power(number))
}
