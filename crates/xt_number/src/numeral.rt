//! The parts of a written number.

ghost use Rattle.std.specs.Prelude.{◌≡◌, ◌+◌, ◌^◌, ◌<◌, ◌≤◌, length, min, pos, neg_ℤ, ◌+ℤ◌, ◌≤ℤ◌, IfSome, MatchOption};
ghost use Rattle.std.specs.List.{prefix_len, list_all};
ghost use Rattle.std.specs.Char.{is_ascii_digit};
ghost use Rattle.std.specs.Str.Parse.{AllDigits, digits_value, digits_value_after};
ghost use Rattle.xt_number.specs.Numeral.{IsNumber};
ghost use Rattle.xt_number.specs.Value.{mantissa, exponent, signed, clamped};
ghost use Rattle.xt_number.specs.View.{view};
ghost use Rattle.xt_number.specs.Reading.{signed_at, digits_at, fraction_at, exponent_at};
ghost use Rattle.xt_number.specs.Reading.{numeral_of, Gives, is_numeral, has_digit};

/// A bound of mantissas: thirty digits are below it.
const MANTISSAS: u128 = 1_000_000_000_000_000_000_000_000_000_000;

/// A bound of the mantissas that are read in 64 bits: eighteen digits are below it, and one digit more fits too.
const SHORT: u64 = 1_000_000_000_000_000_000;

/// An exponent this far from zero outweighs any number of digits.
const FAR: u128 = 1 << 80;

/// The parts of a written number, each of digits alone.
#[derive(Clone, Copy)]
pub struct Numeral<'a> {
    pub negative: bool,
    pub whole: &'a [u8],
    pub fraction: &'a [u8],
    pub exponent_negative: bool,
    pub exponent: &'a [u8],
}

impl Numeral<'_> {
    /// Whether a digit comes before the exponent.
    fn has_digit(&self) -> bool
        ensures { result ≡ has_digit (view self.now) }
    {
        !(self.whole.is_empty() && self.fraction.is_empty())
    }

    /// The digits before the exponent as one whole number, or None from 10^30 on.
    pub fn mantissa(&self) -> Option<u128>
        requires whole { AllDigits 10 self.now.whole.now }
        requires fraction { AllDigits 10 self.now.fraction.now }
        ensures { MatchOption result (10 ^ 30 ≤ mantissa (view self.now))
            (λ m. (m ≡ mantissa (view self.now)) × (m < 10 ^ 30)) }
    {
        match self.short_mantissa() {
            Some(mantissa) => Some(u128::from(mantissa)),
            None => self.long_mantissa(),
        }
    }

    /// The digits before the exponent as one whole number, or None from 10^18 on.
    fn short_mantissa(&self) -> Option<u64>
        requires whole { AllDigits 10 self.now.whole.now }
        requires fraction { AllDigits 10 self.now.fraction.now }
        ensures { MatchOption result (10 ^ 18 ≤ mantissa (view self.now))
            (λ m. (m ≡ mantissa (view self.now)) × (m < 10 ^ 18)) }
    {
        let whole = short_below(0, self.whole)?;
        short_below(whole, self.fraction)
    }

    /// The digits before the exponent as one whole number, or None from 10^30 on, in 128 bits.
    fn long_mantissa(&self) -> Option<u128>
        requires whole { AllDigits 10 self.now.whole.now }
        requires fraction { AllDigits 10 self.now.fraction.now }
        ensures { MatchOption result (10 ^ 30 ≤ mantissa (view self.now))
            (λ m. (m ≡ mantissa (view self.now)) × (m < 10 ^ 30)) }
    {
        let whole = value_below(0, self.whole, MANTISSAS)?;
        value_below(whole, self.fraction, MANTISSAS)
    }

    /// The power of ten of the mantissa and `by` more, cut at 64 on both sides.
    pub fn power(&self, by: i128) -> i32
        requires exponent { AllDigits 10 self.now.exponent.now }
        requires low { neg_ℤ (pos (2 ^ 65)) ≤ℤ by }
        requires high { by ≤ℤ pos (2 ^ 65) }
        ensures { result ≡ clamped (exponent (view self.now) +ℤ by) }
    {
        let exponent = with_sign(self.exponent_negative, value_or_far(self.exponent));
        (exponent - self.fraction.len() as i128 + by).clamp(-64, 64) as i32
    }
}

/// The number that digits write after those of `start`, or None from 10^18 on.
fn short_below(start: u64, digits: &[u8]) -> Option<u64>
    requires start { start < 10 ^ 18 }
    requires digits { AllDigits 10 digits.now }
    ensures { MatchOption result (10 ^ 18 ≤ digits_value_after 10 start digits.now)
        (λ v. (v ≡ digits_value_after 10 start digits.now) × (v < 10 ^ 18)) }
{
    let mut value = start;
    for digit in digits {
        value = value * 10 + u64::from(digit - b'0');
        if value >= SHORT {
            return None;
        }
    }
    Some(value)
}

/// The number that digits write after those of `start`, or None from `limit` on.
fn value_below(start: u128, digits: &[u8], limit: u128) -> Option<u128>
    requires start { start < limit }
    requires limit { limit ≤ 10 ^ 30 }
    requires digits { AllDigits 10 digits.now }
    ensures { MatchOption result (limit ≤ digits_value_after 10 start digits.now)
        (λ v. (v ≡ digits_value_after 10 start digits.now) × (v < limit)) }
{
    let mut value = start;
    for digit in digits {
        value = value * 10 + u128::from(digit - b'0');
        if value >= limit {
            return None;
        }
    }
    Some(value)
}

/// The number that the digits write, or 2^80 where it is greater.
fn value_or_far(digits: &[u8]) -> u128
    requires { AllDigits 10 digits.now }
    ensures value { result ≡ min (digits_value 10 digits.now) (2 ^ 80) }
    ensures bound { result ≤ 2 ^ 80 }
{
    value_below(0, digits, FAR).unwrap_or(FAR)
}

/// A size with its sign.
pub fn with_sign(negative: bool, size: u128) -> i128
    requires { size ≤ 2 ^ 80 }
    ensures value { result ≡ signed negative size }
    ensures low { neg_ℤ (pos size) ≤ℤ result }
    ensures high { result ≤ℤ pos size }
{
    let size = size as i128;
    if negative { -size } else { size }
}

/// Whether a `-` is in front, and the bytes after the sign.
#[tactic(auto, unfolding(crate::specs::Reading::signed_at))]
fn split_sign(text: &[u8]) -> (bool, &[u8])
    ensures { (result.0, result.1.now) ≡ signed_at text.now }
{
    match text {
        [b'-', rest @ ..] => (true, rest),
        [b'+', rest @ ..] => (false, rest),
        _ => (false, text),
    }
}

/// How many digits are in front.
fn count_digits(text: &[u8]) -> usize
    ensures count { result ≡ prefix_len is_ascii_digit text.now }
    ensures within { result ≤ length text.now }
{
    text.iter().take_while(|byte| byte.is_ascii_digit()).count()
}

/// The digits in front, and the bytes after them.
fn split_digits(text: &[u8]) -> (&[u8], &[u8])
    ensures front { result.0.now ≡ (digits_at text.now).0 }
    ensures back { result.1.now ≡ (digits_at text.now).1 }
{
    text.split_at(count_digits(text))
}

/// The digits after a point in front, and the bytes after them, or None where the point has no
/// digit after it.
#[tactic(auto, unfolding(crate::specs::Reading::fraction_at))]
fn split_fraction(text: &[u8]) -> Option<(&[u8], &[u8])>
    ensures { Gives (λ x. (x.0.now, x.1.now)) result (fraction_at text.now) }
{
    match text {
        [b'.', rest @ ..] => {
            let (fraction, rest) = split_digits(rest);
            if fraction.is_empty() {
                None
            } else {
                Some((fraction, rest))
            }
        }
        _ => Some((&[], text)),
    }
}

/// Whether each byte is a digit.
fn are_digits(text: &[u8]) -> bool
    ensures { result ≡ list_all is_ascii_digit text.now }
{
    text.iter().all(|byte| byte.is_ascii_digit())
}

/// Whether the text has a digit, and nothing but digits.
fn has_digits_only(text: &[u8]) -> bool
    ensures { result ≡ is_numeral text.now }
{
    !text.is_empty() && are_digits(text)
}

/// The sign and the digits of the exponent that the text is, or None where it is not one. No text is
/// an exponent of no digits.
#[tactic(auto, unfolding(crate::specs::Reading::exponent_at))]
fn split_exponent(text: &[u8]) -> Option<(bool, &[u8])>
    ensures { Gives (λ x. (x.0, x.1.now)) result (exponent_at text.now) }
{
    match text {
        [] => Some((false, &[])),
        [b'e' | b'E', rest @ ..] => {
            let (negative, digits) = split_sign(rest);
            if has_digits_only(digits) {
                Some((negative, digits))
            } else {
                None
            }
        }
        _ => None,
    }
}

/// The parts of the text, or None where it is no number.
#[inline(always)]
#[tactic(auto, unfolding(crate::specs::Reading::numeral_of))]
pub fn split(text: &[u8]) -> Option<Numeral<'_>>
    ensures exact { Gives view result (numeral_of text.now) }
    ensures found { IfSome result (λ n. IsNumber text.now (view n)) }
{
    let (negative, rest) = split_sign(text);
    let (whole, rest) = split_digits(rest);
    let (fraction, rest) = split_fraction(rest)?;
    let (exponent_negative, exponent) = split_exponent(rest)?;
    let numeral = Numeral {
        negative,
        whole,
        fraction,
        exponent_negative,
        exponent,
    };
    if numeral.has_digit() {
        Some(numeral)
    } else {
        None
    }
}
