//! Units and values.

ghost use Rattle.std.specs.Prelude.{◌≡◌, ℤ, pos, ◌≤ℤ◌, IfSome, IfOk};
ghost use Rattle.spef_read.specs.Meaning.{is_same, one_of, unit_power, value_of};
ghost use Rattle.text_forms.specs.Stops.{Computes};
ghost use Rattle.xt_number.specs.Quantities.{IsScale};

use crate::item::Quantity;
use crate::words::counted;
use text_forms::Stop;
use xt_model::Code;
use xt_number::read_fixed;

/// Whether the word is this one, in any case.
fn is_same(word: &[u8], other: &[u8]) -> bool
    ensures { result ≡ is_same word.now other.now }
{
    word.eq_ignore_ascii_case(other)
}

/// One of two words, in any case, with a power of ten for each.
fn one_of(
    word: &[u8],
    first: &[u8],
    first_power: i32,
    second: &[u8],
    second_power: i32,
) -> Option<i32>
    ensures { result ≡ one_of word.now first.now first_power second.now second_power }
{
    if is_same(word, first) {
        Some(first_power)
    } else if is_same(word, second) {
        Some(second_power)
    } else {
        None
    }
}

/// The power of ten by which a unit is counted in aF or in mΩ.
#[tactic(auto, unfolding(crate::specs::Meaning::unit_power))]
pub fn unit_power(quantity: Quantity, word: &[u8]) -> Option<i32>
    ensures value { result ≡ unit_power quantity word.now }
    ensures bounds { IfSome result (λ k. (pos 0 ≤ℤ k) × (k ≤ℤ pos 6)) }
{
    match quantity {
        Quantity::Time => one_of(word, b"NS", 0, b"PS", 0),
        Quantity::Capacitance => one_of(word, b"PF", 6, b"FF", 3),
        Quantity::Resistance => one_of(word, b"KOHM", 6, b"OHM", 3),
        Quantity::Inductance => Some(0),
    }
}

/// A value of the text, at least 0.
#[tactic(auto, unfolding(crate::specs::Meaning::value_of))]
pub fn value_of(word: &[u8], scale: Option<i32>) -> Result<i64, Stop>
    requires { IfSome scale IsScale }
    ensures { Computes (λ v. v) result (value_of word.now scale) }
{
    let Some(scale) = scale else {
        return Err(Stop::Refused(Code::S4));
    };
    match read_fixed(counted(word), scale) {
        Ok(value) if value >= 0 => Ok(value),
        _ => Err(Stop::Refused(Code::S3)),
    }
}
