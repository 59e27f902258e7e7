//! The lines at the front of a text, and the last one.

ghost use Rattle.std.specs.Prelude.{◌≡◌, true, false, MatchOption};
ghost use Rattle.linked_text.specs.EachLine.{counts_in, end_in, factor, is_other_miller, miller_in, miller_of};
ghost use Rattle.linked_text.specs.EachLine.{period_in, version_in};
ghost use Rattle.linked_text.specs.Fields.{fields_of};
ghost use Rattle.linked_text.specs.Gives.{LineGives};
ghost use Rattle.xt_model.specs.Miller.{MillerNumbers};

use crate::fault::{HOLDS, LineStop, NUMBERS, WORDS};
use crate::field::{count, is_canonical, number_from, quantity};
use crate::head::Counts;
use crate::line::{four, one, two};
use crate::read_line::LineReader;
use std::alloc::Global;
use xt_model::Miller;
use xt_model::limits::{MOST_FACTOR, MOST_PERIOD};

/// Reads whether the version is that of the classical Miller numbers.
pub struct VersionReader;

impl LineReader for VersionReader {
    type Value = bool;

    ghost of = { λ _ line. version_in line };

    #[tactic(auto, unfolding(crate::specs::EachLine::version_in))]
    fn read(&self, _alloc: Global, line: &[u8]) -> Result<bool, LineStop> {
        let Some((word, version)) = two(line) else {
            return Err(WORDS);
        };
        if word != b"xtalk-design".as_slice() {
            return Err(WORDS);
        }
        if version == b"1".as_slice() {
            return Ok(true);
        }
        if version == b"2".as_slice() {
            return Ok(false);
        }
        Err(WORDS)
    }
}

/// Reads how many tables, nets and checks there are.
pub struct CountsReader;

impl LineReader for CountsReader {
    type Value = Counts;

    ghost of = { λ _ line. counts_in line };

    #[tactic(auto, unfolding(crate::specs::EachLine::counts_in))]
    fn read(&self, _alloc: Global, line: &[u8]) -> Result<Counts, LineStop> {
        let Some((word, tables, nets, checks)) = four(line) else {
            return Err(WORDS);
        };
        if word != b"counts".as_slice() {
            return Err(WORDS);
        }
        let Some(tables) = count(tables) else {
            return Err(NUMBERS);
        };
        let Some(nets) = count(nets) else {
            return Err(NUMBERS);
        };
        let Some(checks) = count(checks) else {
            return Err(NUMBERS);
        };
        Ok(Counts {
            tables,
            nets,
            checks,
        })
    }
}

/// Reads the clock period in fs, where there is one.
pub struct PeriodReader;

impl LineReader for PeriodReader {
    type Value = Option<i64>;

    ghost of = { λ _ line. period_in line };

    #[tactic(auto, unfolding(crate::specs::EachLine::period_in))]
    fn read(&self, _alloc: Global, line: &[u8]) -> Result<Option<i64>, LineStop> {
        let Some((word, time)) = two(line) else {
            return Err(WORDS);
        };
        if word != b"period".as_slice() {
            return Err(WORDS);
        }
        if time == b"none".as_slice() {
            return Ok(None);
        }
        let Some(time) = quantity(1, MOST_PERIOD, time) else {
            return Err(NUMBERS);
        };
        Ok(Some(time))
    }
}

/// The Miller numbers that a text of version 2 may have.
fn other_miller(low: u32, mid: u32, high: u32) -> Option<Miller>
    ensures { let m : MillerNumbers = record { low = low; mid = mid; high = high } in
        MatchOption result (is_other_miller m ≡ false) (λ x. (x ≡ m) × (is_other_miller m ≡ true)) }
{
    let miller = Miller::from_numbers(u64::from(low), u64::from(mid), u64::from(high))?;
    if miller.is_classical() {
        return None;
    }
    Some(miller)
}

/// A factor in quarters, at most three whole capacitors.
fn factor(field: &[u8]) -> Result<u32, LineStop>
    ensures { LineGives (λ x. x) result (factor field.now) }
{
    let Some(n) = number_from(u128::from(MOST_FACTOR) + 1, field) else {
        return Err(HOLDS);
    };
    Ok(n as u32)
}

/// The Miller numbers of these fields.
#[tactic(auto, unfolding(crate::specs::EachLine::miller_of))]
fn miller_of(low: &[u8], mid: &[u8], high: &[u8]) -> Result<Miller, LineStop>
    ensures { LineGives (λ x. x) result (miller_of low.now mid.now high.now) }
{
    let low = factor(low)?;
    let mid = factor(mid)?;
    let high = factor(high)?;
    let Some(miller) = other_miller(low, mid, high) else {
        return Err(HOLDS);
    };
    Ok(miller)
}

/// Reads the Miller numbers.
pub struct MillerReader;

impl LineReader for MillerReader {
    type Value = Miller;

    ghost of = { λ _ line. miller_in line };

    #[tactic(auto, unfolding(crate::specs::EachLine::miller_in))]
    fn read(&self, _alloc: Global, line: &[u8]) -> Result<Miller, LineStop> {
        let Some((word, low, mid, high)) = four(line) else {
            return Err(WORDS);
        };
        if word != b"miller".as_slice() {
            return Err(WORDS);
        }
        if !(is_canonical(low) && is_canonical(mid) && is_canonical(high)) {
            return Err(NUMBERS);
        }
        miller_of(low, mid, high)
    }
}

/// Reads the last line.
pub struct LastReader;

impl LineReader for LastReader {
    type Value = ();

    ghost of = { λ _ line. end_in line };

    #[tactic(auto, unfolding(crate::specs::EachLine::end_in))]
    fn read(&self, _alloc: Global, line: &[u8]) -> Result<(), LineStop> {
        let Some(word) = one(line) else {
            return Err(WORDS);
        };
        if word != b"end".as_slice() {
            return Err(WORDS);
        }
        Ok(())
    }
}
