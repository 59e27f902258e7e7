//! What the words of a command line say: numbers, kinds of a report, engines, Miller numbers.

ghost use Rattle.std.specs.Prelude.{◌≡◌, Option, Some, None, option_map};
ghost use Rattle.std.specs.Char.{is_ascii_digit};
ghost use Rattle.std.specs.List.{list_all};
ghost use Rattle.report_kind.specs.Kind.{kind_of};
ghost use Rattle.report_kind.specs.declared.kind.ReportKind.TheVariants.{All};
ghost use Rattle.command_line.specs.declared.values.Engine.TheVariants.{Rounds};
ghost use Rattle.command_line.specs.Values;
ghost use Rattle.command_line.specs.Values.{if_said, said_or};

use report_kind::ReportKind;
use xt_model::Miller;
use xt_model::limits::{MOST_GENERATED, MOST_WORKERS};

/// By which engine windows are found: by rounds of workers, or by marks of what is to be evaluated again.
#[derive(Clone, Copy, Debug, PartialEq, Eq)]
pub enum Engine {
    Rounds,
    Marks,
}

fn are_digits(text: &[u8]) -> bool
    ensures { result ≡ list_all is_ascii_digit text.now }
{
    text.iter().all(|byte| byte.is_ascii_digit())
}

fn is_number(text: &[u8]) -> bool
    ensures { result ≡ Values.is_number text.now }
{
    !text.is_empty() && text.len() <= 20 && are_digits(text)
}

/// The number below 2^64 that one to twenty digits write.
pub fn number(text: &str) -> Option<u64>
    ensures { result ≡ Values.number_of 64 text.now }
{
    if is_number(text.as_bytes()) {
        text.parse::<u64>().ok()
    } else {
        None
    }
}

// The number from the one to the other that the word writes.
fn number_within(least: u32, most: u32, text: &str) -> Option<u32>
    ensures { result ≡ Values.number_within least most text.now }
{
    let number = number(text)?;
    if u64::from(least) <= number && number <= u64::from(most) {
        Some(number as u32)
    } else {
        None
    }
}

/// How many workers the word says: from 1 to 64.
pub fn worker_count(text: &str) -> Option<u32>
    ensures { result ≡ Values.worker_count text.now }
{
    number_within(1, MOST_WORKERS, text)
}

/// The count of workers that the word says, or one.
pub fn workers_or_one(text: Option<&str>) -> Option<u32>
    ensures { result ≡ said_or 1 Values.worker_count (option_map (λ t. t.now) text.entry) }
{
    match text {
        Some(text) => worker_count(text),
        None => Some(1),
    }
}

/// How many nets the word says: from 1 to 100,000.
pub fn net_count(text: &str) -> Option<u32>
    ensures { result ≡ Values.net_count text.now }
{
    number_within(1, MOST_GENERATED, text)
}

/// The kind of report that the word says, or the whole report.
pub fn kind_or_all(text: Option<&str>) -> Option<ReportKind>
    ensures { result ≡ said_or All kind_of (option_map (λ t. t.now) text.entry) }
{
    match text {
        Some(text) => ReportKind::from_word(text),
        None => Some(ReportKind::All),
    }
}

// The engine that the word says.
fn engine_named(text: &str) -> Option<Engine>
    ensures { result ≡ Values.engine text.now }
{
    match text {
        "rounds" => Some(Engine::Rounds),
        "marks" => Some(Engine::Marks),
        _ => None,
    }
}

/// The engine that the word says, or rounds.
pub fn engine_or_rounds(text: Option<&str>) -> Option<Engine>
    ensures { result ≡ said_or Rounds Values.engine (option_map (λ t. t.now) text.entry) }
{
    match text {
        Some(text) => engine_named(text),
        None => Some(Engine::Rounds),
    }
}

// What comes before the first comma, and what comes after it.
fn cut(text: &str) -> Option<(&str, &str)>
    ensures { option_map (λ p. (p.0.now, p.1.now)) result ≡ Values.cut text.now }
{
    text.split_once(',')
}

// The three numbers that are joined by commas.
fn three_numbers(text: &str) -> Option<(u64, u64, u64)>
    ensures { result ≡ Values.three_of text.now }
{
    let (low, rest) = cut(text)?;
    let (mid, high) = cut(rest)?;
    Some((number(low)?, number(mid)?, number(high)?))
}

// The Miller numbers that the word says.
fn miller_numbers(text: &str) -> Option<Miller>
    ensures { result ≡ Values.miller_numbers text.now }
{
    let (low, mid, high) = three_numbers(text)?;
    Miller::from_numbers(low, mid, high)
}

/// The Miller numbers that the word says, if one is given.
pub fn miller_if_said(text: Option<&str>) -> Option<Option<Miller>>
    ensures { result ≡ if_said Values.miller_numbers (option_map (λ t. t.now) text.entry) }
{
    match text {
        Some(text) => Some(Some(miller_numbers(text)?)),
        None => Some(None),
    }
}
