//! Numbers of commands.

ghost use Rattle.std.specs.Prelude.{◌≡◌, ◌^◌, ℤ, pos, neg_ℤ, ◌≤ℤ◌, ◌<ℤ◌, option_map, map, IfOk};
ghost use Rattle.sdc_words.specs.Items.{items_of};
ghost use Rattle.sdc_read.specs.Meaning.{number_in, number_from, fall_within, fall_of, fall_in, two_of, IsScale};
ghost use Rattle.text_forms.specs.Stops.{Computes};

use sdc_words::first_item;
use text_forms::Stop;
use xt_model::Code;
use xt_number::read_fixed;

/// A number of a command.
#[tactic(auto, unfolding(crate::specs::Meaning::number_in))]
pub fn number_in(text: &[u8], scale: i32) -> Result<i64, Stop>
    requires { IsScale scale }
    ensures value { Computes (λ x. x) result (number_in text.now scale) }
    ensures bounds { IfOk result (λ x. (neg_ℤ (pos (2 ^ 40)) ≤ℤ x) × (x ≤ℤ pos (2 ^ 40))) }
{
    match read_fixed(text, scale) {
        Ok(number) => Ok(number),
        Err(_) => Err(Stop::Refused(Code::C4)),
    }
}

/// A number of a command from a least one on.
#[tactic(auto, unfolding(crate::specs::Meaning::number_from))]
pub fn number_from(least: i64, text: &[u8], scale: i32) -> Result<i64, Stop>
    requires { IsScale scale }
    ensures value { Computes (λ x. x) result (number_from least text.now scale) }
    ensures bounds { IfOk result (λ x. (least ≤ℤ x) × (x ≤ℤ pos (2 ^ 40))) }
{
    let number = number_in(text, scale)?;
    if least <= number {
        Ok(number)
    } else {
        Err(Stop::Refused(Code::C4))
    }
}

/// The fall of a waveform, which begins with 0.
fn fall_within(period: i64, rise: i64, fall: i64) -> Result<i64, Stop>
    ensures value { Computes (λ x. x) result (fall_within period rise fall) }
    ensures bounds { IfOk result (λ x. (pos 0 ≤ℤ x) × (x <ℤ period)) }
{
    if rise == 0 && (0 < fall && fall < period) {
        Ok(fall)
    } else {
        Err(Stop::Refused(Code::C4))
    }
}

/// The two items of a list.
fn two_items(text: &[u8]) -> Option<(&[u8], &[u8])>
    ensures { option_map (λ x. (x.0.now, x.1.now)) result ≡ two_of (items_of text.now) }
{
    let (first, rest) = first_item(text)?;
    let (second, rest) = first_item(rest)?;
    match first_item(rest) {
        None => Some((first, second)),
        Some(_) => None,
    }
}

/// When a clock of a waveform falls.
#[tactic(auto, unfolding(crate::specs::Meaning::fall_of))]
fn fall_of(scale: i32, period: i64, waveform: &[u8]) -> Result<i64, Stop>
    requires { IsScale scale }
    ensures value { Computes (λ x. x) result (fall_of scale period (items_of waveform.now)) }
    ensures bounds { IfOk result (λ x. (pos 0 ≤ℤ x) × (x <ℤ period)) }
{
    let Some((rise, fall)) = two_items(waveform) else {
        return Err(Stop::Refused(Code::C4));
    };
    let rise = number_in(rise, scale)?;
    let fall = number_in(fall, scale)?;
    fall_within(period, rise, fall)
}

/// When the clock falls, by its waveform if one is given.
#[tactic(auto, unfolding(crate::specs::Meaning::fall_in))]
pub fn fall_in(scale: i32, period: i64, waveform: Option<&[u8]>) -> Result<i64, Stop>
    requires scale { IsScale scale }
    requires period { pos 1 ≤ℤ period }
    ensures value { Computes (λ x. x) result (fall_in scale period (option_map (λ t. t.now) waveform.entry)) }
    ensures bounds { IfOk result (λ x. (pos 0 ≤ℤ x) × (x <ℤ period)) }
{
    match waveform {
        Some(waveform) => fall_of(scale, period, waveform),
        None => Ok(period.div_euclid(2)),
    }
}
