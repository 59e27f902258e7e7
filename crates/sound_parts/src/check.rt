ghost use Rattle.std.specs.Prelude.{◌↔◌, IsTrue};
ghost use Rattle.xt_model.specs.Sound.{IsDelayOption, IsSoundCheck, IsTableOption};

use crate::net::{has_sink, is_name};
use crate::range::is_between;
use xt_model::limits::MOST_DELAY;
use xt_model::{CheckPoint, DesignParts};

/// Whether the constraint table of a check, where it has one, is there.
fn is_table_option(parts: &DesignParts, table: Option<u32>) -> bool
    ensures { IsTrue result ↔ IsTableOption parts.now table }
{
    match table {
        Some(number) => (number as usize) < parts.tables.len(),
        None => true,
    }
}

/// Whether an external delay in fs, where there is one, is at most 2^40 in size.
fn is_delay_option(delay: Option<i64>) -> bool
    ensures { IsTrue result ↔ IsDelayOption delay }
{
    match delay {
        Some(delay) => is_between(-MOST_DELAY, MOST_DELAY, delay),
        None => true,
    }
}

/// Whether the sinks and tables of a check are there and its delays are in range.
pub(crate) fn is_sound_check(parts: &DesignParts, check: &CheckPoint) -> bool
    ensures { IsTrue result ↔ IsSoundCheck parts.now check.now }
{
    match check {
        CheckPoint::Flop {
            name,
            hold: _,
            datum,
            datum_sink,
            clock,
            clock_sink,
            rise,
            fall,
        } => {
            is_name(name)
                && has_sink(parts, *datum, *datum_sink)
                && has_sink(parts, *clock, *clock_sink)
                && is_table_option(parts, *rise)
                && is_table_option(parts, *fall)
        }
        CheckPoint::Port {
            name,
            hold: _,
            net,
            sink,
            rise,
            fall,
        } => {
            is_name(name)
                && has_sink(parts, *net, *sink)
                && is_delay_option(*rise)
                && is_delay_option(*fall)
        }
    }
}
