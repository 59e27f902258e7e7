//! Windows that overlap, and windows that do not.

ghost use Rattle.xt_model.specs.Quads.{IsInRange};
ghost use Rattle.xt_meaning.specs.Overlap.{IsRealPeriod};

use crate::rows::{field, number};
use miller_bits::overlap;
use std::process::Abort;
use std::test::*;
use xt_model::Quad;

/// A bound of a window.
fn bound(text: &str, place: usize) -> i16 {
    i16::try_from(number(text, place)).unwrap_or(0)
}

/// A window by its earliest and latest time and its least and greatest slew.
fn window(text: &str) -> Quad
    ensures { IsInRange result }
{
    Quad {
        tlo: i64::from(bound(text, 0)),
        thi: i64::from(bound(text, 1)),
        slo: i64::from(bound(text, 2)),
        shi: i64::from(bound(text, 3)),
    }
}

/// The clock period of a field, in fs, if it has one.
fn clock(text: &str) -> Option<i64>
    ensures { IsRealPeriod result }
{
    let period = u16::try_from(number(text, 0)).unwrap_or(0);
    if period == 0 {
        None
    } else {
        Some(i64::from(period))
    }
}

/// Compares whether the two windows of each row overlap, the first with the second and the second with the first.
fn compare(rt: &impl Abort, rows: &str) {
    for row in rows.lines() {
        let want = field(row, 0) == "true";
        let (a, b) = (window(field(row, 1)), window(field(row, 2)));
        let period = clock(field(row, 3));
        assert_eq!(rt; overlap(&a, &b, period), want, "{row}");
        assert_eq!(rt; overlap(&b, &a, period), want, "{row}");
    }
}

/// Whether two windows overlap where there is no clock.
const MEETING: &str = "\
true | 1000 1000 600 600 | 1600 1600 600 600
false | 1000 1000 600 600 | 1601 1601 600 600
true | 1000 1400 0 600 | 2000 2000 600 600
false | 1000 1400 0 600 | 2001 2001 600 600
true | 0 0 1 1 | 2 2 1 1
false | 0 0 1 1 | 3 3 1 1
true | 0 0 0 0 | 0 0 0 0
true | 0 500 0 0 | 100 200 0 0
false | 1 0 0 0 | 0 1 0 0
false | 0 1 10 9 | 0 1 0 10
";

#[test]
fn active_ranges_meet_at_their_ends(rt: HostRuntime) {
    compare(&rt, MEETING);
}

/// Whether two windows overlap, and the period of the clock.
const PERIODS_APART: &str = "\
true | 0 0 0 0 | 300 300 0 0 | 100
false | 0 0 0 0 | 299 299 0 0 | 100
true | 0 0 0 0 | -300 -300 0 0 | 100
false | 0 0 0 0 | -301 -301 0 0 | 100
false | 0 10 0 0 | 411 430 0 0 | 100
true | 0 10 0 0 | 410 430 0 0 | 100
true | 0 10 0 0 | 370 400 0 0 | 100
false | 0 10 0 0 | 370 399 0 0 | 100
true | 0 0 0 5 | 94 94 0 5 | 100
false | 0 0 0 5 | 93 93 0 5 | 100
true | 0 100 0 0 | 1000 1000 0 0 | 101
true | 7 7 0 0 | 32000 32000 0 0 | 1
false | 1 0 0 0 | 100 100 0 0 | 100
";

#[test]
fn ranges_that_lie_whole_periods_apart_meet(rt: HostRuntime) {
    compare(&rt, PERIODS_APART);
}
