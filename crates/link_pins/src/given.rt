//! The windows that constraints give the nets of input ports.

ghost use Rattle.std.specs.Prelude.{◌≡◌, option_map};
ghost use Rattle.verilog_net.specs.Bits.{Bit};
ghost use Rattle.link_rules.specs.Given.{span_of, slews_of, window_of, windows_of, clock_at, input_windows};
ghost use Rattle.link_rules.specs.Given.{set_windows, given_of};
ghost use Rattle.link_pins.specs.Seen.{bit_at};

use crate::bits::BitAt;
use sdc_read::{Clock, Constraints, Sides};
use verilog_net::PortRole;
use xt_model::{Pair, Quad};

/// The lesser and the greater of two numbers, of which a missing one is the other.
fn span(a: Option<i64>, b: Option<i64>) -> Option<(i64, i64)>
    ensures { result ≡ span_of a b }
{
    match (a, b) {
        (None, None) => None,
        (Some(a), None) => Some((a, a)),
        (None, Some(b)) => Some((b, b)),
        (Some(a), Some(b)) => Some((a.min(b), a.max(b))),
    }
}

/// The window with these times in fs and slews; without times it is quiet.
fn window(times: Option<(i64, i64)>, slews: (i64, i64)) -> Quad
    ensures { result ≡ window_of times slews }
{
    match times {
        None => Quad::bottom(),
        Some((tlo, thi)) => Quad {
            tlo,
            thi,
            slo: slews.0,
            shi: slews.1,
        },
    }
}

/// The slews of an edge, 0 where none is given.
fn slews(least: Option<i64>, greatest: Option<i64>) -> (i64, i64)
    ensures { result ≡ slews_of least greatest }
{
    match span(least, greatest) {
        None => (0, 0),
        Some(slews) => slews,
    }
}

/// The windows of an input with these times and slews.
fn windows(rise: Option<(i64, i64)>, fall: Option<(i64, i64)>, slew: Sides) -> Pair
    ensures { result ≡ windows_of rise fall slew }
{
    Pair {
        rise: window(rise, slews(slew.rise_min, slew.rise_max)),
        fall: window(fall, slews(slew.fall_min, slew.fall_max)),
    }
}

/// The fall in fs of the clock, where it comes in at this bit.
fn clock_fall(clock: &Option<Clock>, bit: BitAt) -> Option<i64>
    ensures { result ≡ option_map (λ c. c.fall) (clock_at bit.decl bit.bit clock.now) }
{
    match clock {
        None => None,
        Some(clock) => {
            if clock.decl == bit.decl && clock.bit == bit.bit {
                Some(clock.fall)
            } else {
                None
            }
        }
    }
}

/// The windows of an input port with these delays and slews.
fn input_windows(clock: &Option<Clock>, bit: BitAt, input: Sides, slew: Sides) -> Pair
    ensures { result ≡ input_windows (clock_at bit.decl bit.bit clock.now) input slew }
{
    match clock_fall(clock, bit) {
        Some(fall) => windows(Some((0, 0)), Some((fall, fall)), slew),
        None => windows(
            span(input.rise_min, input.rise_max),
            span(input.fall_min, input.fall_max),
            slew,
        ),
    }
}

/// What the net of a bit is given: windows for an input port, else nothing.
#[tactic(auto, unfolding(link_rules::specs::Given::given_of))]
pub fn given(constraints: &Constraints, bit: BitAt) -> Pair
    ensures { (b : Bit) → bit ≡ bit_at b → result ≡ given_of constraints.now b }
{
    match bit.role {
        PortRole::Input => match constraints.ports.find(bit.decl, bit.bit) {
            Some(set) => input_windows(&constraints.clock, bit, set.input, set.slew),
            None => input_windows(&constraints.clock, bit, Sides::none(), Sides::none()),
        },
        _ => Pair {
            rise: Quad::bottom(),
            fall: Quad::bottom(),
        },
    }
}
