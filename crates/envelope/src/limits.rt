//! The limits on the times and slews of a net: at its driver, and at each sink after the greatest delay of its wire.

ghost use Rattle.std.specs.Prelude.{◌≡◌, ◌<◌, ◌≤◌, ◌^◌, [], ◌∷◌, ◌++◌, length, pos, ◌≤ℤ◌, IfSome};
ghost use Rattle.std.specs.List.{slice_get};
ghost use Rattle.xt_model.specs.Quads.{IsInRange, IsPairInRange};
ghost use Rattle.xt_model.specs.Sound.{IsSound};
ghost use Rattle.xt_meaning.specs.Wires.{slew_growth};
ghost use Rattle.xt_meaning.specs.Envelope.{TimeAt, SlewAt, first_over};
ghost use Rattle.xt_meaning.specs.Envelope.{sink_tests, all_sink_tests, quad_tests};
ghost use Rattle.envelope.specs.Firsts.{passed_test, driver_tests, wire_tests, pair_tests, AreHighest};
ghost use Rattle.envelope.specs.Greatest.{IsWireDelay, AreWiresAtMost};

use crate::fault::{Excess, What};
use miller_bits::{Overlaps, Victim};
use xt_model::limits::{MOST_SLEW, MOST_TIME};
use xt_model::{Design, Edge, NetId, Pair, Quad, Windows};

/// Tests a time of a net.
fn test_time(net: NetId, value: i128) -> Result<(), Excess>
    ensures { passed_test result ≡ first_over (TimeAt net.0 value ∷ []) }
{
    let most = i128::from(MOST_TIME);
    if -most <= value && value <= most {
        return Ok(());
    }
    Err(Excess {
        net,
        what: What::Time,
        value,
    })
}

/// Tests a slew of a net.
fn test_slew(net: NetId, value: i128) -> Result<(), Excess>
    ensures { passed_test result ≡ first_over (SlewAt net.0 value ∷ []) }
{
    if value <= i128::from(MOST_SLEW) {
        return Ok(());
    }
    Err(Excess {
        net,
        what: What::Slew,
        value,
    })
}

/// Tests a window at the driver of a net.
fn test_driver(net: NetId, quad: &Quad) -> Result<(), Excess>
    requires { IsInRange quad.now }
    ensures { passed_test result ≡ first_over (driver_tests net.0 quad.now) }
{
    test_time(net, i128::from(quad.tlo))?;
    test_time(net, i128::from(quad.thi))?;
    test_slew(net, i128::from(quad.shi))
}

/// What a wire of this delay adds to a slew, by 64 bits where they hold it.
fn slew_growth(wire: i128) -> i128
    requires low { pos 0 ≤ℤ wire }
    requires high { wire ≤ℤ pos (2 ^ 105) }
    ensures value { result ≡ slew_growth wire }
    ensures low { pos 0 ≤ℤ result }
    ensures high { result ≤ℤ pos (2 ^ 107) }
{
    let fifths = 11 * wire;
    if let Ok(fifths) = i64::try_from(fifths) {
        return i128::from(fifths.div_euclid(5));
    }
    fifths.div_euclid(5)
}

/// Tests the latest arrival behind a wire of this delay in fs, and the greatest slew there.
fn test_wire(net: NetId, quad: &Quad, wire: i128) -> Result<(), Excess>
    requires range { IsInRange quad.now }
    requires wire { IsWireDelay wire }
    ensures { passed_test result ≡ first_over (wire_tests net.0 quad.now wire) }
{
    test_time(net, i128::from(quad.thi) + wire)?;
    test_slew(net, i128::from(quad.shi) + slew_growth(wire))
}

/// Tests a window at the driver of a net, and behind a wire of this delay in fs.
fn test_with_wire(net: NetId, quad: &Quad, wire: i128) -> Result<(), Excess>
    requires range { IsInRange quad.now }
    requires wire { IsWireDelay wire }
    ensures { passed_test result ≡ first_over (driver_tests net.0 quad.now ++ wire_tests net.0 quad.now wire) }
{
    test_driver(net, quad)?;
    test_wire(net, quad, wire)
}

/// Tests the latest arrival at a sink after the greatest delay of its wire, and the greatest slew there.
fn test_sink(victim: &Victim<Windows>, quad: &Quad, sink: usize) -> Result<(), Excess>
    requires highest { AreHighest victim.now }
    requires sink { sink < length victim.now.net.sinks }
    requires range { IsInRange quad.now }
    ensures { let v = victim.now in
        passed_test result ≡ first_over (sink_tests v.miller v.number v.net quad.now sink) }
{
    let (_, wire) = victim.wire_range(sink);
    test_wire(victim.number(), quad, wire)
}

/// Tests the sinks of a net, this many, in order.
fn test_sinks(victim: &Victim<Windows>, quad: &Quad, sinks: usize) -> Result<(), Excess>
    requires highest { AreHighest victim.now }
    requires sinks { sinks ≤ length victim.now.net.sinks }
    requires range { IsInRange quad.now }
    ensures { let v = victim.now in
        passed_test result ≡ first_over (all_sink_tests v.miller v.number v.net quad.now sinks) }
{
    for sink in 0..sinks {
        test_sink(victim, quad, sink)?;
    }
    Ok(())
}

/// Tests a window of a net with this many sinks, where it is live.
fn test_quad(victim: &Victim<Windows>, quad: &Quad, sinks: usize) -> Result<(), Excess>
    requires highest { AreHighest victim.now }
    requires sinks { sinks ≡ length victim.now.net.sinks }
    requires range { IsInRange quad.now }
    ensures { let v = victim.now in
        passed_test result ≡ first_over (quad_tests v.miller v.number v.net quad.now) }
{
    if !quad.live() {
        return Ok(());
    }
    test_driver(victim.number(), quad)?;
    test_sinks(victim, quad, sinks)
}

/// Tests the two windows of a net, one after the other: the first of their quantities that passes its limit.
fn test_each(design: &Design, windows: &Windows, net: NetId, pair: &Pair) -> Result<(), Excess>
    requires count { length windows.now ≡ length design.now.nets }
    requires net { net.0 < length design.now.nets }
    requires range { IsPairInRange pair.now }
    ensures { let driven = slice_get design.now.nets net.0 in
        passed_test result ≡ first_over (pair_tests design.now.miller net.0 driven pair.now) }
{
    let sinks = design.net(net.0 as usize).sinks.len();
    let rise = Victim::new(design, Overlaps::All, windows, net, Edge::Rise);
    test_quad(&rise, &pair.rise, sinks)?;
    let fall = Victim::new(design, Overlaps::All, windows, net, Edge::Fall);
    test_quad(&fall, &pair.fall, sinks)
}

/// Tests the two windows of a net: the first of their quantities that passes its limit, if one does. Where the least
/// window that both lie within keeps the limits, both do. Linear in the net's coefficients.
pub(crate) fn test_pair(
    design: &Design,
    windows: &Windows,
    net: NetId,
    pair: &Pair,
) -> Result<(), Excess>
    requires count { length windows.now ≡ length design.now.nets }
    requires net { net.0 < length design.now.nets }
    requires range { IsPairInRange pair.now }
    ensures { let driven = slice_get design.now.nets net.0 in
        passed_test result ≡ first_over (pair_tests design.now.miller net.0 driven pair.now) }
{
    let sinks = design.net(net.0 as usize).sinks.len();
    let both = pair.rise.join(&pair.fall);
    let victim = Victim::new(design, Overlaps::All, windows, net, Edge::Rise);
    match test_quad(&victim, &both, sinks) {
        Ok(()) => Ok(()),
        Err(_) => test_each(design, windows, net, pair),
    }
}

/// Tests the two windows of a net, as [`test_pair`] does, in a design of which no wire delay is greater than this one
/// in fs, where one is known. It goes over the coefficients of the net only where the least window that both lie within
/// does not keep the limits behind such a wire.
pub(crate) fn test_pair_by(
    design: &Design,
    windows: &Windows,
    net: NetId,
    pair: &Pair,
    greatest: Option<i128>,
) -> Result<(), Excess>
    requires sound { IsSound design.now }
    requires count { length windows.now ≡ length design.now.nets }
    requires net { net.0 < length design.now.nets }
    requires range { IsPairInRange pair.now }
    requires greatest { IfSome greatest (AreWiresAtMost design.now) }
    ensures { let driven = slice_get design.now.nets net.0 in
        passed_test result ≡ first_over (pair_tests design.now.miller net.0 driven pair.now) }
{
    if let Some(wire) = greatest {
        let both = pair.rise.join(&pair.fall);
        if test_with_wire(net, &both, wire).is_ok() {
            return Ok(());
        }
    }
    test_pair(design, windows, net, pair)
}
