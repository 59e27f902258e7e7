//! The greatest wire delay of a design, with every coupling at its highest factor.

ghost use Rattle.std.specs.Prelude.{◌≡◌, ◌<◌, ◌≤◌, length, IfSome};
ghost use Rattle.std.specs.List.{slice_get};
ghost use Rattle.std.specs.Thread.{IsSync};
ghost use Rattle.envelope.specs.Firsts.{AreHighest};
ghost use Rattle.envelope.specs.Greatest.{AreWiresToSinksAtMost, AreWiresOfNetsAtMost, AreWiresAtMost};

use miller_bits::{Overlaps, Victim};
use std::thread::{Threads, join};
use xt_model::{Design, Edge, NetId, Windows};

/// The greatest wire delay in fs to the sinks of a net, this many.
fn greatest_of_sinks(victim: &Victim<Windows>, sinks: usize) -> i128
    requires highest { AreHighest victim.now }
    requires sinks { sinks ≤ length victim.now.net.sinks }
    ensures { AreWiresToSinksAtMost victim.now.miller victim.now.net sinks result }
{
    let mut greatest = 0;
    for sink in 0..sinks {
        let (_, wire) = victim.wire_range(sink);
        greatest = wire.max(greatest);
    }
    greatest
}

/// The greatest wire delay in fs of a net.
fn greatest_of_net(design: &Design, windows: &Windows, net: NetId) -> i128
    requires count { length windows.now ≡ length design.now.nets }
    requires net { net.0 < length design.now.nets }
    ensures { IfSome
        (slice_get design.now.nets net.0)
        (λ driven. AreWiresToSinksAtMost design.now.miller driven (length driven.sinks) result) }
{
    let sinks = design.net(net.0 as usize).sinks.len();
    let victim = Victim::new(design, Overlaps::All, windows, net, Edge::Rise);
    greatest_of_sinks(&victim, sinks)
}

/// The greatest wire delay in fs of the nets from number `from` to before number `to`.
fn greatest_within(design: &Design, windows: &Windows, from: u32, to: u32) -> i128
    requires count { length windows.now ≡ length design.now.nets }
    requires order { from ≤ to }
    requires end { to ≤ length design.now.nets }
    ensures { AreWiresOfNetsAtMost design.now from to result }
{
    let mut greatest: i128 = 0;
    for net in from..to {
        greatest = greatest.max(greatest_of_net(design, windows, NetId(net)));
    }
    greatest
}

/// The greatest wire delay in fs of the nets from number `from` to before number `to`, found by this many threads, each
/// over a share of the nets.
fn greatest_by<R: Threads + Sync>(
    rt: &R,
    design: &Design,
    windows: &Windows,
    from: u32,
    to: u32,
    shares: u32,
) -> i128
    requires count { length windows.now ≡ length design.now.nets }
    requires order { from ≤ to }
    requires end { to ≤ length design.now.nets }
    ensures { AreWiresOfNetsAtMost design.now from to result }
{
    if shares <= 1 {
        return greatest_within(design, windows, from, to);
    }
    let rest = shares - 1;
    let middle = from + (to - from) / shares;
    let (left, right) = join(
        rt,
        move || -> i128
            requires { (length windows.now ≡ length design.now.nets)
                × (from ≤ middle) × (middle ≤ length design.now.nets) }
            ensures { AreWiresOfNetsAtMost design.entry.now from middle result }
        { greatest_within(design, windows, from, middle) },
        move || -> i128
            requires { IsSync R.row × (length windows.now ≡ length design.now.nets)
                × (middle ≤ to) × (to ≤ length design.now.nets) }
            ensures { AreWiresOfNetsAtMost design.entry.now middle to result }
        { greatest_by(rt, design, windows, middle, to, rest) },
    );
    left.max(right)
}

/// The greatest wire delay in fs of a design, found by this many threads. The windows are of its nets, whatever they
/// are: every coupling counts by its highest factor.
pub(crate) fn greatest_of_design<R: Threads + Sync>(
    rt: &R,
    design: &Design,
    windows: &Windows,
    threads: u32,
) -> i128
    requires { length windows.now ≡ length design.now.nets }
    ensures { AreWiresAtMost design.now result }
{
    let nets = design.nets().len() as u32;
    greatest_by(rt, design, windows, 0, nets, threads)
}
