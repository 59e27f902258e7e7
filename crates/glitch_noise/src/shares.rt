//! How much of the coupling capacitance of a net can switch at one moment.

ghost use Rattle.std.specs.Prelude.{◌≡◌, ◌<◌, length};
ghost use Rattle.xt_model.specs.Assign.{assigned};
ghost use Rattle.xt_model.specs.Quads.{IsBound, IsInRange};
ghost use Rattle.xt_meaning.specs.Overlap.{IsRealPeriod};
ghost use Rattle.glitch_noise.specs.Shares.{is_under_way, part_of, share};

use miller_bits::overlap;
use xt_model::{Coupling, Design, Edge, NetId, Quad, Windows};

/// The window of an edge of a net.
pub(crate) fn window_at(windows: &Windows, net: NetId, edge: Edge) -> Quad
    requires { net.0 < length windows.now }
    ensures value { result ≡ assigned windows.now net.0 edge }
    ensures range { IsInRange result }
{
    windows.pair(net.0 as usize).at(edge)
}

/// Whether a transition of the window can be under way at a moment.
fn is_under_way(window: &Quad, moment: i64, period: Option<i64>) -> bool
    requires range { IsInRange window.now }
    requires moment { IsBound moment }
    requires period { IsRealPeriod period }
    ensures { result ≡ is_under_way period window.now moment }
{
    let at_once = Quad {
        tlo: moment,
        thi: moment,
        slo: 0,
        shi: 0,
    };
    overlap(window, &at_once, period)
}

/// What a coupling adds at a moment.
fn part_of(design: &Design, high: &Windows, coupling: &Coupling, edge: Edge, moment: i64) -> i64
    requires aggressor { coupling.now.to.0 < length high.now }
    requires moment { IsBound moment }
    ensures { result ≡ part_of design.now.period (assigned high.now) edge moment coupling.now }
{
    let window = window_at(high, coupling.to, edge);
    if is_under_way(&window, moment, design.period()) {
        coupling.cap
    } else {
        0
    }
}

/// The share of a net at a moment: the sum in aF of its coupling capacitors whose aggressors can have this edge under
/// way then, by windows that have one pair a net. The moment is in fs. In a design with a clock period a transition
/// comes again in every period. Takes time in proportion to the net's couplings.
pub fn share(design: &Design, high: &Windows, victim: NetId, edge: Edge, moment: i64) -> i64
    requires net { victim.0 < length design.now.nets }
    requires count { length high.now ≡ length design.now.nets }
    requires moment { IsBound moment }
    ensures { result ≡ share design.now (assigned high.now) victim.0 edge moment }
{
    let net = design.net(victim.0 as usize);
    let mut sum = 0;
    for coupling in net.couplings.as_slice() {
        sum += part_of(design, high, coupling, edge, moment);
    }
    sum
}
