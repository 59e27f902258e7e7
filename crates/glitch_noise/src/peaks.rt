//! The peaks of all nets.

ghost use Rattle.std.specs.Prelude.{◌≡◌, ◌<◌, ◌-◌, ◌^◌, length, IfOk, OnOk};
ghost use Rattle.std.specs.Prelude.{pos, neg_ℤ, ◌+ℤ◌, ◌*ℤ◌, ◌≤ℤ◌};
ghost use Rattle.std.specs.Int.{int_div_euclid};
ghost use Rattle.std.specs.List.{All};
ghost use Rattle.xt_model.specs.Assign.{assigned};
ghost use Rattle.xt_model.specs.Limits.{most_cap};
ghost use Rattle.xt_model.specs.Sound.{IsCap, coupling_sum, greatest_load};
ghost use Rattle.glitch_noise.specs.Peaks.{ArePeaks, EdgePeaksAt};

use crate::change::Change;
use crate::changes::fill;
use crate::peak::Peak;
use crate::sweep::best_of;
use std::alloc::{AllocError, Global};
use xt_model::{Coupling, Design, Edge, Net, NetId, NoMemory, Windows};

/// The sum of the coupling capacitors in aF.
fn coupling_sum(couplings: &[Coupling]) -> i128
    ensures value { result ≡ coupling_sum couplings.now }
    ensures low { neg_ℤ (pos (2 ^ 127 - 2 ^ 63)) ≤ℤ result }
    ensures high { result ≤ℤ pos (2 ^ 127 - 2 ^ 63) }
{
    let mut sum: i128 = 0;
    for coupling in couplings {
        sum += i128::from(coupling.cap);
    }
    sum
}

/// A part of a whole in millionths, rounded down.
fn millionths(part: i128, whole: i128) -> i128
    requires some { pos 1 ≤ℤ part }
    requires part { part ≤ℤ whole }
    requires small { whole ≤ℤ pos (2 ^ 64) }
    ensures value { result ≡ int_div_euclid (pos 1000000 *ℤ part) whole }
    ensures low { pos 0 ≤ℤ result }
    ensures high { result ≤ℤ pos 1000000 }
{
    (1_000_000 * part).div_euclid(whole)
}

/// A part of the couplings of a net, in millionths of all its capacitance, rounded down.
fn ppm(net: &Net, part: i128) -> u32
    requires load { IsCap net.now.load }
    requires most_load { greatest_load net.now ≤ℤ most_cap }
    requires some { pos 1 ≤ℤ part }
    requires part { part ≤ℤ coupling_sum net.now.couplings }
    ensures { pos result ≡ int_div_euclid (pos 1000000 *ℤ part) (net.now.load +ℤ coupling_sum net.now.couplings) }
{
    let whole = i128::from(net.load) + coupling_sum(net.couplings.as_slice());
    millionths(part, whole) as u32
}

/// Appends the peak of a net for one edge of its aggressors, where it has one. What `changes` holds is lost.
fn push_peak(
    peaks: &mut Vec<Peak>,
    changes: &mut Vec<Change>,
    design: &Design,
    high: &Windows,
    victim: NetId,
    edge: Edge,
) -> Result<(), AllocError>
    requires net { victim.0 < length design.now.nets }
    requires count { length high.now ≡ length design.now.nets }
    ensures { OnOk result (EdgePeaksAt design.now (assigned high.now) victim.0 edge peaks.old.items peaks.new.items) }
{
    let net = design.net(victim.0 as usize);
    fill(changes, design, high, net, edge)?;
    let best = best_of(changes);
    if best.sum > 0 {
        peaks.push(Peak {
            victim,
            edge,
            sum: best.sum as i64,
            moment: best.moment,
            ppm: ppm(net, best.sum),
        })?;
    }
    Ok(())
}

/// The peaks of a design by windows that have one pair a net, by net, for the rises of its aggressors before their
/// falls; a net has none for an edge whose share is 0 at every moment. Takes O(k log k) time for a net with k
/// couplings. Fails only for want of memory.
pub fn noise(alloc: Global, design: &Design, high: &Windows) -> Result<Vec<Peak>, NoMemory>
    requires { length high.now ≡ length design.now.nets }
    ensures peaks { IfOk result
        (λ peaks. ArePeaks design.now (assigned high.now) 0 design.now.nets peaks.items) }
    ensures there { IfOk result (λ peaks. All (λ p. p.victim.0 < length design.now.nets) peaks.items) }
{
    let mut peaks = Vec::new(alloc);
    let mut changes = Vec::new(alloc);
    for number in 0..design.nets().len() {
        let victim = NetId(number as u32);
        push_peak(&mut peaks, &mut changes, design, high, victim, Edge::Rise)?;
        push_peak(&mut peaks, &mut changes, design, high, victim, Edge::Fall)?;
    }
    Ok(peaks)
}
