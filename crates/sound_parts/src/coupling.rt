ghost use Rattle.std.specs.Prelude.{◌≡◌, ◌↔◌, ◌-◌, ◌^◌, pos, neg_ℤ, ◌≤ℤ◌, IsTrue};
ghost use Rattle.xt_model.specs.Limits.{most_cap};
ghost use Rattle.xt_model.specs.Sound.{IsSoundCoupling, coupling_sum, greatest_load};

use crate::range::is_cap;
use xt_model::limits::MOST_CAP;
use xt_model::{Coupling, DesignParts, Net};

/// Whether a coupling of the net number `own` leads to another net that is there, with a capacitance.
pub(crate) fn is_sound_coupling(parts: &DesignParts, own: usize, coupling: &Coupling) -> bool
    ensures { IsTrue result ↔ IsSoundCoupling parts.now own coupling.now }
{
    let to = coupling.to.0 as usize;
    to < parts.nets.len() && to != own && is_cap(coupling.cap)
}

/// The sum of the coupling capacitors in aF.
fn coupling_sum(couplings: &[Coupling]) -> i128
    ensures value { result ≡ coupling_sum couplings.now }
    ensures low { neg_ℤ (pos (2 ^ 127 - 2 ^ 63)) ≤ℤ result }
    ensures high { result ≤ℤ pos (2 ^ 127 - 2 ^ 63) }
{
    let mut sum: i128 = 0;
    for coupling in couplings {
        sum += i128::from(coupling.cap);
    }
    sum
}

/// Whether the load of the net is at most 2^46 aF where every coupling counts twice.
pub(crate) fn is_within_greatest_load(net: &Net) -> bool
    ensures { IsTrue result ↔ (greatest_load net.now ≤ℤ most_cap) }
{
    let sum = coupling_sum(net.couplings.as_slice());
    i128::from(net.load) + sum <= i128::from(MOST_CAP) - sum
}
