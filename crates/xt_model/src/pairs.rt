//! The pairs of coupled nets.

ghost use Rattle.std.specs.Prelude.{◌≡◌, ℕ, ◌≤◌, ◌++◌, map, length, IfOk, OnOk, Some};
ghost use Rattle.std.specs.List.{slice_get, sum_by};
ghost use Rattle.xt_model.specs.Limits.{most_nets};
ghost use Rattle.xt_model.specs.Levels.{ArePairs};
ghost use Rattle.xt_model.specs.Couples.{pair_of, CoupleToOthers};

use crate::net::{Coupling, Net};
use std::alloc::{AllocError, Global};

/// The two numbers, the lesser first.
fn pair(a: u32, b: u32) -> (u32, u32)
    ensures { result ≡ pair_of a b }
{
    if a < b { (a, b) } else { (b, a) }
}

/// Appends the pair of a net and of each that it couples to.
fn push_pairs(
    pairs: &mut Vec<(u32, u32)>,
    own: u32,
    couplings: &[Coupling],
) -> Result<(), AllocError>
    ensures { OnOk result (pairs.new.items ≡ pairs.old.items ++ map (λ k. pair_of own k.to.0) couplings.now) }
{
    for coupling in couplings {
        pairs.push(pair(own, coupling.to.0))?;
    }
    Ok(())
}

/// Each unordered pair of nets with a coupling on either side once, the lesser number first.
pub fn coupled_pairs(alloc: Global, nets: &[Net]) -> Result<Vec<(u32, u32)>, AllocError>
    requires couplings { CoupleToOthers nets.now }
    requires few { length nets.now ≤ most_nets }
    ensures pairs { IfOk result (λ pairs. ArePairs nets.now pairs.items) }
    ensures most { IfOk result (λ pairs. length pairs.items ≤ sum_by (λ n. length n.couplings) nets.now) }
{
    let mut pairs = Vec::new(alloc);
    for (own, net) in nets.iter().enumerate() {
        push_pairs(&mut pairs, own as u32, net.couplings.as_slice())?;
    }
    pairs.sort_unstable();
    pairs.dedup();
    Ok(pairs)
}
