//! Sums over the nodes of a wire by two walks over its steps: one against them that gathers the capacitance
//! beyond each resistor, and one along them that adds each resistor's share (Elmore 1948).

ghost use Rattle.std.specs.Prelude.{◌≡◌, ℕ, ◌+◌, ◌*◌, ◌<◌, ◌≤◌, ◌^◌, true, length, IfOk, slice_index};
ghost use Rattle.elmore_tree.specs.Sums.{resistance, shared};
ghost use Rattle.elmore_tree.specs.Walks.{IsGrown, is_visited, path_of};
ghost use Rattle.elmore_tree.specs.Gathering.{cap_sum, elmore_sum};

use crate::tree::Tree;
use crate::walk::Step;
use std::alloc::{AllocError, Global};

/// The resistance of a resistor in milliohms.
pub fn resistance(tree: &Tree, number: usize) -> u64
    requires { number < length tree.now.resistors }
    ensures value { result ≡ resistance tree.now number }
    ensures most { result ≤ 2 ^ 40 }
{
    let resistor = tree.resistors()[number];
    resistor.value.unsigned_abs()
}

/// What a resistor in milliohms with a capacitance in aF beyond it adds to a sum.
fn share(resistance: u64, behind: u64) -> u128
    requires resistance { resistance ≤ 2 ^ 40 }
    requires behind { behind ≤ 2 ^ 46 }
    ensures value { result ≡ resistance * behind }
    ensures most { result ≤ 2 ^ 86 }
{
    u128::from(resistance) * u128::from(behind)
}

/// For each visited node the sum over all nodes of the resistance common to the paths to both times the
/// capacitance there, which is given by node. Takes time and memory in proportion to the nodes.
pub fn elmore_sums(
    alloc: Global,
    tree: &Tree,
    steps: &[Step],
    mut caps: Vec<u64>,
) -> Result<Vec<u128>, AllocError>
    requires grown { IsGrown tree.now steps.now }
    requires few { length steps.now < 65536 }
    requires count { length caps.items ≡ tree.now.nodes }
    requires most { cap_sum tree.now caps.items ≤ 2 ^ 46 }
    ensures count { IfOk result (λ sums. length sums.items ≡ tree.now.nodes) }
    ensures each { IfOk result (λ sums. (k : ℕ) → is_visited tree.now steps.now k ≡ true
        → slice_index sums.items k ≡ elmore_sum tree.now steps.now caps.items k) }
{
    let nodes = tree.nodes() as usize;
    for index in (0..steps.len()).rev() {
        let step = steps[index];
        let behind = caps[step.to as usize];
        caps[step.from as usize] += behind;
    }
    let mut sums = vec![in alloc; 0; nodes]?;
    for step in steps {
        let added = share(resistance(tree, step.resistor), caps[step.to as usize]);
        let sum = sums[step.from as usize] + added;
        sums[step.to as usize] = sum;
    }
    Ok(sums)
}
