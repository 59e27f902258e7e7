//! Which nodes are joined to the root, and which have to be.

ghost use Rattle.std.specs.Prelude.{◌≡◌, ℕ, ◌<◌, ◌≤◌, length, map, pos, int_lt, IfOk, MatchOption};
ghost use Rattle.std.specs.List.{All};
ghost use Rattle.elmore_tree.specs.Trees.{is_needed};
ghost use Rattle.elmore_tree.specs.Paths.{is_in, resistors_in};
ghost use Rattle.elmore_tree.specs.Gathering.{IsFirstUnreached, IsAllReached, AreMarked};

use crate::part::{Resistor, Tap};
use crate::tree::Tree;
use smallvec::SmallVec;
use std::alloc::{AllocError, Global};

/// A mark for each node of a wire. Most wires have few.
pub type Marks = SmallVec<bool, 32>;

/// How many resistors have their ends at marked nodes; both ends are marked or neither is.
pub fn resistors_in(resistors: &[Resistor], reached: &[bool]) -> usize
    requires { All (λ r. r.a < length reached.now) resistors.now }
    ensures { result ≡ resistors_in reached.now resistors.now }
{
    let mut count = 0;
    for resistor in resistors {
        if reached[resistor.a as usize] {
            count += 1;
        }
    }
    count
}

/// A mark for each node that has capacitance to ground above 0.
fn charged_nodes(alloc: Global, tree: &Tree) -> Result<Marks, AllocError>
    ensures { IfOk result (λ marks. marks.items ≡ map (λ g. int_lt (pos 0) g) tree.now.ground) }
{
    let mut marks = SmallVec::with_capacity(alloc, tree.ground().len())?;
    for ground in tree.ground() {
        marks.push(*ground > 0)?;
    }
    Ok(marks)
}

/// Marks the nodes of sinks.
fn mark_sinks(marks: &mut [bool], sinks: &[u32])
    requires { All (λ p. p < length marks.old) sinks.now }
    ensures { AreMarked (λ p. p) sinks.now marks.old marks.new }
{
    for sink in sinks {
        marks[*sink as usize] = true;
    }
}

/// Marks the nodes of taps.
pub fn mark_taps(marks: &mut [bool], taps: &[Tap])
    requires { All (λ t. t.node < length marks.old) taps.now }
    ensures { AreMarked (λ t. t.node) taps.now marks.old marks.new }
{
    for tap in taps {
        marks[tap.node as usize] = true;
    }
}

/// A mark for each node that has a sink, a tap or capacitance to ground above 0.
pub fn needed_nodes(alloc: Global, tree: &Tree) -> Result<Marks, AllocError>
    ensures count { IfOk result (λ needed. length needed.items ≡ tree.now.nodes) }
    ensures each { IfOk result (λ needed. (k : ℕ) → is_in needed.items k ≡ is_needed tree.now k) }
{
    let mut needed = charged_nodes(alloc, tree)?;
    mark_sinks(&mut needed, tree.sinks());
    mark_taps(&mut needed, tree.taps());
    Ok(needed)
}

/// The least node that is needed and not reached.
pub fn first_unreached(needed: &[bool], reached: &[bool]) -> Option<u32>
    requires few { length needed.now ≤ 65536 }
    requires count { length reached.now ≡ length needed.now }
    ensures { MatchOption result (IsAllReached needed.now reached.now) (IsFirstUnreached needed.now reached.now) }
{
    for node in 0..needed.len() {
        if needed[node] && !reached[node] {
            return Some(node as u32);
        }
    }
    None
}
