//! Work on the nets of a design by several threads, each of which has a share of them.

ghost use Rattle.std.specs.Prelude.{◌≡◌, ◌++◌, ◌<◌, ◌≤◌, List, IfOk};

use std::alloc::{AllocError, Global};
use std::mem;
use std::thread::{Threads, for_each_mut};
use xt_model::{Design, DesignParts, Net, Row};

/// How many of a count of nets are in this many shares, of `shares` in all.
pub(crate) fn part(count: u32, some: u32, shares: u32) -> u32
    requires some { some ≤ shares }
    requires shares { 0 < shares }
    ensures { result ≤ count }
{
    count / shares * some
}

/// The items of two shares, in order, where both were made.
pub(crate) fn joined<T: Drop>(
    left: Result<Vec<T>, AllocError>,
    right: Result<Vec<T>, AllocError>,
) -> Result<Vec<T>, AllocError>
    ensures { (xs ys : List T) → IfOk left (λ l. l.items ≡ xs) → IfOk right (λ r. r.items ≡ ys) →
        IfOk result (λ all. all.items ≡ xs ++ ys) }
{
    let mut all = left?;
    let mut rest = right?;
    all.append(&mut rest)?;
    Ok(all)
}

/// Gives back the memory that the rows of a net take.
fn empty(alloc: Global, net: &mut Net) {
    net.couplings = Row::from_vec(Vec::new(alloc));
    net.sinks = Row::from_vec(Vec::new(alloc));
    net.arcs = Row::from_vec(Vec::new(alloc));
}

/// Drops a design. The memory of its nets is given back by this many threads, each a share of them.
pub fn drop_design<R: Threads + Sync>(rt: &R, alloc: Global, design: Design, workers: u32) {
    let (parts, order, _) = design.into_parts();
    // The allocator joins all small blocks that are free when it is given a large one back: so there are none yet.
    mem::drop(order);
    let DesignParts { nets, .. } = parts;
    let mut nets = nets.into_vec();
    if 1 < workers {
        for_each_mut(rt, &mut nets, workers as usize, &|_, net| empty(alloc, net));
    }
}
