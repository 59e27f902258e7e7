//! The Elmore form of a wire whose resistors make a tree.

ghost use Rattle.std.specs.Prelude.{◌≡◌, ℕ, suc, ◌+◌, ◌*◌, ◌<◌, ◌≤◌, ◌^◌, true, ℤ, pos, ◌≤ℤ◌, length, map, IfOk};
ghost use Rattle.std.specs.Prelude.{IfErr, OnOk, slice_index};
ghost use Rattle.std.specs.Int.RustNames.{unsigned_abs};
ghost use Rattle.std.specs.List.{All};
ghost use Rattle.elmore_tree.specs.Trees.{IsSoundTree, ground_sum, is_needed};
ghost use Rattle.elmore_tree.specs.Sums.{base_of, sink_sums};
ghost use Rattle.elmore_tree.specs.Walks.{is_visited, path_of};
ghost use Rattle.elmore_tree.specs.Orders.{IsPreorderWalk, IsTapOrder, IsRowOf};
ghost use Rattle.elmore_tree.specs.Gathering.{IsTreeWalk, elmore_sum};
ghost use Rattle.elmore_tree.specs.Forms.{IsFormOf, IsAcceptedTree, IsFaultOf};

use crate::fault::TreeFault;
use crate::form::{SinkForm, WireForm};
use crate::order::TapOrder;
use crate::reached::{first_unreached, needed_nodes, resistors_in};
use crate::sums::elmore_sums;
use crate::tree::Tree;
use crate::walk::{Step, Walked, walk_from_root};
use smallvec::SmallVec;
use std::alloc::{AllocError, Global};
use xt_model::Row;

/// The load of a wire to ground, in aF.
fn load(tree: &Tree) -> i64
    ensures { result ≡ pos (ground_sum tree.now.ground) }
{
    let mut load: u64 = 0;
    for ground in tree.ground() {
        load += ground.unsigned_abs();
    }
    load as i64
}

/// The capacitance to ground of each node, in aF.
fn grounds(alloc: Global, tree: &Tree) -> Result<Vec<u64>, AllocError>
    ensures { IfOk result (λ caps. caps.items ≡ map unsigned_abs tree.now.ground) }
{
    let mut caps = Vec::with_capacity(alloc, tree.ground().len())?;
    for ground in tree.ground() {
        caps.push(ground.unsigned_abs())?;
    }
    Ok(caps)
}

/// A common resistance in milliohms times a capacitance in aF.
fn coefficient(shared: u64, cap: i64) -> i128
    requires shared { shared ≤ 2 ^ 56 }
    requires least { pos 0 ≤ℤ cap }
    requires most { cap ≤ℤ pos (2 ^ 40) }
    ensures { result ≡ pos (shared * unsigned_abs cap) }
{
    (u128::from(shared) * u128::from(cap.unsigned_abs())) as i128
}

/// The sums of a sink, whose base is given, and the resistances that its path has in common with those to the taps.
fn sink_form(
    alloc: Global,
    tree: &Tree,
    steps: &[Step],
    order: &TapOrder,
    row: &[u64],
    base: u128,
    sink: u32,
) -> Result<SinkForm, AllocError>
    requires walk { IsPreorderWalk tree.now steps.now }
    requires made { IsTapOrder tree.now steps.now order.now }
    requires row { IsRowOf tree.now steps.now order.now sink row.now }
    requires base { base ≡ base_of tree.now (path_of steps.now) sink }
    requires reached { (k : ℕ) → is_needed tree.now k ≡ true → is_visited tree.now steps.now k ≡ true }
    ensures { IfOk result (λ form. form ≡ sink_sums tree.now (path_of steps.now) sink) }
{
    let mut coefs = Vec::with_capacity(alloc, tree.taps().len())?;
    for tap in tree.taps() {
        let place = order.place(tap.node);
        let common = row[place];
        coefs.push(coefficient(common, tap.cap))?;
    }
    Ok(SinkForm::new(base as i128, coefs))
}

/// The sums of each sink, from the sums at all nodes and the order of the taps. The row has a place for each node that
/// is reached.
fn forms_by(
    alloc: Global,
    tree: &Tree,
    sinks: &[u32],
    steps: &[Step],
    bases: &[u128],
    order: &TapOrder,
    row: &mut [u64],
) -> Result<Vec<SinkForm>, AllocError>
    requires sound { IsSoundTree tree.now }
    requires sinks { sinks.now ≡ tree.now.sinks }
    requires walk { IsPreorderWalk tree.now steps.now }
    requires count { length bases.now ≡ tree.now.nodes }
    requires bases { (k : ℕ) → is_visited tree.now steps.now k ≡ true
        → slice_index bases.now k ≡ elmore_sum tree.now steps.now (map unsigned_abs tree.now.ground) k }
    requires made { IsTapOrder tree.now steps.now order.now }
    requires row { length row.old ≡ suc (length steps.now) }
    requires reached { (k : ℕ) → is_needed tree.now k ≡ true → is_visited tree.now steps.now k ≡ true }
    ensures { IfOk result (λ forms. forms.items ≡ map (sink_sums tree.now (path_of steps.now)) tree.now.sinks) }
{
    let mut forms = Vec::with_capacity(alloc, sinks.len())?;
    for sink in sinks {
        order.fill(tree, steps, *sink, row);
        let base = bases[*sink as usize];
        let form = sink_form(alloc, tree, steps, order, row, base, *sink)?;
        forms.push(form)?;
    }
    Ok(forms)
}

/// The sums of each sink.
fn sink_forms(alloc: Global, tree: &Tree, steps: &[Step]) -> Result<Vec<SinkForm>, AllocError>
    requires walk { IsPreorderWalk tree.now steps.now }
    requires reached { (k : ℕ) → is_needed tree.now k ≡ true → is_visited tree.now steps.now k ≡ true }
    ensures { IfOk result (λ forms. forms.items ≡ map (sink_sums tree.now (path_of steps.now)) tree.now.sinks) }
{
    let sinks = tree.sinks();
    let caps = grounds(alloc, tree)?;
    let bases = elmore_sums(alloc, tree, steps, caps)?;
    let order = TapOrder::new(alloc, tree, steps)?;
    let mut row: SmallVec<u64, 32> = SmallVec::from_elem(alloc, 0, steps.len() + 1)?;
    forms_by(alloc, tree, sinks, steps, &bases, &order, &mut row)
}

/// The steps of a walk over a tree that reaches all that hangs at it, or why the wire is no such tree.
fn tree_steps(alloc: Global, tree: &Tree) -> Result<Vec<Step>, TreeFault>
    ensures ok { IfOk result (λ steps. IsTreeWalk tree.now steps.items) }
    ensures fault { IfErr result (IsFaultOf tree.now) }
{
    let walked = walk_from_root(alloc, tree)?;
    if resistors_in(tree.resistors(), &walked.reached) > walked.steps.len() {
        return Err(TreeFault::NotTree);
    }
    let needed = needed_nodes(alloc, tree)?;
    if let Some(node) = first_unreached(&needed, &walked.reached) {
        return Err(TreeFault::NotReached(node));
    }
    let Walked { steps, .. } = walked;
    Ok(steps)
}

/// Tests whether a wire is a tree that reaches all that hangs at it, with the faults of `coefficients`. Takes time and
/// memory in proportion to the nodes, the resistors, the sinks and the taps.
pub fn check(alloc: Global, tree: &Tree) -> Result<(), TreeFault>
    ensures ok { OnOk result (IsAcceptedTree tree.now) }
    ensures fault { IfErr result (IsFaultOf tree.now) }
{
    tree_steps(alloc, tree)?;
    Ok(())
}

/// The Elmore form of a wire: its load, and for each sink a base and a coefficient for each tap, as sums of the
/// resistance common to two paths from the root times a capacitance (Elmore 1948). `NotTree` where the part
/// joined to the root has at least as many resistors as nodes; else `NotReached` with the least node outside
/// that part that has a sink, a tap or capacitance to ground. Takes time in proportion to the parts of the wire and
/// to the sinks times the taps; beside the answer, memory in proportion to the nodes and the resistors.
pub fn coefficients(alloc: Global, tree: &Tree) -> Result<WireForm, TreeFault>
    ensures ok { IfOk result (λ form. IsFormOf tree.now form) }
    ensures fault { IfErr result (IsFaultOf tree.now) }
{
    let steps = tree_steps(alloc, tree)?;
    let sinks = sink_forms(alloc, tree, &steps)?;
    Ok(WireForm {
        load: load(tree),
        sinks: Row::from_vec(sinks),
    })
}
