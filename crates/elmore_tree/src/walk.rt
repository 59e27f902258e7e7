//! The nodes that resistors join to the root, by a walk that keeps the steps that it has yet to make in a list.
//! Takes time and memory in proportion to the nodes and the resistors, and no recursion.

ghost use Rattle.std.specs.Prelude.{◌≡◌, ◌≢◌, ℕ, ◌+◌, ◌-◌, ◌<◌, ◌≤◌, length, take, List, [], ◌∷◌, ◌++◌, true};
ghost use Rattle.std.specs.Prelude.{false, IfOk, OnOk, if◌then◌else◌, ◌==◌, replicate};
ghost use Rattle.std.specs.List.{slice_set};
ghost use Rattle.elmore_tree.specs.Trees.{TreeParts};
ghost use Rattle.elmore_tree.specs.Paths.{Joins, is_in, is_on};
ghost use Rattle.elmore_tree.specs.Walks.{AreRows, row_of, Touches, IsWalk, IsSpreadAt, IsSpread, IsWalked};
ghost use Rattle.elmore_tree.specs.Walks.{is_visited, node_at};

use crate::part::Resistor;
use crate::tree::Tree;
use smallvec::SmallVec;
use std::alloc::{AllocError, Global};
use std::marker::Model;

/// A step of a walk: from a node by the resistor of this number to another node.
#[derive(Clone, Copy, Debug, PartialEq, Eq, Default)]
pub struct Step {
    pub from: u32,
    pub resistor: usize,
    pub to: u32,
}

/// The numbers of the resistors that have an end at a node. Few nodes have more than three.
#[derive(Drop)]
struct Around {
    numbers: SmallVec<usize, 3>,
}

impl Model for Around {
    ghost use Rattle.std.specs.Prelude.{ℕ, List};

    ghost Value = { List ℕ };

    ghost view = { λ r. r.numbers.items };
}

impl Around {
    fn new(alloc: Global) -> Around
        ensures { result ≡ [] }
    {
        let numbers = SmallVec::new(alloc);
        Around { numbers }
    }

    fn push(&mut self, number: usize) -> Result<(), AllocError>
        ensures { OnOk result (self.new ≡ self.old ++ number ∷ []) }
    {
        self.numbers.push(number)?;
        Ok(())
    }

    fn as_slice(&self) -> &[usize]
        ensures { result.now ≡ self.now }
    {
        self.numbers.as_slice()
    }
}

/// Adds the number of a resistor to those at a node.
fn add_at(rows: &mut Vec<Around>, node: u32, number: usize) -> Result<(), AllocError>
    requires { node < length rows.old.items }
    ensures { OnOk result (rows.new.items ≡ slice_set rows.old.items node (row_of rows.old.items node ++ number ∷ [])) }
{
    let row = &mut rows[node as usize];
    row.push(number)
}

/// The numbers of the resistors at each node.
fn resistors_around(alloc: Global, tree: &Tree) -> Result<Vec<Around>, AllocError>
    ensures { IfOk result (λ rows. AreRows tree.now rows.items) }
{
    let mut rows = Vec::with_capacity(alloc, tree.nodes() as usize)?;
    for node in 0..tree.nodes() {
        rows.push(Around::new(alloc))?;
    }
    for (number, resistor) in tree.resistors().iter().enumerate() {
        add_at(&mut rows, resistor.a, number)?;
        add_at(&mut rows, resistor.b, number)?;
    }
    Ok(rows)
}

/// The end of a resistor across from a node.
fn far_end(resistor: &Resistor, node: u32) -> u32
    ensures { result ≡ (if resistor.now.a == node then resistor.now.b else resistor.now.a) }
{
    if resistor.a == node {
        resistor.b
    } else {
        resistor.a
    }
}

/// How far a walk has come: a mark for each node that is visited or to which a pending step leads, the steps
/// that were made and those that are pending.
#[derive(Drop)]
struct Walk {
    reached: Vec<bool>,
    steps: Vec<Step>,
    pending: SmallVec<Step, 8>,
}

impl Walk {
    fn new(alloc: Global, tree: &Tree) -> Result<Walk, AllocError>
        ensures walk { IfOk result (λ w. IsWalk tree.now w.reached.items w.steps.items w.pending.items) }
        ensures steps { IfOk result (λ w. w.steps.items ≡ []) }
    {
        let nodes = tree.nodes() as usize;
        let mut reached = vec![in alloc; false; nodes]?;
        reached[tree.root() as usize] = true;
        let steps = Vec::with_capacity(alloc, nodes)?;
        let pending = SmallVec::new(alloc);
        Ok(Walk {
            reached,
            steps,
            pending,
        })
    }

    /// Marks the node to which a step leads, and keeps the step to be made, if the node is not marked yet.
    fn reach(&mut self, tree: &Tree, step: Step) -> Result<(), AllocError>
        requires walk { IsWalk tree.now self.old.reached.items self.old.steps.items self.old.pending.items }
        requires joins { Joins tree.now.resistors step.resistor step.from step.to }
        requires there { step.to < tree.now.nodes }
        requires from { is_visited tree.now self.old.steps.items step.from ≡ true }
        requires last { step.from ≡ node_at tree.now self.old.steps.items (length self.old.steps.items) }
        ensures walk { OnOk result
            (IsWalk tree.now self.new.reached.items self.new.steps.items self.new.pending.items) }
        ensures steps { self.new.steps.items ≡ self.old.steps.items }
        ensures keeps { OnOk result
            ((k : ℕ) → is_in self.old.reached.items k ≡ true → is_in self.new.reached.items k ≡ true) }
        ensures marks { OnOk result (is_in self.new.reached.items step.to ≡ true) }
    {
        if !self.reached[step.to as usize] {
            self.pending.push(step)?;
            self.reached[step.to as usize] = true;
        }
        Ok(())
    }

    /// Reaches each node that a resistor joins to a visited one, whose resistors are given.
    fn spread(&mut self, tree: &Tree, node: u32, around: &[usize]) -> Result<(), AllocError>
        requires walk { IsWalk tree.now self.old.reached.items self.old.steps.items self.old.pending.items }
        requires visited { is_visited tree.now self.old.steps.items node ≡ true }
        requires last { node ≡ node_at tree.now self.old.steps.items (length self.old.steps.items) }
        requires touch { (j : ℕ) → is_on around.now j ≡ true → Touches tree.now.resistors j node }
        requires all { (j : ℕ) → Touches tree.now.resistors j node → is_on around.now j ≡ true }
        ensures walk { OnOk result
            (IsWalk tree.now self.new.reached.items self.new.steps.items self.new.pending.items) }
        ensures steps { self.new.steps.items ≡ self.old.steps.items }
        ensures keeps { OnOk result
            ((k : ℕ) → is_in self.old.reached.items k ≡ true → is_in self.new.reached.items k ≡ true) }
        ensures spread { OnOk result (IsSpreadAt tree.now self.new.reached.items node) }
    {
        for number in around {
            let to = far_end(&tree.resistors()[*number], node);
            let step = Step {
                from: node,
                resistor: *number,
                to,
            };
            self.reach(tree, step)?;
        }
        Ok(())
    }
}

/// The nodes that are joined to the root, and the steps of a walk to them.
#[derive(Drop)]
pub struct Walked {
    pub reached: Vec<bool>,
    pub steps: Vec<Step>,
}

/// Walks from the root over all nodes that resistors join to it.
pub fn walk_from_root(alloc: Global, tree: &Tree) -> Result<Walked, AllocError>
    ensures { IfOk result (λ w. IsWalked tree.now w.reached.items w.steps.items) }
{
    let rows = resistors_around(alloc, tree)?;
    let root = tree.root();
    let mut walk = Walk::new(alloc, tree)?;
    walk.spread(tree, root, rows[root as usize].as_slice())?;
    'steps: while let Some(step) = walk.pending.pop() {
        walk.steps.push(step)?;
        walk.spread(tree, step.to, rows[step.to as usize].as_slice())?;
    }
    let Walk { reached, steps, .. } = walk;
    Ok(Walked { reached, steps })
}
