//! The wires of nets as they are kept.

ghost use Rattle.std.specs.Prelude.{◌≡◌, length, IfOk, IfSome};
ghost use Rattle.elmore_tree.specs.Trees.{IsSoundTree};
ghost use Rattle.elmore_tree.specs.Forms.{IsFormOf, IsAcceptedTree};
ghost use Rattle.link_wires.specs.Plain.{plain_wire};

use crate::wire::NetWire;
use elmore_tree::{Tree, WireForm, coefficients};
use std::alloc::{AllocError, Global};
use std::marker::Model;
use xt_model::{Coupling, Row};

/// A wire, which contracts see as a `NetWire`. Where all its nodes are one and it has no coupling, as for a net without
/// parasitics, its load in aF and the number of its sinks tell all of it, and it takes no memory of its own.
#[derive(Debug, Drop)]
pub struct KeptWire {
    load: i64,
    sinks: usize,
    wire: Option<Box<NetWire>>,
}

impl Model for KeptWire {
    ghost use Rattle.std.specs.Option.{option_map_or};
    ghost use Rattle.elmore_tree.specs.Trees.{IsSoundTree};
    ghost use Rattle.link_wires.specs.declared.wire.NetWire.{NetWire};
    ghost use Rattle.link_wires.specs.Plain.{plain_wire};

    ghost Value = { NetWire };

    ghost view = { λ k. option_map_or (λ b. b.value) k.wire (plain_wire k.load k.sinks) };

    ghost invariant = { λ k. IsSoundTree (plain_wire k.load k.sinks).tree };
}

/// The load and the number of sinks of a wire that these two tell.
fn plain_parts(wire: &NetWire) -> Option<(i64, usize)>
    ensures value { IfSome result (λ p. wire.now ≡ plain_wire p.0 p.1) }
    ensures sound { IfSome result (λ p. IsSoundTree (plain_wire p.0 p.1).tree) }
{
    let tree = &wire.tree;
    if wire.couplings.len() > 0 || !tree.resistors().is_empty() || !tree.taps().is_empty() {
        return None;
    }
    match tree.ground() {
        [load] => Some((*load, tree.sinks().len())),
        _ => None,
    }
}

/// The tree of one node with this capacitance to ground in aF and this number of sinks.
fn plain_tree(alloc: Global, load: i64, sinks: usize) -> Result<Tree, AllocError>
    requires { IsSoundTree (plain_wire load sinks).tree }
    ensures { IfOk result (λ t. t ≡ (plain_wire load sinks).tree) }
{
    let ground = vec![in alloc; load; 1]?;
    let nodes = vec![in alloc; 0; sinks]?;
    Ok(Tree::new(1, 0, Vec::new(alloc), ground, Vec::new(alloc), nodes))
}

impl KeptWire {
    /// Keeps a wire. Takes memory where its nodes are not all one or it has a coupling.
    pub fn new(alloc: Global, wire: NetWire) -> Result<KeptWire, AllocError>
        ensures { IfOk result (λ k. k ≡ wire) }
    {
        if let Some((load, sinks)) = plain_parts(&wire) {
            return Ok(KeptWire {
                load,
                sinks,
                wire: None,
            });
        }
        let wire = Box::new(alloc, wire)?;
        Ok(KeptWire {
            load: 0,
            sinks: 0,
            wire: Some(wire),
        })
    }

    /// How many couplings the net has.
    pub fn coupling_count(&self) -> usize
        ensures { result ≡ length self.now.couplings }
    {
        match &self.wire {
            Some(wire) => wire.couplings.len(),
            None => 0,
        }
    }

    /// The couplings of a wire that is not needed any more.
    pub fn into_couplings(self, alloc: Global) -> Row<Coupling>
        ensures { result ≡ self.couplings }
    {
        match self.wire {
            Some(wire) => {
                let NetWire { couplings, tree: _ } = Box::into_inner(wire);
                couplings
            }
            None => Row::from_vec(Vec::new(alloc)),
        }
    }
}

/// The Elmore form of a tree that reaches all.
fn tree_form(alloc: Global, tree: &Tree) -> Result<WireForm, AllocError>
    requires { IsAcceptedTree tree.now }
    ensures { IfOk result (IsFormOf tree.now) }
{
    match coefficients(alloc, tree) {
        Ok(form) => Ok(form),
        Err(_) => Err(AllocError),
    }
}

/// The Elmore form of a wire that is a tree which reaches all.
pub fn form(alloc: Global, wire: &KeptWire) -> Result<WireForm, AllocError>
    requires { IsAcceptedTree wire.now.tree }
    ensures { IfOk result (IsFormOf wire.now.tree) }
{
    match &wire.wire {
        Some(kept) => tree_form(alloc, &kept.tree),
        None => {
            let tree = plain_tree(alloc, wire.load, wire.sinks)?;
            tree_form(alloc, &tree)
        }
    }
}
