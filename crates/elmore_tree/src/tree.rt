use crate::part::{Resistor, Tap};
use std::marker::Model;
use xt_model::Row;

/// A wire as an extraction gives it: nodes, numbered from 0, resistors between them, the capacitance to ground
/// of each node, taps for coupling capacitors, and the nodes of the sinks. The root is the driver's node.
/// Whether the resistors make a tree is not yet known.
#[derive(Debug, Drop)]
pub struct Tree {
    nodes: u32,
    root: u32,
    resistors: Row<Resistor>,
    ground: Row<i64>,
    taps: Row<Tap>,
    sinks: Row<u32>,
}

impl Model for Tree {
    ghost use Rattle.elmore_tree.specs.Trees.{TreeParts, IsSoundTree};

    ghost Value = { TreeParts };

    ghost view = { λ t. record {
      nodes = t.nodes;
      root = t.root;
      resistors = t.resistors;
      ground = t.ground;
      taps = t.taps;
      sinks = t.sinks;
    } };

    ghost invariant = { λ t. IsSoundTree (record {
      nodes = t.nodes;
      root = t.root;
      resistors = t.resistors;
      ground = t.ground;
      taps = t.taps;
      sinks = t.sinks;
    }) };
}

impl Tree {
    ghost use Rattle.std.specs.Prelude.{◌≡◌};
    ghost use Rattle.elmore_tree.specs.Trees.{TreeParts, IsSoundTree};

    /// The wire of 1 to 65,536 nodes with these parts. Resistances are in milliohms and tap capacitances in aF,
    /// from 0 to 2^40; capacitances to ground, one per node, are in aF and 0 or more, and all of them with twice
    /// the taps at most 2^46.
    pub fn new(
        nodes: u32,
        root: u32,
        resistors: Vec<Resistor>,
        ground: Vec<i64>,
        taps: Vec<Tap>,
        sinks: Vec<u32>,
    ) -> Tree
        requires { IsSoundTree (record {
          nodes = nodes;
          root = root;
          resistors = resistors.items;
          ground = ground.items;
          taps = taps.items;
          sinks = sinks.items;
        }) }
        ensures { result ≡ record {
          nodes = nodes;
          root = root;
          resistors = resistors.items;
          ground = ground.items;
          taps = taps.items;
          sinks = sinks.items;
        } }
    {
        Tree {
            nodes,
            root,
            resistors: Row::from_vec(resistors),
            ground: Row::from_vec(ground),
            taps: Row::from_vec(taps),
            sinks: Row::from_vec(sinks),
        }
    }

    /// How many nodes there are.
    pub fn nodes(&self) -> u32
        ensures value { result ≡ self.now.nodes }
        ensures sound { IsSoundTree self.now }
    {
        self.nodes
    }

    /// The driver's node.
    pub fn root(&self) -> u32
        ensures value { result ≡ self.now.root }
        ensures sound { IsSoundTree self.now }
    {
        self.root
    }

    /// The resistors.
    pub fn resistors(&self) -> &[Resistor]
        ensures value { result.now ≡ self.now.resistors }
        ensures sound { IsSoundTree self.now }
    {
        self.resistors.as_slice()
    }

    /// The capacitance to ground of each node, in aF.
    pub fn ground(&self) -> &[i64]
        ensures value { result.now ≡ self.now.ground }
        ensures sound { IsSoundTree self.now }
    {
        self.ground.as_slice()
    }

    /// The taps.
    pub fn taps(&self) -> &[Tap]
        ensures value { result.now ≡ self.now.taps }
        ensures sound { IsSoundTree self.now }
    {
        self.taps.as_slice()
    }

    /// The node of each sink.
    pub fn sinks(&self) -> &[u32]
        ensures value { result.now ≡ self.now.sinks }
        ensures sound { IsSoundTree self.now }
    {
        self.sinks.as_slice()
    }
}
