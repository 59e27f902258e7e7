use crate::edge::Edge;
use crate::quad::{Pair, Quad};
use std::alloc::{AllocError, Global};
use std::marker::Model;

/// What is given for the two edges of a net, which contracts see as a pair of windows. Most nets have arcs and
/// are given nothing: then both edges are quiet, and the pair takes no memory of its own.
#[derive(Debug, Drop)]
pub struct GivenPair {
    pair: Option<Box<Pair>>,
}

impl Model for GivenPair {
    ghost use Rattle.std.specs.Option.{option_map_or};
    ghost use Rattle.xt_model.specs.declared.quad.Pair.{Pair};
    ghost use Rattle.xt_model.specs.Quads.{bottom};

    ghost Value = { Pair };

    ghost view = { λ g. option_map_or (λ b. b.value) g.pair (record { rise = bottom; fall = bottom }) };
}

impl GivenPair {
    ghost use Rattle.std.specs.Prelude.{◌≡◌, IfOk};
    ghost use Rattle.xt_model.specs.Quads.{bottom, quad_at};

    /// Nothing is given: neither edge switches. Takes no memory.
    pub fn quiet() -> GivenPair
        ensures { result ≡ record { rise = bottom; fall = bottom } }
    {
        GivenPair { pair: None }
    }

    /// These windows are given. Takes memory unless both are `Quad::BOTTOM`.
    pub fn new(alloc: Global, pair: Pair) -> Result<GivenPair, AllocError>
        ensures { IfOk result (λ g. g ≡ pair) }
    {
        if pair.rise.same(&Quad::BOTTOM) && pair.fall.same(&Quad::BOTTOM) {
            return Ok(GivenPair::quiet());
        }
        let pair = Box::new(alloc, pair)?;
        Ok(GivenPair { pair: Some(pair) })
    }

    /// Both windows.
    pub fn pair(&self) -> Pair
        ensures { result ≡ self.now }
    {
        match &self.pair {
            Some(pair) => **pair,
            None => Pair {
                rise: Quad::bottom(),
                fall: Quad::bottom(),
            },
        }
    }

    /// The window of one of the edges.
    pub fn at(&self, edge: Edge) -> Quad
        ensures { result ≡ quad_at self.now edge }
    {
        match &self.pair {
            Some(pair) => pair.at(edge),
            None => Quad::bottom(),
        }
    }
}
