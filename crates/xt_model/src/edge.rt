ghost use Rattle.std.specs.Prelude.{◌≡◌};
ghost use Rattle.xt_model.specs.Quads.{other_edge};

/// The direction of a transition.
#[derive(Clone, Copy, Debug, PartialEq, Eq)]
pub enum Edge {
    Rise,
    Fall,
}

impl Edge {
    /// The opposite direction.
    pub fn other(self) -> Edge
        ensures { result ≡ other_edge self }
    {
        match self {
            Edge::Rise => Edge::Fall,
            Edge::Fall => Edge::Rise,
        }
    }
}
