use crate::row::Row;
use std::marker::Model;

/// The level of each net and the nets in order of level, as a design keeps them: what stays of it where its arcs stay.
#[derive(Debug, Drop)]
pub struct NetOrder {
    levels: Row<u32>,
    order: Row<u32>,
    depth: u32,
}

impl Model for NetOrder {
    ghost use Rattle.std.specs.Prelude.{ℕ, List};
    ghost use Rattle.xt_model.specs.Build.{HasOrder};

    ghost Value = { List ℕ };

    ghost view = { λ o. o.levels };

    ghost invariant = { λ o. HasOrder o.levels o.order o.depth };
}

impl NetOrder {
    ghost use Rattle.std.specs.Prelude.{◌≡◌};
    ghost use Rattle.xt_model.specs.Build.{HasOrder};

    /// Levels with the order and the greatest level that they make.
    pub(crate) fn new(levels: Row<u32>, order: Row<u32>, depth: u32) -> NetOrder
        requires { HasOrder levels order depth }
        ensures { result ≡ levels }
    {
        NetOrder {
            levels,
            order,
            depth,
        }
    }

    /// The levels, the order and the greatest level.
    pub(crate) fn into_rows(self) -> (Row<u32>, Row<u32>, u32)
        ensures levels { result.0 ≡ self }
        ensures order { HasOrder result.0 result.1 result.2 }
    {
        (self.levels, self.order, self.depth)
    }
}
