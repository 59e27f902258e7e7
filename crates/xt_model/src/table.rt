use crate::row::Row;
use std::marker::Model;

/// A look-up table of a cell: delays or slews in fs over input slews in fs and loads in aF. The values
/// are row by row, one row per slew.
#[derive(Debug, Drop)]
pub struct Table {
    slews: Row<i64>,
    loads: Row<i64>,
    values: Row<i64>,
}

impl Model for Table {
    ghost use Rattle.xt_model.specs.Tables.{TableParts, IsTable};

    ghost Value = { TableParts };

    ghost view = { λ t. record { slews = t.slews; loads = t.loads; values = t.values } };

    ghost invariant = { λ t. IsTable (record { slews = t.slews; loads = t.loads; values = t.values }) };
}

impl Table {
    ghost use Rattle.std.specs.Prelude.{◌≡◌};
    ghost use Rattle.xt_model.specs.Tables.{TableParts, IsTable};

    /// The table of 1 to 64 rising slews and loads, and a value for each of both.
    pub fn new(slews: Row<i64>, loads: Row<i64>, values: Row<i64>) -> Table
        requires { IsTable (record { slews = slews; loads = loads; values = values }) }
        ensures { result ≡ record { slews = slews; loads = loads; values = values } }
    {
        Table {
            slews,
            loads,
            values,
        }
    }

    /// The slews of the rows, in rising order.
    pub fn slews(&self) -> &[i64]
        ensures value { result.now ≡ self.now.slews }
        ensures sound { IsTable self.now }
    {
        self.slews.as_slice()
    }

    /// The loads of the columns, in rising order.
    pub fn loads(&self) -> &[i64]
        ensures value { result.now ≡ self.now.loads }
        ensures sound { IsTable self.now }
    {
        self.loads.as_slice()
    }

    /// The values, row by row.
    pub fn values(&self) -> &[i64]
        ensures value { result.now ≡ self.now.values }
        ensures sound { IsTable self.now }
    {
        self.values.as_slice()
    }
}
