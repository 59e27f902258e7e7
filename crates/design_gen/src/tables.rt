//! The look-up tables of a generated design.

ghost use Rattle.std.specs.Prelude.{◌≡◌, [], ◌∷◌, IfOk};
ghost use Rattle.xt_model.specs.Tables.{IsTable};
ghost use Rattle.design_gen.specs.Generated.{table_of, delays, slews};

use std::alloc::{AllocError, Global};
use xt_model::{Row, Table};

const SLEWS: [i64; 3] = [0, 50_000, 200_000];

const LOADS: [i64; 3] = [0, 5_000, 50_000];

const DELAY_VALUES: [i64; 9] = [
    5_000, 15_000, 105_000, 8_000, 18_000, 108_000, 20_000, 30_000, 120_000,
];

const SLEW_VALUES: [i64; 9] = [
    4_000, 14_000, 104_000, 6_000, 16_000, 106_000, 14_000, 24_000, 114_000,
];

fn row(alloc: Global, numbers: &[i64]) -> Result<Row<i64>, AllocError>
    ensures { IfOk result (λ row. row ≡ numbers.now) }
{
    Ok(Row::from_vec(Vec::from_slice(alloc, numbers)?))
}

/// The table of these values over the slews and loads that both tables have.
fn table_of(alloc: Global, values: &[i64]) -> Result<Table, AllocError>
    requires { IsTable (table_of values.now) }
    ensures { IfOk result (λ table. table ≡ table_of values.now) }
{
    Ok(Table::new(
        row(alloc, &SLEWS)?,
        row(alloc, &LOADS)?,
        row(alloc, values)?,
    ))
}

/// The table of delays, and that of slews.
pub(crate) fn tables(alloc: Global) -> Result<Vec<Table>, AllocError>
    ensures { IfOk result (λ tables. tables.items ≡ delays ∷ slews ∷ []) }
{
    let mut tables = Vec::new(alloc);
    tables.push(table_of(alloc, &DELAY_VALUES)?)?;
    tables.push(table_of(alloc, &SLEW_VALUES)?)?;
    Ok(tables)
}
