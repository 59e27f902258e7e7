//! Tables once more.

ghost use Rattle.std.specs.Prelude.{◌≡◌, IfOk};
ghost use Rattle.std.specs.List.{All};
ghost use Rattle.xt_model.specs.Tables.{IsTable};

use liberty_cells::Library;
use std::alloc::{AllocError, Global};
use xt_model::{Row, Table};

/// Numbers once more.
fn copied_row(alloc: Global, numbers: &[i64]) -> Result<Row<i64>, AllocError>
    ensures { IfOk result (λ r. r ≡ numbers.now) }
{
    let numbers = Vec::from_slice(alloc, numbers)?;
    Ok(Row::from_vec(numbers))
}

/// A table once more.
fn copied_table(alloc: Global, table: &Table) -> Result<Table, AllocError>
    ensures value { IfOk result (λ t. t ≡ table.now) }
    ensures sound { IfOk result IsTable }
{
    let slews = copied_row(alloc, table.slews())?;
    let loads = copied_row(alloc, table.loads())?;
    let values = copied_row(alloc, table.values())?;
    Ok(Table::new(slews, loads, values))
}

/// The tables of a library once more.
pub fn copied_tables(alloc: Global, library: &Library) -> Result<Row<Table>, AllocError>
    ensures value { IfOk result (λ ts. ts ≡ library.now.tables) }
    ensures sound { IfOk result (All IsTable) }
{
    let mut tables = Vec::new(alloc);
    for table in library.tables.as_slice() {
        tables.push(copied_table(alloc, table)?)?;
    }
    Ok(Row::from_vec(tables))
}
