//! The tables.

ghost use Rattle.std.specs.Prelude.{◌≡◌};
ghost use Rattle.linked_text.specs.Gives.{Gives};
ghost use Rattle.linked_text.specs.Meaning.{rows_at, table_at};

use crate::fault::Stop;
use crate::read_line::{FrontReader, read_line};
use crate::table_lines::{LoadsReader, RowReader, SizesReader, SlewsReader};
use std::alloc::Global;
use xt_model::{Row, Table};

/// The values of `count` rows, one after another.
fn rows(alloc: Global, count: u32, columns: u32, bytes: &[u8]) -> Result<(Vec<i64>, &[u8]), Stop>
    ensures { Gives (λ x. (x.0.items, x.1.now)) result (rows_at count columns bytes.now) }
{
    let reader = RowReader { columns };
    let mut values = Vec::new(alloc);
    let mut rest = bytes;
    for _ in 0..count {
        let (row, after) = read_line(alloc, &reader, rest)?;
        values.extend_from_slice(row.as_slice())?;
        rest = after;
    }
    values.shrink_to_fit();
    Ok((values, rest))
}

/// Reads a table.
pub struct TableReader;

impl FrontReader for TableReader {
    type Value = Table;

    ghost at = { λ _. table_at };

    #[tactic(auto, unfolding(crate::specs::Meaning::table_at))]
    fn read_front<'a>(&self, alloc: Global, bytes: &'a [u8]) -> Result<(Table, &'a [u8]), Stop> {
        let ((row_count, column_count), rest) = read_line(alloc, &SizesReader, bytes)?;
        let slews_reader = SlewsReader { rows: row_count };
        let (slews, rest) = read_line(alloc, &slews_reader, rest)?;
        let loads_reader = LoadsReader {
            columns: column_count,
        };
        let (loads, rest) = read_line(alloc, &loads_reader, rest)?;
        let (values, rest) = rows(alloc, row_count, column_count, rest)?;
        let table = Table::new(slews, loads, Row::from_vec(values));
        Ok((table, rest))
    }
}
