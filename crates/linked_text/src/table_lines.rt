//! The lines of the tables.

ghost use Rattle.std.specs.Prelude.{◌≡◌, codes};
ghost use Rattle.linked_text.specs.EachLine.{fields_after, index_in, row_in, sizes_in};
ghost use Rattle.linked_text.specs.Fields.{Finds, fields_of, in_table};
ghost use Rattle.linked_text.specs.Gives.{LineGives};

use crate::fault::{HOLDS, LineStop, NUMBERS, WORDS};
use crate::field::{is_rising, quantity, size};
use crate::line::{Fields, three};
use crate::read_line::{FieldReader, LineReader, each_field};
use std::alloc::Global;
use xt_model::Row;
use xt_model::limits::MOST_IN_TABLE;

/// Reads how many rows and columns a table has.
pub struct SizesReader;

impl LineReader for SizesReader {
    type Value = (u32, u32);

    ghost of = { λ _ line. sizes_in line };

    #[tactic(auto, unfolding(crate::specs::EachLine::sizes_in))]
    fn read(&self, _alloc: Global, line: &[u8]) -> Result<(u32, u32), LineStop> {
        let Some((word, rows, columns)) = three(line) else {
            return Err(WORDS);
        };
        if word != b"table".as_slice() {
            return Err(WORDS);
        }
        let Some(rows) = size(rows) else {
            return Err(NUMBERS);
        };
        let Some(columns) = size(columns) else {
            return Err(NUMBERS);
        };
        Ok((rows, columns))
    }
}

/// Reads a number of a table.
struct NumberReader;

impl FieldReader for NumberReader {
    type Value = i64;

    ghost of = { λ _ f. in_table f };

    fn read(&self, field: &[u8]) -> Option<i64> {
        quantity(-MOST_IN_TABLE, MOST_IN_TABLE, field)
    }
}

/// The fields after `word`, which are to be `count`.
fn fields_after<'a>(word: &[u8], count: usize, line: &'a [u8]) -> Option<Fields<'a>>
    ensures { Finds (λ x. x) result (fields_after word.now count (fields_of line.entry.now)) }
{
    let mut fields = Fields::new(line);
    let first = fields.next_field()?;
    if first != word || fields.len() != count {
        return None;
    }
    Some(fields)
}

/// The `count` numbers of a table after `word`.
#[tactic(auto, unfolding(crate::specs::EachLine::row_in))]
pub fn row(alloc: Global, word: &[u8], count: u32, line: &[u8]) -> Result<Vec<i64>, LineStop>
    ensures { LineGives (λ v. v.items) result (row_in word.now count (fields_of line.now)) }
{
    let Some(fields) = fields_after(word, count as usize, line) else {
        return Err(WORDS);
    };
    each_field(alloc, &NumberReader, count, fields)
}

/// Reads a row of this number of values.
#[derive(Drop)]
pub struct RowReader {
    pub columns: u32,
}

impl LineReader for RowReader {
    type Value = Row<i64>;

    ghost of = { λ r line. row_in (codes "row") r.columns line };

    fn read(&self, alloc: Global, line: &[u8]) -> Result<Row<i64>, LineStop> {
        let values = row(alloc, b"row", self.columns, line)?;
        Ok(Row::from_vec(values))
    }
}

/// The slews of the rows, or the loads of the columns.
#[tactic(auto, unfolding(crate::specs::EachLine::index_in))]
fn index(alloc: Global, word: &[u8], count: u32, line: &[u8]) -> Result<Row<i64>, LineStop>
    ensures { LineGives (λ x. x) result (index_in word.now count (fields_of line.now)) }
{
    let numbers = row(alloc, word, count, line)?;
    if !is_rising(numbers.as_slice()) {
        return Err(HOLDS);
    }
    Ok(Row::from_vec(numbers))
}

/// Reads the slews of this number of rows.
#[derive(Drop)]
pub struct SlewsReader {
    pub rows: u32,
}

impl LineReader for SlewsReader {
    type Value = Row<i64>;

    ghost of = { λ r line. index_in (codes "slews") r.rows line };

    fn read(&self, alloc: Global, line: &[u8]) -> Result<Row<i64>, LineStop> {
        index(alloc, b"slews", self.rows, line)
    }
}

/// Reads the loads of this number of columns.
#[derive(Drop)]
pub struct LoadsReader {
    pub columns: u32,
}

impl LineReader for LoadsReader {
    type Value = Row<i64>;

    ghost of = { λ r line. index_in (codes "loads") r.columns line };

    fn read(&self, alloc: Global, line: &[u8]) -> Result<Row<i64>, LineStop> {
        index(alloc, b"loads", self.columns, line)
    }
}
