//! Ranges of values over parts of a table in which the numbers rise along both axes.

ghost use Rattle.std.specs.Prelude.{◌+◌, ◌<◌, ◌≤ℤ◌, length, IsTrue, IfSome};
ghost use Rattle.xt_model.specs.Tables.{IsTable};
ghost use Rattle.table_box.specs.Stretches.{IsStretch, box_of};
ghost use Rattle.table_box.specs.Rises.{DoAllRise, DoesRowRise, IsNextHigher};
ghost use Rattle.table_box.specs.Ranges.{IsRange};

use crate::stretch::Stretch;
use crate::values::{number_at, value_at};
use xt_model::Table;

/// Whether a number is no greater than another.
fn is_at_most(a: i64, b: i64) -> bool
    ensures { IsTrue result → a ≤ℤ b }
{
    a <= b
}

/// Whether no number of a row is greater than the next, from one column to another.
fn does_row_rise(table: &Table, row: usize, first: usize, last: usize) -> bool
    requires row { row < length table.now.slews }
    requires last { last < length table.now.loads }
    ensures { IsTrue result → DoesRowRise table.now row first last }
{
    for column in first..last {
        if !is_at_most(
            number_at(table, row, column),
            number_at(table, row, column + 1),
        ) {
            return false;
        }
    }
    true
}

/// Whether no number of a row is greater than that of the next row, from one column to another.
fn is_next_higher(table: &Table, row: usize, first: usize, last: usize) -> bool
    requires table { IsTable table.now }
    requires row { row + 1 < length table.now.slews }
    requires last { last < length table.now.loads }
    ensures { IsTrue result → IsNextHigher table.now row first last }
{
    for column in first..last + 1 {
        if !is_at_most(
            number_at(table, row, column),
            number_at(table, row + 1, column),
        ) {
            return false;
        }
    }
    true
}

/// Whether the numbers of a table rise along both axes, from one row and column to others.
pub(crate) fn do_all_rise(
    table: &Table,
    first_row: usize,
    last_row: usize,
    first: usize,
    last: usize,
) -> bool
    requires table { IsTable table.now }
    requires rows { last_row < length table.now.slews }
    requires columns { last < length table.now.loads }
    ensures { IsTrue result → DoAllRise table.now first_row last_row first last }
{
    for row in first_row..last_row {
        if !does_row_rise(table, row, first, last) {
            return false;
        }
        if !is_next_higher(table, row, first, last) {
            return false;
        }
    }
    does_row_rise(table, last_row, first, last)
}

/// The least and the greatest value over several slews and several loads, where the numbers of their cells rise along
/// both axes: those at the least and at the greatest slew and load.
pub(crate) fn corner_range(table: &Table, slews: &Stretch, loads: &Stretch) -> Option<(i64, i64)>
    requires table { IsTable table.now }
    requires slews { IsStretch table.now.slews slews.now }
    requires loads { IsStretch table.now.loads loads.now }
    ensures { IfSome result (λ range. IsRange table.now (box_of slews.now loads.now) range) }
{
    if !do_all_rise(
        table,
        slews.start.first,
        slews.end.second,
        loads.start.first,
        loads.end.second,
    ) {
        return None;
    }
    let least = value_at(table, &slews.start, &loads.start);
    let greatest = value_at(table, &slews.end, &loads.end);
    Some((least, greatest))
}
