ghost use Rattle.std.specs.Prelude.{◌≡◌, ◌≤ℤ◌, length, IsTrue};
ghost use Rattle.std.specs.Int.{int_min, int_max};
ghost use Rattle.xt_model.specs.Tables.{IsTable, IsTableNumber};
ghost use Rattle.xt_meaning.specs.Lookup.{greatest_over, least_over, span_of, table_value, value_in};
ghost use Rattle.table_box.specs.Spans.{IsSpan, span_in};
ghost use Rattle.table_box.specs.Stretches.{IsStretch, box_of};
ghost use Rattle.table_box.specs.Rows.{row_least, row_greatest};

use crate::cell::cell_range;
use crate::corners::corner_range;
use crate::place::Place;
use crate::stretch::Stretch;
use crate::values::{value_at, value_on_line};
use xt_model::Table;

/// The least and the greatest number of two ranges.
pub(crate) fn joined(a: (i64, i64), b: (i64, i64)) -> (i64, i64)
    ensures least { result.0 ≡ int_min a.0 b.0 }
    ensures greatest { result.1 ≡ int_max a.1 b.1 }
{
    (a.0.min(b.0), a.1.max(b.1))
}

/// The value at one slew and the greatest of several loads, where that at the least of them is `start`.
fn end_value(table: &Table, slew: &Place, loads: &Stretch, start: i64) -> i64
    requires table { IsTable table.now }
    requires slew { IsSpan (length table.now.slews) (span_in slew.now) }
    requires loads { IsStretch table.now.loads loads.now }
    requires start { start ≡ value_in table.now (span_in slew.now) (span_of table.now.loads loads.now.from) }
    requires number { IsTableNumber start }
    ensures value { result ≡ value_in table.now (span_in slew.now) (span_of table.now.loads loads.now.to) }
    ensures number { IsTableNumber result }
{
    if loads.single {
        return start;
    }
    value_at(table, slew, &loads.end)
}

/// The least and the greatest value at one slew, over several loads. Between neighbouring grid lines the values go one
/// way, so it looks at both ends and at the lines between them.
fn row_range(table: &Table, slew: &Place, loads: &Stretch) -> (i64, i64)
    requires table { IsTable table.now }
    requires slew { IsSpan (length table.now.slews) (span_in slew.now) }
    requires loads { IsStretch table.now.loads loads.now }
    ensures least { result.0 ≡ row_least table.now (span_in slew.now) loads.now.from loads.now.to }
    ensures greatest { result.1 ≡ row_greatest table.now (span_in slew.now) loads.now.from loads.now.to }
{
    let start = value_at(table, slew, &loads.start);
    let end = end_value(table, slew, loads, start);
    let mut range = joined((start, start), (end, end));
    for line in loads.first..loads.last {
        let value = value_on_line(table, slew, line);
        range = joined(range, (value, value));
    }
    range
}

/// The range of values at the greatest of several slews and several loads, where that at the least slew is `start`.
fn end_range(table: &Table, slews: &Stretch, loads: &Stretch, start: (i64, i64)) -> (i64, i64)
    requires table { IsTable table.now }
    requires slews { IsStretch table.now.slews slews.now }
    requires loads { IsStretch table.now.loads loads.now }
    requires least { start.0
        ≡ row_least table.now (span_of table.now.slews slews.now.from) loads.now.from loads.now.to }
    requires greatest { start.1
        ≡ row_greatest table.now (span_of table.now.slews slews.now.from) loads.now.from loads.now.to }
    ensures least { result.0
        ≡ row_least table.now (span_of table.now.slews slews.now.to) loads.now.from loads.now.to }
    ensures greatest { result.1
        ≡ row_greatest table.now (span_of table.now.slews slews.now.to) loads.now.from loads.now.to }
{
    if slews.single {
        return start;
    }
    row_range(table, &slews.end, loads)
}

/// The least and the greatest value over several slews and several loads, which looks at the ends and at the grid lines
/// between them.
fn swept_range(table: &Table, slews: &Stretch, loads: &Stretch) -> (i64, i64)
    requires table { IsTable table.now }
    requires slews { IsStretch table.now.slews slews.now }
    requires loads { IsStretch table.now.loads loads.now }
    ensures least { result.0 ≡ least_over (table_value table.now) (box_of slews.now loads.now) }
    ensures greatest { result.1 ≡ greatest_over (table_value table.now) (box_of slews.now loads.now) }
    ensures least_number { IsTableNumber result.0 }
    ensures greatest_number { IsTableNumber result.1 }
{
    let start = row_range(table, &slews.start, loads);
    let end = end_range(table, slews, loads, start);
    let mut range = joined(start, end);
    for line in slews.first..slews.last {
        range = joined(
            range,
            row_range(table, &Place::on_line(table.slews(), line), loads),
        );
    }
    range
}

/// The least and the greatest value over several slews and several loads: in one cell, at the corners of several where
/// their numbers rise, and else along all grid lines.
pub(crate) fn box_range(table: &Table, slews: &Stretch, loads: &Stretch) -> (i64, i64)
    requires table { IsTable table.now }
    requires slews { IsStretch table.now.slews slews.now }
    requires loads { IsStretch table.now.loads loads.now }
    ensures least { result.0 ≡ least_over (table_value table.now) (box_of slews.now loads.now) }
    ensures greatest { result.1 ≡ greatest_over (table_value table.now) (box_of slews.now loads.now) }
    ensures least_number { IsTableNumber result.0 }
    ensures greatest_number { IsTableNumber result.1 }
{
    if let Some(range) = cell_range(table, slews, loads) {
        return range;
    }
    if let Some(range) = corner_range(table, slews, loads) {
        return range;
    }
    swept_range(table, slews, loads)
}

/// Whether two axes have the same grid lines.
fn are_same_lines(a: &[i64], b: &[i64]) -> bool
    ensures { IsTrue result → a.now ≡ b.now }
{
    a == b
}

/// Whether two tables have the same axes.
pub(crate) fn have_same_axes(a: &Table, b: &Table) -> bool
    ensures axes { IsTrue result → (a.now.slews ≡ b.now.slews) × (a.now.loads ≡ b.now.loads) }
    ensures table { IsTable b.now }
{
    are_same_lines(a.slews(), b.slews()) && are_same_lines(a.loads(), b.loads())
}

/// The least and the greatest value of a table over every whole slew from `s0` to `s1` fs and every whole load
/// from `c0` to `c1` aF. It looks at the ends of the box and the grid lines within: at four values at most for a
/// box in one cell, and at (k + 2)·(l + 2) at most where k slews and l loads of the index lie within. Where the numbers
/// of the cells that the box touches rise along both axes, it looks at these numbers and at two values.
pub fn range(table: &Table, s0: i64, s1: i64, c0: i64, c1: i64) -> (i64, i64)
    requires slews { s0 ≤ℤ s1 }
    requires loads { c0 ≤ℤ c1 }
    ensures least { result.0 ≡ least_over (table_value table.now) (record { s0 = s0; s1 = s1; c0 = c0; c1 = c1 }) }
    ensures greatest { result.1
        ≡ greatest_over (table_value table.now) (record { s0 = s0; s1 = s1; c0 = c0; c1 = c1 }) }
    ensures least_number { IsTableNumber result.0 }
    ensures greatest_number { IsTableNumber result.1 }
{
    let slews = Stretch::of(table.slews(), s0, s1);
    let loads = Stretch::of(table.loads(), c0, c1);
    box_range(table, &slews, &loads)
}
