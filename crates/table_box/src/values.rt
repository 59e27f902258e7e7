ghost use Rattle.std.specs.Prelude.{◌≡◌, ◌<◌, ◌^◌, ◌≤ℤ◌, ◌<ℤ◌, ◌*ℤ◌, pos, neg_ℤ, length};
ghost use Rattle.std.specs.Int.{int_div_euclid};
ghost use Rattle.xt_model.specs.Tables.{IsTable, IsTableNumber};
ghost use Rattle.std.specs.List.{slice_index_or};
ghost use Rattle.xt_meaning.specs.Lookup.{cell_value, span_of, table_value, value_in};
ghost use Rattle.table_box.specs.Spans.{IsSpan, span_in};
ghost use Rattle.table_box.specs.Mixes.{along_slews};

use crate::cell::Cell;
use crate::place::Place;
use xt_model::Table;

/// A number of a table, times a distance along an axis.
pub(crate) fn scaled(value: i64, distance: i64) -> i128
    requires value { IsTableNumber value }
    requires low { pos 0 ≤ℤ distance }
    requires high { distance ≤ℤ pos (2 ^ 41) }
    ensures value { result ≡ value *ℤ distance }
    ensures low { neg_ℤ (pos (2 ^ 81)) ≤ℤ result }
    ensures high { result ≤ℤ pos (2 ^ 81) }
{
    i128::from(value) * i128::from(distance)
}

/// The number of a column at a slew, times a distance along the loads.
pub(crate) fn weighed(number: i128, distance: i64) -> i128
    requires number_low { neg_ℤ (pos (2 ^ 82)) ≤ℤ number }
    requires number_high { number ≤ℤ pos (2 ^ 82) }
    requires low { pos 0 ≤ℤ distance }
    requires high { distance ≤ℤ pos (2 ^ 41) }
    ensures value { result ≡ number *ℤ distance }
    ensures low { neg_ℤ (pos (2 ^ 123)) ≤ℤ result }
    ensures high { result ≤ℤ pos (2 ^ 123) }
{
    number * i128::from(distance)
}

/// The number of a row and a column.
pub(crate) fn number_at(table: &Table, row: usize, column: usize) -> i64
    requires row { row < length table.now.slews }
    requires column { column < length table.now.loads }
    ensures value { result ≡ cell_value table.now row column }
    ensures number { IsTableNumber result }
{
    table.values()[row * table.loads().len() + column]
}

/// The two values beside a slew in a column, each times its distance.
fn column_at(table: &Table, slew: &Place, column: usize) -> i128
    requires slew { IsSpan (length table.now.slews) (span_in slew.now) }
    requires column { column < length table.now.loads }
    ensures value { result ≡ along_slews table.now column (span_in slew.now) }
    ensures low { neg_ℤ (pos (2 ^ 82)) ≤ℤ result }
    ensures high { result ≤ℤ pos (2 ^ 82) }
{
    scaled(number_at(table, slew.first, column), slew.below)
        + scaled(number_at(table, slew.second, column), slew.above)
}

/// The area of a cell.
fn area(slew_width: i64, load_width: i64) -> i128
    requires slew_low { pos 0 <ℤ slew_width }
    requires slew_high { slew_width ≤ℤ pos (2 ^ 41) }
    requires load_low { pos 0 <ℤ load_width }
    requires load_high { load_width ≤ℤ pos (2 ^ 41) }
    ensures value { result ≡ slew_width *ℤ load_width }
    ensures positive { pos 0 <ℤ result }
{
    i128::from(slew_width) * i128::from(load_width)
}

/// A fraction, rounded down, by 64 bits where its numbers fit.
fn floor(sum: i128, area: i128) -> i128
    requires { pos 0 <ℤ area }
    ensures { result ≡ int_div_euclid sum area }
{
    if let (Ok(sum), Ok(area)) = (i64::try_from(sum), i64::try_from(area)) {
        return i128::from(sum.div_euclid(area));
    }
    sum.div_euclid(area)
}

/// The value at a slew and a load, by 128 bits, which have room for the numbers of each table.
fn wide_value(table: &Table, slew: &Place, load: &Place) -> i64
    requires table { IsTable table.now }
    requires slew { IsSpan (length table.now.slews) (span_in slew.now) }
    requires load { IsSpan (length table.now.loads) (span_in load.now) }
    ensures value { result ≡ value_in table.now (span_in slew.now) (span_in load.now) }
    ensures number { IsTableNumber result }
{
    let first = column_at(table, slew, load.first);
    let second = column_at(table, slew, load.second);
    let sum = weighed(first, load.below) + weighed(second, load.above);
    floor(sum, area(slew.width, load.width)) as i64
}

/// The value at a slew and a load: the floor of the exact bilinear fraction.
pub(crate) fn value_at(table: &Table, slew: &Place, load: &Place) -> i64
    requires table { IsTable table.now }
    requires slew { IsSpan (length table.now.slews) (span_in slew.now) }
    requires load { IsSpan (length table.now.loads) (span_in load.now) }
    ensures value { result ≡ value_in table.now (span_in slew.now) (span_in load.now) }
    ensures number { IsTableNumber result }
{
    if let Some(cell) = Cell::of(table, slew, load) {
        return cell.value(slew, load);
    }
    wide_value(table, slew, load)
}

/// The value at a slew and a grid line of the loads: the floor of the exact linear fraction.
pub(crate) fn value_on_line(table: &Table, slew: &Place, line: usize) -> i64
    requires table { IsTable table.now }
    requires slew { IsSpan (length table.now.slews) (span_in slew.now) }
    requires line { line < length table.now.loads }
    ensures value { result
        ≡ value_in table.now (span_in slew.now)
        (span_of table.now.loads (slice_index_or table.now.loads line (pos 0))) }
    ensures number { IsTableNumber result }
{
    floor(column_at(table, slew, line), i128::from(slew.width)) as i64
}

/// The value of a table at a slew in fs and a load in aF, each brought within the ends of its index:
/// between the grid lines the floor of the exact bilinear fraction. It costs two binary searches.
pub fn at(table: &Table, slew: i64, load: i64) -> i64
    ensures value { result ≡ table_value table.now slew load }
    ensures number { IsTableNumber result }
{
    let at_slew = Place::of(table.slews(), slew);
    let at_load = Place::of(table.loads(), load);
    value_at(table, &at_slew, &at_load)
}
