//! Tables whose numbers rise along both axes, and are so small that 64 bits have room for the sums of each cell.

ghost use Rattle.std.specs.Prelude.{◌≡◌, ◌^◌, ◌*ℤ◌, ◌≤ℤ◌, pos, length, IsTrue};
ghost use Rattle.std.specs.List.{All};
ghost use Rattle.xt_model.specs.Tables.{IsIndex, IsTable, IsTableNumber};
ghost use Rattle.xt_meaning.specs.Lookup.{value_in};
ghost use Rattle.table_box.specs.Spans.{span_in};
ghost use Rattle.table_box.specs.Cells.{IsAtMost};
ghost use Rattle.table_box.specs.Stretches.{IsStretch};
ghost use Rattle.table_box.specs.Ranges.{IsRange};
ghost use Rattle.table_box.specs.Monotone.{AreAtMostApart, AreSmall, IsMonotone, IsPlaceOn, IsSegment, box_between};

use crate::cell::Cell;
use crate::corners::do_all_rise;
use crate::place::Place;
use crate::segment::Segment;
use crate::stretch::Stretch;
use crate::values::{scaled, weighed};
use xt_model::Table;

/// The greatest size of several numbers, at least 1.
fn greatest_size(numbers: &[i64]) -> i64
    requires { All IsTableNumber numbers.now }
    ensures most { All (IsAtMost result) numbers.now }
    ensures least { pos 1 ≤ℤ result }
    ensures number { IsTableNumber result }
{
    let mut size = 1;
    for place in 0..numbers.len() {
        size = numbers[place].max(-numbers[place]).max(size);
    }
    size
}

/// The greatest distance of two neighbouring grid lines, 1 where there is one line.
fn greatest_width(index: &[i64]) -> i64
    requires { IsIndex index.now }
    ensures apart { AreAtMostApart index.now result }
    ensures least { pos 1 ≤ℤ result }
    ensures most { result ≤ℤ pos (2 ^ 41) }
{
    let mut width = 1;
    for line in 1..index.len() {
        width = (index[line] - index[line - 1]).max(width);
    }
    width
}

/// Whether a sum fits twice in 63 bits.
fn has_room(sum: i128) -> bool
    ensures { IsTrue result → sum ≤ℤ pos (2 ^ 62) }
{
    sum <= 4_611_686_018_427_387_904
}

/// Whether the numbers of a table are so small that 64 bits have room for the sums of each cell.
fn are_small(table: &Table) -> bool
    ensures { IsTrue result → AreSmall table.now }
{
    let size = greatest_size(table.values());
    let slew_width = greatest_width(table.slews());
    let load_width = greatest_width(table.loads());
    has_room(weighed(scaled(size, slew_width), load_width))
}

/// Whether a table is monotone: its numbers rise along both axes, and are small for its cells.
pub(crate) fn is_monotone(table: &Table) -> bool
    ensures { IsTrue result → IsMonotone table.now }
{
    let last_row = table.slews().len() - 1;
    let last = table.loads().len() - 1;
    do_all_rise(table, 0, last_row, 0, last) && are_small(table)
}

/// The value at a slew and a load of a table whose numbers are small for its cells.
#[inline(always)]
fn small_value(table: &Table, slew: &Place, load: &Place) -> i64
    requires table { IsTable table.now }
    requires small { AreSmall table.now }
    requires slew { IsPlaceOn table.now.slews slew.now }
    requires load { IsPlaceOn table.now.loads load.now }
    ensures value { result ≡ value_in table.now (span_in slew.now) (span_in load.now) }
    ensures number { IsTableNumber result }
{
    Cell::of_small(table, slew, load).value(slew, load)
}

/// The least and the greatest value of a monotone table over several slews and several loads: those at the least and at
/// the greatest slew and load.
#[inline(always)]
pub(crate) fn monotone_range(table: &Table, slews: &Segment, loads: &Stretch) -> (i64, i64)
    requires table { IsTable table.now }
    requires monotone { IsMonotone table.now }
    requires slews { IsSegment table.now.slews slews.now }
    requires loads { IsStretch table.now.loads loads.now }
    ensures { IsRange table.now (box_between slews.now loads.now) result }
{
    let least = small_value(table, &slews.start, &loads.start);
    let greatest = small_value(table, &slews.end, &loads.end);
    (least, greatest)
}
