//! Ranges of values within one cell of a table, by 64 bits.

ghost use Rattle.std.specs.Prelude.{◌≡◌, ◌^◌, ℤ, ◌*ℤ◌, ◌≤ℤ◌, ◌<ℤ◌, pos, neg_ℤ, length, IsTrue, IfSome};
ghost use Rattle.std.specs.Int.{int_div_euclid};
ghost use Rattle.xt_model.specs.Tables.{IsIndex, IsTable, IsTableNumber};
ghost use Rattle.xt_meaning.specs.Lookup.{span_of, value_in};
ghost use Rattle.table_box.specs.Spans.{IsSpan, AreAlike, span_in};
ghost use Rattle.table_box.specs.Stretches.{IsStretch, box_of};
ghost use Rattle.table_box.specs.Rows.{row_least, row_greatest};
ghost use Rattle.table_box.specs.Mixes.{mixed};
ghost use Rattle.table_box.specs.Cells.{AreAtMost, AreEnds, AreMixable, AreNeighbours, AreRising};
ghost use Rattle.table_box.specs.Cells.{DoRise, IsAtMost, IsRising, IsSmallCell};
ghost use Rattle.table_box.specs.Ranges.{IsRange};
ghost use Rattle.table_box.specs.Monotone.{AreSmall, IsPlaceOn};

use crate::place::Place;
use crate::ranges::joined;
use crate::stretch::Stretch;
use crate::values::{number_at, value_on_line};
use xt_model::Table;

/// Two numbers, the first times how far a place lies below the second line, and the second times how far it lies above
/// the first.
fn mixed(first: i64, second: i64, place: &Place) -> i64
    requires { (most : ℤ) × AreMixable first second most (span_in place.now) }
    ensures { result ≡ mixed first second place.now.below place.now.above }
{
    first * place.below + second * place.above
}

/// A fraction, rounded down.
fn floor(sum: i64, area: i64) -> i64
    requires { pos 0 <ℤ area }
    ensures { result ≡ int_div_euclid sum area }
{
    sum.div_euclid(area)
}

/// The greatest size of numbers that, times this area, are at most 2^62.
fn most_within(area: i64) -> i64
    requires { pos 0 <ℤ area }
    ensures natural { pos 0 ≤ℤ result }
    ensures room { (result *ℤ area) ≤ℤ pos (2 ^ 62) }
{
    4_611_686_018_427_387_904 / area
}

/// Whether the numbers between two are of at most this size.
fn lie_within(least: i64, greatest: i64, most: i64) -> bool
    requires { pos 0 ≤ℤ most }
    ensures { IsTrue result → (neg_ℤ most ≤ℤ least) × (greatest ≤ℤ most) }
{
    -most <= least && greatest <= most
}

/// Whether two numbers are of at most this size.
fn are_at_most(a: i64, b: i64, most: i64) -> bool
    requires { pos 0 ≤ℤ most }
    ensures { IsTrue result → (IsAtMost most a) × (IsAtMost most b) }
{
    lie_within(a, a, most) && lie_within(b, b, most)
}

/// Whether a number lies between two others, or is one of them.
fn is_between(low: i64, number: i64, high: i64) -> bool
    ensures { IsTrue result → (low ≤ℤ number) × (number ≤ℤ high) }
{
    low <= number && number <= high
}

/// Whether no number at a corner of a cell is greater than one at a greater slew or load.
fn do_rise(first_first: i64, first_second: i64, second_first: i64, second_second: i64) -> bool
    ensures { IsTrue result → DoRise first_first first_second second_first second_second }
{
    is_between(first_first, first_second, second_second)
        && is_between(first_first, second_first, second_second)
}

/// Whether the numbers at the corners of a cell are of at most this size. Where they rise, it looks at the least and at
/// the greatest alone.
fn are_within(
    rising: bool,
    first_first: i64,
    first_second: i64,
    second_first: i64,
    second_second: i64,
    most: i64,
) -> bool
    requires natural { pos 0 ≤ℤ most }
    requires rising { IsTrue rising → DoRise first_first first_second second_first second_second }
    ensures { IsTrue result → AreAtMost most first_first first_second second_first second_second }
{
    if rising {
        return lie_within(first_first, second_second, most);
    }
    are_at_most(first_first, first_second, most) && are_at_most(second_first, second_second, most)
}

/// Whether two numbers lie in neighbouring cells of an axis, and no line between them but that between the cells.
fn are_neighbours(index: &[i64], ends: &Stretch) -> bool
    requires index { IsIndex index.now }
    requires ends { IsStretch index.now ends.now }
    ensures { IsTrue result → AreNeighbours ends.now }
{
    let line = ends.end.first;
    ends.start.second == line && ends.first == line && ends.last <= ends.first + 1
}

/// A cell of a table with room for its sums in 64 bits: a place in it on each axis, its area, the numbers at its
/// corners, the first word of each name for the line of the slews and the second for that of the loads, and whether
/// none of these is greater than one at a greater slew or load.
#[derive(Clone, Copy)]
pub(crate) struct Cell<'a> {
    table: &'a Table,
    slew: &'a Place,
    load: &'a Place,
    area: i64,
    first_first: i64,
    first_second: i64,
    second_first: i64,
    second_second: i64,
    rising: bool,
}

impl<'a> Cell<'a> {
    /// The cell of a slew and a load, where 64 bits have room for its sums.
    #[inline(always)]
    pub fn of(table: &'a Table, slew: &'a Place, load: &'a Place) -> Option<Cell<'a>>
        requires table { IsTable table.now }
        requires slew { IsSpan (length table.now.slews) (span_in slew.now) }
        requires load { IsSpan (length table.now.loads) (span_in load.now) }
        ensures table { IfSome result (λ cell. cell.table.now ≡ table.now) }
        ensures slew { IfSome result (λ cell. cell.slew.now ≡ slew.now) }
        ensures load { IfSome result (λ cell. cell.load.now ≡ load.now) }
        ensures small { IfSome result IsSmallCell }
    {
        let area = slew.width.checked_mul(load.width)?;
        let most = most_within(area);
        let first_first = number_at(table, slew.first, load.first);
        let first_second = number_at(table, slew.first, load.second);
        let second_first = number_at(table, slew.second, load.first);
        let second_second = number_at(table, slew.second, load.second);
        let rising = do_rise(first_first, first_second, second_first, second_second);
        if !are_within(
            rising,
            first_first,
            first_second,
            second_first,
            second_second,
            most,
        ) {
            return None;
        }
        Some(Cell {
            table,
            slew,
            load,
            area,
            first_first,
            first_second,
            second_first,
            second_second,
            rising,
        })
    }

    /// The cell of a slew and a load of a table whose numbers are small for its cells. It does not tell whether they
    /// rise there.
    #[inline(always)]
    pub fn of_small(table: &'a Table, slew: &'a Place, load: &'a Place) -> Cell<'a>
        requires table { IsTable table.now }
        requires small { AreSmall table.now }
        requires slew { IsPlaceOn table.now.slews slew.now }
        requires load { IsPlaceOn table.now.loads load.now }
        ensures table { result.table.now ≡ table.now }
        ensures slew { result.slew.now ≡ slew.now }
        ensures load { result.load.now ≡ load.now }
        ensures small { IsSmallCell result }
    {
        Cell {
            table,
            slew,
            load,
            area: slew.width * load.width,
            first_first: number_at(table, slew.first, load.first),
            first_second: number_at(table, slew.first, load.second),
            second_first: number_at(table, slew.second, load.first),
            second_second: number_at(table, slew.second, load.second),
            rising: false,
        }
    }

    /// The value at a slew and a load in the cell: the floor of the exact bilinear fraction.
    #[inline(always)]
    pub fn value(&self, slew: &Place, load: &Place) -> i64
        requires small { IsSmallCell self.now }
        requires slew { AreAlike (span_in self.now.slew.now) (span_in slew.now) }
        requires load { AreAlike (span_in self.now.load.now) (span_in load.now) }
        ensures value { result ≡ value_in self.now.table.now (span_in slew.now) (span_in load.now) }
        ensures number { IsTableNumber result }
    {
        let first = mixed(self.first_first, self.second_first, slew);
        let second = mixed(self.first_second, self.second_second, slew);
        floor(mixed(first, second, load), self.area)
    }

    /// The value at one slew and the greatest of several loads, which lies in this cell, where that at the least of
    /// them is `start`.
    fn end_value(&self, slew: &Place, loads: &Stretch, start: i64) -> i64
        requires small { IsSmallCell self.now }
        requires slew { AreAlike (span_in self.now.slew.now) (span_in slew.now) }
        requires loads { IsStretch self.now.table.now.loads loads.now }
        requires end { AreAlike (span_in self.now.load.now) (span_in loads.now.end) }
        requires start { start
            ≡ value_in self.now.table.now (span_in slew.now) (span_of self.now.table.now.loads loads.now.from) }
        requires number { IsTableNumber start }
        ensures value { result
            ≡ value_in self.now.table.now (span_in slew.now) (span_of self.now.table.now.loads loads.now.to) }
        ensures number { IsTableNumber result }
    {
        if loads.single {
            return start;
        }
        self.value(slew, &loads.end)
    }

    /// The least and the greatest value at one slew, over several loads from this cell to another. It looks at both
    /// ends and at the lines between them.
    #[inline(always)]
    fn row_range(&self, last: &Cell, slew: &Place, loads: &Stretch) -> (i64, i64)
        requires ends { AreEnds self.now last.now loads.now }
        requires slew { AreAlike (span_in self.now.slew.now) (span_in slew.now) }
        ensures least { result.0 ≡ row_least self.now.table.now (span_in slew.now) loads.now.from loads.now.to }
        ensures greatest { result.1 ≡ row_greatest self.now.table.now (span_in slew.now) loads.now.from loads.now.to }
    {
        let start = self.value(slew, &loads.start);
        let end = last.end_value(slew, loads, start);
        let mut range = joined((start, start), (end, end));
        for line in loads.first..loads.last {
            let value = value_on_line(self.table, slew, line);
            range = joined(range, (value, value));
        }
        range
    }

    /// The least and the greatest value over several slews in the cell, and several loads from it to another. It looks
    /// at the ends and at the lines between them.
    #[inline(never)]
    fn swept_range(&self, last: &Cell, slews: &Stretch, loads: &Stretch) -> (i64, i64)
        requires ends { AreEnds self.now last.now loads.now }
        requires slews { IsStretch self.now.table.now.slews slews.now }
        requires inside { IsTrue slews.now.inside }
        requires start { self.now.slew.now ≡ slews.now.start }
        ensures { IsRange self.now.table.now (box_of slews.now loads.now) result }
    {
        let start = self.row_range(last, &slews.start, loads);
        if slews.single {
            return start;
        }
        joined(start, self.row_range(last, &slews.end, loads))
    }

    /// Whether no number at a corner is greater than one at a greater slew or load.
    fn is_rising(&self) -> bool
        requires { IsSmallCell self.now }
        ensures { IsTrue result → IsRising self.now }
    {
        self.rising
    }

    /// Whether the values rise with the slew and with the load, over several loads from this cell to another: where
    /// both cells rise, and are one or neighbours.
    fn rises_to(&self, last: &Cell, loads: &Stretch) -> bool
        requires ends { AreEnds self.now last.now loads.now }
        ensures { IsTrue result → AreRising self.now last.now loads.now }
    {
        let near = loads.inside || are_neighbours(self.table.loads(), loads);
        near && self.is_rising() && last.is_rising()
    }

    /// The least and the greatest value over several slews in the cell, and several loads from it to another: where the
    /// values rise, those at the least and at the greatest slew and load.
    #[inline(always)]
    fn range(&self, last: &Cell, slews: &Stretch, loads: &Stretch) -> (i64, i64)
        requires ends { AreEnds self.now last.now loads.now }
        requires slews { IsStretch self.now.table.now.slews slews.now }
        requires inside { IsTrue slews.now.inside }
        requires start { self.now.slew.now ≡ slews.now.start }
        ensures { IsRange self.now.table.now (box_of slews.now loads.now) result }
    {
        if self.rises_to(last, loads) {
            let least = self.value(&slews.start, &loads.start);
            let greatest = last.value(&slews.end, &loads.end);
            return (least, greatest);
        }
        let (first, last) = (*self, *last);
        first.swept_range(&last, slews, loads)
    }
}

/// The least and the greatest value over several slews and several loads, where the slews lie in one cell, and 64 bits
/// have room for the sums of the cells of both ends.
pub(crate) fn cell_range(table: &Table, slews: &Stretch, loads: &Stretch) -> Option<(i64, i64)>
    requires table { IsTable table.now }
    requires slews { IsStretch table.now.slews slews.now }
    requires loads { IsStretch table.now.loads loads.now }
    ensures { IfSome result (λ range. IsRange table.now (box_of slews.now loads.now) range) }
{
    if !slews.inside {
        return None;
    }
    let first = Cell::of(table, &slews.start, &loads.start)?;
    if loads.inside {
        return Some(first.range(&first, slews, loads));
    }
    let last = Cell::of(table, &slews.start, &loads.end)?;
    Some(first.range(&last, slews, loads))
}
