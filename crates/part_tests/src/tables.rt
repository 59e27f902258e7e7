//! Values of tables, and their ranges.

ghost use Rattle.std.specs.Prelude.{IsTrue};
ghost use Rattle.std.specs.List.{All};
ghost use Rattle.xt_model.specs.Tables.{IsIndex, IsRising, IsTableNumber};

use crate::rows::{field, number};
use std::alloc::{AllocError, Global};
use std::process::Abort;
use std::test::Fail;
use table_box::{at, range};
use xt_model::{Row, Table};

const LARGEST: i64 = 1 << 40;

fn are_numbers(numbers: &[i64]) -> bool
    ensures { IsTrue result → All IsTableNumber numbers.now }
{
    numbers
        .iter()
        .all(|number| -LARGEST <= *number && *number <= LARGEST)
}

fn rises(index: &[i64]) -> bool
    ensures { IsTrue result → IsRising index.now }
{
    for line in 1..index.len() {
        if index[line] <= index[line - 1] {
            return false;
        }
    }
    true
}

fn is_index(index: &[i64]) -> bool
    ensures { IsTrue result → IsIndex index.now }
{
    !index.is_empty() && index.len() <= 64 && rises(index) && are_numbers(index)
}

/// The numbers of a field.
fn numbers(alloc: Global, field: &str) -> Result<Vec<i64>, AllocError> {
    let mut numbers = Vec::new(alloc);
    for word in field.split_whitespace() {
        numbers.push(word.parse::<i64>().unwrap_or(i64::MIN))?;
    }
    Ok(numbers)
}

/// The table of a row: its slews, its loads and its values, which have to make one.
fn table(rt: &impl Abort, alloc: Global, row: &str) -> Result<Table, Fail> {
    let slews = numbers(alloc, field(row, 0))?;
    let loads = numbers(alloc, field(row, 1))?;
    let values = numbers(alloc, field(row, 2))?;
    assert!(rt; is_index(&slews));
    assert!(rt; is_index(&loads));
    assert!(rt; are_numbers(&values));
    assert_eq!(rt; values.len(), slews.len() * loads.len());
    Ok(Table::new(
        Row::from_vec(slews),
        Row::from_vec(loads),
        Row::from_vec(values),
    ))
}

/// A number of a field, as far as it has 64 bits.
fn bound(field: &str, place: usize) -> i64 {
    i64::try_from(number(field, place)).unwrap_or(0)
}

/// Slews, loads and values of tables, a slew and a load, and the value there.
///
/// In the second table one floor is taken, of 8 / 4: floors along the slews and then along the loads would give 1. In
/// the last -6 · 9 / 10 above 5 is -0.4.
const VALUES: &str = "\
0 100000 | 0 10000 | 10000 30000 20000 60000 | 50000 5000 | 30000
0 100000 | 0 10000 | 10000 30000 20000 60000 | 250000 5000 | 40000
0 100000 | 0 10000 | 10000 30000 20000 60000 | -1 -1 | 10000
0 100000 | 0 10000 | 10000 30000 20000 60000 | 0 10000 | 30000
0 2 | 0 2 | 1 2 2 3 | 1 1 | 2
7 | 0 10 20 | 5 -1 9 | 0 9 | -1
";

/// Whether the table of a row has its value at its point.
fn has_value(rt: &impl Abort, alloc: Global, row: &str) -> Result<bool, Fail> {
    let table = table(rt, alloc, row)?;
    let point = field(row, 3);
    let value = at(&table, bound(point, 0), bound(point, 1));
    Ok(i128::from(value) == number(field(row, 4), 0))
}

#[test]
fn values_between_lines(rt: HostRuntime) -> Result<(), Fail> {
    for row in VALUES.lines() {
        assert!(rt; has_value(&rt, rt.alloc(), row)?, "{row}");
    }
    Ok(())
}

/// Slews, loads and values of tables, the least and the greatest slew and load of a box, and the least and the greatest
/// value there: along one axis, of loads at which the values fall, and of both.
const RANGES: &str = "\
0 10 20 | 0 | 5 1 9 | 0 20 0 0 | 1 9
0 10 20 | 0 | 5 1 9 | 3 7 -9 9 | 2 3
0 10 20 | 0 | 5 1 9 | 8 12 0 0 | 1 2
0 10 20 | 0 | 5 1 9 | 10 10 0 0 | 1 1
0 10 20 | 0 | 5 1 9 | -20 -10 0 0 | 5 5
0 10 20 | 0 | 5 1 9 | 15 40 0 0 | 5 9
7 | 0 10 20 | 5 -1 9 | 0 9 9 11 | -1 0
7 | 0 10 20 | 5 -1 9 | 7 7 0 5 | 2 5
0 | 0 | 7 | -9223372036854775808 9223372036854775807 -9223372036854775808 9223372036854775807 | 7 7
0 100000 | 0 10000 | 10000 30000 20000 60000 | 0 100000 5000 5000 | 20000 40000
0 10 20 | 0 10 20 | 0 0 0 0 9 0 0 0 0 | 5 15 5 15 | 2 9
0 10 20 | 0 10 20 | 0 0 0 0 9 0 0 0 0 | 0 20 12 20 | 0 7
";

/// The range of a table over the box of a field, whose ends are in order.
fn range_over(table: &Table, ends: &str) -> Option<(i64, i64)> {
    let (s0, s1) = (bound(ends, 0), bound(ends, 1));
    let (c0, c1) = (bound(ends, 2), bound(ends, 3));
    if s1 < s0 || c1 < c0 {
        return None;
    }
    Some(range(table, s0, s1, c0, c1))
}

/// Whether the table of a row has its range over its box.
fn has_range(rt: &impl Abort, alloc: Global, row: &str) -> Result<bool, Fail> {
    let table = table(rt, alloc, row)?;
    let want = field(row, 4);
    Ok(range_over(&table, field(row, 3)) == Some((bound(want, 0), bound(want, 1))))
}

#[test]
fn ranges_of_boxes(rt: HostRuntime) -> Result<(), Fail> {
    for row in RANGES.lines() {
        assert!(rt; has_range(&rt, rt.alloc(), row)?, "{row}");
    }
    Ok(())
}
