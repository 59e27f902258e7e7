//! The tables of a library.

ghost use Rattle.std.specs.Prelude.{◌≡◌, ◌≤ℤ◌, ◌+◌, ◌*◌, ◌<◌, length, pos, neg_ℤ, true, IfOk, option_map};
ghost use Rattle.liberty_groups.specs.Trees.{tree_of, entry_of};
ghost use Rattle.text_forms.specs.Stops.{Gives};
ghost use Rattle.liberty_tables.specs.Units.{AreScales};
ghost use Rattle.liberty_tables.specs.Tables.{is_turned, arranged, by_columns};
ghost use Rattle.liberty_tables.specs.Tables.{index_line, is_increasing, is_index, pairing_fault};
ghost use Rattle.liberty_tables.specs.Tables.{number_fault, axis_numbers, order_fault, shape_fault, count_fault};
ghost use Rattle.liberty_tables.specs.Tables.{table_number_fault, table_shape_fault};
ghost use Rattle.liberty_tables.specs.Tables.{table_by, line_or, values_by, numbers_or_none, own_axes, table_on};
ghost use Rattle.liberty_tables.specs.Tables.{table_of};

use crate::axis::{Axes, Axis, Index, Side, Variable, own_axis};
use crate::contents::only;
use crate::numbers::{Numbers, numbers_of};
use crate::refusal::earlier;
use crate::search::attribute;
use crate::template::Template;
use crate::units::Scales;
use liberty_groups::{Attribute, Group};
use name_numbers::NameTable;
use std::alloc::{AllocError, Global};
use xt_lex::TextFault;
use xt_model::{Code, Table};

/// The numbers of a missing index.
const ZERO_ALONE: [i64; 1] = [0];

/// Whether the values of a table go along columns first.
fn is_turned(first: Option<Variable>, second: Option<Variable>) -> bool
    ensures { result ≡ is_turned first second }
{
    match (first, second) {
        (Some(variable), _) if variable.side == Side::Columns => true,
        (_, Some(variable)) => variable.side == Side::Rows,
        (_, None) => false,
    }
}

/// The line of an index, where there is one.
fn index_line(index: &Option<Index>) -> Option<u32>
    ensures { result ≡ index_line index.now }
{
    match index {
        None => None,
        Some(index) => Some(index.line),
    }
}

/// Whether each number is less than the next.
fn is_increasing(numbers: &[i64]) -> bool
    ensures { result ≡ is_increasing numbers.now }
{
    let mut rest = numbers;
    'numbers: while let [one, more @ ..] = rest {
        if let [next, ..] = more {
            if *one >= *next {
                return false;
            }
        }
        rest = more;
    }
    true
}

/// The numbers of an axis: those of its index where none is refused, and 0 alone without an index.
fn axis_numbers(axis: &Axis) -> &[i64]
    ensures { result.now ≡ axis_numbers axis.now }
{
    match &axis.index {
        None => ZERO_ALONE.as_slice(),
        Some(index) => match &index.numbers {
            None => &[],
            Some(numbers) => numbers.as_slice(),
        },
    }
}

/// Where a number of an axis is refused.
fn number_fault(axis: &Axis) -> Option<u32>
    ensures { result ≡ number_fault axis.now }
{
    match &axis.index {
        None => None,
        Some(index) => match &index.numbers {
            None => Some(index.line),
            Some(_) => None,
        },
    }
}

/// Where the numbers of an axis do not increase.
fn order_fault(axis: &Axis) -> Option<u32>
    ensures { result ≡ order_fault axis.now }
{
    if is_increasing(axis_numbers(axis)) {
        None
    } else {
        index_line(&axis.index)
    }
}

/// Where a variable has no index or an index no variable, or the variable does not fit.
fn pairing_fault(variable: Option<Variable>, index: &Option<Index>) -> Option<u32>
    ensures { result ≡ pairing_fault variable index.now }
{
    match (variable, index) {
        (None, None) => None,
        (None, Some(index)) => Some(index.line),
        (Some(variable), None) => Some(variable.line),
        (Some(variable), Some(_)) => match variable.side {
            Side::Misfit => Some(variable.line),
            _ => None,
        },
    }
}

/// Where an axis does not fit, or has no number or more than 64.
fn shape_fault(axis: &Axis) -> Option<u32>
    ensures { result ≡ shape_fault axis.now }
{
    let pairing = pairing_fault(axis.variable, &axis.index);
    let count = axis_numbers(axis).len();
    if 0 < count && count < 65 {
        pairing
    } else {
        earlier(pairing, index_line(&axis.index))
    }
}

/// The place of a value in rows of some length.
fn place_of(row: usize, columns: usize, column: usize) -> usize
    requires row { row < 65 }
    requires columns { columns < 65 }
    requires column { column < 65 }
    ensures { result ≡ row * columns + column }
{
    row * columns + column
}

/// Values in rows of some length, column by column.
#[tactic(auto, using(crate::proofs::TableLaws::columns_more, crate::proofs::TableLaws::rows_more))]
fn by_columns(
    alloc: Global,
    rows: usize,
    columns: usize,
    values: &Numbers,
) -> Result<Numbers, AllocError>
    requires rows { rows < 65 }
    requires columns { columns < 65 }
    ensures { IfOk result (λ turned. turned ≡ by_columns rows columns values.now) }
{
    let mut turned = Numbers::new(alloc);
    for column in 0..columns {
        for row in 0..rows {
            turned.push(values.at(place_of(row, columns, column)))?;
        }
    }
    Ok(turned)
}

/// The table of two indexes, the first of which is the outer one of the values.
fn arranged(
    alloc: Global,
    turned: bool,
    outer: Numbers,
    inner: Numbers,
    values: Numbers,
) -> Result<Table, AllocError>
    requires outer { is_index outer ≡ true }
    requires inner { is_index inner ≡ true }
    requires count { length values ≡ length outer * length inner }
    ensures { IfOk result (λ table. table ≡ arranged turned outer inner values) }
{
    if turned {
        let values = by_columns(
            alloc,
            outer.as_slice().len(),
            inner.as_slice().len(),
            &values,
        )?;
        Ok(Table::new(inner.into_row(), outer.into_row(), values.into_row()))
    } else {
        Ok(Table::new(outer.into_row(), inner.into_row(), values.into_row()))
    }
}

/// The numbers of an axis, as `axis_numbers`.
fn into_numbers(alloc: Global, axis: Axis) -> Result<Numbers, AllocError>
    ensures { IfOk result (λ numbers. numbers ≡ axis_numbers axis) }
{
    let mut numbers = Numbers::new(alloc);
    match axis.index {
        None => numbers.push(0)?,
        Some(index) => {
            if let Some(listed) = index.numbers {
                return Ok(listed);
            }
        }
    }
    Ok(numbers)
}

/// How many values are in this many rows and columns.
fn product(rows: usize, columns: usize) -> u128
    ensures { result ≡ rows * columns }
{
    rows as u128 * columns as u128
}

/// Numbers of which none was refused.
fn numbers_or_none(alloc: Global, numbers: Option<Numbers>) -> Numbers
    ensures { result ≡ numbers_or_none numbers }
{
    match numbers {
        Some(numbers) => numbers,
        None => Numbers::new(alloc),
    }
}

/// Where the count of the values is wrong.
fn count_fault(line: u32, first: &Axis, second: &Axis, values: &Numbers) -> Option<u32>
    ensures { result ≡ count_fault line first.now second.now values.now }
{
    let count = values.as_slice().len() as u128;
    if count == product(axis_numbers(first).len(), axis_numbers(second).len()) {
        None
    } else {
        Some(line)
    }
}

/// Where a number of a table is refused.
fn table_number_fault(axes: &Axes, line: u32, values: &Option<Numbers>) -> Option<u32>
    ensures { result ≡ table_number_fault axes.now line values.now }
{
    let axis = earlier(number_fault(&axes.first), number_fault(&axes.second));
    match values {
        None => earlier(axis, Some(line)),
        Some(_) => earlier(axis, None),
    }
}

/// Where the shape of a table does not fit.
fn table_shape_fault(axes: &Axes, line: u32, values: &Numbers) -> Option<u32>
    ensures { result ≡ table_shape_fault axes.now line values.now }
{
    let axis = earlier(shape_fault(&axes.first), shape_fault(&axes.second));
    earlier(axis, count_fault(line, &axes.first, &axes.second, values))
}

/// A table of two axes and of values at a line.
#[tactic(auto, unfolding(crate::specs::Tables::table_by))]
fn table_by(
    alloc: Global,
    axes: Axes,
    line: u32,
    values: Option<Numbers>,
) -> Result<Table, TextFault>
    ensures { Gives (λ table. table) result (table_by axes line values) }
{
    if let Some(line) = table_number_fault(&axes, line, &values) {
        return Err(TextFault::Refused {
            line,
            code: Code::L3,
        });
    }
    let values = numbers_or_none(alloc, values);
    if let Some(line) = earlier(order_fault(&axes.first), order_fault(&axes.second)) {
        return Err(TextFault::Refused {
            line,
            code: Code::L5,
        });
    }
    if let Some(line) = table_shape_fault(&axes, line, &values) {
        return Err(TextFault::Refused {
            line,
            code: Code::L4,
        });
    }
    let turned = is_turned(axes.first.variable, axes.second.variable);
    let outer = into_numbers(alloc, axes.first)?;
    let inner = into_numbers(alloc, axes.second)?;
    Ok(arranged(alloc, turned, outer, inner, values)?)
}

/// The values that an attribute gives.
fn values_by(
    alloc: Global,
    bytes: &[u8],
    scale: i32,
    attribute: Option<&Attribute>,
) -> Result<Option<Numbers>, AllocError>
    requires low { neg_ℤ (pos 12) ≤ℤ scale }
    requires high { scale ≤ℤ pos 12 }
    ensures { IfOk result (λ values.
        values ≡ values_by bytes.now scale (option_map (λ a. entry_of a.now) attribute.entry)) }
{
    match attribute {
        None => Ok(Some(Numbers::new(alloc))),
        Some(attribute) => numbers_of(alloc, bytes, scale, attribute),
    }
}

/// The line of an attribute, or another where it is missing.
fn line_or(line: u32, attribute: Option<&Attribute>) -> u32
    ensures { result ≡ line_or line (option_map (λ a. entry_of a.now) attribute.entry) }
{
    match attribute {
        None => line,
        Some(attribute) => attribute.line,
    }
}

/// The axes of a table: its own indexes replace those of the template.
#[tactic(auto, unfolding(crate::specs::Tables::own_axes))]
fn own_axes(
    alloc: Global,
    bytes: &[u8],
    is_delay: bool,
    scales: Scales,
    axes: &Axes,
    group: &Group,
) -> Result<Axes, AllocError>
    requires { AreScales scales }
    ensures { IfOk result (λ own. own ≡ own_axes bytes.now is_delay scales axes.now (tree_of group.now)) }
{
    let own = attribute(bytes, b"index_1", group);
    let first = own_axis(alloc, bytes, is_delay, scales, own, &axes.first)?;
    let own = attribute(bytes, b"index_2", group);
    let second = own_axis(alloc, bytes, is_delay, scales, own, &axes.second)?;
    Ok(Axes { first, second })
}

/// A table on the axes of a template.
#[tactic(auto, unfolding(crate::specs::Tables::table_on))]
fn table_on(
    alloc: Global,
    bytes: &[u8],
    is_delay: bool,
    scales: Scales,
    axes: &Axes,
    group: &Group,
) -> Result<Table, TextFault>
    requires { AreScales scales }
    ensures { Gives (λ table. table) result
        (table_on bytes.now is_delay scales axes.now (tree_of group.now)) }
{
    let values = attribute(bytes, b"values", group);
    let line = line_or(group.line(), values);
    let axes = own_axes(alloc, bytes, is_delay, scales, axes, group)?;
    let values = values_by(alloc, bytes, scales.time, values)?;
    table_by(alloc, axes, line, values)
}

/// A table group of an arc, or of a check: slews of rows in fs, loads of columns in aF, or for a check the transitions
/// of the related pin and of the constrained pin, and the values in fs.
///
/// `L6` is a template that is not known, `L3` a number that can't be read or is too large, `L5` an index that does not
/// increase, and `L4` an index of no number or more than 64, a variable that does not fit or has no index,
/// an index without a variable, and a wrong number of values. They are met in this order, each at the first line that
/// has one of its kind: that of an attribute, or the group's where there is none.
#[tactic(auto, unfolding(crate::specs::Tables::table_of))]
pub fn table_of(
    alloc: Global,
    bytes: &[u8],
    is_delay: bool,
    scales: Scales,
    templates: &NameTable<Template>,
    group: &Group,
) -> Result<Table, TextFault>
    requires { AreScales scales }
    ensures { Gives (λ table. table) result
        (table_of bytes.now is_delay scales templates.now (tree_of group.now)) }
{
    let unknown = TextFault::Refused {
        line: group.line(),
        code: Code::L6,
    };
    let Some(name) = only(alloc, bytes, group.args())? else {
        return Err(unknown);
    };
    if name.as_slice() == b"scalar".as_slice() {
        return table_on(alloc, bytes, is_delay, scales, &Axes::none(), group);
    }
    match templates.find(name.as_slice()) {
        None => Err(unknown),
        Some((_, template)) => {
            table_on(
                alloc,
                bytes,
                is_delay,
                scales,
                template.axes_for(is_delay),
                group,
            )
        }
    }
}
