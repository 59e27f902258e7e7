//! The axes of a table.

ghost use Rattle.std.specs.Prelude.{◌≡◌, ◌≤ℤ◌, pos, neg_ℤ, IfOk, option_map};
ghost use Rattle.liberty_groups.specs.Trees.{entry_of};
ghost use Rattle.liberty_tables.specs.Units.{AreScales};
ghost use Rattle.liberty_tables.specs.Axes.{delay_side, check_side, side_named, is_same_side, second_variable};
ghost use Rattle.liberty_tables.specs.Axes.{side_scale, axis_scale, variable_by, index_by, axis_by, own_axis};

use crate::contents::only;
use crate::numbers::{Numbers, numbers_of};
use crate::units::Scales;
use liberty_groups::Attribute;
use std::alloc::{AllocError, Global};

/// What is measured along an axis: slews of an arc or transitions of a check's related pin, which are rows; loads of
/// an arc or transitions of a check's constrained pin, which are columns; or nothing that fits.
#[derive(Clone, Copy, Debug, PartialEq, Eq)]
pub enum Side {
    Rows,
    Columns,
    Misfit,
}

/// What the variable of an axis measures, and the line of its attribute.
#[derive(Clone, Copy, Debug, PartialEq, Eq)]
pub struct Variable {
    pub line: u32,
    pub side: Side,
}

/// The index of an axis: the line of its attribute, and its numbers, in fs or aF, where none is refused.
#[derive(Debug, Drop)]
pub struct Index {
    pub line: u32,
    pub numbers: Option<Numbers>,
}

/// An axis: its variable and its index, where it has them.
#[derive(Debug, Drop)]
pub struct Axis {
    pub variable: Option<Variable>,
    pub index: Option<Index>,
}

/// The two axes of a table. The first is the outer one of its values.
#[derive(Debug, Drop)]
pub struct Axes {
    pub first: Axis,
    pub second: Axis,
}

impl Side {
    /// What a variable of a delay table measures.
    fn of_delay(variable: &[u8]) -> Side
        ensures { result ≡ delay_side variable.now }
    {
        if variable == b"input_net_transition".as_slice() {
            Side::Rows
        } else if variable == b"total_output_net_capacitance".as_slice() {
            Side::Columns
        } else {
            Side::Misfit
        }
    }

    /// What a variable of a check's table measures.
    fn of_check(variable: &[u8]) -> Side
        ensures { result ≡ check_side variable.now }
    {
        if variable == b"related_pin_transition".as_slice() {
            Side::Rows
        } else if variable == b"constrained_pin_transition".as_slice() {
            Side::Columns
        } else {
            Side::Misfit
        }
    }

    /// What a variable measures: those of delays and those of checks differ.
    fn named(is_delay: bool, variable: &[u8]) -> Side
        ensures { result ≡ side_named is_delay variable.now }
    {
        if is_delay {
            Side::of_delay(variable)
        } else {
            Side::of_check(variable)
        }
    }

    /// Whether both measure rows, or both columns.
    fn is_same(self, other: Side) -> bool
        ensures { result ≡ is_same_side self other }
    {
        match (self, other) {
            (Side::Rows, Side::Rows) => true,
            (Side::Columns, Side::Columns) => true,
            _ => false,
        }
    }

    /// The scale of what is measured: loads are capacitances, all else times.
    fn scale(self, is_delay: bool, scales: Scales) -> i32
        requires { AreScales scales }
        ensures exact { result ≡ side_scale is_delay scales self }
        ensures bounds { (neg_ℤ (pos 12) ≤ℤ result) × (result ≤ℤ pos 12) }
    {
        match (is_delay, self) {
            (true, Side::Columns) => scales.cap,
            _ => scales.time,
        }
    }
}

/// What the variable of an attribute measures.
pub fn variable_by(
    alloc: Global,
    bytes: &[u8],
    is_delay: bool,
    attribute: Option<&Attribute>,
) -> Result<Option<Variable>, AllocError>
    ensures { IfOk result (λ variable.
        variable ≡ variable_by bytes.now is_delay (option_map (λ a. entry_of a.now) attribute.entry)) }
{
    let Some(attribute) = attribute else {
        return Ok(None);
    };
    let side = match only(alloc, bytes, attribute.values())? {
        Some(variable) => Side::named(is_delay, variable.as_slice()),
        None => Side::Misfit,
    };
    Ok(Some(Variable {
        line: attribute.line,
        side,
    }))
}

/// What a second axis measures after a first: the same variable does not fit again.
pub fn second_variable(first: Option<Variable>, second: Option<Variable>) -> Option<Variable>
    ensures { result ≡ second_variable first second }
{
    match (first, second) {
        (Some(a), Some(b)) => {
            let side = if a.side.is_same(b.side) {
                Side::Misfit
            } else {
                b.side
            };
            Some(Variable { line: b.line, side })
        }
        _ => second,
    }
}

/// The scale of the numbers along an axis.
fn axis_scale(is_delay: bool, scales: Scales, variable: Option<Variable>) -> i32
    requires { AreScales scales }
    ensures exact { result ≡ axis_scale is_delay scales variable }
    ensures bounds { (neg_ℤ (pos 12) ≤ℤ result) × (result ≤ℤ pos 12) }
{
    match variable {
        None => scales.time,
        Some(variable) => variable.side.scale(is_delay, scales),
    }
}

/// The index that an attribute gives.
fn index_by(
    alloc: Global,
    bytes: &[u8],
    scale: i32,
    attribute: Option<&Attribute>,
) -> Result<Option<Index>, AllocError>
    requires low { neg_ℤ (pos 12) ≤ℤ scale }
    requires high { scale ≤ℤ pos 12 }
    ensures { IfOk result (λ index.
        index ≡ index_by bytes.now scale (option_map (λ a. entry_of a.now) attribute.entry)) }
{
    let Some(attribute) = attribute else {
        return Ok(None);
    };
    let numbers = numbers_of(alloc, bytes, scale, attribute)?;
    Ok(Some(Index {
        line: attribute.line,
        numbers,
    }))
}

/// An axis by its variable and the attribute of its index.
#[tactic(auto, unfolding(crate::specs::Axes::axis_by))]
pub fn axis_by(
    alloc: Global,
    bytes: &[u8],
    is_delay: bool,
    scales: Scales,
    variable: Option<Variable>,
    index: Option<&Attribute>,
) -> Result<Axis, AllocError>
    requires { AreScales scales }
    ensures { IfOk result (λ axis. axis
        ≡ axis_by bytes.now is_delay scales variable (option_map (λ a. entry_of a.now) index.entry)) }
{
    let index = index_by(alloc, bytes, axis_scale(is_delay, scales, variable), index)?;
    Ok(Axis { variable, index })
}

impl Index {
    /// A copy of the index.
    fn copied(&self, alloc: Global) -> Result<Index, AllocError>
        ensures { IfOk result (λ index. index ≡ self.now) }
    {
        let numbers = match &self.numbers {
            None => None,
            Some(numbers) => Some(numbers.copied(alloc)?),
        };
        Ok(Index {
            line: self.line,
            numbers,
        })
    }
}

/// An axis of a table: the table's own index replaces the template's.
#[tactic(auto, unfolding(crate::specs::Axes::own_axis))]
pub fn own_axis(
    alloc: Global,
    bytes: &[u8],
    is_delay: bool,
    scales: Scales,
    own: Option<&Attribute>,
    axis: &Axis,
) -> Result<Axis, AllocError>
    requires { AreScales scales }
    ensures { IfOk result (λ found. found
        ≡ own_axis bytes.now is_delay scales (option_map (λ a. entry_of a.now) own.entry) axis.now) }
{
    let scale = axis_scale(is_delay, scales, axis.variable);
    let index = match (index_by(alloc, bytes, scale, own)?, &axis.index) {
        (Some(index), _) => Some(index),
        (None, Some(index)) => Some(index.copied(alloc)?),
        (None, None) => None,
    };
    Ok(Axis {
        variable: axis.variable,
        index,
    })
}
