//! The pins of a cell.

ghost use Rattle.std.specs.Prelude.{◌≡◌, ◌++◌, map, IfOk, OnOk};
ghost use Rattle.liberty_groups.specs.Trees.{tree_of};
ghost use Rattle.text_forms.specs.Stops.{Gives};
ghost use Rattle.liberty_cells.specs.Pins.{add_pins};
ghost use Rattle.liberty_cells.specs.Cells.{pins_of};
ghost use Rattle.liberty_cells.specs.Facts.{pin_of};
ghost use Rattle.liberty_cells.specs.Firsts.{AreFirsts};

use crate::cell_pins::CellPins;
use crate::library_text::LibraryText;
use crate::names::names_of_group;
use crate::pin::{Pin, PinFacts, Role};
use crate::timing::Timing;
use crate::timings::timings_of;
use crate::values::{cap_of, role_of};
use liberty_groups::Group;
use liberty_tables::{attribute, first_named};
use std::alloc::{AllocError, Global};
use std::rc::Rc;
use xt_lex::TextFault;
use xt_model::{Name, Row, Table};

/// What the pins of a group have in common; all groups that say nothing share it.
fn facts_of(
    alloc: Global,
    text: &LibraryText,
    role: Role,
    cap: i64,
    timings: Row<Timing>,
) -> Result<Rc<PinFacts>, AllocError>
    ensures { IfOk result (λ facts. facts.value ≡ record { role = role; cap = cap; timings = timings }) }
{
    match (role, timings.as_slice()) {
        (Role::Other, []) if cap == 0 => text.no_facts.clone(),
        _ => Ok(Rc::new(alloc, PinFacts { role, cap, timings })?),
    }
}

/// A pin for each name, after other pins.
fn add_named(pins: &mut Vec<Pin>, names: Vec<Name>, facts: &Rc<PinFacts>) -> Result<(), AllocError>
    ensures { OnOk result (pins.new.items ≡ pins.old.items ++ map (pin_of facts.now.value) names.items) }
{
    let mut rest = names.into_iter();
    'names: while let Some(name) = rest.next() {
        pins.push(Pin::new(name, facts)?)?;
    }
    Ok(())
}

/// A pin group: its names come first, then its capacitance, then its timing groups; each name is a pin. The place of
/// the first of them is kept.
#[tactic(auto, unfolding(crate::specs::Pins::add_pins))]
fn add_pins(
    alloc: Global,
    text: &LibraryText,
    group: &Group,
    tables: &mut Vec<Table>,
    pins: &mut Vec<Pin>,
    firsts: &mut Vec<usize>,
) -> Result<(), TextFault>
    requires firsts { AreFirsts pins.old.items firsts.old.items }
    ensures exact { Gives (λ u. (tables.new.items, pins.new.items)) result
        (add_pins text.now.bytes.now text.now.scales text.now.templates.now (tree_of group.now)
        (tables.old.items, pins.old.items)) }
    ensures firsts { OnOk result (AreFirsts pins.new.items firsts.new.items) }
{
    let names = names_of_group(alloc, text.bytes, group.line(), group.args())?;
    let cap = cap_of(
        alloc,
        text.bytes,
        text.scales.cap,
        attribute(text.bytes, b"capacitance", group),
    )?;
    let role = role_of(
        alloc,
        text.bytes,
        attribute(text.bytes, b"direction", group),
    )?;
    let timings = timings_of(alloc, text, role, group, tables)?;
    let facts = facts_of(alloc, text, role, cap, timings)?;
    firsts.push(pins.len())?;
    add_named(pins, names, &facts)?;
    Ok(())
}

/// How many names the pin groups of a cell have.
fn names_in(bytes: &[u8], group: &Group) -> usize {
    let mut count = 0_usize;
    let mut rest = group.inner();
    'pins: while let Some((inner, more)) = first_named(bytes, b"pin", rest) {
        count = count.saturating_add(inner.args().len());
        rest = more;
    }
    count
}

/// The pins of a cell, in the order of the text, after the tables so far. There is room for all of them from the
/// start, so that nothing is given back in between that no later list fits in.
#[tactic(auto, unfolding(crate::specs::Cells::pins_of))]
pub fn pins_of(
    alloc: Global,
    text: &LibraryText,
    group: &Group,
    tables: &mut Vec<Table>,
) -> Result<CellPins, TextFault>
    ensures { Gives (λ pins. (tables.new.items, pins)) result
        (pins_of text.now.bytes.now text.now.scales text.now.templates.now (tree_of group.now) tables.old.items) }
{
    let mut pins = Vec::with_capacity(alloc, names_in(text.bytes, group))?;
    let mut firsts = Vec::new(alloc);
    let mut rest = group.inner();
    'pins: while let Some((inner, more)) = first_named(text.bytes, b"pin", rest) {
        add_pins(alloc, text, inner, tables, &mut pins, &mut firsts)?;
        rest = more;
    }
    Ok(CellPins::new(pins, firsts))
}
