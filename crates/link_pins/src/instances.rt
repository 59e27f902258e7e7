//! Whether the library has the cells and pins of instances, and whether they are taken.

ghost use Rattle.std.specs.Prelude.{◌≡◌, ◌<◌, length, Some};
ghost use Rattle.std.specs.List.{slice_get};
ghost use Rattle.xt_model.specs.Names.{IsName};
ghost use Rattle.liberty_cells.specs.declared.cell.Cell.{Cell};
ghost use Rattle.link_rules.specs.Pins.{cell_named, pin_named};
ghost use Rattle.link_rules.specs.Refusals.{cell_fault, instance_fault};
ghost use Rattle.verilog_net.specs.Sound.{IsSoundInstance, IsSoundNetlist};
ghost use Rattle.link_pins.specs.Answers.{Tests, missing_pin};

use link_index::CellIndex;
use link_rules::{LinkFault, LinkRefusal};
use std::alloc::Global;
use verilog_net::{Instance, Netlist};
use xt_model::Name;

/// Tests one pin of an instance: the cell at this place has it.
fn check_pin<'a>(
    alloc: Global,
    cells: &CellIndex<'a>,
    cell: usize,
    instance: &[u8],
    pin: &'a [u8],
) -> Result<(), LinkFault>
    requires cell { cell < length cells.now.cells }
    requires instance { IsName instance.now }
    requires pin { IsName pin.now }
    ensures { (c : Cell) → slice_get cells.now.cells cell ≡ Some c
        → Tests (missing_pin instance.now pin.entry.now (pin_named c pin.entry.now)) result }
{
    match cells.pin(cell, pin) {
        Some(_) => Ok(()),
        None => Err(LinkFault::Refused(LinkRefusal::K2 {
            instance: Name::from_slice(alloc, instance)?,
            pin: Name::from_slice(alloc, pin)?,
        })),
    }
}

/// Tests one instance: its cell is there and taken, and has each of its pins.
fn check_instance<'a>(
    alloc: Global,
    cells: &CellIndex<'a>,
    instance: &'a Instance,
) -> Result<(), LinkFault>
    requires { IsSoundInstance instance.now }
    ensures { Tests (cell_fault instance.entry.now (cell_named cells.now instance.entry.now.cell)) result }
{
    let name = instance.name.bytes();
    let Some(cell) = cells.cell(instance.cell.bytes()) else {
        return Err(LinkFault::Refused(LinkRefusal::K1 {
            instance: Name::from_slice(alloc, name)?,
            cell: Name::from_slice(alloc, instance.cell.bytes())?,
        }));
    };
    if cells.is_odd(cell) {
        return Err(LinkFault::Refused(LinkRefusal::K9 {
            instance: Name::from_slice(alloc, name)?,
            cell: Name::from_slice(alloc, instance.cell.bytes())?,
        }));
    }
    let mut rest = instance.pins.as_slice();
    'pins: while let [pin, more @ ..] = rest {
        check_pin(alloc, cells, cell, name, pin.0.bytes())?;
        rest = more;
    }
    Ok(())
}

/// Tests the instances of a netlist in their order: the first refusal counts.
#[tactic(auto, unfolding(link_rules::specs::Refusals::instance_fault))]
pub fn check_instances<'a>(
    alloc: Global,
    cells: &CellIndex<'a>,
    netlist: &'a Netlist,
) -> Result<(), LinkFault>
    requires { IsSoundNetlist netlist.now }
    ensures { Tests (instance_fault cells.now netlist.entry.now) result }
{
    let mut rest = netlist.instances.as_slice();
    'instances: while let [instance, more @ ..] = rest {
        check_instance(alloc, cells, instance)?;
        rest = more;
    }
    Ok(())
}
