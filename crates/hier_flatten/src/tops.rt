//! The one module that no instance is of.

ghost use Rattle.std.specs.Prelude.{◌≡◌, [], is_some, option_map, IfOk, OnOk};
ghost use Rattle.hier_flatten.specs.Hierarchy.{top_of};
ghost use Rattle.hier_flatten.specs.Cells.{AreCells, HasCells};

use crate::index::Index;
use name_numbers::Named;
use std::alloc::{AllocError, Global};
use verilog_net::{Instance, Netlist};

/// Notes the cells of these instances.
fn note_cells<'a>(instances: &'a [Instance], cells: &mut Named<'a, ()>) -> Result<(), AllocError>
    ensures { OnOk result (HasCells instances.entry.now cells.old cells.new) }
{
    let mut rest = instances;
    'instances: while let [instance, more @ ..] = rest {
        cells.set(instance.cell.bytes(), ())?;
        rest = more;
    }
    Ok(())
}

/// Notes the cells of all instances of the modules.
fn note_all<'a>(modules: &'a [Netlist], cells: &mut Named<'a, ()>) -> Result<(), AllocError>
    requires { cells.old ≡ [] }
    ensures { OnOk result (AreCells modules.entry.now cells.new) }
{
    let mut rest = modules;
    'modules: while let [module, more @ ..] = rest {
        note_cells(module.instances.as_slice(), cells)?;
        rest = more;
    }
    Ok(())
}

/// The one module that no instance is of, where there is just one.
#[tactic(auto, unfolding(crate::specs::Hierarchy::top_of))]
fn only_top<'a>(modules: &'a [Netlist], cells: &Named<'a, ()>) -> Option<&'a Netlist>
    requires { AreCells modules.now cells.now }
    ensures { option_map (λ m. m.now) result ≡ top_of modules.entry.now }
{
    let mut top: Option<&'a Netlist> = None;
    let mut rest = modules;
    'modules: while let [module, more @ ..] = rest {
        if cells.get(module.module.bytes()).is_none() {
            if top.is_some() {
                return None;
            }
            top = Some(module);
        }
        rest = more;
    }
    top
}

/// The top of the modules, where there is just one.
pub fn top_of<'a>(alloc: Global, index: &Index<'a>) -> Result<Option<&'a Netlist>, AllocError>
    ensures { IfOk result (λ top. option_map (λ m. m.now) top ≡ top_of index.now) }
{
    let modules = index.modules();
    let mut cells = Named::new(alloc, index.key());
    note_all(modules, &mut cells)?;
    Ok(only_top(modules, &cells))
}
