//! From the bytes of a library to its cells and tables.

ghost use Rattle.std.specs.Prelude.{◌≤◌, length, Ok, IfOk};
ghost use Rattle.xt_model.specs.Results.{◌>>=◌ as and_then};
ghost use Rattle.liberty_groups.specs.Trees.{tree_of};
ghost use Rattle.text_forms.specs.Stops.{Gives};
ghost use Rattle.liberty_tables.specs.Units.{AreScales};
ghost use Rattle.liberty_cells.specs.Cells.{cells_of};
ghost use Rattle.liberty_cells.specs.Library.{library_in, library_meant};
ghost use Rattle.liberty_cells.specs.Sound.{IsSoundLibrary};
ghost use Rattle.xt_number.specs.Quantities.{IsScale};

use crate::cells::cells_of;
use crate::library::Library;
use crate::library_text::LibraryText;
use crate::pin::{PinFacts, Role};
use liberty_groups::{Group, read_groups};
use liberty_tables::{Scales, Template, templates_of, units_of};
use name_numbers::NameTable;
use std::alloc::Global;
use std::rc::Rc;
use xt_lex::{MOST_BYTES, TextFault};
use xt_model::Row;

/// What the cells of a library mean, after its units and its templates.
fn library_on(
    alloc: Global,
    bytes: &[u8],
    scales: Scales,
    templates: &NameTable<Template>,
    group: &Group,
) -> Result<Library, TextFault>
    requires { AreScales scales }
    ensures value { Gives (λ library. library) result
        (and_then (cells_of bytes.now scales templates.now (tree_of group.now)) (λ x. Ok (record {
          time_scale = scales.time;
          cap_scale = scales.cap;
          tables = x.0;
          cells = x.1;
        }))) }
    ensures scales { IfOk result (λ library. IsScale library.time_scale × IsScale library.cap_scale) }
{
    let no_facts = PinFacts {
        role: Role::Other,
        cap: 0,
        timings: Row::from_vec(Vec::new(alloc)),
    };
    let text = LibraryText {
        bytes,
        scales,
        templates,
        no_facts: Rc::new(alloc, no_facts)?,
    };
    let mut tables = Vec::new(alloc);
    let cells = cells_of(alloc, &text, group, &mut tables)?;
    Ok(Library {
        time_scale: scales.time,
        cap_scale: scales.cap,
        tables: Row::from_vec(tables),
        cells,
    })
}

/// What the groups of a library mean.
#[tactic(auto, unfolding(crate::specs::Library::library_in))]
fn library_in(alloc: Global, bytes: &[u8], group: &Group) -> Result<Library, TextFault>
    ensures value { Gives (λ library. library) result (library_in bytes.now (tree_of group.now)) }
    ensures scales { IfOk result (λ library. IsScale library.time_scale × IsScale library.cap_scale) }
{
    let scales = units_of(alloc, bytes, group)?;
    let templates = templates_of(alloc, bytes, scales, group)?;
    library_on(alloc, bytes, scales, &templates, group)
}

/// The library that a Liberty text means, or its first refusal: that of its groups, then in the order of the passes,
/// which go over the units, the templates and the cells. The line is that of the first word of an attribute or of a
/// group.
///
/// `L1` and `L2` are those of `read_groups`; `L1` is also a name of a cell, a template, a pin or a related pin that is
/// missing, empty, longer than 1,024 bytes or not printable, or is beside another where one is wanted. `L3` is a
/// number that is refused, or a capacitance that is not one number or below 0; `L4` a timing group without related pins
/// or with a delay but no slew, or a slew but no delay, or a table that does not fit; `L5` an index that does not
/// increase; `L6` a template that is not known; `L7` a cell's name that is there twice; `L8` an unknown unit. Takes
/// time and memory linear in the bytes.
#[tactic(auto, unfolding(crate::specs::Library::library_meant))]
pub fn read_library(alloc: Global, bytes: &[u8]) -> Result<Library, TextFault>
    requires { length bytes.now ≤ MOST_BYTES }
    ensures value { Gives (λ library. library) result (library_meant bytes.now) }
    ensures sound { IfOk result IsSoundLibrary }
    ensures scales { IfOk result (λ library. IsScale library.time_scale × IsScale library.cap_scale) }
{
    let group = read_groups(alloc, bytes)?;
    library_in(alloc, bytes, &group)
}
