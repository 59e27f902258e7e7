//! The cells of a library.

ghost use Rattle.std.specs.Prelude.{◌≡◌, [], OnOk};
ghost use Rattle.liberty_groups.specs.Trees.{tree_of};
ghost use Rattle.text_forms.specs.Stops.{Gives};
ghost use Rattle.liberty_cells.specs.Cells.{names_of, add_cell, cells_of};

use crate::cell::Cell;
use crate::library_text::LibraryText;
use crate::names::SeenNames;
use crate::pins::pins_of;
use liberty_groups::Group;
use liberty_tables::{first_named, has_group, only_name};
use std::alloc::Global;
use xt_lex::TextFault;
use xt_model::{Code, Name, Row, Table};

/// One more cell: its name comes first, then its pins.
#[tactic(auto, unfolding(crate::specs::Cells::add_cell))]
fn add_cell(
    alloc: Global,
    text: &LibraryText,
    group: &Group,
    tables: &mut Vec<Table>,
    seen: &mut SeenNames,
    cells: &mut Vec<Cell>,
) -> Result<(), TextFault>
    requires seen { names_of cells.old.items ≡ seen.old }
    ensures seen { OnOk result (names_of cells.new.items ≡ seen.new) }
    ensures exact { Gives (λ u. (tables.new.items, cells.new.items)) result
        (add_cell text.now.bytes.now text.now.scales text.now.templates.now (tree_of group.now)
        (tables.old.items, cells.old.items)) }
{
    let name = only_name(alloc, text.bytes, group)?;
    if !seen.enter(alloc, name.as_slice())? {
        return Err(TextFault::Refused {
            line: group.line(),
            code: Code::L7,
        });
    }
    let pins = pins_of(alloc, text, group, tables)?;
    cells.push(Cell {
        name: Name::new(name),
        pins,
        latch: has_group(text.bytes, b"latch", group),
    })?;
    Ok(())
}

/// The cells of a library, in the order of the text, and its tables.
#[tactic(auto, unfolding(crate::specs::Cells::cells_of))]
pub fn cells_of(
    alloc: Global,
    text: &LibraryText,
    library: &Group,
    tables: &mut Vec<Table>,
) -> Result<Row<Cell>, TextFault>
    requires first { tables.old.items ≡ [] }
    ensures { Gives (λ cells. (tables.new.items, cells)) result
        (cells_of text.now.bytes.now text.now.scales text.now.templates.now (tree_of library.now)) }
{
    let mut cells = Vec::new(alloc);
    let mut seen = SeenNames::new(alloc, text.templates.key());
    let mut rest = library.inner();
    'cells: while let Some((group, more)) = first_named(text.bytes, b"cell", rest) {
        add_cell(alloc, text, group, tables, &mut seen, &mut cells)?;
        rest = more;
    }
    Ok(Row::from_vec(cells))
}
