//! The places of cells and pins by name.

ghost use Rattle.std.specs.Prelude.{◌≡◌, IfOk};
ghost use Rattle.std.specs.List.{AllZip};
ghost use Rattle.link_index.specs.Cells.{HavePlaces, HaveCellPlaces};
ghost use Rattle.link_index.specs.Kept.{IsKept};

use crate::first::set_first;
use crate::odd::is_odd_cell;
use crate::pin_places::PinPlaces;
use liberty_cells::{Cell, Pin};
use name_numbers::{Named, TextKey};
use std::alloc::{AllocError, Global};

/// A key that depends on the names of all cells and of their pins.
pub fn names_key(cells: &[Cell]) -> TextKey {
    let mut key = TextKey::of(b"");
    for cell in cells {
        key = key.joined(TextKey::of(cell.name.bytes()));
        for pin in cell.pins.as_slice() {
            key = key.joined(TextKey::of(pin.name().bytes()));
        }
    }
    key
}

/// The places of the pins of a cell by name.
fn pin_places<'a>(
    alloc: Global,
    key: TextKey,
    pins: &'a [Pin],
) -> Result<Named<'a, usize>, AllocError>
    ensures { IfOk result (HavePlaces pins.entry.now) }
{
    let mut places = Named::new(alloc, key);
    let mut place = 0;
    let mut rest = pins;
    'pins: while let [pin, more @ ..] = rest {
        set_first(&mut places, pin.name().bytes(), place)?;
        place += 1;
        rest = more;
    }
    Ok(places)
}

/// What is kept of a cell: the places of its pins by name, and whether it is not taken.
#[derive(Drop)]
pub struct CellPlaces<'a> {
    pub pins: PinPlaces<'a>,
    pub odd: bool,
}

/// What is kept of one cell.
fn kept_of<'a>(alloc: Global, key: TextKey, cell: &'a Cell) -> Result<CellPlaces<'a>, AllocError>
    ensures { IfOk result (IsKept cell.entry.now) }
{
    let pins = cell.pins.as_slice();
    let places = pin_places(alloc, key, pins)?;
    let odd = is_odd_cell(cell, &places);
    Ok(CellPlaces {
        pins: PinPlaces::of_pins(alloc, pins, places)?,
        odd,
    })
}

/// What is kept of all cells.
pub fn all_kept<'a>(
    alloc: Global,
    key: TextKey,
    cells: &'a [Cell],
) -> Result<Vec<CellPlaces<'a>>, AllocError>
    ensures { IfOk result (λ v. AllZip IsKept cells.entry.now v.items) }
{
    let mut kept = Vec::with_capacity(alloc, cells.len())?;
    let mut rest = cells;
    'cells: while let [cell, more @ ..] = rest {
        kept.push(kept_of(alloc, key, cell)?)?;
        rest = more;
    }
    Ok(kept)
}

/// The places of cells by name.
pub fn cell_places<'a>(
    alloc: Global,
    key: TextKey,
    cells: &'a [Cell],
) -> Result<Named<'a, usize>, AllocError>
    ensures { IfOk result (HaveCellPlaces cells.entry.now) }
{
    let mut places = Named::new(alloc, key);
    let mut place = 0;
    let mut rest = cells;
    'cells: while let [cell, more @ ..] = rest {
        set_first(&mut places, cell.name.bytes(), place)?;
        place += 1;
        rest = more;
    }
    Ok(places)
}
