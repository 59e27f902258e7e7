//! An index of a library.

ghost use Rattle.std.specs.Prelude.{◌≡◌};

use crate::places::{CellPlaces, all_kept, cell_places, names_key};
use liberty_cells::Library;
use name_numbers::Named;
use std::alloc::{AllocError, Global};
use std::marker::Model;

/// A library whose cells and pins are found by hash. Contracts see the library. No look-up takes memory.
#[derive(Drop)]
pub struct CellIndex<'a> {
    library: &'a Library,
    cells: Named<'a, usize>,
    kept: Vec<CellPlaces<'a>>,
}

impl<'a> Model for CellIndex<'a> {
    ghost use Rattle.liberty_cells.specs.declared.library.Library.{Library};
    ghost use Rattle.link_index.specs.Kept.{IsCellIndex};

    ghost Value = { Library };

    ghost view = { λ i. i.library.now };

    ghost invariant = { λ i. IsCellIndex i.library.now i.cells i.kept.items };
}

impl<'a> CellIndex<'a> {
    ghost use Rattle.std.specs.Prelude.{◌<◌, length, IfOk, IfSome};
    ghost use Rattle.std.specs.Option.{IsSomeAnd};
    ghost use Rattle.std.specs.List.{slice_get};
    ghost use Rattle.link_rules.specs.Pins.{cell_named, pin_named};
    ghost use Rattle.link_rules.specs.Refusals.{is_odd_cell};
    ghost use Rattle.link_index.specs.Cells.{at_place, cell_place, pin_place};

    /// The index of a library. Takes time in proportion to its pins and the related pins of its timing groups, where
    /// the pins of one group of the text share these, and memory in proportion to its pins.
    pub fn new(alloc: Global, library: &'a Library) -> Result<CellIndex<'a>, AllocError>
        ensures { IfOk result (λ i. i ≡ library.entry.now) }
    {
        let key = names_key(library.cells.as_slice());
        let kept = all_kept(alloc, key, library.cells.as_slice())?;
        let cells = cell_places(alloc, key, library.cells.as_slice())?;
        Ok(CellIndex {
            library,
            cells,
            kept,
        })
    }

    /// The library.
    pub fn library(&self) -> &'a Library
        ensures { result.now ≡ self.now }
    {
        self.library
    }

    /// The place of the first cell of a name.
    pub fn cell(&self, name: &'a [u8]) -> Option<usize>
        ensures place { result ≡ cell_place self.now name.entry.now }
        ensures named { cell_named self.now name.entry.now ≡ at_place self.now.cells result }
        ensures there { IfSome result (λ place. place < length self.now.cells) }
    {
        self.cells.get(name).copied()
    }

    /// The place of the first pin of a name in the cell at a place.
    pub fn pin(&self, cell: usize, name: &'a [u8]) -> Option<usize>
        requires { cell < length self.now.cells }
        ensures place { IsSomeAnd (slice_get self.now.cells cell) (λ c. result ≡ pin_place c name.entry.now) }
        ensures named { IsSomeAnd (slice_get self.now.cells cell)
            (λ c. pin_named c name.entry.now ≡ at_place c.pins result) }
        ensures there { IsSomeAnd (slice_get self.now.cells cell)
            (λ c. IfSome result (λ place. place < length c.pins)) }
    {
        let pins = self.library.cells.as_slice()[cell].pins.as_slice();
        self.kept[cell].pins.get(pins, name)
    }

    /// Whether the cell at a place is not taken.
    pub fn is_odd(&self, cell: usize) -> bool
        requires { cell < length self.now.cells }
        ensures { IsSomeAnd (slice_get self.now.cells cell) (λ c. result ≡ is_odd_cell c) }
    {
        self.kept[cell].odd
    }
}
