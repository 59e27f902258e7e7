//! What cells are read from.

ghost use Rattle.std.specs.Prelude.{◌≡◌};
ghost use Rattle.liberty_tables.specs.Units.{AreScales};
ghost use Rattle.liberty_cells.specs.Facts.{empty_facts};

use crate::pin::PinFacts;
use liberty_tables::{Scales, Template};
use name_numbers::NameTable;
use std::rc::Rc;

/// The text of a library, with what was read of it before its cells: the scales of its units, and its templates; and
/// what the pins of all groups that say nothing share.
#[derive(Drop)]
pub struct LibraryText<'a> {
    pub bytes: &'a [u8],
    pub scales: Scales,
    pub templates: &'a NameTable<Template>,
    pub no_facts: Rc<PinFacts>,
    ghost units: { AreScales scales },
    ghost none: { no_facts.value ≡ empty_facts },
}
