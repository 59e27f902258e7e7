use crate::cell_pins::CellPins;
use xt_model::Name;

/// A cell: its pins in the order of the text, and whether it has a latch.
#[derive(Drop)]
pub struct Cell {
    pub name: Name,
    pub pins: CellPins,
    pub latch: bool,
}
