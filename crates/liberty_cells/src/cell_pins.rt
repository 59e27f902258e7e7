use crate::pin::Pin;
use std::marker::Model;

/// The pins of a cell in the order of the text; contracts see the list of them. The pins of one group of the text
/// differ in their names alone, and the place of the first of them is kept: what they have in common need be looked at
/// only there. Where each pin is the first of its group no place is kept.
#[derive(Drop)]
pub struct CellPins {
    pins: Vec<Pin>,
    firsts: Vec<usize>,
}

impl Model for CellPins {
    ghost use Rattle.std.specs.Prelude.{List};
    ghost use Rattle.liberty_cells.specs.Pins.{PinParts};
    ghost use Rattle.liberty_cells.specs.Firsts.{AreFirsts};

    ghost Value = { List PinParts };

    ghost view = { λ c. c.pins.items };

    ghost invariant = { λ c. AreFirsts c.pins.items c.firsts.items };
}

impl CellPins {
    ghost use Rattle.std.specs.Prelude.{◌≡◌, ◌<◌, length};
    ghost use Rattle.liberty_cells.specs.Firsts.{AreFirsts, IsFirst};

    /// Pins, with the places of the first pins of their groups.
    pub fn new(mut pins: Vec<Pin>, mut firsts: Vec<usize>) -> CellPins
        requires { AreFirsts pins.items firsts.items }
        ensures { result ≡ pins.items }
    {
        if firsts.len() == pins.len() {
            firsts.clear();
        }
        pins.shrink_to_fit();
        firsts.shrink_to_fit();
        CellPins { pins, firsts }
    }

    /// The pins.
    pub fn as_slice(&self) -> &[Pin]
        ensures { result.now ≡ self.now }
    {
        self.pins.as_slice()
    }

    /// How many pins there are.
    pub fn len(&self) -> usize
        ensures { result ≡ length self.now }
    {
        self.pins.len()
    }

    /// The place of the first pin of the group of the pin at a place.
    pub fn first(&self, place: usize) -> usize
        requires { place < length self.now }
        ensures { IsFirst self.now place result }
    {
        match self.firsts.binary_search(&place) {
            Err(after) if 0 < after => self.firsts[after - 1],
            _ => place,
        }
    }
}
