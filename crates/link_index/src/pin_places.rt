//! The places of the pins of one cell by name.

ghost use Rattle.std.specs.Prelude.{◌≡◌, position, IfOk};
ghost use Rattle.std.specs.Str.{bytes_eq};
ghost use Rattle.link_index.specs.Cells.{HavePlaces, ArePlaced};

use crate::wires::FEW_PINS;
use liberty_cells::Pin;
use name_numbers::Named;
use std::alloc::{AllocError, Global};

/// The places of the pins of one cell by name. Of few pins there is no table, which would take hundreds of bytes: they
/// are looked through.
#[derive(Drop)]
pub struct PinPlaces<'a> {
    table: Option<Box<Named<'a, usize>>>,
}

/// The place of the first pin of a name.
fn first_place(pins: &[Pin], name: &[u8]) -> Option<usize>
    ensures { result ≡ position (λ p. bytes_eq name.now p.name) pins.now }
{
    pins.iter().position(|pin| pin.name().bytes() == name)
}

impl<'a> PinPlaces<'a> {
    /// What is kept of these pins, whose places a table has.
    pub fn of_pins(
        alloc: Global,
        pins: &'a [Pin],
        table: Named<'a, usize>,
    ) -> Result<PinPlaces<'a>, AllocError>
        requires { HavePlaces pins.now table }
        ensures { IfOk result (ArePlaced pins.entry.now) }
    {
        if pins.len() <= FEW_PINS {
            return Ok(PinPlaces { table: None });
        }
        let table = Box::new(alloc, table)?;
        Ok(PinPlaces { table: Some(table) })
    }

    /// The place of the first of these pins that has a name.
    pub fn get(&self, pins: &'a [Pin], name: &'a [u8]) -> Option<usize>
        requires { ArePlaced pins.now self.now }
        ensures { result ≡ position (λ p. bytes_eq name.entry.now p.name) pins.entry.now }
    {
        match &self.table {
            Some(table) => table.get(name).copied(),
            None => first_place(pins, name),
        }
    }
}
