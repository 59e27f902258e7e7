//! Lists of places of which most have one.

ghost use Rattle.std.specs.Prelude.{◌≡◌};

use std::alloc::{AllocError, Global};
use std::marker::Model;

/// Places: none, one, or a list of more.
#[derive(Drop)]
enum Kept {
    None,
    One(u32),
    Many(Box<Vec<u32>>),
}

/// A list of places of 16 bytes; contracts see the places. One alone takes no memory of its own.
#[derive(Drop)]
pub struct PlaceList {
    kept: Kept,
}

impl Model for PlaceList {
    ghost use Rattle.std.specs.Prelude.{List, ℕ};
    ghost use Rattle.link_pins.specs.PlaceLists.{kept_places};

    ghost Value = { List ℕ };

    ghost view = { λ p. kept_places p.kept };
}

impl PlaceList {
    ghost use Rattle.std.specs.Prelude.{[], ◌∷◌, ◌++◌, OnOk};

    /// No place.
    pub fn none() -> PlaceList
        ensures { result ≡ [] }
    {
        PlaceList { kept: Kept::None }
    }

    /// Adds the places after others.
    pub fn add_to(&self, places: &mut Vec<u32>) -> Result<(), AllocError>
        ensures { OnOk result (places.new.items ≡ places.old.items ++ self.now) }
    {
        match &self.kept {
            Kept::None => {}
            Kept::One(place) => places.push(*place)?,
            Kept::Many(more) => places.extend_from_slice(more.as_slice())?,
        }
        Ok(())
    }

    /// Adds a place at the end.
    pub fn push(&mut self, alloc: Global, place: u32) -> Result<(), AllocError>
        ensures { OnOk result (self.new ≡ self.old ++ place ∷ []) }
    {
        match &mut self.kept {
            Kept::None => self.kept = Kept::One(place),
            Kept::One(first) => {
                let first = *first;
                let mut places = Vec::with_capacity(alloc, 2)?;
                places.push(first)?;
                places.push(place)?;
                self.kept = Kept::Many(Box::new(alloc, places)?);
            }
            Kept::Many(places) => places.push(place)?,
        }
        Ok(())
    }
}
