//! Lists of attributes of which most have none or one.

ghost use Rattle.std.specs.Prelude.{◌≡◌};

use crate::group::Attribute;
use std::alloc::{AllocError, Global};
use std::marker::Model;
use std::{mem, slice};

/// Attributes: none, one, or a list of more.
#[derive(Debug, Drop)]
enum Kept {
    None,
    One(Box<Attribute>),
    Many(Box<Vec<Attribute>>),
}

/// A list of attributes of 16 bytes, which takes no memory of its own while it has none.
#[derive(Debug, Drop)]
pub struct Attributes {
    kept: Kept,
}

impl Model for Attributes {
    ghost use Rattle.std.specs.Prelude.{List};
    ghost use Rattle.liberty_groups.specs.declared.group.Attribute.{Attribute};
    ghost use Rattle.liberty_groups.specs.Attributes.{attributes_kept};

    ghost Value = { List Attribute };

    ghost view = { λ a. attributes_kept a.kept };
}

impl Attributes {
    ghost use Rattle.std.specs.Prelude.{[], ◌∷◌, ◌++◌, OnOk};

    /// No attribute.
    pub fn none() -> Attributes
        ensures { result ≡ [] }
    {
        Attributes { kept: Kept::None }
    }

    /// The attributes.
    pub fn as_slice(&self) -> &[Attribute]
        ensures { result.now ≡ self.now }
    {
        match &self.kept {
            Kept::None => &[],
            Kept::One(attribute) => slice::from_ref(attribute.as_ref()),
            Kept::Many(attributes) => attributes.as_slice(),
        }
    }

    /// One more attribute.
    pub fn push(&mut self, alloc: Global, attribute: Attribute) -> Result<(), AllocError>
        ensures { OnOk result (self.new ≡ self.old ++ attribute ∷ []) }
    {
        match mem::replace(&mut self.kept, Kept::None) {
            Kept::None => self.kept = Kept::One(Box::new(alloc, attribute)?),
            Kept::One(first) => {
                let mut attributes = Vec::new(alloc);
                attributes.push(Box::into_inner(first))?;
                attributes.push(attribute)?;
                self.kept = Kept::Many(Box::new(alloc, attributes)?);
            }
            Kept::Many(mut attributes) => {
                attributes.push(attribute)?;
                self.kept = Kept::Many(attributes);
            }
        }
        Ok(())
    }

    /// Gives back the room to spare.
    pub fn shrink(&mut self)
        ensures { self.new ≡ self.old }
    {
        if let Kept::Many(attributes) = &mut self.kept {
            attributes.shrink_to_fit();
        }
    }
}
