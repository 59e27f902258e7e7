use crate::timing::Timing;
use std::alloc::{AllocError, Global};
use std::marker::Model;
use std::rc::Rc;
use xt_model::{Name, Row};

/// What a pin of a cell is to the nets.
#[derive(Clone, Copy, Debug, PartialEq, Eq)]
pub enum Role {
    Input,
    Output,
    Inout,
    Other,
}

/// What a group of the text says of its pins, besides their names: their capacitance in aF, and their timing groups in
/// the order of the text.
#[derive(Drop)]
pub struct PinFacts {
    pub role: Role,
    pub cap: i64,
    pub timings: Row<Timing>,
}

/// A pin of a cell: its capacitance in aF, and its timing groups in the order of the text. What the pins of one group
/// of the text have in common is kept once.
#[derive(Drop)]
pub struct Pin {
    name: Name,
    facts: Rc<PinFacts>,
}

impl Model for Pin {
    ghost use Rattle.liberty_cells.specs.Pins.{PinParts};

    ghost Value = { PinParts };

    ghost view = { λ p. record {
      name = p.name;
      role = p.facts.value.role;
      cap = p.facts.value.cap;
      timings = p.facts.value.timings;
    } };
}

impl Pin {
    ghost use Rattle.std.specs.Prelude.{◌≡◌, IfOk};
    ghost use Rattle.liberty_cells.specs.Facts.{pin_of};

    /// A pin by its name and what its group says.
    pub fn new(name: Name, facts: &Rc<PinFacts>) -> Result<Pin, AllocError>
        ensures { IfOk result (λ pin. pin ≡ pin_of facts.now.value name) }
    {
        Ok(Pin {
            name,
            facts: facts.clone()?,
        })
    }

    /// The name.
    pub fn name(&self) -> &Name
        ensures { result.now ≡ self.now.name }
    {
        &self.name
    }

    /// What the pin is to the nets.
    pub fn role(&self) -> Role
        ensures { result ≡ self.now.role }
    {
        self.facts.role
    }

    /// The capacitance, in aF.
    pub fn cap(&self) -> i64
        ensures { result ≡ self.now.cap }
    {
        self.facts.cap
    }

    /// The timing groups.
    pub fn timings(&self) -> &[Timing]
        ensures { result.now ≡ self.now.timings }
    {
        self.facts.timings.as_slice()
    }
}
