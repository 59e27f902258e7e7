//! Instances and their pins by name.

ghost use Rattle.std.specs.Prelude.{◌≡◌, ◌<◌, ◌^◌, length, IfOk};
ghost use Rattle.std.specs.List.{AllZip};
ghost use Rattle.name_numbers.specs.Names.{value_of};
ghost use Rattle.link_index.specs.Nets.{HaveNumbers, HaveWires, AreWired};

use crate::first::set_first;
use name_numbers::{Named, TextKey};
use std::alloc::{AllocError, Global};
use verilog_net::{Instance, Name, Wire};

/// The most pins of an instance or a cell of which there is no table.
pub const FEW_PINS: usize = 16;

/// What the pins of an instance are connected to, by name.
fn wires_of<'a>(
    alloc: Global,
    key: TextKey,
    pins: &'a [(Name, Wire)],
) -> Result<Named<'a, Wire>, AllocError>
    ensures { IfOk result (HaveWires pins.entry.now) }
{
    let mut wires = Named::new(alloc, key);
    let mut rest = pins;
    'pins: while let [pin, more @ ..] = rest {
        set_first(&mut wires, pin.0.bytes(), pin.1)?;
        rest = more;
    }
    Ok(wires)
}

/// What the first pin of a name is connected to.
fn first_wire(pins: &[(Name, Wire)], name: &[u8]) -> Option<Wire>
    ensures { result ≡ value_of name.now pins.now }
{
    let mut rest = pins;
    'pins: while let [pin, more @ ..] = rest {
        if name == pin.0.bytes() {
            return Some(pin.1);
        }
        rest = more;
    }
    None
}

/// What the pins of one instance are connected to, by name: a list of one table, or of none where there are few pins,
/// since a table would take hundreds of bytes: these are looked through.
#[derive(Drop)]
pub struct PinWires<'a> {
    tables: Vec<Named<'a, Wire>>,
}

impl<'a> PinWires<'a> {
    /// What is kept of these pins.
    fn of_pins(
        alloc: Global,
        key: TextKey,
        pins: &'a [(Name, Wire)],
    ) -> Result<PinWires<'a>, AllocError>
        ensures { IfOk result (AreWired pins.entry.now) }
    {
        if pins.len() <= FEW_PINS {
            return Ok(PinWires {
                tables: Vec::new(alloc),
            });
        }
        let mut tables = Vec::with_capacity(alloc, 1)?;
        tables.push(wires_of(alloc, key, pins)?)?;
        Ok(PinWires { tables })
    }

    /// What the first of these pins that has a name is connected to.
    pub fn get(&self, pins: &'a [(Name, Wire)], name: &'a [u8]) -> Option<Wire>
        requires { AreWired pins.now self.now }
        ensures { result ≡ value_of name.entry.now pins.entry.now }
    {
        match self.tables.first() {
            Some(table) => table.get(name).copied(),
            None => first_wire(pins, name),
        }
    }
}

/// What is kept of the pins of all instances.
pub fn all_wires<'a>(
    alloc: Global,
    key: TextKey,
    instances: &'a [Instance],
) -> Result<Vec<PinWires<'a>>, AllocError>
    ensures { IfOk result (λ v. AllZip (λ i. AreWired i.pins) instances.entry.now v.items) }
{
    let mut wires = Vec::with_capacity(alloc, instances.len())?;
    let mut rest = instances;
    'instances: while let [instance, more @ ..] = rest {
        wires.push(PinWires::of_pins(alloc, key, instance.pins.as_slice())?)?;
        rest = more;
    }
    Ok(wires)
}

/// The numbers of instances by name.
pub fn numbers_of<'a>(
    alloc: Global,
    key: TextKey,
    instances: &'a [Instance],
) -> Result<Named<'a, u32>, AllocError>
    requires { length instances.now < 2 ^ 32 }
    ensures { IfOk result (HaveNumbers instances.entry.now) }
{
    let mut numbers = Named::new(alloc, key);
    let mut number = 0;
    let mut rest = instances;
    'instances: while let [instance, more @ ..] = rest {
        set_first(&mut numbers, instance.name.bytes(), number)?;
        number += 1;
        rest = more;
    }
    Ok(numbers)
}
