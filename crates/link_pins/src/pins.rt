//! The pins of instances that are on nets.

ghost use Rattle.std.specs.Prelude.{◌≡◌, ◌≤◌, ◌++◌, length, map, filter_map, Some, IsSome, IfOk, OnOk};
ghost use Rattle.std.specs.List.{All, slice_get};
ghost use Rattle.std.specs.Option.{IsSomeAnd, option_to_list};
ghost use Rattle.xt_model.specs.Limits.{most_instances};
ghost use Rattle.link_rules.specs.Pins.{connected, is_input, is_output};
ghost use Rattle.link_index.specs.Cells.{cell_place};
ghost use Rattle.link_pins.specs.Places.{IsPlaced};
ghost use Rattle.link_pins.specs.Seen.{ArePins, pin_at, connected_at};

use liberty_cells::{Pin, Role};
use link_index::{CellIndex, NetIndex};
use std::alloc::{AllocError, Global};
use verilog_net::{Instance, Name, Wire};

/// A pin of the instance of this number that is on a net: the places of its cell in the library and of itself in the
/// cell, and the number of the net.
#[derive(Clone, Copy)]
pub struct PinOn {
    pub instance: u32,
    pub cell: u32,
    pub pin: u32,
    pub net: u32,
}

impl PinOn {
    /// A pin by these numbers. Places that do not fit 32 bits are out of memory.
    fn new(instance: u32, cell: usize, pin: usize, net: u32) -> Result<PinOn, AllocError>
        ensures { IfOk result (λ p. p ≡ record { instance = instance; cell = cell; pin = pin; net = net }) }
    {
        let Ok(cell) = u32::try_from(cell) else {
            return Err(AllocError);
        };
        let Ok(pin) = u32::try_from(pin) else {
            return Err(AllocError);
        };
        Ok(PinOn {
            instance,
            cell,
            pin,
            net,
        })
    }

    /// The pin of the library.
    pub fn of<'a>(self, cells: &CellIndex<'a>) -> &'a Pin
        requires { IsSome (pin_at cells.now self) }
        ensures { pin_at cells.now self ≡ Some result.now }
    {
        &cells.library().cells.as_slice()[self.cell as usize]
            .pins
            .as_slice()[self.pin as usize]
    }

    /// Whether it is an input pin.
    pub fn is_input<'a>(self, cells: &CellIndex<'a>) -> bool
        requires { IsSome (pin_at cells.now self) }
        ensures { IsSomeAnd (pin_at cells.now self) (λ p. result ≡ is_input p.role) }
    {
        match self.of(cells).role() {
            Role::Input => true,
            _ => false,
        }
    }

    /// Whether it is an output pin.
    pub fn is_output<'a>(self, cells: &CellIndex<'a>) -> bool
        requires { IsSome (pin_at cells.now self) }
        ensures { IsSomeAnd (pin_at cells.now self) (λ p. result ≡ is_output p.role) }
    {
        match self.of(cells).role() {
            Role::Output => true,
            _ => false,
        }
    }
}

/// Adds a pin of the instance of this number, whose cell is at this place: where the cell has it and it is on a
/// net.
fn add_pin<'a>(
    cells: &CellIndex<'a>,
    nets: &NetIndex<'a>,
    number: u32,
    instance: &Instance,
    cell: usize,
    pin: &'a (Name, Wire),
    pins: &mut Vec<PinOn>,
) -> Result<(), AllocError>
    requires number { slice_get nets.now.instances number ≡ Some instance.now }
    requires cell { cell_place cells.now instance.now.cell ≡ Some cell }
    ensures added { OnOk result
        (map (connected_at cells.now nets.now) pins.new.items
        ≡ map (connected_at cells.now nets.now) pins.old.items
        ++ map Some (option_to_list (connected cells.now nets.now number instance.now pin.entry.now))) }
    ensures placed { OnOk result
        (All (IsPlaced cells.now nets.now) pins.old.items → All (IsPlaced cells.now nets.now) pins.new.items) }
{
    if let Some(place) = cells.pin(cell, pin.0.bytes()) {
        if let Some(net) = nets.net_of(pin.1) {
            pins.push(PinOn::new(number, cell, place, net)?)?;
        }
    }
    Ok(())
}

/// Adds the pins of an instance that are on nets.
fn add_pins<'a>(
    cells: &CellIndex<'a>,
    nets: &NetIndex<'a>,
    number: u32,
    instance: &'a Instance,
    pins: &mut Vec<PinOn>,
) -> Result<(), AllocError>
    requires { slice_get nets.now.instances number ≡ Some instance.now }
    ensures added { OnOk result
        (map (connected_at cells.now nets.now) pins.new.items
        ≡ map (connected_at cells.now nets.now) pins.old.items
        ++ map Some (filter_map (connected cells.now nets.now number instance.entry.now) instance.entry.now.pins)) }
    ensures placed { OnOk result
        (All (IsPlaced cells.now nets.now) pins.old.items → All (IsPlaced cells.now nets.now) pins.new.items) }
{
    let Some(cell) = cells.cell(instance.cell.bytes()) else {
        return Ok(());
    };
    let mut rest = instance.pins.as_slice();
    'pins: while let [pin, more @ ..] = rest {
        add_pin(cells, nets, number, instance, cell, pin, pins)?;
        rest = more;
    }
    Ok(())
}

/// All pins on nets: instances in the order of the text, and pins in the order of the text.
pub fn pins_on<'a>(
    alloc: Global,
    cells: &CellIndex<'a>,
    nets: &NetIndex<'a>,
) -> Result<Vec<PinOn>, AllocError>
    requires { length nets.now.instances ≤ most_instances }
    ensures all { IfOk result (λ pins. ArePins cells.now nets.now pins.items) }
    ensures placed { IfOk result (λ pins. All (IsPlaced cells.now nets.now) pins.items) }
{
    let mut pins = Vec::new(alloc);
    let instances = nets.netlist().instances.as_slice();
    for number in 0..instances.len() {
        add_pins(cells, nets, number as u32, &instances[number], &mut pins)?;
    }
    Ok(pins)
}
