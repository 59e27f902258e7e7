//! What drives nets.

ghost use Rattle.std.specs.Prelude.{◌≡◌, ◌<◌, ◌++◌, List, [], ◌∷◌, length, Some, None, IsSome, IfSome};
ghost use Rattle.std.specs.Prelude.{IfOk, IfErr, OnOk};
ghost use Rattle.std.specs.List.{slice_get};
ghost use Rattle.liberty_cells.specs.declared.library.Library.{Library};
ghost use Rattle.verilog_net.specs.Bits.{Bit, bits};
ghost use Rattle.link_rules.specs.Circuit.{port_drivers};
ghost use Rattle.link_rules.specs.Ends.{NetEnd};
ghost use Rattle.link_rules.specs.Pins.{Connected, end_of, pins as pins_of};
ghost use Rattle.link_rules.specs.Refusals.{driver_fault};
ghost use Rattle.verilog_net.specs.Sound.{IsSoundNetlist};
ghost use Rattle.link_pins.specs.Answers.{Tests, IsFound};
ghost use Rattle.link_pins.specs.Rows.{IsDriver, AreDrivers};
ghost use Rattle.link_pins.specs.Seen.{bit_at, AreBits, ArePins, HasShortNames, connected_at};

use crate::bits::BitAt;
use crate::names::net_name;
use crate::pins::PinOn;
use crate::sinks::end_of;
use link_index::{CellIndex, NetIndex};
use link_rules::{End, LinkFault, LinkRefusal, NetDriver};
use std::alloc::{AllocError, Global};
use verilog_net::PortRole;

/// The driver of one net, and whether it has another one.
#[derive(Drop)]
pub struct Driver {
    pub end: NetDriver,
    pub twice: bool,
}

impl Driver {
    /// The driver of a net by its port alone: an input port is one.
    fn of_port<'a>(
        alloc: Global,
        nets: &NetIndex<'a>,
        net: u32,
        role: PortRole,
    ) -> Result<Driver, AllocError>
        requires there { net < length (bits nets.now.nets) }
        requires sound { IsSoundNetlist nets.now }
        ensures { IfOk result
            (λ d. (b : Bit) → slice_get (bits nets.now.nets) net ≡ Some b → IsDriver d (port_drivers b role)) }
    {
        let end = match role {
            PortRole::Input => NetDriver::new(alloc, End::port(net_name(alloc, nets, net)?))?,
            _ => NetDriver::none(),
        };
        Ok(Driver { end, twice: false })
    }

    /// Adds a pin that drives the net.
    fn add<'a>(
        &mut self,
        alloc: Global,
        cells: &CellIndex<'a>,
        nets: &NetIndex<'a>,
        pin: PinOn,
    ) -> Result<(), AllocError>
        requires there { IsSome (connected_at cells.now nets.now pin) }
        requires short { IfSome (connected_at cells.now nets.now pin) HasShortNames }
        ensures { OnOk result
            ((ends : List NetEnd) (c : Connected) → connected_at cells.now nets.now pin ≡ Some c
            → IsDriver self.old ends → IsDriver self.new (ends ++ end_of c ∷ [])) }
    {
        if self.end.is_some() {
            self.twice = true;
        } else {
            self.end = NetDriver::new(alloc, end_of(alloc, cells, nets.bits(), pin)?)?;
        }
        Ok(())
    }
}

/// The drivers of all nets by their ports alone.
fn port_drivers<'a>(
    alloc: Global,
    nets: &NetIndex<'a>,
    bits: &[BitAt],
) -> Result<Vec<Driver>, AllocError>
    requires sound { IsSoundNetlist nets.now }
    requires bits { AreBits nets.now.nets bits.now }
    ensures { IfOk result (λ v. AreDrivers nets.now.nets [] v.items) }
{
    let mut drivers = Vec::with_capacity(alloc, nets.count() as usize)?;
    for net in 0..nets.count() {
        drivers.push(Driver::of_port(alloc, nets, net, bits[net as usize].role)?)?;
    }
    Ok(drivers)
}

/// The drivers of all nets.
fn all_drivers<'a>(
    alloc: Global,
    cells: &CellIndex<'a>,
    nets: &NetIndex<'a>,
    bits: &[BitAt],
    pins: &[PinOn],
) -> Result<Vec<Driver>, AllocError>
    requires sound { IsSoundNetlist nets.now }
    requires bits { AreBits nets.now.nets bits.now }
    requires pins { ArePins cells.now nets.now pins.now }
    ensures { IfOk result (λ v. AreDrivers nets.now.nets (pins_of cells.now nets.now) v.items) }
{
    let mut drivers = port_drivers(alloc, nets, bits)?;
    for pin in pins {
        if pin.is_output(cells) {
            drivers[pin.net as usize].add(alloc, cells, nets, *pin)?;
        }
    }
    Ok(drivers)
}

/// Tests the drivers of all nets: the first net with two is refused.
fn check_drivers<'a>(
    alloc: Global,
    nets: &NetIndex<'a>,
    drivers: &[Driver],
) -> Result<(), LinkFault>
    requires sound { IsSoundNetlist nets.now }
    requires count { length drivers.now ≡ length (bits nets.now.nets) }
    ensures { (library : Library) → AreDrivers nets.now.nets (pins_of library nets.now) drivers.now
        → Tests (driver_fault library nets.now) result }
{
    for net in 0..nets.count() {
        if drivers[net as usize].twice {
            return Err(LinkFault::Refused(LinkRefusal::K3 {
                net: net_name(alloc, nets, net)?,
            }));
        }
    }
    Ok(())
}

/// The drivers of all nets; the first net with two is refused.
pub fn drivers_of<'a>(
    alloc: Global,
    cells: &CellIndex<'a>,
    nets: &NetIndex<'a>,
    bits: &[BitAt],
    pins: &[PinOn],
) -> Result<Vec<Driver>, LinkFault>
    requires sound { IsSoundNetlist nets.now }
    requires bits { AreBits nets.now.nets bits.now }
    requires pins { ArePins cells.now nets.now pins.now }
    ensures single { OnOk result (driver_fault cells.now nets.now ≡ None) }
    ensures value { IfOk result (λ v. AreDrivers nets.now.nets (pins_of cells.now nets.now) v.items) }
    ensures fault { IfErr result (IsFound (driver_fault cells.now nets.now)) }
{
    let drivers = all_drivers(alloc, cells, nets, bits, pins)?;
    check_drivers(alloc, nets, &drivers)?;
    Ok(drivers)
}
