//! Nets from what was gathered for them.

ghost use Rattle.std.specs.Prelude.{◌≡◌, ◌<◌, ◌++◌, [], length, map, Some, IfOk, OnOk};
ghost use Rattle.std.specs.List.{slice_get};
ghost use Rattle.liberty_cells.specs.declared.library.Library.{Library};
ghost use Rattle.verilog_net.specs.Bits.{Bit, bits as bits_of};
ghost use Rattle.link_rules.specs.Checks.{port_checks, port_checks_from};
ghost use Rattle.link_rules.specs.Circuit.{net_pins as pins_by, numbered, sinks_of};
ghost use Rattle.link_rules.specs.Given.{is_input_port};
ghost use Rattle.link_rules.specs.Pins.{pins as pins_of};
ghost use Rattle.verilog_net.specs.Sound.{IsSoundNetlist};
ghost use Rattle.link_pins.specs.Joined.{without_arcs};
ghost use Rattle.link_pins.specs.Rows.{AreDrivers, AreSinks};
ghost use Rattle.link_pins.specs.Seen.{bit_at, AreBits};

use crate::bits::BitAt;
use crate::checks::add_port_checks;
use crate::drivers::Driver;
use crate::given::given;
use crate::lists::take_last;
use crate::names::net_name;
use crate::sinks::NetSinks;
use link_index::{CellIndex, NetIndex};
use link_rules::NetPins;
use sdc_read::Constraints;
use std::alloc::{AllocError, Global};
use verilog_net::PortRole;
use xt_model::{CheckPoint, GivenPair, Name, Row};

/// What was gathered for each net: its driver and its sinks.
#[derive(Drop)]
pub struct Gathered {
    pub drivers: Vec<Driver>,
    pub sinks: Vec<NetSinks>,
}

/// Adds the check points of the port of a net, where it is an output port, the last of this many sinks. More than fit
/// 32 bits are out of memory.
fn add_port<'a>(
    alloc: Global,
    nets: &NetIndex<'a>,
    net: u32,
    constraints: &Constraints,
    bit: BitAt,
    sinks: usize,
    checks: &mut Vec<CheckPoint>,
) -> Result<(), AllocError>
    requires there { net < length (bits_of nets.now.nets) }
    requires sound { IsSoundNetlist nets.now }
    ensures { OnOk result
        ((library : Library) (b : Bit) → slice_get (bits_of nets.now.nets) net ≡ Some b → bit ≡ bit_at b
        → sinks ≡ length (sinks_of library nets.now constraints.now (net, b))
        → checks.new.items ≡ checks.old.items ++ port_checks library nets.now constraints.now net b b.role) }
{
    match bit.role {
        PortRole::Output => {
            let Ok(last) = u32::try_from(sinks.saturating_sub(1)) else {
                return Err(AllocError);
            };
            let name = net_name(alloc, nets, net)?;
            add_port_checks(alloc, name.bytes(), constraints, bit, (net, last), checks)
        }
        _ => Ok(()),
    }
}

/// Adds the check points of all output ports.
pub fn add_all_ports<'a>(
    alloc: Global,
    cells: &CellIndex<'a>,
    nets: &NetIndex<'a>,
    constraints: &Constraints,
    bits: &[BitAt],
    sinks: &[NetSinks],
    checks: &mut Vec<CheckPoint>,
) -> Result<(), AllocError>
    requires bits { AreBits nets.now.nets bits.now }
    requires sinks { AreSinks cells.now nets.now constraints.now sinks.now }
    ensures { OnOk result
        (checks.new.items
        ≡ checks.old.items ++ port_checks_from cells.now nets.now constraints.now 0 (bits_of nets.now.nets)) }
{
    for net in 0..nets.count() {
        let place = net as usize;
        add_port(
            alloc,
            nets,
            net,
            constraints,
            bits[place],
            sinks[place].sinks.len(),
            checks,
        )?;
    }
    Ok(())
}

/// A net by its pins, without arcs.
fn net_pins(
    alloc: Global,
    name: Name,
    role: PortRole,
    given: GivenPair,
    driver: Driver,
    sinks: NetSinks,
) -> NetPins
    ensures name { result.name ≡ name }
    ensures input { result.input ≡ is_input_port role }
    ensures given { result.given ≡ given }
    ensures driver { result.driver ≡ driver.end }
    ensures sinks { result.sinks ≡ sinks.sinks.items }
    ensures arcs { result.arcs ≡ [] }
{
    let Driver { end, twice: _ } = driver;
    let NetSinks { sinks } = sinks;
    NetPins {
        name,
        input: role == PortRole::Input,
        given,
        driver: end,
        sinks: Row::from_vec(sinks),
        arcs: Row::from_vec(Vec::new(alloc)),
    }
}

/// All nets by their pins, without arcs. What was gathered is used up from the end of lists in reverse, so that its
/// memory is given back.
pub fn all_nets<'a>(
    alloc: Global,
    cells: &CellIndex<'a>,
    nets: &NetIndex<'a>,
    constraints: &Constraints,
    bits: &[BitAt],
    gathered: Gathered,
) -> Result<Vec<NetPins>, AllocError>
    requires bits { AreBits nets.now.nets bits.now }
    requires drivers { AreDrivers nets.now.nets (pins_of cells.now nets.now) gathered.drivers.items }
    requires sinks { AreSinks cells.now nets.now constraints.now gathered.sinks.items }
    ensures { IfOk result
        (λ v. v.items ≡ map (λ n. without_arcs (pins_by cells.now nets.now constraints.now n)) (numbered nets.now)) }
{
    let Gathered {
        mut drivers,
        mut sinks,
    } = gathered;
    drivers.reverse();
    sinks.reverse();
    let mut made = Vec::with_capacity(alloc, nets.count() as usize)?;
    for net in 0..nets.count() {
        let bit = bits[net as usize];
        let windows = GivenPair::new(alloc, given(constraints, bit))?;
        let name = net_name(alloc, nets, net)?;
        let Some(driver) = take_last(&mut drivers) else {
            unreachable!()
        };
        let Some(row) = take_last(&mut sinks) else {
            unreachable!()
        };
        made.push(net_pins(alloc, name, bit.role, windows, driver, row))?;
    }
    Ok(made)
}
