//! The check points of input pins and of output ports.

ghost use Rattle.std.specs.Prelude.{◌≡◌, ℕ, ◌++◌, Some, IsSome, IfSome, OnOk};
ghost use Rattle.xt_model.specs.Names.{IsName};
ghost use Rattle.sdc_read.specs.Ports.{port_at};
ghost use Rattle.link_rules.specs.Checks.{side_of, pin_checks, side_check, set_checks};
ghost use Rattle.link_rules.specs.Pins.{Connected};
ghost use Rattle.link_pins.specs.Places.{AreEntered, HasRoom};
ghost use Rattle.link_pins.specs.Related.{clock_of, AreFound};
ghost use Rattle.link_pins.specs.Seen.{HasShortNames, connected_at};

use crate::arcs::{Places, SinkAt};
use crate::bits::BitAt;
use crate::pins::PinOn;
use crate::related::RelatedPin;
use crate::sinks::end_of;
use liberty_cells::TimingKind;
use link_index::{CellIndex, NetBits};
use sdc_read::Constraints;
use std::alloc::{AllocError, Global};
use xt_model::{CheckPoint, Name, NetId};

/// Whether a timing group is a check, and then whether it is one of hold.
pub fn side_of(kind: TimingKind) -> Option<bool>
    ensures { result ≡ side_of kind }
{
    match kind {
        TimingKind::SetupRising => Some(false),
        TimingKind::HoldRising => Some(true),
        _ => None,
    }
}

/// Whether a check against a related pin is one of hold, and the sink that the pin is.
fn clock_of(one: &RelatedPin<'_>, places: &Places) -> Option<(bool, SinkAt)>
    ensures { result ≡ clock_of places.now.at.items one.now }
{
    let hold = side_of(one.timing.kind)?;
    let clock = places.sink(one.pin)?;
    Some((hold, clock))
}

/// Adds the check points of an input pin against those of its related pins that are sinks, in order.
pub fn add_pin_checks<'a>(
    alloc: Global,
    cells: &CellIndex<'a>,
    nets: &NetBits<'a>,
    related: &[RelatedPin<'a>],
    places: &Places,
    pin: PinOn,
    checks: &mut Vec<CheckPoint>,
) -> Result<(), AllocError>
    requires there { IsSome (connected_at cells.now nets.now pin) }
    requires short { IfSome (connected_at cells.now nets.now pin) HasShortNames }
    requires found { AreFound cells.now places.now.at.items pin related.now }
    requires room { HasRoom cells.now places.now.at.items }
    ensures { OnOk result
        ((c : Connected) → connected_at cells.now nets.now pin ≡ Some c
        → AreEntered cells.now nets.now pin.instance pin.cell places.now.at.items
        → checks.new.items ≡ checks.old.items ++ pin_checks cells.now nets.now c) }
{
    let part = pin.of(cells);
    if !pin.is_input(cells) {
        return Ok(());
    }
    let Some(datum) = places.find(cells, pin.cell as usize, part.name().bytes()) else {
        return Ok(());
    };
    for one in related {
        if let Some((hold, clock)) = clock_of(one, places) {
            checks.push(CheckPoint::Flop {
                name: end_of(alloc, cells, nets, pin)?.into_name(),
                hold,
                datum: NetId(datum.net),
                datum_sink: datum.sink,
                clock: NetId(clock.net),
                clock_sink: clock.sink,
                rise: one.timing.rise,
                fall: one.timing.fall,
            })?;
        }
    }
    Ok(())
}

/// Adds the points of a side of an output port, where one of its edges has a number.
fn add_side(
    alloc: Global,
    name: &[u8],
    hold: bool,
    at: (u32, u32),
    delays: (Option<i64>, Option<i64>),
    checks: &mut Vec<CheckPoint>,
) -> Result<(), AllocError>
    requires { IsName name.now }
    ensures { OnOk result
        (checks.new.items ≡ checks.old.items ++ side_check name.now hold at.0 at.1 delays.0 delays.1) }
{
    let (rise, fall) = delays;
    if rise.is_some() || fall.is_some() {
        checks.push(CheckPoint::Port {
            name: Name::from_slice(alloc, name)?,
            hold,
            net: NetId(at.0),
            sink: at.1,
            rise,
            fall,
        })?;
    }
    Ok(())
}

/// Adds the check points of an output port, which is a sink at these numbers of its net and of itself there: setup by
/// the greatest delays, then hold by the least.
pub fn add_port_checks(
    alloc: Global,
    name: &[u8],
    constraints: &Constraints,
    bit: BitAt,
    at: (u32, u32),
    checks: &mut Vec<CheckPoint>,
) -> Result<(), AllocError>
    requires { IsName name.now }
    ensures { OnOk result
        (checks.new.items
        ≡ checks.old.items ++ set_checks name.now at.0 at.1 (port_at bit.decl bit.bit constraints.now.ports)) }
{
    if let Some(set) = constraints.ports.find(bit.decl, bit.bit) {
        let output = set.output;
        add_side(
            alloc,
            name,
            false,
            at,
            (output.rise_max, output.fall_max),
            checks,
        )?;
        add_side(
            alloc,
            name,
            true,
            at,
            (output.rise_min, output.fall_min),
            checks,
        )?;
    }
    Ok(())
}
