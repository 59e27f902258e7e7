//! How many arcs and check points instances have.

ghost use Rattle.std.specs.Prelude.{◌≡◌, ◌+◌, ◌++◌, [], ◌∷◌, List, length};
ghost use Rattle.std.specs.Prelude.{Some, IsSome, IfOk, OnOk};
ghost use Rattle.std.specs.List.{All};
ghost use Rattle.std.specs.Option.{IsSomeAnd};
ghost use Rattle.verilog_net.specs.declared.netlist.Netlist.{Netlist};
ghost use Rattle.link_rules.specs.Checks.{pin_checks};
ghost use Rattle.link_rules.specs.Pins.{Connected, pins as pins_of};
ghost use Rattle.link_pins.specs.Joined.{arc_count, AreCounted};
ghost use Rattle.link_pins.specs.Places.{AreEntered, AreListed, HasRoom, IsPlaced};
ghost use Rattle.link_pins.specs.Known.{AreRight, IsCount};
ghost use Rattle.link_pins.specs.Related.{IsIndexed, group_at, AreKept};
ghost use Rattle.link_pins.specs.Rows.{ArePlaces};
ghost use Rattle.link_pins.specs.Seen.{ArePins, pin_at, connected_at};

use crate::arcs::Places;
use crate::known::{Known, KnownAt};
use crate::pins::PinOn;
use crate::related::Related;
use crate::timings::{most_pins, same_instance};
use link_index::{CellIndex, NetBits};
use std::alloc::{AllocError, Global};

/// How many arcs and check points there are.
#[derive(Clone, Copy, Debug, PartialEq, Eq)]
pub struct Counts {
    pub arcs: u128,
    pub checks: u128,
}

/// The sum of two numbers. One that does not fit 128 bits is out of memory.
pub fn plus(a: u128, b: u128) -> Result<u128, AllocError>
    ensures { IfOk result (λ n. n ≡ a + b) }
{
    match a.checked_add(b) {
        Some(sum) => Ok(sum),
        None => Err(AllocError),
    }
}

/// How many arcs or check points there are from those related pins of a pin that are sinks: counted once for the pins
/// of an instance that have one group.
fn count_at(
    alloc: Global,
    related: &Related<'_>,
    places: &Places,
    pin: PinOn,
    known: &mut Known<u128>,
) -> Result<u128, AllocError>
    requires there { IsSomeAnd (group_at related.now.cells.items pin) IsIndexed }
    requires listed { AreListed places.now }
    requires known { AreRight (IsCount places.now.at.items) related.now.cells.items places.now.from known.old.of.items }
    ensures count { IfOk result
        (λ n. IsSomeAnd (group_at related.now.cells.items pin) (IsCount places.now.at.items n)) }
    ensures known { OnOk result
        (AreRight (IsCount places.now.at.items) related.now.cells.items places.now.from known.new.of.items) }
{
    let number = related.number(pin);
    let from = places.from();
    let cell = pin.cell as usize;
    if let Some(count) = known.get(number, cell, from) {
        return Ok(*count);
    }
    let value = related.group(pin).count(alloc, places)?;
    known.put(number, KnownAt { from, cell, value })?;
    Ok(value)
}

/// How many arcs a pin has into its net.
fn arcs_at<'a>(
    alloc: Global,
    cells: &CellIndex<'a>,
    related: &Related<'a>,
    places: &Places,
    pin: PinOn,
    known: &mut Known<u128>,
) -> Result<u128, AllocError>
    requires there { IsSome (pin_at cells.now pin) }
    requires related { AreKept cells.now related.now.cells.items }
    requires listed { AreListed places.now }
    requires known { AreRight (IsCount places.now.at.items) related.now.cells.items places.now.from known.old.of.items }
    ensures count { IfOk result
        (λ n. (netlist : Netlist) (c : Connected) → connected_at cells.now netlist pin ≡ Some c
        → AreEntered cells.now netlist pin.instance pin.cell places.now.at.items → n ≡ arc_count cells.now netlist c) }
    ensures known { OnOk result
        (AreRight (IsCount places.now.at.items) related.now.cells.items places.now.from known.new.of.items) }
{
    if pin.is_output(cells) {
        return count_at(alloc, related, places, pin, known);
    }
    Ok(0)
}

/// How many check points a pin has.
fn checks_at<'a>(
    alloc: Global,
    cells: &CellIndex<'a>,
    related: &Related<'a>,
    places: &Places,
    pin: PinOn,
    known: &mut Known<u128>,
) -> Result<u128, AllocError>
    requires there { IsSome (pin_at cells.now pin) }
    requires related { AreKept cells.now related.now.cells.items }
    requires listed { AreListed places.now }
    requires room { HasRoom cells.now places.now.at.items }
    requires known { AreRight (IsCount places.now.at.items) related.now.cells.items places.now.from known.old.of.items }
    ensures count { IfOk result
        (λ n. (netlist : Netlist) (c : Connected) → connected_at cells.now netlist pin ≡ Some c
        → AreEntered cells.now netlist pin.instance pin.cell places.now.at.items
        → n ≡ length (pin_checks cells.now netlist c)) }
    ensures known { OnOk result
        (AreRight (IsCount places.now.at.items) related.now.cells.items places.now.from known.new.of.items) }
{
    let part = pin.of(cells);
    if !pin.is_input(cells) {
        return Ok(0);
    }
    match places.find(cells, pin.cell as usize, part.name().bytes()) {
        None => Ok(0),
        Some(_) => count_at(alloc, related, places, pin, known),
    }
}

impl Counts {
    /// Adds the arcs and the check points of a pin.
    fn add<'a>(
        &mut self,
        alloc: Global,
        cells: &CellIndex<'a>,
        related: &Related<'a>,
        places: &Places,
        pin: PinOn,
        known: &mut Known<u128>,
    ) -> Result<(), AllocError>
        requires there { IsSome (pin_at cells.now pin) }
        requires related { AreKept cells.now related.now.cells.items }
        requires listed { AreListed places.now }
        requires room { HasRoom cells.now places.now.at.items }
        requires known { AreRight (IsCount places.now.at.items) related.now.cells.items places.now.from
            known.old.of.items }
        ensures counted { OnOk result
            ((netlist : Netlist) (done : List Connected) (c : Connected) → connected_at cells.now netlist pin ≡ Some c
            → AreEntered cells.now netlist pin.instance pin.cell places.now.at.items
            → AreCounted cells.now netlist done self.old → AreCounted cells.now netlist (done ++ c ∷ []) self.new) }
        ensures known { OnOk result
            (AreRight (IsCount places.now.at.items) related.now.cells.items places.now.from known.new.of.items) }
    {
        self.arcs = plus(
            self.arcs,
            arcs_at(alloc, cells, related, places, pin, known)?,
        )?;
        self.checks = plus(
            self.checks,
            checks_at(alloc, cells, related, places, pin, known)?,
        )?;
        Ok(())
    }
}

/// How many arcs and check points all instances have; the places are those of pins among the sinks of their nets.
pub fn counts_of<'a>(
    alloc: Global,
    cells: &CellIndex<'a>,
    nets: &NetBits<'a>,
    pins: &[PinOn],
    sinks: &[u32],
) -> Result<Counts, AllocError>
    requires pins { ArePins cells.now nets.now pins.now }
    requires placed { All (IsPlaced cells.now nets.now) pins.now }
    requires places { ArePlaces (pins_of cells.now nets.now) sinks.now }
    ensures { IfOk result (AreCounted cells.now nets.now (pins_of cells.now nets.now)) }
{
    let mut counts = Counts { arcs: 0, checks: 0 };
    let related = Related::new(alloc, cells)?;
    let mut places = Places::new(alloc, most_pins(cells))?;
    let mut known = Known::new(alloc);
    let mut from = 0;
    'instances: while from < pins.len() {
        let to = same_instance(pins, from);
        places.enter(cells, pins, sinks, from, to)?;
        for k in from..to {
            counts.add(alloc, cells, &related, &places, pins[k], &mut known)?;
        }
        places.clear(pins, from, to);
        from = to;
    }
    Ok(counts)
}
