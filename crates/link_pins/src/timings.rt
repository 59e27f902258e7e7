//! The arcs into nets and the check points of instances.

ghost use Rattle.std.specs.Prelude.{◌≡◌, ℕ, ◌<◌, ◌≤◌, ◌⊎◌, ◌++◌, [], ◌∷◌, List, length, Some, IsSome, IfSome};
ghost use Rattle.std.specs.Prelude.{IfOk, OnOk};
ghost use Rattle.std.specs.List.{All, slice_get};
ghost use Rattle.std.specs.Option.{IsSomeAnd};
ghost use Rattle.verilog_net.specs.Bits.{bits};
ghost use Rattle.link_rules.specs.Pins.{Connected, pins as pins_of};
ghost use Rattle.verilog_net.specs.Sound.{IsSoundNetlist};
ghost use Rattle.link_pins.specs.Places.{AreEntered, AreListed, HasRoom, IsPlaced, IsStretch};
ghost use Rattle.link_pins.specs.Known.{known as held, AreRight, AreSinksOf};
ghost use Rattle.link_pins.specs.Related.{IsIndexed, AreFound, number_at, group_at, AreKept};
ghost use Rattle.link_pins.specs.Rows.{ArePlaces, AreTimed};
ghost use Rattle.link_pins.specs.Seen.{ArePins, HasShortNames, connected_at};

use crate::arcs::{Places, add_pin_arcs};
use crate::checks::add_pin_checks;
use crate::known::{Known, KnownAt};
use crate::pins::PinOn;
use crate::related::{Related, RelatedPin};
use link_index::{CellIndex, NetBits};
use std::alloc::{AllocError, Global};
use xt_model::{CheckPoint, TimingArc};

/// The arcs into one net.
#[derive(Drop)]
pub struct NetArcs {
    pub arcs: Vec<TimingArc>,
}

/// The arcs into each net, and the check points of instances.
#[derive(Drop)]
pub struct Timings {
    pub nets: Vec<NetArcs>,
    pub checks: Vec<CheckPoint>,
}

/// The place after the pins from this one on that are of the same instance.
pub fn same_instance(pins: &[PinOn], from: usize) -> usize
    requires { from < length pins.now }
    ensures { IsStretch pins.now from result }
{
    let mut to = from + 1;
    'pins: while to < pins.len() {
        if pins[to].instance != pins[from].instance {
            break 'pins;
        }
        to += 1;
    }
    to
}

/// The most pins that a cell has, 0 where there is no cell.
pub fn most_pins<'a>(cells: &CellIndex<'a>) -> usize
    ensures most { All (λ c. length c.pins ≤ result) cells.now.cells }
    ensures one { (result ≡ 0)
        ⊎ ((number : ℕ) × IsSomeAnd (slice_get cells.now.cells number) (λ c. length c.pins ≡ result)) }
{
    let mut most = 0;
    for cell in cells.library().cells.as_slice() {
        if cell.pins.len() > most {
            most = cell.pins.len();
        }
    }
    most
}

/// Finds those related pins of a pin that are sinks: once for the pins of an instance that have one group.
fn find_sinks<'a>(
    alloc: Global,
    related: &Related<'a>,
    places: &Places,
    pin: PinOn,
    known: &mut Known<Vec<RelatedPin<'a>>>,
) -> Result<(), AllocError>
    requires there { IsSomeAnd (group_at related.now.cells.items pin) IsIndexed }
    requires listed { AreListed places.now }
    requires known { AreRight (AreSinksOf places.now.at.items) related.now.cells.items places.now.from
        known.old.of.items }
    ensures there { OnOk result
        ((n : ℕ) → number_at related.now.cells.items pin ≡ Some n
        → IsSome (held known.new.of.items n pin.cell places.now.from)) }
    ensures known { OnOk result
        (AreRight (AreSinksOf places.now.at.items) related.now.cells.items places.now.from known.new.of.items) }
{
    let number = related.number(pin);
    let from = places.from();
    let cell = pin.cell as usize;
    if known.get(number, cell, from).is_none() {
        let value = related.group(pin).sinks(alloc, places)?;
        known.put(number, KnownAt { from, cell, value })?;
    }
    Ok(())
}

impl Timings {
    /// Adds the arcs and the check points of a pin from those of its related pins that are sinks.
    fn add_found<'a>(
        &mut self,
        alloc: Global,
        cells: &CellIndex<'a>,
        nets: &NetBits<'a>,
        related: &[RelatedPin<'a>],
        places: &Places,
        pin: PinOn,
    ) -> Result<(), AllocError>
        requires there { IsSome (connected_at cells.now nets.now pin) }
        requires short { IfSome (connected_at cells.now nets.now pin) HasShortNames }
        requires net { pin.net < length self.now.nets.items }
        requires found { AreFound cells.now places.now.at.items pin related.now }
        requires room { HasRoom cells.now places.now.at.items }
        ensures { OnOk result
            ((done : List Connected) (c : Connected) → connected_at cells.now nets.now pin ≡ Some c
            → AreEntered cells.now nets.now pin.instance pin.cell places.now.at.items
            → AreTimed cells.now nets.now done self.old.nets.items self.old.checks.items
            → AreTimed cells.now nets.now (done ++ c ∷ []) self.new.nets.items self.new.checks.items) }
    {
        add_pin_checks(alloc, cells, nets, related, places, pin, &mut self.checks)?;
        if pin.is_output(cells) {
            add_pin_arcs(related, places, &mut self.nets[pin.net as usize].arcs)?;
        }
        Ok(())
    }

    /// Adds the arcs and the check points of a pin.
    fn add<'a>(
        &mut self,
        alloc: Global,
        cells: &CellIndex<'a>,
        nets: &NetBits<'a>,
        related: &Related<'a>,
        places: &Places,
        pin: PinOn,
        known: &mut Known<Vec<RelatedPin<'a>>>,
    ) -> Result<(), AllocError>
        requires there { IsSome (connected_at cells.now nets.now pin) }
        requires short { IfSome (connected_at cells.now nets.now pin) HasShortNames }
        requires net { pin.net < length self.now.nets.items }
        requires related { AreKept cells.now related.now.cells.items }
        requires listed { AreListed places.now }
        requires room { HasRoom cells.now places.now.at.items }
        requires known { AreRight (AreSinksOf places.now.at.items) related.now.cells.items places.now.from
            known.old.of.items }
        ensures timed { OnOk result
            ((done : List Connected) (c : Connected) → connected_at cells.now nets.now pin ≡ Some c
            → AreEntered cells.now nets.now pin.instance pin.cell places.now.at.items
            → AreTimed cells.now nets.now done self.old.nets.items self.old.checks.items
            → AreTimed cells.now nets.now (done ++ c ∷ []) self.new.nets.items self.new.checks.items) }
        ensures known { OnOk result
            (AreRight (AreSinksOf places.now.at.items) related.now.cells.items places.now.from known.new.of.items) }
    {
        find_sinks(alloc, related, places, pin, known)?;
        match known.get(related.number(pin), pin.cell as usize, places.from()) {
            Some(sinks) => self.add_found(alloc, cells, nets, sinks, places, pin),
            None => unreachable!(),
        }
    }
}

/// No arcs into any net, and no check points.
fn no_timings<'a>(alloc: Global, nets: &NetBits<'a>) -> Result<Timings, AllocError>
    ensures count { IfOk result (λ t. length t.nets.items ≡ length (bits nets.now.nets)) }
    ensures arcs { IfOk result (λ t. All (λ row. row.arcs.items ≡ []) t.nets.items) }
    ensures checks { IfOk result (λ t. t.checks.items ≡ []) }
{
    let mut rows = Vec::with_capacity(alloc, nets.count() as usize)?;
    for _ in 0..nets.count() {
        rows.push(NetArcs {
            arcs: Vec::new(alloc),
        })?;
    }
    Ok(Timings {
        nets: rows,
        checks: Vec::new(alloc),
    })
}

/// The arcs and the check points of all instances; the places are those of pins among the sinks of their nets.
pub fn timings_of<'a>(
    alloc: Global,
    cells: &CellIndex<'a>,
    nets: &NetBits<'a>,
    pins: &[PinOn],
    sinks: &[u32],
) -> Result<Timings, AllocError>
    requires sound { IsSoundNetlist nets.now }
    requires pins { ArePins cells.now nets.now pins.now }
    requires placed { All (IsPlaced cells.now nets.now) pins.now }
    requires places { ArePlaces (pins_of cells.now nets.now) sinks.now }
    ensures { IfOk result
        (λ t. AreTimed cells.now nets.now (pins_of cells.now nets.now) t.nets.items t.checks.items) }
{
    let mut timings = no_timings(alloc, nets)?;
    let related = Related::new(alloc, cells)?;
    let mut places = Places::new(alloc, most_pins(cells))?;
    let mut known = Known::new(alloc);
    let mut from = 0;
    'instances: while from < pins.len() {
        let to = same_instance(pins, from);
        places.enter(cells, pins, sinks, from, to)?;
        for k in from..to {
            timings.add(alloc, cells, nets, &related, &places, pins[k], &mut known)?;
        }
        places.clear(pins, from, to);
        from = to;
    }
    Ok(timings)
}
