//! The timing arcs of output pins.

ghost use Rattle.std.specs.Prelude.{◌≡◌, ◌<◌, ◌≤◌, ◌++◌, length, set, flat_map, option_map};
ghost use Rattle.std.specs.Prelude.{Some, None, IsSome, IfOk, OnOk};
ghost use Rattle.std.specs.List.{All, slice_index_or};
ghost use Rattle.link_rules.specs.Arcs.{Place, edge_pairs, tables_at, arcs_from};
ghost use Rattle.link_pins.specs.Places.{place_of, entered, with_pin, AreEntries, AreThose};
ghost use Rattle.link_pins.specs.Places.{IsClear, HasRoom, AreListed};
ghost use Rattle.link_pins.specs.Related.{arcs_of};
ghost use Rattle.link_pins.specs.Seen.{pin_at};

use crate::pins::PinOn;
use crate::related::RelatedPin;
use liberty_cells::{Sense, Timing, TimingKind};
use link_index::CellIndex;
use std::alloc::{AllocError, Global};
use xt_model::{Edge, NetId, TimingArc};

/// A sink by the numbers of its net and of itself there.
#[derive(Clone, Copy)]
pub struct SinkAt {
    pub net: u32,
    pub sink: u32,
}

/// The sinks that the input pins of one instance are, by the places of the pins in the cell, these places, and the
/// place at which the pins of the instance begin.
#[derive(Drop)]
pub struct Places {
    at: Vec<Option<SinkAt>>,
    pins: Vec<u32>,
    from: usize,
}

/// The pairs of edges of an input and of an output that a timing group has arcs for.
pub fn edge_pairs(kind: TimingKind, sense: Sense) -> &'static [(Edge, Edge)]
    ensures { result.now ≡ edge_pairs kind sense }
{
    match (kind, sense) {
        (TimingKind::RisingEdge, _) => &[(Edge::Rise, Edge::Rise), (Edge::Rise, Edge::Fall)],
        (TimingKind::Combinational, Sense::Positive) => {
            &[(Edge::Rise, Edge::Rise), (Edge::Fall, Edge::Fall)]
        }
        (TimingKind::Combinational, Sense::Negative) => {
            &[(Edge::Rise, Edge::Fall), (Edge::Fall, Edge::Rise)]
        }
        (TimingKind::Combinational, Sense::Non) => &[
            (Edge::Rise, Edge::Rise),
            (Edge::Rise, Edge::Fall),
            (Edge::Fall, Edge::Rise),
            (Edge::Fall, Edge::Fall),
        ],
        _ => &[],
    }
}

/// The delay table and the slew table of an output's edge.
pub fn tables_at(timing: &Timing, edge: Edge) -> Option<(u32, u32)>
    ensures { result ≡ tables_at timing.now edge }
{
    let (delay, slew) = match edge {
        Edge::Rise => (timing.rise, timing.rise_slew),
        Edge::Fall => (timing.fall, timing.fall_slew),
    };
    match (delay, slew) {
        (Some(delay), Some(slew)) => Some((delay, slew)),
        _ => None,
    }
}

impl Places {
    /// Room for this many pins.
    pub fn new(alloc: Global, size: usize) -> Result<Places, AllocError>
        ensures count { IfOk result (λ p. length p.at.items ≡ size) }
        ensures clear { IfOk result (λ p. IsClear p.at.items) }
        ensures listed { IfOk result AreListed }
    {
        Ok(Places {
            at: vec![in alloc; None; size]?,
            pins: Vec::new(alloc),
            from: 0,
        })
    }

    /// Enters a sink at a place.
    fn put(&mut self, pin: u32, sink: SinkAt) -> Result<(), AllocError>
        requires room { pin < length self.now.at.items }
        ensures sinks { OnOk result (self.new.at.items ≡ set self.old.at.items pin (Some sink)) }
        ensures listed { OnOk result (AreListed self.old → AreListed self.new) }
        ensures from { OnOk result (self.new.from ≡ self.old.from) }
    {
        self.pins.push(pin)?;
        self.at[pin as usize] = Some(sink);
        Ok(())
    }

    /// Enters a pin with its place, where it is an input pin; of two of one name the first stays.
    fn add<'a>(&mut self, cells: &CellIndex<'a>, pin: PinOn, place: u32) -> Result<(), AllocError>
        requires there { IsSome (pin_at cells.now pin) }
        requires room { pin.pin < length self.now.at.items }
        ensures sinks { OnOk result (self.new.at.items ≡ with_pin cells.now pin place self.old.at.items) }
        ensures listed { OnOk result (AreListed self.old → AreListed self.new) }
        ensures from { OnOk result (self.new.from ≡ self.old.from) }
    {
        if pin.is_input(cells) {
            if self.at[pin.pin as usize].is_none() {
                let sink = SinkAt {
                    net: pin.net,
                    sink: place,
                };
                self.put(pin.pin, sink)?;
            }
        }
        Ok(())
    }

    /// Enters the input pins among those of one instance, which are from one place to before another; of two of one
    /// name the first stays.
    pub fn enter<'a>(
        &mut self,
        cells: &CellIndex<'a>,
        pins: &[PinOn],
        places: &[u32],
        from: usize,
        to: usize,
    ) -> Result<(), AllocError>
        requires order { from ≤ to }
        requires within { to ≤ length pins.now }
        requires places { length places.now ≡ length pins.now }
        requires there { All (λ p. IsSome (pin_at cells.now p)) pins.now }
        requires room { HasRoom cells.now self.now.at.items }
        requires clear { IsClear self.now.at.items }
        ensures count { OnOk result (length self.new.at.items ≡ length self.old.at.items) }
        ensures entries { OnOk result (AreEntries cells.now pins.now places.now from to self.new.at.items) }
        ensures listed { OnOk result (AreListed self.old → AreListed self.new) }
        ensures from { OnOk result (self.new.from ≡ from) }
    {
        self.from = from;
        for k in from..to {
            self.add(cells, pins[k], places[k])?;
        }
        Ok(())
    }

    /// Forgets the pins that are from one place to before another.
    pub fn clear(&mut self, pins: &[PinOn], from: usize, to: usize)
        requires order { from ≤ to }
        requires within { to ≤ length pins.now }
        requires room { All (λ p. p.pin < length self.now.at.items) pins.now }
        requires those { AreThose pins.now from to self.now.at.items }
        ensures count { length self.new.at.items ≡ length self.old.at.items }
        ensures clear { IsClear self.new.at.items }
        ensures listed { AreListed self.new }
    {
        for k in from..to {
            self.at[pins[k].pin as usize] = None;
        }
        self.pins.clear();
    }

    /// The place at which the pins of the instance begin.
    pub fn from(&self) -> usize
        ensures { result ≡ self.now.from }
    {
        self.from
    }

    /// The places at which sinks are entered.
    pub fn pins(&self) -> &[u32]
        ensures { result.now ≡ self.now.pins.items }
    {
        &self.pins
    }

    /// The sink that the input pin at a place is.
    pub fn sink(&self, pin: u32) -> Option<SinkAt>
        ensures { result ≡ slice_index_or self.now.at.items pin None }
    {
        match self.at.get(pin as usize) {
            Some(sink) => *sink,
            None => None,
        }
    }

    /// The sink that the input pin of this name in a cell is.
    pub fn find<'a>(&self, cells: &CellIndex<'a>, cell: usize, name: &'a [u8]) -> Option<SinkAt>
        requires cell { cell < length cells.now.cells }
        requires room { HasRoom cells.now self.now.at.items }
        ensures { option_map place_of result ≡ entered cells.now cell self.now.at.items name.entry.now }
    {
        match cells.pin(cell, name) {
            None => None,
            Some(pin) => self.at[pin],
        }
    }
}

/// How many arcs a timing group has from one sink.
pub fn arcs_each(timing: &Timing) -> u128
    ensures { (at : Place) → result ≡ length (arcs_from timing.now (Some at)) }
{
    let mut count = 0;
    for (_, output) in edge_pairs(timing.kind, timing.sense) {
        if tables_at(timing, *output).is_some() {
            count += 1;
        }
    }
    count
}

/// Adds the arcs of a timing group from a sink.
fn add_arcs(timing: &Timing, from: SinkAt, arcs: &mut Vec<TimingArc>) -> Result<(), AllocError>
    ensures { OnOk result (arcs.new.items ≡ arcs.old.items ++ arcs_from timing.now (Some (place_of from))) }
{
    for (input, output) in edge_pairs(timing.kind, timing.sense) {
        if let Some((delay, slew)) = tables_at(timing, *output) {
            arcs.push(TimingArc {
                from: NetId(from.net),
                sink: from.sink,
                input: *input,
                output: *output,
                delay,
                slew,
            })?;
        }
    }
    Ok(())
}

/// Adds the arcs from related pins in order, pairs of edges in order.
pub fn add_pin_arcs<'a>(
    related: &[RelatedPin<'a>],
    places: &Places,
    arcs: &mut Vec<TimingArc>,
) -> Result<(), AllocError>
    ensures { OnOk result (arcs.new.items ≡ arcs.old.items ++ flat_map (arcs_of places.now.at.items) related.now) }
{
    for one in related {
        if let Some(from) = places.sink(one.pin) {
            add_arcs(one.timing, from, arcs)?;
        }
    }
    Ok(())
}
