//! The related pins of a group that are sinks of nets.

ghost use Rattle.std.specs.Prelude.{◌≡◌, filter, map, IfOk};
ghost use Rattle.std.specs.List.Sorted.{IsStrictlyIncreasing};
ghost use Rattle.link_pins.specs.Places.{is_sink, AreListed};
ghost use Rattle.link_pins.specs.Related.{related_of, counted, is_sink_at, places_of, IsIndexed};

use crate::arcs::Places;
use crate::counts::plus;
use crate::related::{PinCount, PinGroup, RelatedPin};
use crate::related_pins::RelatedPins;
use std::alloc::{AllocError, Global};

/// Which of these pins, from the least on, are sinks: the pins one by one.
fn found_by_pins(alloc: Global, pins: &[u32], places: &Places) -> Result<Vec<usize>, AllocError>
    ensures { IfOk result (λ v. v.items ≡ places_of (is_sink places.now.at.items) 0 pins.now) }
{
    let mut found = Vec::new(alloc);
    for at in 0..pins.len() {
        if places.sink(pins[at]).is_some() {
            found.push(at)?;
        }
    }
    Ok(found)
}

/// Which of these pins, from the least on, are sinks: the sinks one by one.
fn found_by_sinks(alloc: Global, pins: &[u32], places: &Places) -> Result<Vec<usize>, AllocError>
    requires rising { IsStrictlyIncreasing pins.now }
    requires listed { AreListed places.now }
    ensures { IfOk result (λ v. v.items ≡ places_of (is_sink places.now.at.items) 0 pins.now) }
{
    let mut found = Vec::new(alloc);
    for pin in places.pins() {
        if let Ok(at) = pins.binary_search(pin) {
            found.push(at)?;
        }
    }
    found.sort_unstable();
    found.dedup();
    Ok(found)
}

/// Which of these pins, from the least on, are sinks. Takes time in proportion to the pins or to the sinks, whichever
/// are fewer.
fn found(alloc: Global, pins: &[u32], places: &Places) -> Result<Vec<usize>, AllocError>
    requires rising { IsStrictlyIncreasing pins.now }
    requires listed { AreListed places.now }
    ensures { IfOk result (λ v. v.items ≡ places_of (is_sink places.now.at.items) 0 pins.now) }
{
    if pins.len() <= places.pins().len() {
        found_by_pins(alloc, pins, places)
    } else {
        found_by_sinks(alloc, pins, places)
    }
}

/// How many arcs or check points there are from those of these pins that are sinks: the pins one by one.
fn count_by_pins(counts: &[PinCount], places: &Places) -> Result<u128, AllocError>
    ensures { IfOk result (λ n. n ≡ counted (is_sink places.now.at.items) counts.now) }
{
    let mut count = 0;
    for one in counts {
        if places.sink(one.pin).is_some() {
            count = plus(count, u128::from(one.count))?;
        }
    }
    Ok(count)
}

/// Those of related pins that are sinks, in order: the related pins one by one.
fn sinks_among<'a>(
    alloc: Global,
    related: &RelatedPins<'a>,
    places: &Places,
) -> Result<Vec<RelatedPin<'a>>, AllocError>
    ensures { IfOk result
        (λ v. map related_of v.items ≡ filter (is_sink_at places.now.at.items) related.now.items) }
{
    let mut sinks = Vec::with_capacity(alloc, related.len())?;
    for place in 0..related.len() {
        let one = related.get(place);
        if places.sink(one.pin).is_some() {
            sinks.push(one)?;
        }
    }
    Ok(sinks)
}

impl<'a> PinGroup<'a> {
    /// How many arcs or check points there are from those of its related pins that are sinks.
    pub fn count(&self, alloc: Global, places: &Places) -> Result<u128, AllocError>
        requires indexed { IsIndexed self.now }
        requires listed { AreListed places.now }
        ensures { IfOk result (λ n. n ≡ counted (is_sink places.now.at.items) self.now.counts.items) }
    {
        if self.pins.len() <= places.pins().len() {
            return count_by_pins(self.counts.as_slice(), places);
        }
        let found = found_by_sinks(alloc, &self.pins, places)?;
        let mut count = 0;
        for at in found.as_slice() {
            count = plus(count, u128::from(self.counts[*at].count))?;
        }
        Ok(count)
    }

    /// The places of those of its related pins that are sinks, in order.
    fn order(&self, alloc: Global, places: &Places) -> Result<Vec<u32>, AllocError>
        requires indexed { IsIndexed self.now }
        requires listed { AreListed places.now }
        ensures { IfOk result
            (λ v. v.items ≡ places_of (is_sink_at places.now.at.items) 0 self.now.related.items) }
    {
        let found = found(alloc, &self.pins, places)?;
        let mut order = Vec::new(alloc);
        for at in found.as_slice() {
            self.counts[*at].places.add_to(&mut order)?;
        }
        order.sort_unstable();
        order.dedup();
        Ok(order)
    }

    /// Those of its related pins that are sinks, in order. Takes time in proportion to the sinks, to those that are
    /// found and to a sort of these.
    pub fn sinks(&self, alloc: Global, places: &Places) -> Result<Vec<RelatedPin<'a>>, AllocError>
        requires indexed { IsIndexed self.now }
        requires listed { AreListed places.now }
        ensures { IfOk result
            (λ v. map related_of v.items ≡ filter (is_sink_at places.now.at.items) self.now.related.items) }
    {
        if self.related.len() / 8 <= places.pins().len() {
            return sinks_among(alloc, &self.related, places);
        }
        let order = self.order(alloc, places)?;
        let mut sinks = Vec::with_capacity(alloc, order.len())?;
        for place in order.as_slice() {
            sinks.push(self.related.get(*place as usize))?;
        }
        Ok(sinks)
    }
}
