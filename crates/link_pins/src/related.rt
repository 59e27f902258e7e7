//! The related pins of timing groups, found by name once for a cell.

ghost use Rattle.std.specs.Prelude.{◌≡◌, ◌+◌, ◌<◌, ◌∷◌, ◌++◌, [], length, map, filter_map};
ghost use Rattle.std.specs.Prelude.{Some, IsSome, IfOk, OnOk};
ghost use Rattle.std.specs.List.{All, Contains, slice_get};
ghost use Rattle.std.specs.List.Sorted.{IsStrictlyIncreasing};
ghost use Rattle.liberty_cells.specs.declared.cell.Cell.{Cell};
ghost use Rattle.link_index.specs.Cells.{pin_place};
ghost use Rattle.link_pins.specs.Related.{effect, AreRelated, IsUncounted, ArePinsOf};
ghost use Rattle.link_pins.specs.Related.{HaveCounts, IsGroup, AreGroups, AreAllGroups, number_at, group_at};
ghost use Rattle.link_pins.specs.Related.{AreKept};
ghost use Rattle.link_pins.specs.Timed.{with_timing};

use crate::arcs::arcs_each;
use crate::checks::side_of;
use crate::counts::plus;
use crate::pins::PinOn;
use crate::place_list::PlaceList;
use crate::related_pins::RelatedPins;
use liberty_cells::{CellPins, Pin, Role, Timing};
use link_index::CellIndex;
use std::alloc::{AllocError, Global};

/// A timing group with the place in the cell of a pin that it is related to.
#[derive(Clone, Copy)]
pub struct RelatedPin<'a> {
    pub timing: &'a Timing,
    pub pin: u32,
}

/// How many arcs or check points there are from the pin at a place, however often it is related, and its places among
/// the related pins.
#[derive(Drop)]
pub struct PinCount {
    pub pin: u32,
    pub count: u64,
    pub places: PlaceList,
}

/// What the pins of one group of the text have in common: their related pins in order, each of these pins once by its
/// place in the cell, from the least on, and what is counted for each.
#[derive(Drop)]
pub struct PinGroup<'a> {
    pub related: RelatedPins<'a>,
    pub pins: Vec<u32>,
    pub counts: Vec<PinCount>,
}

/// The groups of pins of a cell, and for each pin the place of its group among them.
#[derive(Drop)]
pub struct CellGroups<'a> {
    pub groups: Vec<PinGroup<'a>>,
    pub of: Vec<u32>,
}

/// The groups of pins of all cells.
#[derive(Drop)]
pub struct Related<'a> {
    pub cells: Vec<CellGroups<'a>>,
}

/// How many arcs (of an output pin) or check points (of an input pin) a timing group has from one related pin.
fn effect(role: Role, timing: &Timing) -> u128
    ensures { result ≡ effect role timing.now }
{
    match role {
        Role::Output => arcs_each(timing),
        Role::Input => { if side_of(timing.kind).is_some() { 1 } else { 0 } }
        _ => 0,
    }
}

/// Adds the related pins of the timing group of a number that the cell has.
fn add_timing<'a>(
    cells: &CellIndex<'a>,
    cell: usize,
    number: usize,
    timing: &'a Timing,
    pins: &mut RelatedPins<'a>,
) -> Result<(), AllocError>
    requires cell { cell < length cells.now.cells }
    requires there { slice_get pins.old.timings number ≡ Some timing.now }
    ensures related { OnOk result
        ((c : Cell) → slice_get cells.now.cells cell ≡ Some c
        → pins.new.items
        ≡ pins.old.items
        ++ map (with_timing timing.entry.now) (filter_map (pin_place c) timing.entry.now.related)) }
    ensures timings { OnOk result (pins.new.timings ≡ pins.old.timings) }
{
    let mut rest = timing.related.names();
    'related: while let Some(name) = rest.next() {
        if let Some(pin) = cells.pin(cell, name) {
            pins.push(number, pin)?;
        }
    }
    Ok(())
}

/// The related pins of a pin: timing groups that have an effect in order, related pins in order.
fn related_pins<'a>(
    alloc: Global,
    cells: &CellIndex<'a>,
    cell: usize,
    part: &'a Pin,
) -> Result<RelatedPins<'a>, AllocError>
    requires { cell < length cells.now.cells }
    ensures { IfOk result (λ v. (c : Cell) → slice_get cells.now.cells cell ≡ Some c
        → AreRelated c part.entry.now v.items) }
{
    let timings = part.timings();
    let mut pins = RelatedPins::new(alloc, timings);
    for number in 0..timings.len() {
        let timing = &timings[number];
        let count = effect(part.role(), timing);
        if count != 0 {
            add_timing(cells, cell, number, timing, &mut pins)?;
        }
    }
    Ok(pins)
}

/// The places in the cell of related pins, each once, from the least on.
fn pins_of(alloc: Global, related: &RelatedPins<'_>) -> Result<Vec<u32>, AllocError>
    ensures rising { IfOk result (λ v. IsStrictlyIncreasing v.items) }
    ensures all { IfOk result (λ v. All (λ r. Contains v.items r.1) related.now.items) }
{
    let mut pins = Vec::with_capacity(alloc, related.len())?;
    for place in 0..related.len() {
        pins.push(related.get(place).pin)?;
    }
    pins.sort_unstable();
    pins.dedup();
    pins.shrink_to_fit();
    Ok(pins)
}

/// A count of nothing for each of these pins.
fn no_counts(alloc: Global, pins: &[u32]) -> Result<Vec<PinCount>, AllocError>
    ensures pins { IfOk result (λ v. ArePinsOf v.items pins.now) }
    ensures none { IfOk result (λ v. All IsUncounted v.items) }
{
    let mut counts = Vec::with_capacity(alloc, pins.len())?;
    for pin in pins {
        counts.push(PinCount {
            pin: *pin,
            count: 0,
            places: PlaceList::none(),
        })?;
    }
    Ok(counts)
}

impl PinCount {
    /// Counts a related pin at this place, and how many arcs or check points there are from it. A sum that does not
    /// fit 64 bits is out of memory.
    fn add(&mut self, alloc: Global, count: u128, place: u32) -> Result<(), AllocError>
        ensures pin { OnOk result (self.new.pin ≡ self.old.pin) }
        ensures count { OnOk result (self.new.count ≡ self.old.count + count) }
        ensures places { OnOk result (self.new.places ≡ self.old.places ++ place ∷ []) }
    {
        let Ok(sum) = u64::try_from(plus(u128::from(self.count), count)?) else {
            return Err(AllocError);
        };
        self.count = sum;
        self.places.push(alloc, place)?;
        Ok(())
    }
}

/// Counts related pins, by their places among these pins. There is no memory for 2^32 of them.
fn count_pins(
    alloc: Global,
    role: Role,
    related: &RelatedPins<'_>,
    pins: &[u32],
    counts: &mut [PinCount],
) -> Result<(), AllocError>
    requires rising { IsStrictlyIncreasing pins.now }
    requires all { All (λ r. Contains pins.now r.1) related.now.items }
    requires pins { ArePinsOf counts.old pins.now }
    requires none { All IsUncounted counts.old }
    ensures { OnOk result (HaveCounts role related.now.items pins.now counts.new) }
{
    let Ok(count) = u32::try_from(related.len()) else {
        return Err(AllocError);
    };
    for place in 0..count {
        let one = related.get(place as usize);
        let Ok(at) = pins.binary_search(&one.pin) else {
            unreachable!()
        };
        counts[at].add(alloc, effect(role, one.timing), place)?;
    }
    Ok(())
}

impl<'a> PinGroup<'a> {
    /// The group of a pin.
    fn of(
        alloc: Global,
        cells: &CellIndex<'a>,
        cell: usize,
        part: &'a Pin,
    ) -> Result<PinGroup<'a>, AllocError>
        requires { cell < length cells.now.cells }
        ensures { IfOk result (λ v. (c : Cell) → slice_get cells.now.cells cell ≡ Some c → IsGroup c part.entry.now v) }
    {
        let related = related_pins(alloc, cells, cell, part)?;
        let pins = pins_of(alloc, &related)?;
        let mut counts = no_counts(alloc, &pins)?;
        count_pins(alloc, part.role(), &related, &pins, &mut counts)?;
        Ok(PinGroup {
            related,
            pins,
            counts,
        })
    }
}

/// How many groups of the text the pins of a cell are of.
fn group_count(pins: &CellPins) -> usize {
    let mut count = 0;
    for place in 0..pins.len() {
        if pins.first(place) == place {
            count += 1;
        }
    }
    count
}

impl<'a> CellGroups<'a> {
    /// Adds the pin at a place, which comes after all that are there: with the group of the first pin of its group of
    /// the text, or with one of its own. There is no memory for 2^32 groups.
    fn add(
        &mut self,
        alloc: Global,
        cells: &CellIndex<'a>,
        cell: usize,
        pins: &'a CellPins,
        place: usize,
    ) -> Result<(), AllocError>
        requires cell { cell < length cells.now.cells }
        requires place { place < length pins.now }
        requires count { length self.now.of.items ≡ place }
        ensures count { OnOk result (length self.new.of.items ≡ place + 1) }
        ensures groups { OnOk result
            ((c : Cell) → slice_get cells.now.cells cell ≡ Some c → pins.entry.now ≡ c.pins → AreGroups c self.old
            → AreGroups c self.new) }
    {
        let first = pins.first(place);
        if first < place {
            let group = self.of[first];
            self.of.push(group)?;
            return Ok(());
        }
        let number = self.groups.len();
        let Ok(number) = u32::try_from(number) else {
            return Err(AllocError);
        };
        let group = PinGroup::of(alloc, cells, cell, &pins.as_slice()[place])?;
        self.groups.push(group)?;
        self.of.push(number)?;
        Ok(())
    }

    /// The groups of the pins of a cell.
    fn of_cell(
        alloc: Global,
        cells: &CellIndex<'a>,
        cell: usize,
    ) -> Result<CellGroups<'a>, AllocError>
        requires { cell < length cells.now.cells }
        ensures { IfOk result (λ g. (c : Cell) → slice_get cells.now.cells cell ≡ Some c → AreAllGroups c g) }
    {
        let pins = &cells.library().cells.as_slice()[cell].pins;
        let of = Vec::with_capacity(alloc, pins.len())?;
        let rows = Vec::with_capacity(alloc, group_count(pins))?;
        let mut groups = CellGroups { groups: rows, of };
        for place in 0..pins.len() {
            groups.add(alloc, cells, cell, pins, place)?;
        }
        Ok(groups)
    }
}

impl<'a> Related<'a> {
    /// The groups of all cells of a library. Takes time in proportion to their pins and to the related pins of their
    /// timing groups, where the pins of one group of the text share these, and to a sort of the latter.
    pub fn new(alloc: Global, cells: &CellIndex<'a>) -> Result<Related<'a>, AllocError>
        ensures { IfOk result (λ r. AreKept cells.now r.cells.items) }
    {
        let count = cells.library().cells.len();
        let mut made = Vec::with_capacity(alloc, count)?;
        for cell in 0..count {
            made.push(CellGroups::of_cell(alloc, cells, cell)?)?;
        }
        Ok(Related { cells: made })
    }

    /// The number of a pin's group in its cell.
    pub fn number(&self, pin: PinOn) -> usize
        requires { IsSome (group_at self.now.cells.items pin) }
        ensures { number_at self.now.cells.items pin ≡ Some result }
    {
        self.cells[pin.cell as usize].of[pin.pin as usize] as usize
    }

    /// The group of a pin.
    pub fn group(&self, pin: PinOn) -> &PinGroup<'a>
        requires { IsSome (group_at self.now.cells.items pin) }
        ensures { group_at self.now.cells.items pin ≡ Some result.now }
    {
        let cell = &self.cells[pin.cell as usize];
        &cell.groups[cell.of[pin.pin as usize] as usize]
    }
}
