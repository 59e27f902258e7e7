//! Cells that are not taken.

ghost use Rattle.std.specs.Prelude.{◌≡◌, ◌+◌, ◌<◌, false, length, take};
ghost use Rattle.std.specs.List.{list_any};
ghost use Rattle.link_rules.specs.Pins.{pin_named};
ghost use Rattle.link_rules.specs.Refusals.{is_no_input, is_read, is_odd_timing, is_odd_pin, is_odd_cell};
ghost use Rattle.link_index.specs.Cells.{HavePlaces};

use liberty_cells::{Cell, Pin, Role, Timing, TimingKind};
use name_numbers::Named;

/// Whether the name is that of a pin, but of no input pin.
fn is_no_input<'a>(cell: &'a Cell, places: &Named<'a, usize>, name: &'a [u8]) -> bool
    requires { HavePlaces cell.now.pins places.now }
    ensures { result ≡ is_no_input (pin_named cell.entry.now name.entry.now) }
{
    match places.get(name) {
        None => false,
        Some(place) => match cell.pins.as_slice()[*place].role() {
            Role::Input => false,
            _ => true,
        },
    }
}

/// Whether the tables of a timing group of this kind are read.
fn is_read(kind: TimingKind) -> bool
    ensures { result ≡ is_read kind }
{
    match kind {
        TimingKind::Combinational
        | TimingKind::RisingEdge
        | TimingKind::SetupRising
        | TimingKind::HoldRising => true,
        TimingKind::Skipped | TimingKind::Unsupported => false,
    }
}

/// Whether a timing group is not taken.
fn is_odd_timing<'a>(cell: &'a Cell, places: &Named<'a, usize>, timing: &'a Timing) -> bool
    requires { HavePlaces cell.now.pins places.now }
    ensures { result ≡ is_odd_timing cell.entry.now timing.entry.now }
{
    if let TimingKind::Unsupported = timing.kind {
        return true;
    }
    if !is_read(timing.kind) {
        return false;
    }
    let mut rest = timing.related.names();
    'related: while let Some(name) = rest.next() {
        if is_no_input(cell, places, name) {
            return true;
        }
    }
    false
}

/// Whether a pin is not taken.
fn is_odd_pin<'a>(cell: &'a Cell, places: &Named<'a, usize>, pin: &'a Pin) -> bool
    requires { HavePlaces cell.now.pins places.now }
    ensures { result ≡ is_odd_pin cell.entry.now pin.entry.now }
{
    if let Role::Inout = pin.role() {
        return true;
    }
    let mut rest = pin.timings();
    'timings: while let [timing, more @ ..] = rest {
        if is_odd_timing(cell, places, timing) {
            return true;
        }
        rest = more;
    }
    false
}

/// Whether one of the pins up to a place is not taken, where all before it are. Of pins that differ in their names
/// alone the first is tested for all.
fn is_odd_at<'a>(cell: &'a Cell, places: &Named<'a, usize>, place: usize) -> bool
    requires places { HavePlaces cell.now.pins places.now }
    requires place { place < length cell.now.pins }
    ensures { list_any (is_odd_pin cell.entry.now) (take place cell.entry.now.pins) ≡ false
        → result ≡ list_any (is_odd_pin cell.entry.now) (take (place + 1) cell.entry.now.pins) }
{
    if cell.pins.first(place) != place {
        return false;
    }
    is_odd_pin(cell, places, &cell.pins.as_slice()[place])
}

/// Whether a cell is not taken. Takes time in proportion to its pins and the related pins of its timing groups, each
/// group of the text once.
#[tactic(auto, unfolding(link_rules::specs::Refusals::is_odd_cell))]
pub fn is_odd_cell<'a>(cell: &'a Cell, places: &Named<'a, usize>) -> bool
    requires { HavePlaces cell.now.pins places.now }
    ensures { result ≡ is_odd_cell cell.entry.now }
{
    if cell.latch {
        return true;
    }
    for place in 0..cell.pins.len() {
        if is_odd_at(cell, places, place) {
            return true;
        }
    }
    false
}
