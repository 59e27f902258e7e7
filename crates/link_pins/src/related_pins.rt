//! Related pins in order.

ghost use Rattle.std.specs.Prelude.{◌≡◌, ◌<◌, length, Some, OnOk};

use crate::related::RelatedPin;
use liberty_cells::Timing;
use std::alloc::{AllocError, Global};
use std::marker::Model;

/// A related pin by the number of its timing group among those of a pin, and by its place in the cell.
#[derive(Clone, Copy)]
pub struct NumberedPin {
    pub timing: u32,
    pub pin: u32,
}

/// Related pins in order, of the timing groups of one pin; contracts see both. Of a related pin 8 bytes are kept.
#[derive(Drop)]
pub struct RelatedPins<'a> {
    timings: &'a [Timing],
    pins: Vec<NumberedPin>,
}

impl<'a> Model for RelatedPins<'a> {
    ghost use Rattle.std.specs.Prelude.{filter_map};
    ghost use Rattle.link_pins.specs.Timed.{TimedPins, timed_pin, AreNumbered};

    ghost Value = { TimedPins };

    ghost view = { λ r. record {
      timings = r.timings.now;
      items = filter_map (timed_pin r.timings.now) r.pins.items;
    } };

    ghost invariant = { λ r. AreNumbered r.timings.now r.pins.items };
}

impl<'a> RelatedPins<'a> {
    ghost use Rattle.std.specs.Prelude.{◌++◌, [], ◌∷◌};
    ghost use Rattle.std.specs.List.{slice_get};
    ghost use Rattle.liberty_cells.specs.declared.timing.Timing.{Timing};
    ghost use Rattle.link_pins.specs.Related.{related_of};
    ghost use Rattle.link_pins.specs.Timed.{with_timing};

    /// No related pin.
    pub fn new(alloc: Global, timings: &'a [Timing]) -> RelatedPins<'a>
        ensures { result ≡ record { timings = timings.entry.now; items = [] } }
    {
        RelatedPins {
            timings,
            pins: Vec::new(alloc),
        }
    }

    /// How many there are.
    pub fn len(&self) -> usize
        ensures { result ≡ length self.now.items }
    {
        self.pins.len()
    }

    /// The related pin at a place.
    pub fn get(&self, place: usize) -> RelatedPin<'a>
        requires { place < length self.now.items }
        ensures { slice_get self.now.items place ≡ Some (related_of result) }
    {
        let one = self.pins[place];
        let timings = self.timings;
        RelatedPin {
            timing: &timings[one.timing as usize],
            pin: one.pin,
        }
    }

    /// Adds the pin at a place of the cell, to which the timing group of a number is related. Numbers that do not fit
    /// 32 bits are out of memory.
    pub fn push(&mut self, timing: usize, pin: usize) -> Result<(), AllocError>
        requires { timing < length self.old.timings }
        ensures items { OnOk result
            ((t : Timing) → slice_get self.old.timings timing ≡ Some t
            → self.new.items ≡ self.old.items ++ with_timing t pin ∷ []) }
        ensures timings { OnOk result (self.new.timings ≡ self.old.timings) }
    {
        let Ok(timing) = u32::try_from(timing) else {
            return Err(AllocError);
        };
        let Ok(pin) = u32::try_from(pin) else {
            return Err(AllocError);
        };
        self.pins.push(NumberedPin { timing, pin })?;
        Ok(())
    }
}
