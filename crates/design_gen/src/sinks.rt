//! The sinks of each net of a generated design, by the numbers of the input pins.

ghost use Rattle.std.specs.Prelude.{◌≡◌, ◌<◌, length, map, IfOk, slice_index};
ghost use Rattle.std.specs.List.{All};
ghost use Rattle.design_gen.specs.Lists.{each_below};
ghost use Rattle.design_gen.specs.Taps.{place_of};
ghost use Rattle.design_gen.specs.Rows.{HoldPins};

use crate::rows::{Items, empty_rows, push_item};
use std::alloc::{AllocError, Global};

/// The input pins that are tied to each net, in order, and the place of each pin among those of its driver.
#[derive(Drop)]
pub(crate) struct Sinks {
    pub(crate) rows: Vec<Items<u32>>,
    pub(crate) places: Vec<u32>,
}

/// The sinks of nets, by the driver of each input pin.
pub(crate) fn sinks_by_driver(
    alloc: Global,
    nets: u32,
    drivers: &[u32],
) -> Result<Sinks, AllocError>
    requires drivers { All (λ d. d < nets) drivers.now }
    requires few { length drivers.now < 4294967296 }
    ensures rows { IfOk result (λ s.
        HoldPins (map (λ r. r.items) s.rows.items) (slice_index drivers.now) (length drivers.now)) }
    ensures count { IfOk result (λ s. length s.rows.items ≡ nets) }
    ensures places { IfOk result (λ s.
        s.places.items ≡ each_below (place_of (slice_index drivers.now)) (length drivers.now)) }
{
    let mut rows = empty_rows(alloc, nets)?;
    let mut places = Vec::with_capacity(alloc, drivers.len())?;
    for pin in 0..drivers.len() {
        let driver = drivers[pin] as usize;
        places.push(rows[driver].len() as u32)?;
        push_item(&mut rows, driver, pin as u32)?;
    }
    Ok(Sinks { rows, places })
}
