//! The nets that the input pins of a generated design are tied to.

ghost use Rattle.std.specs.Prelude.{◌≡◌, ◌+◌, ◌-◌, ◌<◌, min, IfOk, OnOk};
ghost use Rattle.drawn_numbers.specs.Draws.{after, answer, next};
ghost use Rattle.design_gen.specs.Laws.{IsCount};
ghost use Rattle.design_gen.specs.Taps.{sources, pins, net_of_pin, driver_of};
ghost use Rattle.design_gen.specs.Lists.{each_below};

use drawn_numbers::Source;
use std::alloc::{AllocError, Global};

/// A tenth of the nets are sources, and at least one.
pub(crate) fn sources(nets: u32) -> u32
    ensures { result ≡ sources nets }
{
    let tenth = nets / 10;
    if tenth == 0 { 1 } else { tenth }
}

/// How many input pins there are: two for each driven net.
pub(crate) fn pins(nets: u32) -> u32
    requires { IsCount nets }
    ensures { result ≡ pins nets }
{
    2 * (nets - sources(nets))
}

/// The net that an input pin is tied to: one of the thousand before its own.
fn draw_driver(source: &mut Source, nets: u32, pin: u32) -> u32
    requires count { IsCount nets }
    requires pin { pin < pins nets }
    ensures state { source.new.state ≡ next source.old.state }
    ensures driver { result ≡ net_of_pin nets pin - 1 - answer source.new.state (min (net_of_pin nets pin) 1000) }
{
    let net = sources(nets) + pin / 2;
    let reach = if net < 1000 { net } else { 1000 };
    net - 1 - source.draw(u64::from(reach)) as u32
}

/// The driver of each input pin.
pub(crate) fn draw_drivers(
    alloc: Global,
    source: &mut Source,
    number: u64,
    nets: u32,
) -> Result<Vec<u32>, AllocError>
    requires count { IsCount nets }
    requires state { source.old.state ≡ after number (sources nets) }
    ensures drivers { IfOk result (λ ds. ds.items ≡ each_below (driver_of number nets) (pins nets)) }
    ensures state { OnOk result (source.new.state ≡ after number (sources nets + pins nets)) }
{
    let mut drivers = Vec::with_capacity(alloc, pins(nets) as usize)?;
    for pin in 0..pins(nets) {
        drivers.push(draw_driver(source, nets, pin))?;
    }
    Ok(drivers)
}
