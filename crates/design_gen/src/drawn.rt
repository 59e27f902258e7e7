//! What is drawn for a generated design.

ghost use Rattle.std.specs.Prelude.{◌≡◌, ◌+◌, ◌<◌, ◌≤◌, length, map, IfOk, OnOk};
ghost use Rattle.std.specs.List.{All};
ghost use Rattle.drawn_numbers.specs.Draws.{after};
ghost use Rattle.design_gen.specs.Generated.{given_of, couples_of};
ghost use Rattle.design_gen.specs.Couples.{couplings_of};
ghost use Rattle.design_gen.specs.Laws.{IsCount};
ghost use Rattle.design_gen.specs.Rows.{AreSourcesAndPins, HoldCouplings};
ghost use Rattle.design_gen.specs.Taps.{sources, driver_of, pins, pins_on, place_of};

use crate::couplings::{DrawnCoupling, draw_couplings};
use crate::drivers::{draw_drivers, pins, sources};
use crate::given::draw_windows;
use crate::nets::given;
use crate::rows::Items;
use crate::sinks::{Sinks, sinks_by_driver};
use drawn_numbers::Source;
use std::alloc::{AllocError, Global};
use std::marker::Model;
use std::thread::{Threads, join};
use xt_model::{Pair, Quad};

/// What is drawn for the sources and the input pins: the windows of the sources, the net that each pin is tied to, and
/// the pins that are tied to each net.
#[derive(Drop)]
struct SourcesAndPins {
    windows: Vec<Quad>,
    drivers: Vec<u32>,
    sinks: Sinks,
}

/// Draws for the sources and then for the input pins, from a source that starts at the number of the design.
fn draw_sources_and_pins(
    alloc: Global,
    source: &mut Source,
    number: u64,
    nets: u32,
) -> Result<SourcesAndPins, AllocError>
    requires count { IsCount nets }
    requires state { source.old.state ≡ number }
    ensures drawn { IfOk result (λ s. AreSourcesAndPins number nets s.windows.items s.drivers.items
        (map (λ r. r.items) s.sinks.rows.items) s.sinks.places.items) }
    ensures state { OnOk result (source.new.state ≡ after number (sources nets + pins nets)) }
{
    let windows = draw_windows(alloc, source, sources(nets))?;
    let drivers = draw_drivers(alloc, source, number, nets)?;
    let sinks = sinks_by_driver(alloc, nets, &drivers)?;
    Ok(SourcesAndPins {
        windows,
        drivers,
        sinks,
    })
}

/// The couplings of each net of the design of this number, by a source that leaves out the draws before theirs.
fn draw_couplings_alone(
    alloc: Global,
    number: u64,
    nets: u32,
) -> Result<Vec<Items<DrawnCoupling>>, AllocError>
    requires { IsCount nets }
    ensures rows { IfOk result (λ rows. HoldCouplings (map (λ r. r.items) rows.items) (couples_of number nets)) }
    ensures count { IfOk result (λ rows. length rows.items ≡ nets) }
{
    let mut source = Source::new(number);
    source.skip(u64::from(sources(nets)) + u64::from(pins(nets)));
    draw_couplings(alloc, &mut source, nets)
}

/// What is drawn for the design of a number and a count of nets: the windows of its sources, the nets that its
/// input pins are tied to, and the couplings of each net.
#[derive(Drop)]
pub(crate) struct Drawn {
    number: u64,
    nets: u32,
    windows: Vec<Quad>,
    drivers: Vec<u32>,
    sinks: Sinks,
    couplings: Vec<Items<DrawnCoupling>>,
}

impl Model for Drawn {
    ghost use Rattle.std.specs.Prelude.{map};
    ghost use Rattle.design_gen.specs.Rows.{Seed, AreDrawn};

    ghost Value = { Seed };

    ghost view = { λ d. record { number = d.number; nets = d.nets } };

    ghost invariant = { λ d. AreDrawn d.number d.nets d.windows.items d.drivers.items
        (map (λ r. r.items) d.sinks.rows.items) d.sinks.places.items (map (λ r. r.items) d.couplings.items) };
}

impl Drawn {
    /// The parts of a design, together.
    fn from_parts(
        number: u64,
        nets: u32,
        parts: SourcesAndPins,
        couplings: Vec<Items<DrawnCoupling>>,
    ) -> Drawn
        requires parts { AreSourcesAndPins number nets parts.windows.items parts.drivers.items
            (map (λ r. r.items) parts.sinks.rows.items) parts.sinks.places.items }
        requires rows { HoldCouplings (map (λ r. r.items) couplings.items) (couples_of number nets) }
        requires count { length couplings.items ≡ nets }
        ensures { result ≡ record { number = number; nets = nets } }
    {
        let SourcesAndPins {
            windows,
            drivers,
            sinks,
        } = parts;
        Drawn {
            number,
            nets,
            windows,
            drivers,
            sinks,
            couplings,
        }
    }

    /// Draws the design of this number and this count of nets.
    pub(crate) fn new(alloc: Global, number: u64, nets: u32) -> Result<Drawn, AllocError>
        requires { IsCount nets }
        ensures { IfOk result (λ d. d ≡ record { number = number; nets = nets }) }
    {
        let mut source = Source::new(number);
        let parts = draw_sources_and_pins(alloc, &mut source, number, nets)?;
        let couplings = draw_couplings(alloc, &mut source, nets)?;
        Ok(Drawn::from_parts(number, nets, parts, couplings))
    }

    /// The design that [`Drawn::new`] draws. Of two or more workers, one draws for the sources and the input pins, and
    /// one the couplings.
    pub(crate) fn new_by<R: Threads + Sync>(
        rt: &R,
        alloc: Global,
        number: u64,
        nets: u32,
        workers: u32,
    ) -> Result<Drawn, AllocError>
        requires { IsCount nets }
        ensures { IfOk result (λ d. d ≡ record { number = number; nets = nets }) }
    {
        if workers <= 1 {
            return Drawn::new(alloc, number, nets);
        }
        let (parts, couplings) = join(
            rt,
            move || -> Result<SourcesAndPins, AllocError>
                requires { IsCount nets }
                ensures { IfOk result (λ s. AreSourcesAndPins number nets s.windows.items s.drivers.items
                    (map (λ r. r.items) s.sinks.rows.items) s.sinks.places.items) }
            { draw_sources_and_pins(alloc, &mut Source::new(number), number, nets) },
            move || -> Result<Vec<Items<DrawnCoupling>>, AllocError>
                requires { IsCount nets }
                ensures { IfOk result (λ rows. HoldCouplings (map (λ r. r.items) rows.items) (couples_of number nets)
                    × (length rows.items ≡ nets)) }
            { draw_couplings_alone(alloc, number, nets) },
        );
        Ok(Drawn::from_parts(number, nets, parts?, couplings?))
    }

    /// How many nets there are.
    pub(crate) fn nets(&self) -> u32
        ensures value { result ≡ self.now.nets }
        ensures count { IsCount result }
    {
        self.nets
    }

    /// What a net is given.
    pub(crate) fn given(&self, net: u32) -> Pair
        ensures { result ≡ given_of self.now.number self.now.nets net }
    {
        given(&self.windows, net)
    }

    /// The net that an input pin is tied to.
    pub(crate) fn driver(&self, pin: u32) -> u32
        requires { pin < pins self.now.nets }
        ensures { result ≡ driver_of self.now.number self.now.nets pin }
    {
        self.drivers[pin as usize]
    }

    /// The place of an input pin among the sinks of its driver.
    pub(crate) fn place(&self, pin: u32) -> u32
        requires { pin < pins self.now.nets }
        ensures { result ≡ place_of (driver_of self.now.number self.now.nets) pin }
    {
        self.sinks.places[pin as usize]
    }

    /// The input pins that are tied to a net.
    pub(crate) fn pins_on(&self, net: u32) -> &[u32]
        requires { net < self.now.nets }
        ensures value { result.now ≡ pins_on (driver_of self.now.number self.now.nets) net (pins self.now.nets) }
        ensures below { All (λ pin. pin < pins self.now.nets) result.now }
        ensures few { length result.now ≤ pins self.now.nets }
    {
        self.sinks.rows[net as usize].as_slice()
    }

    /// The couplings of a net.
    pub(crate) fn couplings(&self, net: u32) -> &[DrawnCoupling]
        requires { net < self.now.nets }
        ensures { result.now ≡ couplings_of net (couples_of self.now.number self.now.nets) }
    {
        self.couplings[net as usize].as_slice()
    }
}
