//! Connections that do not fit.

ghost use Rattle.std.specs.Prelude.{◌≡◌};
ghost use Rattle.std.specs.List.{list_all};
ghost use Rattle.hier_flatten.specs.Places.{width_of};
ghost use Rattle.hier_flatten.specs.Fits.{has_width, pin_fits, cell_pin_fits, instance_fits, misfit_from, misfit};

use crate::index::Index;
use crate::places::{range_at, width_of};
use name_numbers::NameTable;
use verilog_net::{Instance, Name, Net, Wire};

/// Whether a connection in a module with these nets has this width.
fn has_width(nets: &NameTable<Net>, width: u64, wire: Wire) -> bool
    ensures { result ≡ has_width nets.now width wire }
{
    match wire {
        Wire::Open => true,
        Wire::Constant => width == 1,
        Wire::Bit { .. } => width == 1,
        Wire::Whole { decl } => width_of(range_at(nets, decl)) == width,
    }
}

/// Whether a pin of an instance fits, whose module's nets are `inner`, in a module whose nets are `outer`.
fn pin_fits(outer: &NameTable<Net>, inner: &NameTable<Net>, pin: &(Name, Wire)) -> bool
    ensures { result ≡ pin_fits outer.now inner.now pin.now }
{
    let (name, wire) = pin;
    let Some((_, port)) = inner.find(name.bytes()) else {
        return false;
    };
    port.role.is_directed() && has_width(outer, width_of(port.range), *wire)
}

/// Whether a pin of a cell's instance fits.
fn cell_pin_fits(pin: &(Name, Wire)) -> bool
    ensures { result ≡ cell_pin_fits pin.now }
{
    let (_, wire) = pin;
    match wire {
        Wire::Whole { .. } => false,
        _ => true,
    }
}

/// Whether the pins of a cell's instance fit.
pub fn cell_fits(pins: &[(Name, Wire)]) -> bool
    ensures { result ≡ list_all cell_pin_fits pins.now }
{
    pins.iter().all(|pin| cell_pin_fits(pin))
}

/// Whether the pins of a module's instance fit.
fn module_fits(outer: &NameTable<Net>, inner: &NameTable<Net>, pins: &[(Name, Wire)]) -> bool
    ensures { result ≡ list_all (pin_fits outer.now inner.now) pins.now }
{
    pins.iter().all(|pin| pin_fits(outer, inner, pin))
}

/// Whether an instance fits, in a module with these nets.
fn instance_fits<'a>(index: &Index<'a>, nets: &NameTable<Net>, instance: &'a Instance) -> bool
    ensures { result ≡ instance_fits index.now nets.now instance.entry.now }
{
    match index.find(instance.cell.bytes()) {
        None => cell_fits(instance.pins.as_slice()),
        Some(inner) => module_fits(nets, &inner.nets, instance.pins.as_slice()),
    }
}

/// The line of the first of these instances that does not fit, in a module with these nets.
fn misfit_from<'a>(
    index: &Index<'a>,
    nets: &NameTable<Net>,
    instances: &'a [Instance],
) -> Option<u32>
    ensures { result ≡ misfit_from index.now nets.now instances.entry.now }
{
    let mut rest = instances;
    'instances: while let [instance, more @ ..] = rest {
        if !instance_fits(index, nets, instance) {
            return Some(instance.line);
        }
        rest = more;
    }
    None
}

/// The line of the first instance of the modules that does not fit.
#[tactic(auto, unfolding(crate::specs::Fits::misfit))]
pub fn misfit(index: &Index) -> Option<u32>
    ensures { result ≡ misfit index.now }
{
    let mut rest = index.modules();
    'modules: while let [module, more @ ..] = rest {
        let line = misfit_from(index, &module.nets, module.instances.as_slice());
        if line.is_some() {
            return line;
        }
        rest = more;
    }
    None
}
