//! What limits are asked of.

ghost use Rattle.std.specs.Prelude.{◌≡◌, ◌<◌, ◌^◌, ◌+◌, ◌++◌, ◌∷◌, [], length, OnOk};
ghost use Rattle.hier_flatten.specs.Flat.{limit_of, limit_after};

use crate::places::width_of;
use std::alloc::{AllocError, Global};
use std::marker::Model;
use verilog_net::{Instance, Netlist};
use xt_model::LimitKind;
use xt_model::limits::{MOST_INSTANCES, MOST_NETS, MOST_TEXT_NAME};

/// The greatest number of nets that a netlist has names for.
const MOST_NAMES: usize = 4_294_967_295;

/// How many bytes all flat names may have beside those of the text, once one of them is too long.
const MOST_BESIDE: u64 = 64 << 20;

/// How many bytes an instance has in the text at least: of its name and of those of its pins, and of the marks that
/// each of these has around it.
fn bytes_of_instance(instance: &Instance) -> u64 {
    let mut bytes = instance.name.bytes().len() as u64 + 2;
    for pin in instance.pins.as_slice().iter() {
        let (name, _) = pin;
        bytes = bytes.saturating_add(name.bytes().len() as u64 + 4);
    }
    bytes
}

/// How many bytes a module has in the text at least: of its name, of those of its nets, and of its instances.
fn bytes_of_module(module: &Netlist) -> u64 {
    let mut bytes = module.module.bytes().len() as u64;
    for number in 0..module.nets.len() {
        if let Some((name, _)) = module.nets.get(number) {
            bytes = bytes.saturating_add(name.len() as u64);
        }
    }
    for instance in module.instances.as_slice().iter() {
        bytes = bytes.saturating_add(bytes_of_instance(instance));
    }
    bytes
}

/// How many bytes all flat names may have once one of them is too long: four times those that these modules have in the
/// text at least, and 64 MB.
fn most_written(modules: &[Netlist]) -> u64 {
    let mut bytes: u64 = 0;
    for module in modules.iter() {
        bytes = bytes.saturating_add(bytes_of_module(module));
    }
    bytes.saturating_mul(4).saturating_add(MOST_BESIDE)
}

/// The limit that is passed where a further instance of a module is met, after this many instances of cells and of
/// modules, and nets of this many bits.
pub fn limit_after(met: u64, bits: u64) -> Option<LimitKind>
    ensures { result ≡ limit_after met bits }
{
    if met >= MOST_INSTANCES as u64 {
        return Some(LimitKind::Instances);
    }
    if bits > MOST_NETS as u64 {
        return Some(LimitKind::Nets);
    }
    None
}

/// What is counted of a flat netlist: the ranges of its nets, `met`, how many instances of cells and of modules were
/// met, and `bits`, how many bits the nets have. `written` is how many bytes the names of nets and of instances of
/// cells have, `has_long` whether one of these is too long, and `most_written` how many bytes they may have then.
#[derive(Drop)]
pub struct Tally {
    ranges: Vec<Option<(u32, u32)>>,
    met: u64,
    bits: u64,
    written: u64,
    has_long: bool,
    most_written: u64,
}

impl Model for Tally {
    ghost use Rattle.hier_flatten.specs.Flat.{Counts, IsCounted};

    ghost Value = { Counts };

    ghost view = { λ t. record { ranges = t.ranges.items; met = t.met } };

    ghost invariant = { λ t. IsCounted t.ranges.items t.bits };
}

impl Tally {
    /// Nothing so far, of a netlist of these modules.
    pub fn new(alloc: Global, modules: &[Netlist]) -> Tally
        ensures { result ≡ record { ranges = []; met = 0 } }
    {
        Tally {
            ranges: Vec::new(alloc),
            met: 0,
            bits: 0,
            written: 0,
            has_long: false,
            most_written: most_written(modules),
        }
    }

    /// The ranges of the nets.
    pub fn ranges(&self) -> &[Option<(u32, u32)>]
        ensures ranges { result.now ≡ self.now.ranges }
        ensures few { length result.now < 2 ^ 32 }
    {
        self.ranges.as_slice()
    }

    /// A further net.
    pub fn add_net(&mut self, range: Option<(u32, u32)>) -> Result<(), AllocError>
        ensures { OnOk result (self.new ≡ record self.old { ranges = self.old.ranges ++ range ∷ [] }) }
    {
        if self.ranges.len() >= MOST_NAMES {
            return Err(AllocError);
        }
        self.ranges.push(range)?;
        self.bits += width_of(range);
        Ok(())
    }

    /// Counts the bytes of a further name. A netlist with a name that is too long is refused in the end. Where all its
    /// names have more bytes than they may, that is want of memory: a path could have as many names as the text has
    /// modules.
    pub fn count_name(&mut self, size: usize) -> Result<(), AllocError>
        ensures { OnOk result (self.new ≡ self.old) }
    {
        self.written = self.written.saturating_add(size as u64);
        self.has_long = self.has_long || size > MOST_TEXT_NAME;
        if self.has_long && self.written > self.most_written {
            return Err(AllocError);
        }
        Ok(())
    }

    /// Further instances.
    pub fn meet(&mut self, count: usize) -> Result<(), AllocError>
        ensures { OnOk result (self.new ≡ record self.old { met = self.old.met + count }) }
    {
        let Some(met) = self.met.checked_add(count as u64) else {
            return Err(AllocError);
        };
        self.met = met;
        Ok(())
    }

    /// The limit that is passed where a further instance of a module is met.
    #[tactic(auto, unfolding(crate::specs::Flat::limit_of))]
    pub fn limit(&self) -> Option<LimitKind>
        ensures { result ≡ limit_of self.now }
    {
        limit_after(self.met, self.bits)
    }
}
