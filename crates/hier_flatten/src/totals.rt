//! How large a flat netlist comes to be, by the totals of its modules. An answer does not rest on these: where they are
//! within the limits the netlist is built at once, and limits are asked again on the way; else it is counted first.

use crate::index::Index;
use crate::places::width_of;
use name_numbers::NameTable;
use std::alloc::{AllocError, Global};
use verilog_net::{Instance, Name, Net, Wire};
use xt_model::limits::{MOST_INSTANCES, MOST_NETS, MOST_TEXT_NAME};

/// What a module comes to with all that is below it, if none of its ports is connected: `met` instances of cells and of
/// modules, `cells` instances of cells, `nets` nets and their `bits`, and the bytes of the longest name below its path.
#[derive(Clone, Copy)]
pub struct Total {
    met: usize,
    pub cells: usize,
    pub nets: usize,
    bits: u64,
    longest: usize,
}

impl Total {
    /// Nothing.
    fn new() -> Total {
        Total {
            met: 0,
            cells: 0,
            nets: 0,
            bits: 0,
            longest: 0,
        }
    }

    /// Whether no limit is passed, and no name is too long.
    pub fn is_within(&self) -> bool {
        self.met <= MOST_INSTANCES
            && self.bits <= MOST_NETS as u64
            && self.longest <= MOST_TEXT_NAME
    }

    /// A further net, with a name of this many bytes.
    fn add_net(&mut self, name: usize, net: &Net) {
        self.nets = self.nets.saturating_add(1);
        self.bits = self.bits.saturating_add(width_of(net.range));
        self.longest = self.longest.max(name);
    }

    /// A port is connected, and so no net of its own.
    fn connect(&mut self, port: &Net) {
        self.nets = self.nets.saturating_sub(1);
        self.bits = self.bits.saturating_sub(width_of(port.range));
    }

    /// A further instance of a cell, with a name of this many bytes.
    fn add_cell(&mut self, name: usize) {
        self.met = self.met.saturating_add(1);
        self.cells = self.cells.saturating_add(1);
        self.longest = self.longest.max(name);
    }

    /// A further instance of a module that comes to this, with a name of this many bytes.
    fn add_below(&mut self, name: usize, below: Total) {
        self.met = self.met.saturating_add(below.met).saturating_add(1);
        self.cells = self.cells.saturating_add(below.cells);
        self.nets = self.nets.saturating_add(below.nets);
        self.bits = self.bits.saturating_add(below.bits);
        let longest = below.longest.saturating_add(name).saturating_add(1);
        self.longest = self.longest.max(longest);
    }
}

/// The total of these nets.
fn total_of_nets(nets: &NameTable<Net>) -> Total {
    let mut total = Total::new();
    for number in 0..nets.len() {
        if let Some((name, net)) = nets.get(number) {
            total.add_net(name.len(), net);
        }
    }
    total
}

/// What the module with these nets, of this total, comes to at an instance with these pins.
fn total_at(total: Total, nets: &NameTable<Net>, pins: &[(Name, Wire)]) -> Total {
    let mut below = total;
    for pin in pins.iter() {
        let (name, wire) = pin;
        if let Some((_, port)) = nets.find(name.bytes()) {
            if *wire != Wire::Open {
                below.connect(port);
            }
        }
    }
    below
}

/// Adds an instance to a total; `link` is the number of its module, where it is one of a module.
fn add_instance(
    index: &Index,
    totals: &[Total],
    total: &mut Total,
    instance: &Instance,
    link: Option<usize>,
) {
    let name = instance.name.bytes().len();
    let Some(number) = link else {
        total.add_cell(name);
        return;
    };
    let Some(below) = totals.get(number) else {
        return;
    };
    if let Some((inner, _)) = index.linked(number) {
        let pins = instance.pins.as_slice();
        total.add_below(name, total_at(*below, &inner.nets, pins));
    }
}

/// The total of the module of this number, by those of the modules of its instances.
fn total_by(index: &Index, totals: &[Total], number: usize) -> Total {
    let Some((module, links)) = index.linked(number) else {
        return Total::new();
    };
    let mut total = total_of_nets(&module.nets);
    let mut rest = module.instances.as_slice();
    for link in links.iter() {
        let [instance, more @ ..] = rest else {
            return total;
        };
        add_instance(index, totals, &mut total, instance, *link);
        rest = more;
    }
    total
}

/// Sums up the modules in this order, each by its number.
fn sum_up(index: &Index, order: &[usize], totals: &mut [Total]) {
    for number in order.iter() {
        let total = total_by(index, totals, *number);
        if let Some(place) = totals.get_mut(*number) {
            *place = total;
        }
    }
}

/// The total of the module with this name, by an order of the modules in which each comes after those below it.
pub fn total_of<'a>(
    alloc: Global,
    index: &Index<'a>,
    order: &[usize],
    name: &'a [u8],
) -> Result<Total, AllocError> {
    let mut totals = vec![in alloc; Total::new(); index.modules().len()]?;
    sum_up(index, order, &mut totals);
    let Some(number) = index.number(name) else {
        return Ok(Total::new());
    };
    Ok(totals[number])
}
