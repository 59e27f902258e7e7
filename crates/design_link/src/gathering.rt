//! From four values to the pins and the wires of nets.

ghost use Rattle.std.specs.Prelude.{◌≡◌, None, IfOk, IfErr, Err};
ghost use Rattle.link_rules.specs.Limits.{count_fault};
ghost use Rattle.link_rules.specs.Link.{Links};
ghost use Rattle.liberty_cells.specs.Sound.{IsSoundLibrary};
ghost use Rattle.spef_read.specs.Sound.{AreSoundParasitics};
ghost use Rattle.sdc_read.specs.Sound.{AreSoundConstraints};
ghost use Rattle.verilog_net.specs.Sound.{IsSoundNetlist};
ghost use Rattle.design_link.specs.Gathered.{IsGathered, IsWired};

use crate::sizes::{check_reads, check_sizes};
use liberty_cells::Library;
use link_index::{CellIndex, NetIndex};
use link_pins::{Joined, check_counts, check_instances, join};
use link_rules::{Circuit, LinkFault};
use link_wires::{KeptWire, wires};
use sdc_read::Constraints;
use spef_read::Parasitics;
use std::alloc::Global;
use verilog_net::Netlist;

/// The nets of a design by their pins, its check points, and the wires of the nets.
#[derive(Drop)]
pub struct Gathered {
    pub circuit: Circuit,
    pub wires: Vec<KeptWire>,
}

/// The pins of nets without arcs and the wires that four values come to, or the first fault up to the wires, where the
/// counts of the netlist are kept.
fn wired_by<'a>(
    alloc: Global,
    cells: &CellIndex<'a>,
    index: &NetIndex<'a>,
    parasitics: &'a Parasitics,
    constraints: &Constraints,
) -> Result<(Joined, Vec<KeptWire>), LinkFault>
    requires library { IsSoundLibrary cells.now }
    requires netlist { IsSoundNetlist index.now }
    requires parasitics { AreSoundParasitics parasitics.now }
    requires constraints { AreSoundConstraints constraints.now }
    requires counts { count_fault index.now ≡ None }
    ensures ok { IfOk result (λ w. IsWired (record {
      library = cells.now;
      netlist = index.now;
      parasitics = parasitics.now;
      constraints = constraints.now;
    }) w.0 w.1.items) }
    ensures fault { IfErr result (λ f. Links (record {
      library = cells.now;
      netlist = index.now;
      parasitics = parasitics.now;
      constraints = constraints.now;
    }) (Err f)) }
{
    check_instances(alloc, cells, index.netlist())?;
    let joined = join(alloc, cells, index, constraints)?;
    let wires = wires(alloc, &*index, joined.nets(), &*parasitics)?;
    Ok((joined, wires))
}

/// The pins and the wires that four values come to, or the first fault up to the sizes of the design, where the counts
/// of the netlist are kept. The names of nets are given back once there are wires. No arc and no check point of an
/// instance is made before there are known to be few enough.
fn gather_by<'a>(
    alloc: Global,
    cells: &CellIndex<'a>,
    index: NetIndex<'a>,
    parasitics: &'a Parasitics,
    constraints: &Constraints,
) -> Result<Gathered, LinkFault>
    requires library { IsSoundLibrary cells.now }
    requires netlist { IsSoundNetlist index }
    requires parasitics { AreSoundParasitics parasitics.now }
    requires constraints { AreSoundConstraints constraints.now }
    requires counts { count_fault index ≡ None }
    ensures ok { IfOk result (IsGathered (record {
      library = cells.now;
      netlist = index.entry;
      parasitics = parasitics.now;
      constraints = constraints.now;
    })) }
    ensures fault { IfErr result (λ f. Links (record {
      library = cells.now;
      netlist = index.entry;
      parasitics = parasitics.now;
      constraints = constraints.now;
    }) (Err f)) }
{
    let (joined, wires) = wired_by(alloc, cells, &index, parasitics, constraints)?;
    let bits = index.into_bits();
    let nets = joined.nets();
    let counts = joined.count(alloc, cells, &bits)?;
    check_sizes(cells.library(), nets, &wires, counts)?;
    let circuit = joined.finish(alloc, cells, &bits)?;
    check_reads(circuit.nets.as_slice(), &wires)?;
    Ok(Gathered { circuit, wires })
}

/// The pins and the wires that four values come to, or the first fault up to the sizes of the design.
pub fn gather<'a>(
    alloc: Global,
    library: &'a Library,
    netlist: &'a Netlist,
    parasitics: &'a Parasitics,
    constraints: &Constraints,
) -> Result<Gathered, LinkFault>
    requires library { IsSoundLibrary library.now }
    requires netlist { IsSoundNetlist netlist.now }
    requires parasitics { AreSoundParasitics parasitics.now }
    requires constraints { AreSoundConstraints constraints.now }
    ensures ok { IfOk result (IsGathered (record {
      library = library.now;
      netlist = netlist.now;
      parasitics = parasitics.now;
      constraints = constraints.now;
    })) }
    ensures fault { IfErr result (λ f. Links (record {
      library = library.now;
      netlist = netlist.now;
      parasitics = parasitics.now;
      constraints = constraints.now;
    }) (Err f)) }
{
    check_counts(netlist)?;
    let index: NetIndex<'a> = NetIndex::new(alloc, netlist)?;
    let cells: CellIndex<'a> = CellIndex::new(alloc, library)?;
    gather_by(alloc, &cells, index, parasitics, constraints)
}
