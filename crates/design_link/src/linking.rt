//! Linking.

ghost use Rattle.std.specs.Prelude.{◌≡◌, None};
ghost use Rattle.xt_model.specs.Parts.{classical_parts};
ghost use Rattle.xt_model.specs.Sound.{IsSound};
ghost use Rattle.link_rules.specs.Limits.{count_fault};
ghost use Rattle.link_rules.specs.Link.{Links};
ghost use Rattle.liberty_cells.specs.Sound.{IsSoundLibrary};
ghost use Rattle.spef_read.specs.Sound.{AreSoundParasitics};
ghost use Rattle.sdc_read.specs.Sound.{AreSoundConstraints};
ghost use Rattle.verilog_net.specs.Sound.{IsSoundNetlist};
ghost use Rattle.design_link.specs.Built.{HaveNamesOf, Builds};

use crate::clock::check_unclocked;
use crate::copies::copied_tables;
use crate::gathering::{Gathered, gather};
use crate::names::names_of;
use crate::nets::nets_of;
use liberty_cells::Library;
use link_rules::{Circuit, LinkFault, LinkRefusal};
use sdc_read::Constraints;
use spef_read::Parasitics;
use std::alloc::Global;
use verilog_net::Netlist;
use xt_model::{BuildFault, CheckPoint, Design, DesignParts, Miller, Net, Row, Table};

/// The design of these parts, whose couplings count by the classical factors, or the names of the nets of the loop that
/// their arcs make (`K4`).
fn design_of(
    alloc: Global,
    netlist: &Netlist,
    period: Option<i64>,
    tables: Row<Table>,
    nets: Vec<Net>,
    checks: Row<CheckPoint>,
) -> Result<Design, LinkFault>
    requires sound { IsSound (classical_parts period tables nets.items checks) }
    requires netlist { IsSoundNetlist netlist.now }
    requires counts { count_fault netlist.now ≡ None }
    requires names { HaveNamesOf netlist.now nets.items }
    ensures { Builds (classical_parts period tables nets.items checks) result }
{
    let parts = DesignParts {
        period,
        tables,
        nets: Row::from_vec(nets),
        checks,
        miller: Miller::classical(),
    };
    match Design::from_parts(alloc, parts) {
        Ok(design) => Ok(design),
        Err(BuildFault::Loop(nets)) => Err(LinkFault::Refused(LinkRefusal::K4 {
            nets: names_of(alloc, netlist, nets.as_slice())?,
        })),
        Err(BuildFault::NoMemory) => Err(LinkFault::NoMemory),
    }
}

/// The design that a library, a netlist, its parasitics and its constraints make together, or the first fault. Its
/// couplings count by the classical factors. Takes time and memory in proportion to the four values, but for a sort of
/// the nets and of the couplings.
pub fn link(
    alloc: Global,
    library: &Library,
    netlist: &Netlist,
    parasitics: &Parasitics,
    constraints: &Constraints,
) -> Result<Design, LinkFault>
    requires library { IsSoundLibrary library.now }
    requires netlist { IsSoundNetlist netlist.now }
    requires parasitics { AreSoundParasitics parasitics.now }
    requires constraints { AreSoundConstraints constraints.now }
    ensures { Links (record {
      library = library.now;
      netlist = netlist.now;
      parasitics = parasitics.now;
      constraints = constraints.now;
    }) result }
{
    let Gathered { circuit, wires } = gather(alloc, library, netlist, parasitics, constraints)?;
    let Circuit { nets, checks } = circuit;
    let nets = nets_of(alloc, nets.into_vec(), wires)?;
    let tables = copied_tables(alloc, library)?;
    match &constraints.clock {
        Some(clock) => design_of(alloc, netlist, Some(clock.period), tables, nets, checks),
        None => {
            let none = Row::from_vec(Vec::new(alloc));
            let design = design_of(alloc, netlist, None, tables, nets, none)?;
            check_unclocked(alloc, checks.as_slice())?;
            Ok(design)
        }
    }
}
