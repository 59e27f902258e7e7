//! The pins of nets, and the circuit that is made of them.

ghost use Rattle.std.specs.Prelude.{◌≡◌, ◌≤◌, length, IfOk};
ghost use Rattle.sdc_read.specs.declared.constraints.Constraints.{Constraints as Given};
ghost use Rattle.link_rules.specs.Circuit.{circuit_of};
ghost use Rattle.xt_model.specs.Limits.{most_instances};
ghost use Rattle.liberty_cells.specs.Sound.{IsSoundLibrary};
ghost use Rattle.sdc_read.specs.Sound.{AreSoundConstraints};
ghost use Rattle.link_pins.specs.Joined.{with_rows, HasPins, IsJoined, Joins, AreCounts};

use crate::bits::bits_of;
use crate::counts::{Counts, counts_of, plus};
use crate::drivers::drivers_of;
use crate::nets::{Gathered, add_all_ports, all_nets};
use crate::pins::{PinOn, pins_on};
use crate::sinks::{Sinks, sinks_of};
use crate::timings::{NetArcs, Timings, timings_of};
use link_index::{CellIndex, NetBits, NetIndex};
use link_rules::{Circuit, LinkFault, NetPins};
use sdc_read::Constraints;
use std::alloc::{AllocError, Global};
use xt_model::{CheckPoint, Row};

/// The nets of a netlist by their pins, without the arcs into them, the check points of its output ports, and the pins
/// of which the arcs and the other check points are made.
#[derive(Drop)]
pub struct Joined {
    nets: Vec<NetPins>,
    ports: Vec<CheckPoint>,
    pins: Vec<PinOn>,
    places: Vec<u32>,
}

/// The nets of a netlist by their pins: what drives each net, and its sinks. The first net with two drivers is refused
/// (`K3`). Takes time and memory in proportion to the pins of instances.
pub fn join<'a>(
    alloc: Global,
    cells: &CellIndex<'a>,
    nets: &NetIndex<'a>,
    constraints: &Constraints,
) -> Result<Joined, LinkFault>
    requires library { IsSoundLibrary cells.now }
    requires constraints { AreSoundConstraints constraints.now }
    requires instances { length nets.now.instances ≤ most_instances }
    ensures { Joins cells.now nets.now constraints.now result }
{
    let bits = bits_of(alloc, nets.netlist())?;
    let pins = pins_on(alloc, cells, nets)?;
    let drivers = drivers_of(alloc, cells, nets, &bits, &pins)?;
    let Sinks {
        nets: sinks,
        places,
    } = sinks_of(alloc, cells, nets, constraints, &bits, &pins)?;
    let mut ports = Vec::new(alloc);
    add_all_ports(alloc, cells, nets, constraints, &bits, &sinks, &mut ports)?;
    let gathered = Gathered { drivers, sinks };
    let nets = all_nets(alloc, cells, nets, constraints, &bits, gathered)?;
    Ok(Joined {
        nets,
        ports,
        pins,
        places,
    })
}

/// Gives nets the arcs into them.
fn with_arcs(mut nets: Vec<NetPins>, rows: Vec<NetArcs>) -> Vec<NetPins>
    requires { length rows.items ≡ length nets.items }
    ensures { result.items ≡ with_rows nets.items rows.items }
{
    let mut at = 0;
    let mut rest = rows.into_iter();
    'nets: while let Some(row) = rest.next() {
        nets[at].arcs = Row::from_vec(row.arcs);
        at += 1;
    }
    nets
}

impl Joined {
    /// The nets, without arcs.
    pub fn nets(&self) -> &[NetPins]
        ensures { result.now ≡ self.now.nets.items }
    {
        &self.nets
    }

    /// How many arcs and check points the circuit of these pins has. None is made for that: takes time in proportion
    /// to the pins of instances and the related pins of the timing groups that are read, and memory for one instance.
    pub fn count<'a>(
        &self,
        alloc: Global,
        cells: &CellIndex<'a>,
        nets: &NetBits<'a>,
    ) -> Result<Counts, AllocError>
        requires { HasPins cells.now nets.now self.now }
        ensures { IfOk result
            (λ n. (given : Given) → IsJoined cells.now nets.now given self.now
            → AreCounts (circuit_of cells.now nets.now given) n) }
    {
        let Counts { arcs, checks } = counts_of(alloc, cells, nets, &self.pins, &self.places)?;
        let ports = self.ports.len();
        Ok(Counts {
            arcs,
            checks: plus(checks, ports as u128)?,
        })
    }

    /// The circuit of these pins, with the timing arcs into its nets and its check points. Takes time and memory in
    /// proportion to the pins of instances, the related pins of the timing groups that are read, the arcs and the check
    /// points.
    pub fn finish<'a>(
        self,
        alloc: Global,
        cells: &CellIndex<'a>,
        nets: &NetBits<'a>,
    ) -> Result<Circuit, AllocError>
        requires { HasPins cells.now nets.now self }
        ensures { IfOk result
            (λ c. (given : Given) → IsJoined cells.now nets.now given self
            → c ≡ circuit_of cells.now nets.now given) }
    {
        let Joined {
            nets: pins_of_nets,
            mut ports,
            pins,
            places,
        } = self;
        let Timings {
            nets: rows,
            mut checks,
        } = timings_of(alloc, cells, nets, &pins, &places)?;
        let made = with_arcs(pins_of_nets, rows);
        checks.append(&mut ports)?;
        Ok(Circuit {
            nets: Row::from_vec(made),
            checks: Row::from_vec(checks),
        })
    }
}
