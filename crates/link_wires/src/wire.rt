//! The wire of each net.

ghost use Rattle.std.specs.Prelude.{◌≡◌, ◌<◌, ◌^◌, false, length, IfOk, IfErr, OnOk};
ghost use Rattle.std.specs.List.{All, enumerate_from};
ghost use Rattle.elmore_tree.specs.declared.fault.TreeFault.{TreeFault};
ghost use Rattle.elmore_tree.specs.Forms.{IsFaultOf, IsAcceptedTree};
ghost use Rattle.spef_read.specs.Sound.{AreSoundParasitics};
ghost use Rattle.link_rules.specs.Wires.{has_resistors};
ghost use Rattle.link_wires.specs.WireFaults.{IsThere, IsTreeFault, IsLimit, IsTreeWithin, limit_at};
ghost use Rattle.link_wires.specs.Seen.{wire_by};
ghost use Rattle.link_wires.specs.Within.{IsWireWithin, IsFaultWithin};
ghost use Rattle.link_wires.specs.Wires.{HasQuantities, HasSinkQuantities, IsNumbered};
ghost use Rattle.link_wires.specs.Wires.{IsWireOf, AreWires, IsNetFault, IsFirstFault};

use crate::charges::{charges_of, couplings_of, greatest_load, taps_of};
use crate::fault::{limit_of, refusal_of};
use crate::index::WireIndex;
use crate::kept::KeptWire;
use crate::nodes::{Nodes, end_nodes, take_nodes};
use crate::parts::{NodeNets, WireParts};
use crate::tree::tree_of;
use elmore_tree::{Tree, check};
use link_index::{NetIndex, NodeIndex};
use link_rules::{LinkFault, NetPins};
use spef_read::Parasitics;
use std::alloc::Global;
use xt_model::{Coupling, Name, Row};

/// The couplings of a net and the tree of its wire, with a tap for each coupling.
#[derive(Debug, Drop)]
pub struct NetWire {
    pub couplings: Row<Coupling>,
    pub tree: Tree,
}

/// The tree of a net, or the limit that it passes.
fn tree_within(
    alloc: Global,
    pins: &NetPins,
    listed: bool,
    nodes: &Nodes<'_>,
    parts: &WireParts<'_>,
) -> Result<Tree, LinkFault>
    requires numbered { IsNumbered nodes.now.list pins.now.sinks (wire_by nodes.now.parasitics parts.now) }
    requires wire { HasQuantities (wire_by nodes.now.parasitics parts.now) }
    requires sinks { HasSinkQuantities pins.now }
    requires unlisted { listed ≡ false → has_resistors (wire_by nodes.now.parasitics parts.now) ≡ false }
    ensures ok { IfOk result (IsTreeWithin listed pins.now nodes.now.list (wire_by nodes.now.parasitics parts.now)) }
    ensures fault { IfErr result
        (IsLimit (limit_at listed pins.now nodes.now.list (wire_by nodes.now.parasitics parts.now))) }
{
    let sinks = pins.sinks.as_slice();
    let charges = charges_of(alloc, nodes, sinks, parts)?;
    let taps = taps_of(alloc, nodes, parts)?;
    let load = greatest_load(&charges, &taps);
    if let Some(fault) = limit_of(alloc, &pins.name, listed, nodes.len(), load)? {
        return Err(fault);
    }
    let tree = tree_of(alloc, nodes, sinks, parts, &charges, taps)?;
    Ok(tree)
}

/// Refuses a tree of a net that is not one or does not reach all.
fn check_tree(alloc: Global, net: &Name, nodes: &Nodes<'_>, tree: &Tree) -> Result<(), LinkFault>
    requires { (fault : TreeFault) → IsFaultOf tree.now fault → IsThere nodes.now.list fault }
    ensures ok { OnOk result (IsAcceptedTree tree.now) }
    ensures fault { IfErr result (IsTreeFault tree.now net.now nodes.now.list) }
{
    match check(alloc, tree) {
        Ok(()) => Ok(()),
        Err(fault) => Err(refusal_of(alloc, net, nodes, fault)?),
    }
}

/// The wire of a net of these nodes.
fn wire_within(
    alloc: Global,
    pins: &NetPins,
    listed: bool,
    nodes: &Nodes<'_>,
    parts: &WireParts<'_>,
) -> Result<KeptWire, LinkFault>
    requires numbered { IsNumbered nodes.now.list pins.now.sinks (wire_by nodes.now.parasitics parts.now) }
    requires wire { HasQuantities (wire_by nodes.now.parasitics parts.now) }
    requires sinks { HasSinkQuantities pins.now }
    requires unlisted { listed ≡ false → has_resistors (wire_by nodes.now.parasitics parts.now) ≡ false }
    ensures ok { IfOk result (IsWireWithin listed pins.now nodes.now.list (wire_by nodes.now.parasitics parts.now)) }
    ensures fault { IfErr result
        (IsFaultWithin listed pins.now nodes.now.list (wire_by nodes.now.parasitics parts.now)) }
{
    let couplings = couplings_of(alloc, parts)?;
    let tree = tree_within(alloc, pins, listed, nodes, parts)?;
    check_tree(alloc, &pins.name, nodes, &tree)?;
    let wire = NetWire {
        couplings: Row::from_vec(couplings),
        tree,
    };
    Ok(KeptWire::new(alloc, wire)?)
}

/// The wire of a net of this number. The names of its ends are put together in `room`.
fn wire_of<'a>(
    alloc: Global,
    index: &WireIndex<'a>,
    nets: &mut NodeNets<'_>,
    nodes: &mut Nodes<'_>,
    room: &mut Vec<u8>,
    net: u32,
    pins: &'a NetPins,
) -> Result<KeptWire, LinkFault>
    requires parasitics { AreSoundParasitics index.now.parasitics }
    requires sinks { HasSinkQuantities pins.now }
    requires nets { nets.old ≡ index.now }
    requires nodes { nodes.old.parasitics ≡ index.now.parasitics }
    ensures ok { IfOk result (IsWireOf index.now.netlist index.now.parasitics (net, pins.entry.now)) }
    ensures fault { IfErr result (IsNetFault index.now.netlist index.now.parasitics (net, pins.entry.now)) }
    ensures nets { OnOk result (nets.new ≡ index.now) }
    ensures nodes { OnOk result (nodes.new.parasitics ≡ index.now.parasitics) }
{
    let listed = index.listed(pins);
    let parts = WireParts::of_net(alloc, nets, net, listed)?;
    let ends = end_nodes(alloc, index.parasitics().delimiter, pins, room)?;
    take_nodes(nodes, ends, &parts)?;
    wire_within(alloc, pins, listed.is_some(), &*nodes, &parts)
}

/// The wires of nets, in their order, or the fault of the first net that has one. The names of ends are put together in
/// `room`.
fn wires_of<'a>(
    alloc: Global,
    index: &WireIndex<'a>,
    node_nets: &mut NodeNets<'_>,
    nodes: &mut Nodes<'_>,
    room: &mut Vec<u8>,
    nets: &'a [NetPins],
) -> Result<Vec<KeptWire>, LinkFault>
    requires few { length nets.now < 2 ^ 32 }
    requires parasitics { AreSoundParasitics index.now.parasitics }
    requires sinks { All HasSinkQuantities nets.now }
    requires nets { node_nets.old ≡ index.now }
    requires nodes { nodes.old.parasitics ≡ index.now.parasitics }
    ensures ok { IfOk result
        (λ v. AreWires index.now.netlist index.now.parasitics (enumerate_from 0 nets.entry.now) v.items) }
    ensures fault { IfErr result
        (IsFirstFault index.now.netlist index.now.parasitics (enumerate_from 0 nets.entry.now)) }
{
    let mut wires = Vec::with_capacity(alloc, nets.len())?;
    for (net, pins) in nets.iter().enumerate() {
        wires.push(wire_of(alloc, index, node_nets, nodes, room, net as u32, pins)?)?;
    }
    Ok(wires)
}

/// The wires of nets by an index of the parasitics.
fn wires_in<'a>(
    alloc: Global,
    index: &WireIndex<'a>,
    nets: &'a [NetPins],
) -> Result<Vec<KeptWire>, LinkFault>
    requires few { length nets.now < 2 ^ 32 }
    requires parasitics { AreSoundParasitics index.now.parasitics }
    requires sinks { All HasSinkQuantities nets.now }
    ensures ok { IfOk result
        (λ v. AreWires index.now.netlist index.now.parasitics (enumerate_from 0 nets.entry.now) v.items) }
    ensures fault { IfErr result
        (IsFirstFault index.now.netlist index.now.parasitics (enumerate_from 0 nets.entry.now)) }
{
    let mut node_nets = NodeNets::new(alloc, &*index)?;
    let mut nodes = Nodes::new(alloc, index.parasitics())?;
    let mut room = Vec::new(alloc);
    wires_of(alloc, index, &mut node_nets, &mut nodes, &mut room, nets)
}

/// The wires of nets by an index of the netlist.
fn wires_by<'a>(
    alloc: Global,
    index: &NodeIndex<'a>,
    nets: &'a [NetPins],
    parasitics: &'a Parasitics,
) -> Result<Vec<KeptWire>, LinkFault>
    requires few { length nets.now < 2 ^ 32 }
    requires parasitics { AreSoundParasitics parasitics.now }
    requires sinks { All HasSinkQuantities nets.now }
    ensures ok { IfOk result
        (λ v. AreWires index.now parasitics.now (enumerate_from 0 nets.now) v.items) }
    ensures fault { IfErr result
        (IsFirstFault index.now parasitics.now (enumerate_from 0 nets.now)) }
{
    let extracted = WireIndex::new(alloc, &*index, &*parasitics)?;
    wires_in(alloc, &extracted, &*nets)
}

/// The wires of nets, in their order. The first fault counts: of the first net that has one its count of nodes, where
/// it has a driver and is listed, then its greatest load, then resistors that make no tree (`K5`), then the first node
/// that is not reached (`K6`). Takes time and memory in proportion to the wires, their capacitors and resistors and the
/// sinks of the nets.
pub fn wires<'a>(
    alloc: Global,
    index: &'a NetIndex<'a>,
    nets: &'a [NetPins],
    parasitics: &'a Parasitics,
) -> Result<Vec<KeptWire>, LinkFault>
    requires few { length nets.now < 2 ^ 32 }
    requires parasitics { AreSoundParasitics parasitics.now }
    requires sinks { All HasSinkQuantities nets.now }
    ensures ok { IfOk result
        (λ v. AreWires index.entry.now parasitics.entry.now (enumerate_from 0 nets.entry.now) v.items) }
    ensures fault { IfErr result
        (IsFirstFault index.entry.now parasitics.entry.now (enumerate_from 0 nets.entry.now)) }
{
    let found: NodeIndex<'a> = NodeIndex::new(alloc, index)?;
    wires_by(alloc, &found, nets, parasitics)
}
