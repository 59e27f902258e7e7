//! Capacitances to ground, couplings and taps.

ghost use Rattle.std.specs.Prelude.{◌≡◌, ◌+◌, ◌*◌, ◌<◌, ◌≤◌, ◌^◌, ◌++◌, length, map, filter_map, true, IfOk, OnOk};
ghost use Rattle.std.specs.Prelude.{option_to_list};
ghost use Rattle.elmore_tree.specs.Trees.{tap_sum};
ghost use Rattle.spef_read.specs.declared.parasitics.Parasitics.{Parasitics};
ghost use Rattle.verilog_net.specs.Bits.{rising};
ghost use Rattle.link_rules.specs.Nodes.{text_of};
ghost use Rattle.link_rules.specs.Wires.{charges_of, sum_at, has_resistors, node_at, sink_node, couplings_of, tap_of};
ghost use Rattle.link_rules.specs.Wires.{ground_charge, coupling_of};
ghost use Rattle.link_wires.specs.Seen.{cap_by, wire_by};
ghost use Rattle.link_wires.specs.Wires.{charge_sum, AreWithin, AreNatural};

use crate::nodes::Nodes;
use crate::parts::{CapAt, WireParts};
use elmore_tree::Tap;
use link_rules::Sink;
use spef_read::NameId;
use std::alloc::{AllocError, Global};
use xt_model::{Coupling, NetId};

/// A capacitance to ground in aF at the node of a number.
pub type Charge = (u32, i64);

/// Whether the nodes of a net are apart; without resistors all are one.
pub fn are_apart(wire: &WireParts<'_>) -> bool
    ensures { (p : Parasitics) → result ≡ has_resistors (wire_by p wire.now) }
{
    !wire.resistors.is_empty()
}

/// The number in the tree of the node of a name.
pub fn node_at(nodes: &Nodes<'_>, wire: &WireParts<'_>, node: NameId) -> u32
    ensures { result ≡ node_at nodes.now.list (wire_by nodes.now.parasitics wire.now)
        (text_of nodes.now.parasitics node) }
{
    if are_apart(wire) {
        nodes.number(node)
    } else {
        0
    }
}

/// The number in the tree of the node of a sink.
pub fn sink_node(nodes: &Nodes<'_>, wire: &WireParts<'_>, sink: usize) -> u32
    requires { has_resistors (wire_by nodes.now.parasitics wire.now) ≡ true → 1 + sink < length nodes.now.list }
    ensures { result ≡ sink_node (wire_by nodes.now.parasitics wire.now) sink }
{
    if are_apart(wire) {
        prove!(sink < nodes.len() as usize);
        1 + sink as u32
    } else {
        0
    }
}

/// Adds the ground of a capacitor without a coupling.
fn add_ground(
    charges: &mut Vec<Charge>,
    nodes: &Nodes<'_>,
    wire: &WireParts<'_>,
    cap: &CapAt,
) -> Result<(), AllocError>
    ensures { OnOk result
        (charges.new.items ≡ charges.old.items
        ++ option_to_list (ground_charge nodes.now.list (wire_by nodes.now.parasitics wire.now)
        (cap_by nodes.now.parasitics cap.now))) }
{
    match cap.to {
        None => {
            charges.push((node_at(nodes, wire, cap.node), cap.value))?;
            Ok(())
        }
        Some(_) => Ok(()),
    }
}

/// The capacitances to ground of a net: those of its sinks, then its capacitors without a coupling, and without
/// capacitors its total at the driver.
pub fn charges_of(
    alloc: Global,
    nodes: &Nodes<'_>,
    sinks: &[Sink],
    wire: &WireParts<'_>,
) -> Result<Vec<Charge>, AllocError>
    requires { has_resistors (wire_by nodes.now.parasitics wire.now) ≡ true → length sinks.now < length nodes.now.list }
    ensures { IfOk result
        (λ c. c.items ≡ charges_of nodes.now.list sinks.now (wire_by nodes.now.parasitics wire.now)) }
{
    let mut charges = Vec::with_capacity(alloc, sinks.len() + wire.caps.len() + 1)?;
    let mut k = 0;
    let mut left = sinks;
    'sinks: while let [sink, more @ ..] = left {
        charges.push((sink_node(nodes, wire, k), sink.cap))?;
        k += 1;
        left = more;
    }
    let mut caps = wire.caps.as_slice();
    'caps: while let [cap, more @ ..] = caps {
        add_ground(&mut charges, nodes, wire, cap)?;
        caps = more;
    }
    if wire.caps.is_empty() {
        charges.push((0, wire.total))?;
    }
    Ok(charges)
}

/// Adds the tap of a capacitor with a coupling.
fn add_tap(
    taps: &mut Vec<Tap>,
    nodes: &Nodes<'_>,
    wire: &WireParts<'_>,
    cap: &CapAt,
) -> Result<(), AllocError>
    ensures { OnOk result
        (taps.new.items ≡ taps.old.items
        ++ option_to_list (tap_of nodes.now.list (wire_by nodes.now.parasitics wire.now)
        (cap_by nodes.now.parasitics cap.now))) }
{
    match cap.to {
        None => Ok(()),
        Some(_) => {
            let node = node_at(nodes, wire, cap.node);
            taps.push(Tap {
                node,
                cap: cap.value,
            })?;
            Ok(())
        }
    }
}

/// How many of the capacitors have a coupling.
fn coupled(caps: &[CapAt]) -> usize {
    let mut count = 0;
    for cap in caps {
        if cap.to.is_some() {
            count += 1;
        }
    }
    count
}

/// The taps of the tree, one for each coupling, at the capacitor's own node.
pub fn taps_of(
    alloc: Global,
    nodes: &Nodes<'_>,
    wire: &WireParts<'_>,
) -> Result<Vec<Tap>, AllocError>
    ensures { IfOk result
        (λ taps. taps.items
        ≡ filter_map (tap_of nodes.now.list (wire_by nodes.now.parasitics wire.now))
        (wire_by nodes.now.parasitics wire.now).caps) }
{
    let mut taps = Vec::with_capacity(alloc, coupled(&wire.caps))?;
    let mut caps = wire.caps.as_slice();
    'caps: while let [cap, more @ ..] = caps {
        add_tap(&mut taps, nodes, wire, cap)?;
        caps = more;
    }
    Ok(taps)
}

/// Adds the coupling of a capacitor that has one.
fn add_coupling(couplings: &mut Vec<Coupling>, cap: &CapAt) -> Result<(), AllocError>
    ensures { OnOk result
        ((p : Parasitics) → couplings.new.items
        ≡ couplings.old.items ++ option_to_list (coupling_of (cap_by p cap.now))) }
{
    match cap.to {
        None => Ok(()),
        Some(to) => {
            couplings.push(Coupling {
                to: NetId(to),
                cap: cap.value,
            })?;
            Ok(())
        }
    }
}

/// The couplings of a net, in the order of its taps.
#[tactic(auto, unfolding(link_rules::specs::Wires::couplings_of))]
pub fn couplings_of(alloc: Global, wire: &WireParts<'_>) -> Result<Vec<Coupling>, AllocError>
    ensures { IfOk result (λ c. (p : Parasitics) → c.items ≡ couplings_of (wire_by p wire.now)) }
{
    let mut couplings = Vec::with_capacity(alloc, coupled(&wire.caps))?;
    let mut caps = wire.caps.as_slice();
    'caps: while let [cap, more @ ..] = caps {
        add_coupling(&mut couplings, cap)?;
        caps = more;
    }
    Ok(couplings)
}

/// The greatest load of a net in aF: all capacitance to ground, and each tap twice.
pub fn greatest_load(charges: &[Charge], taps: &[Tap]) -> u128
    ensures { result ≡ charge_sum charges.now + 2 * tap_sum taps.now }
{
    let mut load: u128 = 0;
    for charge in charges {
        load += u128::from(charge.1.unsigned_abs());
    }
    for tap in taps {
        load += 2 * u128::from(tap.cap.unsigned_abs());
    }
    load
}

/// The capacitance to ground of each of this many nodes, in aF.
pub fn grounds(alloc: Global, charges: &[Charge], count: u32) -> Result<Vec<i64>, AllocError>
    requires within { AreWithin count charges.now }
    requires natural { AreNatural charges.now }
    requires most { charge_sum charges.now ≤ 2 ^ 46 }
    ensures { IfOk result (λ g. g.items ≡ map (sum_at charges.now) (rising 0 count)) }
{
    let mut ground = vec![in alloc; 0; count as usize]?;
    for charge in charges {
        ground[charge.0 as usize] += charge.1;
    }
    Ok(ground)
}
