//! The tree of a net's wire.

ghost use Rattle.std.specs.Prelude.{◌≡◌, ◌≤◌, ◌<◌, ◌^◌, ◌+◌, ◌*◌, length, map, true, IfOk};
ghost use Rattle.std.specs.List.{All};
ghost use Rattle.elmore_tree.specs.Trees.{tap_sum};
ghost use Rattle.verilog_net.specs.Bits.{rising};
ghost use Rattle.link_rules.specs.Limits.{greatest_load};
ghost use Rattle.xt_number.specs.Quantities.{IsQuantity};
ghost use Rattle.link_rules.specs.Wires.{charges_of, resistor_of, sink_node, node_count, has_resistors, tree_by};
ghost use Rattle.link_wires.specs.Seen.{wire_by};
ghost use Rattle.link_wires.specs.Wires.{charge_sum, HasQuantities, IsNumbered};

use crate::charges::{Charge, are_apart, grounds, sink_node};
use crate::nodes::Nodes;
use crate::parts::WireParts;
use elmore_tree::{Resistor, Tap, Tree};
use link_rules::Sink;
use std::alloc::{AllocError, Global};

/// How many nodes the tree has.
fn node_count(nodes: &Nodes<'_>, wire: &WireParts<'_>) -> u32
    ensures { result ≡ node_count nodes.now.list (wire_by nodes.now.parasitics wire.now) }
{
    if are_apart(wire) { nodes.len() } else { 1 }
}

/// The resistors between the numbers of nodes.
fn resistors_of(
    alloc: Global,
    nodes: &Nodes<'_>,
    wire: &WireParts<'_>,
) -> Result<Vec<Resistor>, AllocError>
    ensures { IfOk result
        (λ r. r.items ≡ map (resistor_of nodes.now.list) (wire_by nodes.now.parasitics wire.now).resistors) }
{
    let mut resistors = Vec::with_capacity(alloc, wire.resistors.len())?;
    for resistor in wire.resistors {
        resistors.push(Resistor {
            a: nodes.number(resistor.a),
            b: nodes.number(resistor.b),
            value: resistor.value,
        })?;
    }
    Ok(resistors)
}

/// The nodes of this many sinks.
fn sink_nodes(
    alloc: Global,
    nodes: &Nodes<'_>,
    wire: &WireParts<'_>,
    count: usize,
) -> Result<Vec<u32>, AllocError>
    requires { has_resistors (wire_by nodes.now.parasitics wire.now) ≡ true → count < length nodes.now.list }
    ensures { IfOk result
        (λ s. s.items ≡ map (sink_node (wire_by nodes.now.parasitics wire.now)) (rising 0 count)) }
{
    let mut sinks = Vec::with_capacity(alloc, count)?;
    for sink in 0..count {
        sinks.push(sink_node(nodes, wire, sink))?;
    }
    Ok(sinks)
}

/// The tree of a net whose capacitances to ground and taps are given, and whose load keeps its limit.
pub fn tree_of(
    alloc: Global,
    nodes: &Nodes<'_>,
    sinks: &[Sink],
    wire: &WireParts<'_>,
    charges: &[Charge],
    taps: Vec<Tap>,
) -> Result<Tree, AllocError>
    requires numbered { IsNumbered nodes.now.list sinks.now (wire_by nodes.now.parasitics wire.now) }
    requires wire { HasQuantities (wire_by nodes.now.parasitics wire.now) }
    requires sinks { All (λ s. IsQuantity s.cap) sinks.now }
    requires charges { charges.now ≡ charges_of nodes.now.list sinks.now (wire_by nodes.now.parasitics wire.now) }
    requires taps { taps.items ≡ (tree_by nodes.now.list sinks.now (wire_by nodes.now.parasitics wire.now)).taps }
    requires most_nodes { node_count nodes.now.list (wire_by nodes.now.parasitics wire.now) ≤ 65536 }
    requires most_load { charge_sum charges.now + 2 * tap_sum taps.items ≤ 2 ^ 46 }
    ensures tree { IfOk result (λ t. t ≡ tree_by nodes.now.list sinks.now (wire_by nodes.now.parasitics wire.now)) }
{
    let count = node_count(nodes, wire);
    let resistors = resistors_of(alloc, nodes, wire)?;
    let ground = grounds(alloc, charges, count)?;
    let sinks = sink_nodes(alloc, nodes, wire, sinks.len())?;
    Ok(Tree::new(count, 0, resistors, ground, taps, sinks))
}
