//! The parts of a wire: its capacitors, each at its own node, and its resistors.

ghost use Rattle.std.specs.Prelude.{◌≡◌, IfOk, OnOk, option_map};
ghost use Rattle.link_rules.specs.Nodes.{text_of, node_net};
ghost use Rattle.link_rules.specs.Wires.{coupled, capacitor_of, wire_in};
ghost use Rattle.link_wires.specs.Seen.{cap_by, wire_by};

use crate::index::{WireIndex, text_of};
use spef_read::{CapText, NameId, ResText, WireText};
use std::alloc::{AllocError, Global};
use std::marker::Model;

/// A capacitor of a net: its own node, the net to which it couples, if any, and its value in aF.
#[derive(Clone, Copy)]
pub struct CapAt {
    pub node: NameId,
    pub to: Option<u32>,
    pub value: i64,
}

/// The wire of a net: its total in aF, its capacitors, and its resistors as the parasitics have them.
#[derive(Drop)]
pub struct WireParts<'a> {
    pub total: i64,
    pub caps: Vec<CapAt>,
    pub resistors: &'a [ResText],
}

/// The net of a node, whose name is put together in `room`.
fn looked_up<'a>(
    index: &'a WireIndex<'a>,
    node: NameId,
    room: &mut Vec<u8>,
) -> Result<Option<u32>, AllocError>
    ensures { IfOk result
        (λ net. net ≡ node_net index.entry.now.netlist index.entry.now.parasitics.delimiter
        (text_of index.entry.now.parasitics node)) }
{
    index.node_net(text_of(index.parasitics(), node), room)
}

/// The nets of the nodes of parasitics, each looked up once. Contracts see the index by which they are.
#[derive(Drop)]
pub struct NodeNets<'a> {
    index: &'a WireIndex<'a>,
    nets: Vec<Option<Option<u32>>>,
    room: Vec<u8>,
}

impl<'a> Model for NodeNets<'a> {
    ghost use Rattle.link_wires.specs.Places.{Extracted};
    ghost use Rattle.link_wires.specs.Seen.{AreNetsOf};

    ghost Value = { Extracted };

    ghost view = { λ n. n.index.now };

    ghost invariant = { λ n. AreNetsOf n.index.now n.nets.items };
}

impl<'a> NodeNets<'a> {
    /// No net is looked up by this index.
    pub fn new(alloc: Global, index: &'a WireIndex<'a>) -> Result<NodeNets<'a>, AllocError>
        ensures { IfOk result (λ n. n ≡ index.entry.now) }
    {
        let nets = vec![in alloc; None; index.parasitics().names.len() as usize]?;
        Ok(NodeNets {
            index,
            nets,
            room: Vec::new(alloc),
        })
    }

    /// The net of a node.
    pub fn net(&mut self, node: NameId) -> Result<Option<u32>, AllocError>
        ensures value { IfOk result
            (λ net. net ≡ node_net self.old.netlist self.old.parasitics.delimiter (text_of self.old.parasitics node)) }
        ensures same { self.new ≡ self.old }
    {
        let place = node.number as usize;
        if place >= self.nets.len() {
            return looked_up(self.index, node, &mut self.room);
        }
        if let Some(net) = self.nets[place] {
            return Ok(net);
        }
        let net = looked_up(self.index, node, &mut self.room)?;
        self.nets[place] = Some(net);
        Ok(net)
    }
}

/// The net to which a capacitor of a net couples whose other node is on this one: another one that is known.
fn coupled(net: u32, found: Option<u32>) -> Option<u32>
    ensures { result ≡ coupled net found }
{
    match found {
        None => None,
        Some(found) => { if found == net { None } else { Some(found) } }
    }
}

/// A capacitor of a net. Of two nodes the first that is on the net is its own, and the first where none is.
fn capacitor_of(nets: &mut NodeNets<'_>, net: u32, cap: CapText) -> Result<CapAt, AllocError>
    ensures value { IfOk result
        (λ c. cap_by nets.old.parasitics c ≡ capacitor_of nets.old.netlist nets.old.parasitics net cap) }
    ensures same { nets.new ≡ nets.old }
{
    let value = cap.value;
    let Some(b) = cap.b else {
        return Ok(CapAt {
            node: cap.a,
            to: None,
            value,
        });
    };
    let net_a = nets.net(cap.a)?;
    let net_b = nets.net(b)?;
    if net_a == Some(net) || net_b != Some(net) {
        Ok(CapAt {
            node: cap.a,
            to: coupled(net, net_b),
            value,
        })
    } else {
        Ok(CapAt {
            node: b,
            to: coupled(net, net_a),
            value,
        })
    }
}

impl<'a> WireParts<'a> {
    /// The wire of a net that is listed, or no wire.
    pub fn of_net(
        alloc: Global,
        nets: &mut NodeNets<'_>,
        net: u32,
        listed: Option<&'a WireText>,
    ) -> Result<WireParts<'a>, AllocError>
        ensures value { IfOk result (λ w. wire_by nets.old.parasitics w
            ≡ wire_in nets.old.netlist nets.old.parasitics net (option_map (λ t. t.now) listed.entry)) }
        ensures same { OnOk result (nets.new ≡ nets.old) }
    {
        let Some(text) = listed else {
            return Ok(WireParts {
                total: 0,
                caps: Vec::new(alloc),
                resistors: &[],
            });
        };
        let mut caps = Vec::with_capacity(alloc, text.caps.as_slice().len())?;
        for cap in text.caps.as_slice() {
            caps.push(capacitor_of(nets, net, *cap)?)?;
        }
        Ok(WireParts {
            total: text.total,
            caps,
            resistors: text.resistors.as_slice(),
        })
    }
}
