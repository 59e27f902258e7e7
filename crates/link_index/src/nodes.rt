//! Nets by the nodes of parasitics.

ghost use Rattle.std.specs.Prelude.{◌≡◌};

use crate::index::NetIndex;
use crate::split::split_last;
use crate::wires::{PinWires, all_wires, numbers_of};
use name_numbers::Named;
use std::alloc::{AllocError, Global};
use std::marker::Model;

/// An index of a netlist by which nets are found by the nodes of parasitics too: instances and their pins by hash.
/// Contracts see the netlist. No look-up takes memory.
#[derive(Drop)]
pub struct NodeIndex<'a> {
    nets: &'a NetIndex<'a>,
    instances: Named<'a, u32>,
    wires: Vec<PinWires<'a>>,
}

impl<'a> Model for NodeIndex<'a> {
    ghost use Rattle.verilog_net.specs.declared.netlist.Netlist.{Netlist};
    ghost use Rattle.link_index.specs.Nets.{HaveInstances};

    ghost Value = { Netlist };

    ghost view = { λ i. i.nets.now };

    ghost invariant = { λ i. HaveInstances i.nets.now i.instances i.wires.items };
}

impl<'a> NodeIndex<'a> {
    ghost use Rattle.std.specs.Prelude.{IfOk};
    ghost use Rattle.link_rules.specs.Nodes.{pin_net, node_net};

    /// An index with the instances of the netlist. Takes time and memory in proportion to these and their pins.
    pub fn new(alloc: Global, nets: &'a NetIndex<'a>) -> Result<NodeIndex<'a>, AllocError>
        ensures { IfOk result (λ i. i ≡ nets.entry.now) }
    {
        let key = nets.netlist().nets.key();
        let list = nets.instances();
        let wires = all_wires(alloc, key, list)?;
        let instances = numbers_of(alloc, key, list)?;
        Ok(NodeIndex {
            nets,
            instances,
            wires,
        })
    }

    /// The net on which a pin of an instance is, by both names.
    fn pin_net(&self, owner: &'a [u8], pin: &'a [u8]) -> Option<u32>
        ensures { result ≡ pin_net self.now owner.entry.now pin.entry.now }
    {
        let Some(number) = self.instances.get(owner) else {
            return None;
        };
        let place = *number as usize;
        let pins = self.nets.instances()[place].pins.as_slice();
        match self.wires[place].get(pins, pin) {
            None => None,
            Some(wire) => self.nets.net_of(wire),
        }
    }

    /// The net of a node of parasitics with this delimiter: that of the pin after the last delimiter, of the instance
    /// before it; else that of the name before the last delimiter; else that of the whole name.
    #[tactic(auto, unfolding(link_rules::specs::Nodes::node_net))]
    pub fn node_net(&self, delimiter: u8, name: &'a [u8]) -> Option<u32>
        ensures { result ≡ node_net self.now delimiter name.entry.now }
    {
        if let Some((before, after)) = split_last(delimiter, name) {
            if let Some(net) = self.pin_net(before, after) {
                return Some(net);
            }
            if let Some(net) = self.nets.net_named(before) {
                return Some(net);
            }
        }
        self.nets.net_named(name)
    }
}
