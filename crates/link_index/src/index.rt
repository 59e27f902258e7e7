//! An index of a netlist.

ghost use Rattle.std.specs.Prelude.{◌≡◌};

use crate::bits::{count_bits, net_at, starts};
use crate::names::names_of;
use name_numbers::NameTable;
use std::alloc::{AllocError, Global};
use std::marker::Model;
use verilog_net::{Instance, Netlist, Wire};

/// A netlist whose nets are found by bits. Contracts see the netlist. No look-up takes memory.
#[derive(Drop)]
pub struct NetBits<'a> {
    netlist: &'a Netlist,
    starts: Vec<u32>,
    count: u32,
}

impl<'a> Model for NetBits<'a> {
    ghost use Rattle.verilog_net.specs.declared.netlist.Netlist.{Netlist};
    ghost use Rattle.link_index.specs.Nets.{AreBits};

    ghost Value = { Netlist };

    ghost view = { λ b. b.netlist.now };

    ghost invariant = { λ b. AreBits b.netlist.now b.starts.items b.count };
}

impl<'a> NetBits<'a> {
    ghost use Rattle.std.specs.Prelude.{◌≤◌, length, IfOk};
    ghost use Rattle.xt_model.specs.Limits.{most_nets, most_instances};
    ghost use Rattle.verilog_net.specs.Bits.{bits};
    ghost use Rattle.link_rules.specs.Bits.{net_of};
    ghost use Rattle.verilog_net.specs.Sound.{IsSoundNetlist};

    /// A netlist with at most 262,144 bits and instances. Takes time and memory in proportion to the names of nets.
    fn new(alloc: Global, netlist: &'a Netlist) -> Result<NetBits<'a>, AllocError>
        requires sound { IsSoundNetlist netlist.now }
        requires nets { length (bits netlist.now.nets) ≤ most_nets }
        requires instances { length netlist.now.instances ≤ most_instances }
        ensures { IfOk result (λ b. b ≡ netlist.entry.now) }
    {
        let starts = starts(alloc, &netlist.nets)?;
        let count = count_bits(&netlist.nets) as u32;
        Ok(NetBits {
            netlist,
            starts,
            count,
        })
    }

    /// The netlist.
    pub fn netlist(&self) -> &'a Netlist
        ensures value { result.now ≡ self.now }
        ensures sound { IsSoundNetlist self.now }
    {
        self.netlist
    }

    /// The instances of the netlist.
    fn instances(&self) -> &'a [Instance]
        ensures value { result.now ≡ self.now.instances }
        ensures few { length self.now.instances ≤ most_instances }
    {
        self.netlist.instances.as_slice()
    }

    /// How many nets there are.
    pub fn count(&self) -> u32
        ensures value { result ≡ length (bits self.now.nets) }
        ensures most { result ≤ most_nets }
        ensures sound { IsSoundNetlist self.now }
    {
        self.count
    }

    /// The net on which a pin is; none where it is open or constant.
    fn net_of(&self, wire: Wire) -> Option<u32>
        ensures { result ≡ net_of self.now.nets wire }
    {
        net_at(&self.netlist.nets, &self.starts, wire)
    }
}

/// A netlist whose nets are found by bits and, by hash, by names. Contracts see the netlist. No look-up takes memory.
#[derive(Drop)]
pub struct NetIndex<'a> {
    bits: NetBits<'a>,
    names: NameTable<()>,
}

impl<'a> Model for NetIndex<'a> {
    ghost use Rattle.verilog_net.specs.declared.netlist.Netlist.{Netlist};
    ghost use Rattle.link_index.specs.Nets.{IsIndex};

    ghost Value = { Netlist };

    ghost view = { λ i. i.bits };

    ghost invariant = { λ i. IsIndex i.bits i.names };
}

impl<'a> NetIndex<'a> {
    ghost use Rattle.std.specs.Prelude.{◌≤◌, length, IfOk, IfSome, option_map, Some};
    ghost use Rattle.std.specs.List.{slice_get};
    ghost use Rattle.xt_model.specs.Limits.{most_nets, most_instances};
    ghost use Rattle.xt_model.specs.Names.{IsName};
    ghost use Rattle.verilog_net.specs.Bits.{bits};
    ghost use Rattle.link_rules.specs.Bits.{net_of};
    ghost use Rattle.link_rules.specs.Nodes.{net_named};
    ghost use Rattle.verilog_net.specs.Sound.{IsSoundNetlist};

    /// The index of a netlist with at most 262,144 bits and instances. Takes time and memory in proportion to the names
    /// of bits.
    pub fn new(alloc: Global, netlist: &'a Netlist) -> Result<NetIndex<'a>, AllocError>
        requires sound { IsSoundNetlist netlist.now }
        requires nets { length (bits netlist.now.nets) ≤ most_nets }
        requires instances { length netlist.now.instances ≤ most_instances }
        ensures { IfOk result (λ i. i ≡ netlist.entry.now) }
    {
        let bits = NetBits::new(alloc, netlist)?;
        let names = names_of(alloc, netlist)?;
        Ok(NetIndex { bits, names })
    }

    /// The netlist by bits alone.
    pub fn bits(&self) -> &NetBits<'a>
        ensures { result.now ≡ self.now }
    {
        &self.bits
    }

    /// The netlist by bits alone, of an index whose names are not needed any more.
    pub fn into_bits(self) -> NetBits<'a>
        ensures { result ≡ self.entry }
    {
        let NetIndex { bits, names: _ } = self;
        bits
    }

    /// The netlist.
    pub fn netlist(&self) -> &'a Netlist
        ensures value { result.now ≡ self.now }
        ensures sound { IsSoundNetlist self.now }
    {
        self.bits.netlist()
    }

    /// The instances of the netlist.
    pub(crate) fn instances(&self) -> &'a [Instance]
        ensures value { result.now ≡ self.now.instances }
        ensures few { length self.now.instances ≤ most_instances }
    {
        self.bits.instances()
    }

    /// How many nets there are.
    pub fn count(&self) -> u32
        ensures value { result ≡ length (bits self.now.nets) }
        ensures most { result ≤ most_nets }
        ensures sound { IsSoundNetlist self.now }
    {
        self.bits.count()
    }

    /// The name of the net of this number.
    pub fn name(&self, net: u32) -> Option<&[u8]>
        ensures value { option_map (λ b. b.now) result ≡ option_map (λ b. b.name) (slice_get (bits self.now.nets) net) }
        ensures spelled { IfSome result (λ n. IsName n.now) }
    {
        match self.names.get(net) {
            Some((name, _)) => Some(name),
            None => None,
        }
    }

    /// The net on which a pin is; none where it is open or constant.
    pub fn net_of(&self, wire: Wire) -> Option<u32>
        ensures { result ≡ net_of self.now.nets wire }
    {
        self.bits.net_of(wire)
    }

    /// The net of this name, which is that of a bit for a bus.
    pub fn net_named(&self, name: &[u8]) -> Option<u32>
        ensures { result ≡ net_named self.now name.now }
    {
        match self.names.find(name) {
            Some((net, _)) => Some(net),
            None => None,
        }
    }
}
