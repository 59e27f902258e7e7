//! Netlists with the ports of each direction in a list.

ghost use Rattle.std.specs.Prelude.{◌≡◌, option_map, map, IfOk, OnOk};
ghost use Rattle.verilog_net.specs.Ports.{bits_of};
ghost use Rattle.sdc_read.specs.Objects.{same_role, bits_if, named_bits, net_bits, behind, ports_of};
ghost use Rattle.sdc_read.specs.View.{bits_text};

use crate::change::Bits;
use std::alloc::{AllocError, Global};
use std::marker::Model;
use verilog_net::{Net, Netlist, PortFound, PortRole};

/// A netlist with the bits of its inputs and of its outputs in lists, so that a command for all of a direction does not
/// go over all nets.
#[derive(Drop)]
pub struct ListedNetlist<'a> {
    whole: &'a Netlist,
    inputs: Vec<Bits>,
    outputs: Vec<Bits>,
}

impl<'a> Model for ListedNetlist<'a> {
    ghost use Rattle.std.specs.Prelude.{◌≡◌, map};
    ghost use Rattle.verilog_net.specs.Nets.{Nets};
    ghost use Rattle.verilog_net.specs.declared.netlist.PortRole.TheVariants as roles;
    ghost use Rattle.sdc_read.specs.Objects.{ports_of};
    ghost use Rattle.sdc_read.specs.View.{bits_text};

    ghost Value = { Nets };

    ghost view = { λ l. l.whole.now.nets };

    ghost invariant = { λ l. (map bits_text l.inputs.items ≡ ports_of roles.Input l.whole.now.nets)
        × (map bits_text l.outputs.items ≡ ports_of roles.Output l.whole.now.nets) };
}

/// Whether both are one direction.
pub fn same_role(role: PortRole, other: PortRole) -> bool
    ensures { result ≡ same_role role other }
{
    match (role, other) {
        (PortRole::Input, PortRole::Input) => true,
        (PortRole::Output, PortRole::Output) => true,
        _ => false,
    }
}

/// The bits that a name denotes, if they are of ports of this direction.
fn bits_if(wanted: PortRole, found: PortFound) -> Option<Bits>
    ensures { option_map bits_text result ≡ bits_if wanted found }
{
    match found {
        PortFound::Absent => None,
        PortFound::Bits {
            decl,
            first,
            last,
            role,
        } => {
            if same_role(wanted, role) {
                Some(Bits { decl, first, last })
            } else {
                None
            }
        }
    }
}

/// The bits of the port of this direction with this name.
#[tactic(auto, unfolding(crate::specs::Objects::named_bits))]
pub fn named_bits(wanted: PortRole, netlist: &Netlist, name: &[u8]) -> Option<Bits>
    ensures { option_map bits_text result ≡ named_bits wanted netlist.now.nets name.now }
{
    bits_if(wanted, netlist.port(name))
}

/// The bits of a net: those of a bus, or the one of a port.
pub fn bits_of(decl: u32, net: Net) -> PortFound
    ensures { result ≡ bits_of decl net }
{
    match (net.range, net.role) {
        (Some((first, last)), role) => PortFound::Bits {
            decl,
            first,
            last,
            role,
        },
        (None, PortRole::Inner) => PortFound::Absent,
        (None, role) => PortFound::Bits {
            decl,
            first: 0,
            last: 0,
            role,
        },
    }
}

/// The bits of a net, if it is a port of this direction.
#[tactic(auto, unfolding(crate::specs::Objects::net_bits))]
fn net_bits(wanted: PortRole, netlist: &Netlist, decl: u32) -> Option<Bits>
    ensures { option_map bits_text result ≡ net_bits wanted netlist.now.nets decl }
{
    match netlist.nets.get(decl) {
        Some((_, net)) => bits_if(wanted, bits_of(decl, *net)),
        None => None,
    }
}

/// Puts the bits at the end, if there are some.
#[tactic(auto, using(crate::proofs::Over::listed_push))]
fn push_some(list: &mut Vec<Bits>, bits: Option<Bits>) -> Result<(), AllocError>
    ensures { OnOk result (map bits_text list.new.items
        ≡ behind (option_map bits_text bits) (map bits_text list.old.items)) }
{
    match bits {
        Some(bits) => {
            list.push(bits)?;
            Ok(())
        }
        None => Ok(()),
    }
}

/// The bits of the ports of a direction, in order of their nets.
#[tactic(auto, using(crate::proofs::Over::over_next), unfolding(crate::specs::Objects::ports_of))]
fn ports_of(alloc: Global, role: PortRole, netlist: &Netlist) -> Result<Vec<Bits>, AllocError>
    ensures { IfOk result (λ l. map bits_text l.items ≡ ports_of role netlist.now.nets) }
{
    let mut list = Vec::new(alloc);
    for decl in 0..netlist.nets.len() {
        push_some(&mut list, net_bits(role, netlist, decl))?;
    }
    Ok(list)
}

impl<'a> ListedNetlist<'a> {
    /// Lists the ports of a netlist.
    pub fn new(alloc: Global, netlist: &'a Netlist) -> Result<ListedNetlist<'a>, AllocError>
        ensures { IfOk result (λ l. l ≡ netlist.entry.now.nets) }
    {
        let inputs = ports_of(alloc, PortRole::Input, netlist)?;
        let outputs = ports_of(alloc, PortRole::Output, netlist)?;
        Ok(ListedNetlist {
            whole: netlist,
            inputs,
            outputs,
        })
    }

    /// The netlist.
    pub fn whole(&self) -> &Netlist
        ensures { result.now.nets ≡ self.now }
    {
        self.whole
    }

    /// The bits of the ports of a direction, in order of their nets.
    #[tactic(auto, using(crate::proofs::Over::inner_ports))]
    pub fn ports(&self, role: PortRole) -> &[Bits]
        ensures { map bits_text result.now ≡ ports_of role self.now }
    {
        match role {
            PortRole::Input => self.inputs.as_slice(),
            PortRole::Output => self.outputs.as_slice(),
            PortRole::Inner => &[],
        }
    }
}
