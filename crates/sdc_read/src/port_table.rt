//! Tables of the bits of ports.

ghost use Rattle.std.specs.Prelude.{◌≡◌, ◌<◌, ◌++◌, [], ◌∷◌, length, IfOk, IfSome, OnOk, map};
ghost use Rattle.std.specs.List.{All, slice_get};
ghost use Rattle.std.specs.Option.{IsSomeAnd};
ghost use Rattle.sdc_read.specs.Mentions.{nets_of, told, AllFit};
ghost use Rattle.sdc_read.specs.Levels.{set_by, known};

use crate::change::is_clock;
use crate::levels::Levels;
use crate::mentions::{Mentions, set_by};
use crate::ports::{PortBit, PortSet};
use crate::set_numbers::SetNumbers;
use name_numbers::TextKey;
use std::alloc::{AllocError, Global};
use std::marker::Model;
use verilog_net::{Net, Netlist};

/// What constraints mean for the bits of ports that they name, in the order in which these are first named. What is
/// said of a whole port or of all ports is kept once. A look-up is by hash, and takes no memory.
#[derive(Drop)]
pub struct PortTable {
    nets: Vec<Net>,
    clock: Option<PortBit>,
    own: Option<SetNumbers>,
    levels: Levels,
}

impl Model for PortTable {
    ghost use Rattle.std.specs.Prelude.{◌≡◌, List, map};
    ghost use Rattle.sdc_read.specs.Ports.{settled, AllInRange};
    ghost use Rattle.sdc_read.specs.Mentions.{told};
    ghost use Rattle.sdc_read.specs.Levels.{known, set_by};
    ghost use Rattle.sdc_read.specs.declared.ports.PortBit.{PortBit};
    ghost use Rattle.sdc_read.specs.declared.ports.PortSet.{PortSet};

    ghost Value = { List PortSet };

    ghost view = { λ t. map settled (told t.nets.items t.levels.said) };

    ghost invariant = { λ t.
        ((at : PortBit) → known t.nets.items t.clock t.own t.levels.levels at ≡ set_by t.nets.items at t.levels.said)
        × AllInRange (told t.nets.items t.levels.said) };
}

/// Adds the net of this number.
fn push_net(nets: &mut Vec<Net>, netlist: &Netlist, number: u32) -> Result<(), AllocError>
    requires { number < length netlist.now.nets }
    ensures { OnOk result
        (IsSomeAnd (slice_get netlist.now.nets number) (λ e. nets.new.items ≡ nets.old.items ++ e.1 ∷ [])) }
{
    match netlist.nets.get(number) {
        None => Ok(()),
        Some((_, net)) => Ok(nets.push(*net)?),
    }
}

/// The nets of a netlist, without their names.
fn copied_nets(alloc: Global, netlist: &Netlist) -> Result<Vec<Net>, AllocError>
    ensures { IfOk result (λ v. v.items ≡ nets_of netlist.now.nets) }
{
    let mut nets = Vec::new(alloc);
    for number in 0..netlist.nets.len() {
        push_net(&mut nets, netlist, number)?;
    }
    Ok(nets)
}

/// What is set for the bit of the clock, if there is one.
fn clock_numbers(nets: &[Net], clock: Option<PortBit>, said: &Mentions) -> Option<SetNumbers>
    ensures { IfSome clock (λ at. result ≡ set_by nets.now at said.now) }
{
    match clock {
        Some(at) => set_by(nets, at, said),
        None => None,
    }
}

/// What is known to be set for a bit: the clock's is kept apart.
fn known(
    nets: &[Net],
    clock: Option<PortBit>,
    own: Option<SetNumbers>,
    levels: &Levels,
    at: PortBit,
) -> Option<SetNumbers>
    ensures { result ≡ known nets.now clock own levels.now.levels at }
{
    if is_clock(clock, at) {
        own
    } else {
        levels.for_bit(nets, at)
    }
}

impl PortTable {
    ghost use Rattle.sdc_read.specs.Ports.{settled, port_at, IsInRange};

    /// What is meant by what was said, with the key of the text that said it.
    pub fn new(
        alloc: Global,
        key: TextKey,
        netlist: &Netlist,
        clock: Option<PortBit>,
        said: Mentions,
    ) -> Result<PortTable, AllocError>
        requires { AllFit (nets_of netlist.now.nets) clock said }
        ensures value { IfOk result (λ t. t ≡ map settled (told (nets_of netlist.now.nets) said)) }
        ensures range { IfOk result (All IsInRange) }
    {
        let nets = copied_nets(alloc, netlist)?;
        let levels = Levels::of(alloc, key, &nets, said)?;
        let own = clock_numbers(&nets, clock, levels.said());
        Ok(PortTable {
            nets,
            clock,
            own,
            levels,
        })
    }

    /// What constraints mean for a bit of a port, if they name it.
    pub fn find(&self, decl: u32, bit: u32) -> Option<PortSet>
        ensures value { result ≡ port_at decl bit self.now }
        ensures range { IfSome result IsInRange }
    {
        let at = PortBit { decl, bit };
        match known(&self.nets, self.clock, self.own, &self.levels, at) {
            Some(numbers) => Some(numbers.sides().settled(at)),
            None => None,
        }
    }
}
