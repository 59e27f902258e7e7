//! The nets of a design by their pins, before their wires are known.

ghost use Rattle.std.specs.Prelude.{◌≡◌, IfOk, OnOk};
ghost use Rattle.xt_model.specs.Names.{IsName};

use std::alloc::{AllocError, Global};
use std::marker::Model;
use xt_model::{CheckPoint, GivenPair, Name, Row, TimingArc};

/// What a net leads from or to: a pin of an instance, or a port. `name` is that of a port, or those of instance and pin
/// with `/` between them, and `joint` is then its place.
#[derive(Debug, Drop)]
pub struct End {
    name: Name,
    joint: Option<u32>,
}

impl Model for End {
    ghost use Rattle.link_rules.specs.Ends.{NetEnd, end_by, IsJoint};

    ghost Value = { NetEnd };

    ghost view = { λ e. end_by e.name e.joint };

    ghost invariant = { λ e. IsJoint e.name e.joint };
}

impl End {
    ghost use Rattle.link_rules.specs.Ends.{Pin, Port, end_name, sink_name};
    ghost use Rattle.text_forms.specs.Names.{IsShortName};

    /// A port by its name.
    pub fn port(name: Name) -> End
        ensures { result ≡ Port name }
    {
        End { name, joint: None }
    }

    /// A pin of an instance by both names.
    pub fn pin(alloc: Global, instance: &[u8], pin: &[u8]) -> Result<End, AllocError>
        requires instance { IsShortName instance.now }
        requires pin { IsShortName pin.now }
        ensures { IfOk result (λ e. e ≡ Pin instance.now pin.now) }
    {
        let joint = instance.len();
        let mut name = Vec::with_capacity(alloc, joint + 1 + pin.len())?;
        name.extend_from_slice(instance)?;
        name.push(b'/')?;
        name.extend_from_slice(pin)?;
        Ok(End {
            name: Name::new(name),
            joint: Some(joint as u32),
        })
    }

    /// The name in a design, with `/` before the pin.
    pub fn name(&self) -> &Name
        ensures { result.now ≡ sink_name self.now }
    {
        &self.name
    }

    /// Puts the name of the node in parasitics, with their delimiter before the pin, in place of what the room holds.
    pub fn write_node(&self, delimiter: u8, room: &mut Vec<u8>) -> Result<(), AllocError>
        ensures { OnOk result (room.new.items ≡ end_name delimiter self.now) }
    {
        room.clear();
        room.extend_from_slice(self.name.bytes())?;
        if let Some(joint) = self.joint {
            room[joint as usize] = delimiter;
        }
        Ok(())
    }

    /// The name in a design, of an end that is not needed any more.
    pub fn into_name(self) -> Name
        ensures { result ≡ sink_name self }
    {
        let End { name, joint: _ } = self;
        name
    }
}

/// What drives a net, if anything does, which contracts see as an `Option` of it. It has a block of its own, so that a
/// net without a driver takes little.
#[derive(Debug, Drop)]
pub struct NetDriver {
    end: Option<Box<End>>,
}

impl Model for NetDriver {
    ghost use Rattle.std.specs.Prelude.{Option, option_map};
    ghost use Rattle.link_rules.specs.Ends.{NetEnd};

    ghost Value = { Option NetEnd };

    ghost view = { λ d. option_map (λ b. b.value) d.end };
}

impl NetDriver {
    ghost use Rattle.std.specs.Prelude.{Some, None, is_some, option_map};

    /// Nothing drives the net.
    pub fn none() -> NetDriver
        ensures { result ≡ None }
    {
        NetDriver { end: None }
    }

    /// This drives the net.
    pub fn new(alloc: Global, end: End) -> Result<NetDriver, AllocError>
        ensures { IfOk result (λ d. d ≡ Some end) }
    {
        let end = Box::new(alloc, end)?;
        Ok(NetDriver { end: Some(end) })
    }

    /// Whether something drives the net.
    pub fn is_some(&self) -> bool
        ensures { result ≡ is_some self.now }
    {
        match &self.end {
            Some(_) => true,
            None => false,
        }
    }

    /// What drives the net.
    pub fn get(&self) -> Option<&End>
        ensures { option_map (λ e. e.now) result ≡ self.now }
    {
        match &self.end {
            Some(end) => Some(&**end),
            None => None,
        }
    }
}

/// A sink of a net, with its capacitance to ground in aF.
#[derive(Debug, Drop)]
pub struct Sink {
    pub end: End,
    pub cap: i64,
}

/// A net by its pins: its name, whether it is that of an input port, the windows that it is given there, what drives
/// it, its sinks in order and the timing arcs into it.
#[derive(Debug, Drop)]
pub struct NetPins {
    pub name: Name,
    pub input: bool,
    pub given: GivenPair,
    pub driver: NetDriver,
    pub sinks: Row<Sink>,
    pub arcs: Row<TimingArc>,
}

/// The nets of a design by their pins, and its check points.
#[derive(Debug, Drop)]
pub struct Circuit {
    pub nets: Row<NetPins>,
    pub checks: Row<CheckPoint>,
}
