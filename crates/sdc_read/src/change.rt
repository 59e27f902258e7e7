//! What commands change for the bits of ports.

ghost use Rattle.std.specs.Prelude.{◌≡◌};
ghost use Rattle.sdc_read.specs.Changes.{role_for, is_input_delay, is_clock};

use crate::ports::PortBit;
use sdc_forms::Picked;
use verilog_net::PortRole;

/// What a command sets for each bit of its ports: a number for some edges and sides, or a load.
#[derive(Clone, Copy)]
pub enum Change {
    InputDelay(Picked, i64),
    OutputDelay(Picked, i64),
    Slew(Picked, i64),
    Load(i64),
}

/// Bits of a port: the number of its net, and its bits from one to another.
#[derive(Clone, Copy)]
pub struct Bits {
    pub decl: u32,
    pub first: u32,
    pub last: u32,
}

impl Change {
    /// The direction of the ports that the command is for.
    pub fn role(self) -> PortRole
        ensures { result ≡ role_for self }
    {
        match self {
            Change::InputDelay(_, _) => PortRole::Input,
            Change::OutputDelay(_, _) => PortRole::Output,
            Change::Slew(_, _) => PortRole::Input,
            Change::Load(_) => PortRole::Output,
        }
    }

    /// Whether it sets a delay of an input.
    pub fn is_input_delay(self) -> bool
        ensures { result ≡ is_input_delay self }
    {
        match self {
            Change::InputDelay(_, _) => true,
            _ => false,
        }
    }
}

/// Whether a bit is that of the clock.
pub fn is_clock(clock: Option<PortBit>, at: PortBit) -> bool
    ensures { result ≡ is_clock clock at }
{
    match clock {
        Some(clock) => clock.same(at),
        None => false,
    }
}
