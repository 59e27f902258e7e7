//! Options by their names.

ghost use Rattle.std.specs.Prelude.{◌≡◌};
ghost use Rattle.sdc_forms.specs.Options.{unit_option, clock_option, side_option, delay_option, load_option};
ghost use Rattle.sdc_forms.specs.Options.{option_named, same_option, slot_of};

use crate::command::CommandName;
use crate::slot::Slot;

/// An option by its name.
#[derive(Clone, Copy)]
pub enum OptionName {
    Time,
    Capacitance,
    Resistance,
    Voltage,
    Current,
    Power,
    Name,
    Period,
    Waveform,
    Clock,
    Min,
    Max,
    Rise,
    Fall,
    PinLoad,
}

/// An option of `set_units`.
fn unit_option(name: &[u8]) -> Option<OptionName>
    ensures { result ≡ unit_option name.now }
{
    if name == b"-time".as_slice() {
        Some(OptionName::Time)
    } else if name == b"-capacitance".as_slice() {
        Some(OptionName::Capacitance)
    } else if name == b"-resistance".as_slice() {
        Some(OptionName::Resistance)
    } else if name == b"-voltage".as_slice() {
        Some(OptionName::Voltage)
    } else if name == b"-current".as_slice() {
        Some(OptionName::Current)
    } else if name == b"-power".as_slice() {
        Some(OptionName::Power)
    } else {
        None
    }
}

/// An option of `create_clock`.
fn clock_option(name: &[u8]) -> Option<OptionName>
    ensures { result ≡ clock_option name.now }
{
    if name == b"-name".as_slice() {
        Some(OptionName::Name)
    } else if name == b"-period".as_slice() {
        Some(OptionName::Period)
    } else if name == b"-waveform".as_slice() {
        Some(OptionName::Waveform)
    } else {
        None
    }
}

/// An option that picks a side or an edge.
fn side_option(name: &[u8]) -> Option<OptionName>
    ensures { result ≡ side_option name.now }
{
    if name == b"-min".as_slice() {
        Some(OptionName::Min)
    } else if name == b"-max".as_slice() {
        Some(OptionName::Max)
    } else if name == b"-rise".as_slice() {
        Some(OptionName::Rise)
    } else if name == b"-fall".as_slice() {
        Some(OptionName::Fall)
    } else {
        None
    }
}

/// An option of a delay.
fn delay_option(name: &[u8]) -> Option<OptionName>
    ensures { result ≡ delay_option name.now }
{
    if name == b"-clock".as_slice() {
        Some(OptionName::Clock)
    } else {
        side_option(name)
    }
}

/// An option of `set_load`.
fn load_option(name: &[u8]) -> Option<OptionName>
    ensures { result ≡ load_option name.now }
{
    if name == b"-pin_load".as_slice() {
        Some(OptionName::PinLoad)
    } else {
        None
    }
}

impl OptionName {
    /// The option of a command with this name.
    pub fn named(command: CommandName, name: &[u8]) -> Option<OptionName>
        ensures { result ≡ option_named command name.now }
    {
        match command {
            CommandName::SetUnits => unit_option(name),
            CommandName::CreateClock => clock_option(name),
            CommandName::InputDelay => delay_option(name),
            CommandName::OutputDelay => delay_option(name),
            CommandName::InputTransition => side_option(name),
            CommandName::Load => load_option(name),
            _ => None,
        }
    }

    /// Whether both are one option.
    pub fn same(self, other: OptionName) -> bool
        ensures { result ≡ same_option self other }
    {
        self as u8 == other as u8
    }

    /// What has to be after the option, if anything.
    pub fn slot(self) -> Option<Slot>
        ensures { result ≡ slot_of self }
    {
        match self {
            OptionName::Time => Some(Slot::Value),
            OptionName::Capacitance => Some(Slot::Value),
            OptionName::Resistance => Some(Slot::Any),
            OptionName::Voltage => Some(Slot::Any),
            OptionName::Current => Some(Slot::Any),
            OptionName::Power => Some(Slot::Any),
            OptionName::Name => Some(Slot::Name),
            OptionName::Period => Some(Slot::Value),
            OptionName::Waveform => Some(Slot::Value),
            OptionName::Clock => Some(Slot::Objects),
            _ => None,
        }
    }
}
