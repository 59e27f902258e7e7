//! Commands by their names.

ghost use Rattle.std.specs.Prelude.{◌≡◌};
ghost use Rattle.sdc_forms.specs.Options.{is_ignored, command_named};

/// A command by its name.
#[derive(Clone, Copy)]
pub enum CommandName {
    Set,
    SetUnits,
    CreateClock,
    InputDelay,
    OutputDelay,
    InputTransition,
    Load,
    /// One that is accepted and says nothing.
    Ignored,
    /// One that is not known.
    Unknown,
}

/// Whether a command is accepted and says nothing.
fn is_ignored(name: &[u8]) -> bool
    ensures { result ≡ is_ignored name.now }
{
    name == b"current_design".as_slice()
        || (name == b"set_driving_cell".as_slice()
            || (name == b"set_propagated_clock".as_slice()
                || (name == b"set_operating_conditions".as_slice()
                    || (name == b"set_max_fanout".as_slice()
                        || (name == b"set_max_transition".as_slice()
                            || (name == b"set_max_capacitance".as_slice()
                                || (name == b"set_min_capacitance".as_slice()
                                    || (name == b"set_max_area".as_slice()
                                        || (name == b"set_wire_load_mode".as_slice()
                                            || (name == b"set_wire_load_model".as_slice()
                                                || name
                                                    == b"set_wire_load_selection_group".as_slice()))))))))))
}

impl CommandName {
    /// The command of a name.
    pub fn named(name: &[u8]) -> CommandName
        ensures { result ≡ command_named name.now }
    {
        if name == b"set".as_slice() {
            CommandName::Set
        } else if name == b"set_units".as_slice() {
            CommandName::SetUnits
        } else if name == b"create_clock".as_slice() {
            CommandName::CreateClock
        } else if name == b"set_input_delay".as_slice() {
            CommandName::InputDelay
        } else if name == b"set_output_delay".as_slice() {
            CommandName::OutputDelay
        } else if name == b"set_input_transition".as_slice() {
            CommandName::InputTransition
        } else if name == b"set_load".as_slice() {
            CommandName::Load
        } else if is_ignored(name) {
            CommandName::Ignored
        } else {
            CommandName::Unknown
        }
    }
}
