//! The words of pins and timing groups.

ghost use Rattle.std.specs.Prelude.{◌≡◌};
ghost use Rattle.liberty_cells.specs.Kinds.{kind_named, on_output, on_input, is_delay_kind, is_read_kind};
ghost use Rattle.liberty_cells.specs.Kinds.{is_skipped, is_control, is_enable, is_width, sense_named, role_named};
ghost use Rattle.liberty_cells.specs.Kinds.{delay_use, check_use, use_named};

use crate::pin::Role;
use crate::timing::{Sense, TableUse, TimingKind};

impl Role {
    /// The role of a direction.
    pub fn named(direction: &[u8]) -> Role
        ensures { result ≡ role_named direction.now }
    {
        if direction == b"input".as_slice() {
            Role::Input
        } else if direction == b"output".as_slice() {
            Role::Output
        } else if direction == b"inout".as_slice() {
            Role::Inout
        } else {
            Role::Other
        }
    }
}

impl Sense {
    /// How an output follows an input.
    pub fn named(sense: &[u8]) -> Sense
        ensures { result ≡ sense_named sense.now }
    {
        if sense == b"positive_unate".as_slice() {
            Sense::Positive
        } else if sense == b"negative_unate".as_slice() {
            Sense::Negative
        } else {
            Sense::Non
        }
    }
}

/// Whether a type of timing is an edge of a control or a width, which is skipped.
fn is_skipped(word: &[u8]) -> bool
    ensures { result ≡ is_skipped word.now }
{
    is_control(word) || (is_enable(word) || is_width(word))
}

/// Whether a type of timing is one of a clear or a preset.
fn is_control(word: &[u8]) -> bool
    ensures { result ≡ is_control word.now }
{
    word == b"clear".as_slice()
        || (word == b"preset".as_slice()
            || (word == b"recovery_rising".as_slice()
                || (word == b"recovery_falling".as_slice()
                    || (word == b"removal_rising".as_slice()
                        || word == b"removal_falling".as_slice()))))
}

/// Whether a type of timing is one of a three-state enable.
fn is_enable(word: &[u8]) -> bool
    ensures { result ≡ is_enable word.now }
{
    word == b"three_state_enable".as_slice()
        || (word == b"three_state_disable".as_slice()
            || (word == b"three_state_enable_rise".as_slice()
                || (word == b"three_state_enable_fall".as_slice()
                    || (word == b"three_state_disable_rise".as_slice()
                        || word == b"three_state_disable_fall".as_slice()))))
}

/// Whether a type of timing is a least width or period.
fn is_width(word: &[u8]) -> bool
    ensures { result ≡ is_width word.now }
{
    word == b"min_pulse_width".as_slice() || word == b"minimum_period".as_slice()
}

impl TimingKind {
    /// The kind of a type of timing on a pin of a role.
    pub fn named(role: Role, word: &[u8]) -> TimingKind
        ensures { result ≡ kind_named role word.now }
    {
        if word == b"combinational".as_slice() {
            TimingKind::Combinational.on_output(role)
        } else if word == b"rising_edge".as_slice() {
            TimingKind::RisingEdge.on_output(role)
        } else if word == b"setup_rising".as_slice() {
            TimingKind::SetupRising.on_input(role)
        } else if word == b"hold_rising".as_slice() {
            TimingKind::HoldRising.on_input(role)
        } else if is_skipped(word) {
            TimingKind::Skipped
        } else {
            TimingKind::Unsupported
        }
    }

    /// The kind, which is read on output pins alone.
    fn on_output(self, role: Role) -> TimingKind
        ensures { result ≡ on_output role self }
    {
        match role {
            Role::Output => self,
            _ => TimingKind::Unsupported,
        }
    }

    /// The kind, which is read on input pins alone.
    fn on_input(self, role: Role) -> TimingKind
        ensures { result ≡ on_input role self }
    {
        match role {
            Role::Input => self,
            _ => TimingKind::Unsupported,
        }
    }

    /// Whether such a group has delays and slews.
    pub fn is_delay(self) -> bool
        ensures { result ≡ is_delay_kind self }
    {
        match self {
            TimingKind::Combinational | TimingKind::RisingEdge => true,
            _ => false,
        }
    }

    /// Whether the tables of such a group are read: those of arcs and of checks.
    pub fn is_read(self) -> bool
        ensures { result ≡ is_read_kind self }
    {
        match self {
            TimingKind::Skipped | TimingKind::Unsupported => false,
            _ => true,
        }
    }
}

impl TableUse {
    /// What a table of an arc is for.
    fn of_delay(word: &[u8]) -> Option<TableUse>
        ensures { result ≡ delay_use word.now }
    {
        if word == b"cell_rise".as_slice() {
            Some(TableUse::Rise)
        } else if word == b"cell_fall".as_slice() {
            Some(TableUse::Fall)
        } else if word == b"rise_transition".as_slice() {
            Some(TableUse::RiseSlew)
        } else if word == b"fall_transition".as_slice() {
            Some(TableUse::FallSlew)
        } else {
            None
        }
    }

    /// What a table of a check is for.
    fn of_check(word: &[u8]) -> Option<TableUse>
        ensures { result ≡ check_use word.now }
    {
        if word == b"rise_constraint".as_slice() {
            Some(TableUse::Rise)
        } else if word == b"fall_constraint".as_slice() {
            Some(TableUse::Fall)
        } else {
            None
        }
    }

    /// What a group of an arc, or of a check, is for as a table; other groups have no meaning here.
    pub fn named(is_delay: bool, word: &[u8]) -> Option<TableUse>
        ensures { result ≡ use_named is_delay word.now }
    {
        if is_delay {
            TableUse::of_delay(word)
        } else {
            TableUse::of_check(word)
        }
    }
}
