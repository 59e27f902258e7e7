//! The items that forms give.

use crate::context::Context;
use crate::netlist::PortRole;
use text_forms::Refused;
use xt_model::Code;

/// The item that a form gives; names, numbers and constants by their bytes.
#[derive(Clone, Copy)]
pub enum Item<'a> {
    Nothing,
    Refused(Code),
    /// `module`.
    ModuleBegins,
    ModuleName(&'a [u8]),
    /// A name of the header.
    Listed(&'a [u8]),
    ModuleEnds,
    /// A name that is declared without a range.
    Scalar(PortRole, &'a [u8]),
    /// The left bound of the range of names that are declared.
    Left(PortRole, &'a [u8]),
    /// The right bound of this range.
    Right(&'a [u8]),
    /// A further name, declared as the one before or with the range.
    Further(&'a [u8]),
    /// An instance: its cell, its name, and the line of its name.
    Instance(&'a [u8], &'a [u8], u32),
    /// A further instance of the same cell: its name, and the line of it.
    FurtherInstance(&'a [u8], u32),
    Pin(&'a [u8]),
    NoConnection,
    Constant,
    Net(&'a [u8]),
    /// A bit: the name of its bus and its number.
    Bit(&'a [u8], &'a [u8]),
    InstanceEnds,
}

/// A form that was read.
pub type FormRead<'a> = text_forms::FormRead<Item<'a>, Context>;

/// A form, or the refusal of the first token that fits none.
pub type FormResult<'a> = Result<FormRead<'a>, Refused>;
