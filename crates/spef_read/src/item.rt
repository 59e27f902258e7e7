//! The items that forms give.

use crate::context::Context;
use text_forms::Refused;
use xt_model::Code;

/// Which of two marks of names an item of the header gives.
#[derive(Clone, Copy)]
pub enum Separator {
    Divider,
    Delimiter,
}

/// What a unit is of.
#[derive(Clone, Copy)]
pub enum Quantity {
    Time,
    Capacitance,
    Resistance,
    Inductance,
}

/// The item that a form gives; words by their bytes.
#[derive(Clone, Copy)]
pub enum Item<'a> {
    Nothing,
    Refused(Code),
    /// The byte that separates the parts of names.
    Separator(Separator, &'a [u8]),
    /// Both brackets of a bus's bit in one word.
    Pair(&'a [u8]),
    /// The brackets of a bus's bit in two words.
    Brackets(&'a [u8], &'a [u8]),
    /// The number of a unit.
    UnitNumber(Quantity, &'a [u8]),
    /// The unit itself.
    Unit(&'a [u8]),
    /// `*` and the number of a pair of the name map.
    PairNumber(&'a [u8]),
    /// The name of the pair.
    PairName(&'a [u8]),
    NetBegins,
    NetName(&'a [u8]),
    /// The total capacitance of a net.
    Total(&'a [u8]),
    /// The first node of a capacitor or a resistor.
    FirstNode(&'a [u8]),
    /// The second node of a capacitor.
    CapNode(&'a [u8]),
    /// The second node of a resistor.
    ResNode(&'a [u8]),
    CapValue(&'a [u8]),
    ResValue(&'a [u8]),
    NetEnds,
    TextEnds,
}

/// A form that was read.
pub type FormRead<'a> = text_forms::FormRead<Item<'a>, Context>;

/// A form, or the refusal of the first token that fits none.
pub type FormResult<'a> = Result<FormRead<'a>, Refused>;
