//! Netlists: the nets, ports and instances of a module.

use crate::name::Name;
use name_numbers::NameTable;
use xt_model::Row;

/// What a net is to the outside of its module.
#[derive(Clone, Copy, Debug, PartialEq, Eq)]
pub enum PortRole {
    Input,
    Output,
    Inner,
}

/// A net by its name. `range` has the left and the right bound of a bus; a net that was declared has `declared`,
/// another is only used.
#[derive(Clone, Copy, Debug, PartialEq, Eq)]
pub struct Net {
    pub range: Option<(u32, u32)>,
    pub role: PortRole,
    pub declared: bool,
}

/// What a pin is connected to. `decl` is the number of a net's name in its module, in order of first declaration or
/// use. `bit` is the number of a bus's bit as its range has it, and 0 for a net without a range.
#[derive(Clone, Copy, Debug, PartialEq, Eq)]
pub enum Wire {
    Open,
    Constant,
    Bit { decl: u32, bit: u32 },
    /// A whole bus.
    Whole { decl: u32 },
}

/// An instance of a cell or of a module, with its pins in the order of the text. `line` is that of its own name.
#[derive(Debug, Drop)]
pub struct Instance {
    pub cell: Name,
    pub name: Name,
    pub line: u32,
    pub pins: Row<(Name, Wire)>,
}

/// A module: its nets by name in order of first declaration or use, of which those with a direction are its ports,
/// and its instances in the order of the text.
#[derive(Drop)]
pub struct Netlist {
    pub module: Name,
    pub nets: NameTable<Net>,
    pub instances: Row<Instance>,
}

/// The modules of a text, in its order.
#[derive(Drop)]
pub struct Modules {
    pub list: Row<Netlist>,
}
