//! Parasitics: the nets of a text with their capacitors and resistors.

ghost use Rattle.std.specs.Prelude.{◌≡◌, map, option_map};
ghost use Rattle.std.specs.List.{slice_get};
ghost use Rattle.name_parts.specs.Parts.{whole};

use name_parts::{NameParts, PrefixedTable};
use xt_model::Row;

/// A name, by its number among the names of its text.
#[derive(Clone, Copy, Debug, PartialEq, Eq)]
pub struct NameId {
    pub number: u32,
}

/// A capacitor from a node to ground, or to the node `b`. `value` is its capacitance in aF.
#[derive(Clone, Copy, Debug, PartialEq, Eq)]
pub struct CapText {
    pub a: NameId,
    pub b: Option<NameId>,
    pub value: i64,
}

/// A resistor between two nodes. `value` is its resistance in mΩ.
#[derive(Clone, Copy, Debug, PartialEq, Eq)]
pub struct ResText {
    pub a: NameId,
    pub b: NameId,
    pub value: i64,
}

/// A net with its total capacitance in aF, its capacitors and its resistors, in the order of the text.
#[derive(Debug, Drop)]
pub struct WireText {
    pub name: NameId,
    pub total: i64,
    pub caps: Row<CapText>,
    pub resistors: Row<ResText>,
}

/// The nets of a text in its order. `names` has the names of nets and nodes in the order of their first use, each with
/// the number of the net that has it: whole, with the names of the name map in the place of their numbers, without
/// backslashes, with `/` between their parts and `[` and `]` around a bit. In the name of a pin `delimiter` is
/// before the pin. A name of the name map is kept once for all names that begin with it.
#[derive(Drop)]
pub struct Parasitics {
    pub delimiter: u8,
    pub names: PrefixedTable<Option<u32>>,
    pub nets: Row<WireText>,
}

impl Parasitics {
    /// The bytes of a name, in two parts.
    pub fn parts(&self, name: NameId) -> Option<NameParts<'_>>
        ensures { option_map whole result ≡ slice_get (map (λ e. e.0) self.now.names) name.number }
    {
        match self.names.get(name.number) {
            Some((parts, _)) => Some(parts),
            None => None,
        }
    }
}
