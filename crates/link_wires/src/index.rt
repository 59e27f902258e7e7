//! What parasitics list, by the names of nets and nodes.

ghost use Rattle.std.specs.Prelude.{◌≡◌, IfOk, option_map};
ghost use Rattle.name_parts.specs.Parts.{whole};
ghost use Rattle.link_rules.specs.Nodes.{text_of};
ghost use Rattle.link_wires.specs.Places.{HavePlaces};

use crate::first::set_first;
use link_index::NodeIndex;
use link_rules::NetPins;
use name_parts::{ByParts, NameParts};
use spef_read::{NameId, Parasitics, WireText};
use std::alloc::{AllocError, Global};
use std::marker::Model;

/// The name of a number; one of no byte for a number that is not there.
pub fn text_of<'a>(parasitics: &'a Parasitics, name: NameId) -> NameParts<'a>
    ensures { whole result ≡ text_of parasitics.entry.now name }
{
    match parasitics.parts(name) {
        Some(parts) => parts,
        None => NameParts::of(b""),
    }
}

/// Where the first wire of each name is.
fn places_of<'a>(
    alloc: Global,
    parasitics: &'a Parasitics,
) -> Result<ByParts<'a, usize>, AllocError>
    ensures { IfOk result (HavePlaces parasitics.entry.now) }
{
    let mut places = ByParts::new(alloc, parasitics.names.key());
    let mut place = 0;
    let mut rest = parasitics.nets.as_slice();
    'wires: while let [wire, more @ ..] = rest {
        set_first(&mut places, text_of(parasitics, wire.name), place)?;
        place += 1;
        rest = more;
    }
    Ok(places)
}

/// Parasitics beside the netlist that their names speak of, whose wires are found by hash. Contracts see both. No
/// look-up takes memory.
#[derive(Drop)]
pub struct WireIndex<'a> {
    nets: &'a NodeIndex<'a>,
    parasitics: &'a Parasitics,
    places: ByParts<'a, usize>,
}

impl<'a> Model for WireIndex<'a> {
    ghost use Rattle.link_wires.specs.Places.{Extracted, HavePlaces};

    ghost Value = { Extracted };

    ghost view = { λ i. record { netlist = i.nets.now; parasitics = i.parasitics.now } };

    ghost invariant = { λ i. HavePlaces i.parasitics.now i.places };
}

impl<'a> WireIndex<'a> {
    ghost use Rattle.name_parts.specs.Parts.{whole};
    ghost use Rattle.link_rules.specs.Nodes.{node_net};
    ghost use Rattle.link_rules.specs.Wires.{listed};

    /// The index of parasitics. Takes time and memory in proportion to the wires.
    pub fn new(
        alloc: Global,
        nets: &'a NodeIndex<'a>,
        parasitics: &'a Parasitics,
    ) -> Result<WireIndex<'a>, AllocError>
        ensures { IfOk result (λ i. i ≡ record { netlist = nets.entry.now; parasitics = parasitics.entry.now }) }
    {
        Ok(WireIndex {
            nets,
            parasitics,
            places: places_of(alloc, parasitics)?,
        })
    }

    /// The parasitics.
    pub fn parasitics(&self) -> &'a Parasitics
        ensures { result.now ≡ self.now.parasitics }
    {
        self.parasitics
    }

    /// The net of a node, whose name is put together in `room`.
    pub fn node_net(
        &self,
        node: NameParts<'a>,
        room: &mut Vec<u8>,
    ) -> Result<Option<u32>, AllocError>
        ensures { IfOk result
            (λ net. net ≡ node_net self.now.netlist self.now.parasitics.delimiter (whole node.entry)) }
    {
        room.clear();
        node.push_to(room)?;
        Ok(
            self.nets
                .node_net(self.parasitics.delimiter, room.as_slice()),
        )
    }

    /// The wire that is listed for a net; none for one without a driver.
    pub fn listed(&self, pins: &'a NetPins) -> Option<&'a WireText>
        ensures { option_map (λ w. w.now) result ≡ listed self.now.netlist self.now.parasitics pins.entry.now }
    {
        match pins.driver.get() {
            None => None,
            Some(_) => match self.places.get(NameParts::of(pins.name.bytes())) {
                None => None,
                Some(place) => Some(&self.parasitics.nets.as_slice()[*place]),
            },
        }
    }
}
