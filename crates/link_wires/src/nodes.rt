//! The nodes of a net in order.

ghost use Rattle.std.specs.Prelude.{◌≡◌, [], ◌∷◌, ◌<◌, length, fold, map, flat_map, IfOk, OnOk};
ghost use Rattle.std.specs.List.{All};
ghost use Rattle.name_numbers.specs.Names.{number_of, with_name};
ghost use Rattle.name_parts.specs.Parts.{whole};
ghost use Rattle.xt_model.specs.Names.{IsName};
ghost use Rattle.link_rules.specs.Ends.{end_name};
ghost use Rattle.link_rules.specs.Nodes.{text_of};
ghost use Rattle.link_rules.specs.Wires.{end_nodes, names_on};
ghost use Rattle.link_wires.specs.Seen.{cap_node, both_nodes, wire_by};
ghost use Rattle.link_wires.specs.Wires.{HasNames};

use crate::index::text_of;
use crate::marks::{Mark, mark_ends, marked};
use crate::parts::{CapAt, WireParts};
use link_rules::{End, NetPins};
use name_parts::NameParts;
use spef_read::{NameId, Parasitics, ResText};
use std::alloc::{AllocError, Global};
use std::marker::Model;
use xt_model::Name;

/// The greatest number of nodes that are kept.
const MOST_KEPT: usize = 4_294_967_295;

/// The nodes of a net in the order of their numbers: first its ends, then others by their names in the parasitics.
/// Contracts see the parasitics and the list of names. Two ends of a net may have one name, which then denotes the
/// first of them. The nodes of one net after another are kept in the same memory, and no look-up but that of an end is
/// by hash. With 4,294,967,295 nodes, or as many nets, there is no memory for a further one.
#[derive(Drop)]
pub struct Nodes<'a> {
    parasitics: &'a Parasitics,
    ends: Vec<Name>,
    others: Vec<NameId>,
    marks: Vec<Mark>,
    turn: u32,
}

impl<'a> Model for Nodes<'a> {
    ghost use Rattle.std.specs.Prelude.{◌++◌, map};
    ghost use Rattle.link_rules.specs.Nodes.{text_of};
    ghost use Rattle.link_wires.specs.Marks.{NodesOf, AreNodes};

    ghost Value = { NodesOf };

    ghost view = { λ n. record {
      parasitics = n.parasitics.now;
      list = n.ends.items ++ map (text_of n.parasitics.now) n.others.items;
    } };

    ghost invariant = { λ n. AreNodes n.parasitics.now (n.ends.items ++ map (text_of n.parasitics.now) n.others.items)
        n.turn n.marks.items };
}

impl<'a> Nodes<'a> {
    ghost use Rattle.std.specs.Prelude.{[], Some};
    ghost use Rattle.std.specs.List.{slice_get};

    /// No node of a net of these parasitics.
    pub fn new(alloc: Global, parasitics: &'a Parasitics) -> Result<Nodes<'a>, AllocError>
        ensures { IfOk result (λ n. n ≡ record { parasitics = parasitics.entry.now; list = [] }) }
    {
        let none = Mark { turn: 0, number: 0 };
        let marks = vec![in alloc; none; parasitics.names.len() as usize]?;
        Ok(Nodes {
            parasitics,
            ends: Vec::new(alloc),
            others: Vec::new(alloc),
            marks,
            turn: 1,
        })
    }

    /// Forgets the nodes, and takes those of the ends of a further net.
    pub fn start(&mut self, ends: Vec<Name>) -> Result<(), AllocError>
        ensures list { OnOk result (self.new.list ≡ ends.items) }
        ensures same { OnOk result (self.new.parasitics ≡ self.old.parasitics) }
    {
        let Some(turn) = self.turn.checked_add(1) else {
            return Err(AllocError);
        };
        if ends.len() > MOST_KEPT {
            return Err(AllocError);
        }
        mark_ends(self.parasitics, &mut self.marks, turn, &ends);
        self.turn = turn;
        self.others.clear();
        self.ends = ends;
        Ok(())
    }

    /// How many nodes there are.
    pub fn len(&self) -> u32
        ensures { result ≡ length self.now.list }
    {
        (self.ends.len() + self.others.len()) as u32
    }

    /// The number of the first node of this name, and that of the next node where there is none.
    pub fn number(&self, name: NameId) -> u32
        ensures { result ≡ number_of (text_of self.now.parasitics name) self.now.list }
    {
        match marked(&self.marks, self.turn, name.number) {
            Some(number) => number,
            None => self.len(),
        }
    }

    /// The name of a node.
    pub fn name(&self, number: u32) -> NameParts<'_>
        requires { number < length self.now.list }
        ensures value { slice_get self.now.list number ≡ Some (whole result) }
        ensures sound { IsName (whole result) }
    {
        let place = number as usize;
        if place < self.ends.len() {
            NameParts::of(self.ends[place].bytes())
        } else {
            text_of(self.parasitics, self.others[place - self.ends.len()])
        }
    }

    /// Adds the node of this name, where there is none.
    pub fn enter(&mut self, name: NameId) -> Result<(), AllocError>
        requires { IsName (text_of self.old.parasitics name) }
        ensures list { OnOk result
            (self.new.list ≡ with_name (text_of self.old.parasitics name) self.old.list) }
        ensures same { OnOk result (self.new.parasitics ≡ self.old.parasitics) }
    {
        if marked(&self.marks, self.turn, name.number).is_some() {
            return Ok(());
        }
        let number = self.len();
        if number as usize >= MOST_KEPT {
            return Err(AllocError);
        }
        self.others.push(name)?;
        self.marks[name.number as usize] = Mark {
            turn: self.turn,
            number,
        };
        Ok(())
    }
}

/// The name of the node of an end, with the delimiter before a pin, which is put together in `room`.
fn end_node(alloc: Global, delimiter: u8, end: &End, room: &mut Vec<u8>) -> Result<Name, AllocError>
    requires { IsName (delimiter ∷ []) }
    ensures { IfOk result (λ name. name ≡ end_name delimiter end.now) }
{
    let name = end.name().bytes();
    prove!(!name.is_empty());
    end.write_node(delimiter, room)?;
    Name::from_slice(alloc, room.as_slice())
}

/// The names of the nodes of the driver and of the sinks, each put together in `room`.
pub fn end_nodes(
    alloc: Global,
    delimiter: u8,
    pins: &NetPins,
    room: &mut Vec<u8>,
) -> Result<Vec<Name>, AllocError>
    requires { IsName (delimiter ∷ []) }
    ensures { IfOk result (λ ends. ends.items ≡ end_nodes delimiter pins.now) }
{
    let mut ends = Vec::with_capacity(alloc, pins.sinks.as_slice().len() + 1)?;
    if let Some(driver) = pins.driver.get() {
        ends.push(end_node(alloc, delimiter, driver, room)?)?;
    }
    let mut rest = pins.sinks.as_slice();
    'sinks: while let [sink, more @ ..] = rest {
        ends.push(end_node(alloc, delimiter, &sink.end, room)?)?;
        rest = more;
    }
    Ok(ends)
}

/// Enters the nodes of capacitors as they appear.
fn enter_caps(nodes: &mut Nodes<'_>, caps: &[CapAt]) -> Result<(), AllocError>
    requires { All IsName (map (cap_node nodes.old.parasitics) caps.now) }
    ensures list { OnOk result (nodes.new.list
        ≡ fold (λ list name. with_name name list) nodes.old.list (map (cap_node nodes.old.parasitics) caps.now)) }
    ensures same { OnOk result (nodes.new.parasitics ≡ nodes.old.parasitics) }
{
    let mut rest = caps;
    'caps: while let [cap, more @ ..] = rest {
        nodes.enter(cap.node)?;
        rest = more;
    }
    Ok(())
}

/// Enters the nodes of resistors as they appear.
fn enter_resistors(nodes: &mut Nodes<'_>, resistors: &[ResText]) -> Result<(), AllocError>
    requires { All IsName (flat_map (both_nodes nodes.old.parasitics) resistors.now) }
    ensures list { OnOk result (nodes.new.list
        ≡ fold (λ list name. with_name name list) nodes.old.list
        (flat_map (both_nodes nodes.old.parasitics) resistors.now)) }
    ensures same { OnOk result (nodes.new.parasitics ≡ nodes.old.parasitics) }
{
    let mut rest = resistors;
    'resistors: while let [resistor, more @ ..] = rest {
        nodes.enter(resistor.a)?;
        nodes.enter(resistor.b)?;
        rest = more;
    }
    Ok(())
}

/// Takes the nodes of a net: those of its ends, then the others as they appear in its capacitors and resistors.
pub fn take_nodes(
    nodes: &mut Nodes<'_>,
    ends: Vec<Name>,
    wire: &WireParts<'_>,
) -> Result<(), AllocError>
    requires { HasNames (wire_by nodes.old.parasitics wire.now) }
    ensures list { OnOk result (nodes.new.list
        ≡ fold (λ list name. with_name name list) ends.items (names_on (wire_by nodes.old.parasitics wire.now))) }
    ensures same { OnOk result (nodes.new.parasitics ≡ nodes.old.parasitics) }
{
    nodes.start(ends)?;
    enter_caps(nodes, &wire.caps)?;
    enter_resistors(nodes, wire.resistors)?;
    Ok(())
}
