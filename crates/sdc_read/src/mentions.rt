//! What commands said of ports, one mention after another.

ghost use Rattle.std.specs.Prelude.{◌≡◌, ◌<◌, ◌++◌, [], ◌∷◌, length, Some, IfOk, OnOk, IsTrue};
ghost use Rattle.sdc_read.specs.Kept.{AreKept};
ghost use Rattle.sdc_read.specs.Mentions.{is_within, has_bit, found_bits, role_by, role_at, is_role, names_bit, hits};
ghost use Rattle.sdc_read.specs.Levels.{put_if, set_by};
ghost use Rattle.sdc_read.specs.View.{bits_text};
ghost use Rattle.std.specs.List.{slice_get};

use crate::change::{Bits, Change, is_clock};
use crate::listed::{bits_of, same_role};
use crate::ports::PortBit;
use crate::set_numbers::{SetNumbers, put};
use sdc_forms::Picked;
use std::alloc::{AllocError, Global};
use std::marker::Model;
use verilog_net::{Net, PortFound, PortRole};

/// What a command said of some bits of a port, or of all ports of its direction; `clock` is the bit of the clock that
/// was known then.
#[derive(Clone, Copy)]
pub struct Mention {
    pub change: Change,
    pub clock: Option<PortBit>,
    pub bits: Option<Bits>,
}

/// What a command sets, and the bit of the clock that was known then.
#[derive(Clone, Copy)]
pub struct Said {
    pub change: Change,
    pub clock: Option<PortBit>,
}

/// Some bits of a port, or all ports of a direction, by the number of what is said of them.
#[derive(Clone, Copy)]
pub struct Place {
    pub said: usize,
    pub bits: Option<Bits>,
}

/// Mentions in order. What mentions in a row say alike is kept once.
#[derive(Drop)]
pub struct Mentions {
    said: Vec<Said>,
    places: Vec<Place>,
}

impl Model for Mentions {
    ghost use Rattle.std.specs.Prelude.{List, map};
    ghost use Rattle.std.specs.List.{All};
    ghost use Rattle.sdc_read.specs.Kept.{mention_of, IsThere};
    ghost use Rattle.sdc_read.specs.declared.mentions.Mention.{Mention};

    ghost Value = { List Mention };

    ghost view = { λ m. map (mention_of m.said.items) m.places.items };

    ghost invariant = { λ m. All (IsThere m.said.items) m.places.items };
}

/// Whether both are the same edges and sides.
fn is_picked(picked: Picked, other: Picked) -> bool
    ensures { IsTrue result → picked ≡ other }
{
    picked.rise == other.rise
        && picked.fall == other.fall
        && picked.min == other.min
        && picked.max == other.max
}

/// Whether two commands set the same. Where the answer is no they may, too.
fn is_change(change: Change, other: Change) -> bool
    ensures { IsTrue result → change ≡ other }
{
    match (change, other) {
        (Change::InputDelay(picked, number), Change::InputDelay(of, same)) => {
            number == same && is_picked(picked, of)
        }
        (Change::OutputDelay(picked, number), Change::OutputDelay(of, same)) => {
            number == same && is_picked(picked, of)
        }
        (Change::Slew(picked, number), Change::Slew(of, same)) => {
            number == same && is_picked(picked, of)
        }
        (Change::Load(number), Change::Load(same)) => number == same,
        _ => false,
    }
}

/// Whether both are the same bit, or none.
fn is_bit(bit: Option<PortBit>, other: Option<PortBit>) -> bool
    ensures { IsTrue result → bit ≡ other }
{
    match (bit, other) {
        (None, None) => true,
        (Some(bit), Some(other)) => bit.same(other),
        _ => false,
    }
}

/// Whether both say the same.
fn is_said(said: Said, other: Said) -> bool
    ensures { IsTrue result → said ≡ other }
{
    is_change(said.change, other.change) && is_bit(said.clock, other.clock)
}

/// The number of what is said: that of the last where it says the same, else that of a new one.
fn number_of(list: &mut Vec<Said>, said: Said) -> Result<usize, AllocError>
    ensures kept { AreKept list.old.items list.new.items }
    ensures there { IfOk result (λ n. slice_get list.new.items n ≡ Some said) }
{
    let count = list.len();
    if count > 0 && is_said(list[count - 1], said) {
        return Ok(count - 1);
    }
    list.push(said)?;
    Ok(count)
}

impl Mentions {
    /// No mention.
    pub fn new(alloc: Global) -> Mentions
        ensures { result ≡ [] }
    {
        Mentions {
            said: Vec::new(alloc),
            places: Vec::new(alloc),
        }
    }

    /// How many there are.
    pub fn len(&self) -> usize
        ensures { result ≡ length self.now }
    {
        self.places.len()
    }

    /// The mention at a place.
    pub fn at(&self, place: usize) -> Mention
        requires { place < length self.now }
        ensures { slice_get self.now place ≡ Some result }
    {
        let Place { said, bits } = self.places[place];
        let Said { change, clock } = self.said[said];
        Mention {
            change,
            clock,
            bits,
        }
    }

    /// Adds a mention.
    pub fn push(
        &mut self,
        change: Change,
        clock: Option<PortBit>,
        bits: Option<Bits>,
    ) -> Result<(), AllocError>
        ensures { OnOk result
            (self.new ≡ self.old ++ record { change = change; clock = clock; bits = bits } ∷ []) }
    {
        let said = number_of(&mut self.said, Said { change, clock })?;
        self.places.push(Place { said, bits })?;
        Ok(())
    }
}

/// Whether a bit is among those from one to another.
fn is_within(first: u32, last: u32, bit: u32) -> bool
    ensures { result ≡ is_within first last bit }
{
    if first <= last {
        first <= bit && bit <= last
    } else {
        last <= bit && bit <= first
    }
}

/// Whether a bit is among those of a port.
fn has_bit(bits: Bits, at: PortBit) -> bool
    ensures { result ≡ has_bit (bits_text bits) at }
{
    at.decl == bits.decl && is_within(bits.first, bits.last, at.bit)
}

/// The bits of the net of this number, if there is one.
fn found_bits(nets: &[Net], decl: u32) -> PortFound
    ensures { result ≡ found_bits decl (slice_get nets.now decl) }
{
    match nets.get(decl as usize) {
        Some(net) => bits_of(decl, *net),
        None => PortFound::Absent,
    }
}

/// The direction of the net that has a bit.
pub fn role_at(nets: &[Net], at: PortBit) -> Option<PortRole>
    ensures { result ≡ role_at nets.now at }
{
    match found_bits(nets, at.decl) {
        PortFound::Absent => None,
        PortFound::Bits {
            decl: _,
            first,
            last,
            role,
        } => {
            if is_within(first, last, at.bit) {
                Some(role)
            } else {
                None
            }
        }
    }
}

/// Whether it is this direction.
fn is_role(wanted: PortRole, role: Option<PortRole>) -> bool
    ensures { result ≡ is_role wanted role }
{
    match role {
        Some(role) => same_role(wanted, role),
        None => false,
    }
}

impl Mention {
    /// Whether it is of a bit.
    fn names_bit(self, nets: &[Net], wanted: PortRole, at: PortBit) -> bool
        ensures { result ≡ names_bit nets.now wanted self.bits at }
    {
        match self.bits {
            Some(bits) => has_bit(bits, at),
            None => is_role(wanted, role_at(nets, at)),
        }
    }

    /// Whether it changes a bit: input delays at the clock's are ignored.
    fn hits(self, nets: &[Net], at: PortBit) -> bool
        ensures { result ≡ hits nets.now self at }
    {
        self.names_bit(nets, self.change.role(), at)
            && !(self.change.is_input_delay() && is_clock(self.clock, at))
    }
}

/// Later numbers, and below them an earlier command's where it hits.
fn put_if(hits: bool, change: Change, later: Option<SetNumbers>) -> Option<SetNumbers>
    ensures { result ≡ put_if hits change later }
{
    if hits {
        Some(put(later, change))
    } else {
        later
    }
}

/// What mentions set for a bit.
#[tactic(auto, using(crate::proofs::KeptLaws::set_more))]
pub fn set_by(nets: &[Net], at: PortBit, said: &Mentions) -> Option<SetNumbers>
    ensures { result ≡ set_by nets.now at said.now }
{
    let mut set = None;
    let mut place = said.len();
    'said: while place > 0 {
        place -= 1;
        let mention = said.at(place);
        set = put_if(mention.hits(nets, at), mention.change, set);
    }
    set
}
