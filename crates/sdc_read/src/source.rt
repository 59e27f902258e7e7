//! The source of a clock.

ghost use Rattle.std.specs.Prelude.{◌≡◌, ◌++◌, map, IfOk, OnOk};
ghost use Rattle.sdc_words.specs.Items.{items_of};
ghost use Rattle.sdc_words.specs.View.{word_text, names_text};
ghost use Rattle.sdc_read.specs.Objects.{names_in, with_bits, over_all, source_found, source_names, source_all};
ghost use Rattle.sdc_read.specs.Objects.{one_bit, source_of, bit_name, named_bits};
ghost use Rattle.verilog_net.specs.declared.netlist.PortRole.TheVariants as roles;
ghost use Rattle.text_forms.specs.Stops.{Computes};
ghost use Rattle.sdc_read.specs.View.{bits_text};

use crate::change::Bits;
use crate::listed::{ListedNetlist, named_bits};
use crate::objects::{all_of, port_names};
use crate::ports::PortBit;
use itoa::Buffer;
use sdc_words::{NameList, Word, first_item};
use std::alloc::{AllocError, Global};
use text_forms::Stop;
use verilog_net::{Name, Netlist, PortRole};
use xt_model::Code;

/// The bits that a list denotes, as far as it matters.
#[derive(Clone, Copy)]
pub enum SourceBits {
    Nothing,
    One(PortBit),
    Several,
}

impl SourceBits {
    /// With these bits after it.
    fn with_bits(self, bits: Bits) -> SourceBits
        ensures { result ≡ with_bits (bits_text bits) self }
    {
        match self {
            SourceBits::Nothing => {
                if bits.first == bits.last {
                    SourceBits::One(PortBit {
                        decl: bits.decl,
                        bit: bits.first,
                    })
                } else {
                    SourceBits::Several
                }
            }
            _ => SourceBits::Several,
        }
    }

    /// The bit, if there is exactly one.
    fn one_bit(self) -> Result<PortBit, Stop>
        ensures { Computes (λ at. at) result (one_bit self) }
    {
        match self {
            SourceBits::One(at) => Ok(at),
            _ => Err(Stop::Refused(Code::C6)),
        }
    }
}

/// With the bits of the input of a name after it.
fn source_named(
    netlist: &ListedNetlist<'_>,
    name: &[u8],
    bits: SourceBits,
) -> Result<SourceBits, Stop>
    ensures { Computes (λ s. s) result (source_found (named_bits roles.Input netlist.now name.now) bits) }
{
    match named_bits(PortRole::Input, netlist.whole(), name) {
        Some(found) => Ok(bits.with_bits(found)),
        None => Err(Stop::Refused(Code::C6)),
    }
}

/// The bits of the inputs with the names between braces.
fn source_many(netlist: &ListedNetlist<'_>, names: &[u8]) -> Result<SourceBits, Stop>
    ensures { Computes (λ s. s) result (source_names netlist.now (items_of names.now) SourceBits.Nothing) }
{
    let mut bits = SourceBits::Nothing;
    let mut rest = names;
    'names: while let Some((name, more)) = first_item(rest) {
        bits = source_named(netlist, name, bits)?;
        rest = more;
    }
    Ok(bits)
}

/// The bits of the inputs with the names of a list.
fn source_names(netlist: &ListedNetlist<'_>, names: NameList<'_>) -> Result<SourceBits, Stop>
    ensures { Computes (λ s. s) result
        (source_names netlist.now (names_in (names_text names.entry)) SourceBits.Nothing) }
{
    match names {
        NameList::One(name) => source_named(netlist, name, SourceBits::Nothing),
        NameList::Many(names) => source_many(netlist, names),
    }
}

/// The bits of a list of ports.
fn source_each(list: &[Bits]) -> SourceBits
    ensures { result ≡ over_all with_bits (map bits_text list.now) SourceBits.Nothing }
{
    let mut bits = SourceBits::Nothing;
    let mut rest = list;
    'list: while let [first, more @ ..] = rest {
        bits = bits.with_bits(*first);
        rest = more;
    }
    bits
}

/// The bits of all inputs.
#[tactic(auto, using(crate::proofs::Over::source_listed))]
fn source_all(netlist: &ListedNetlist<'_>) -> SourceBits
    ensures { result ≡ source_all netlist.now }
{
    source_each(netlist.ports(PortRole::Input))
}

/// The one bit of an input that a list denotes.
#[tactic(auto, unfolding(crate::specs::Objects::source_of))]
pub fn source_of(netlist: &ListedNetlist<'_>, list: Word<'_>) -> Result<PortBit, Stop>
    ensures { Computes (λ at. at) result (source_of netlist.now (word_text list.entry)) }
{
    if let Some(names) = port_names(list) {
        let bits = source_names(netlist, names)?;
        return bits.one_bit();
    }
    match all_of(list) {
        Some(PortRole::Input) => source_all(netlist).one_bit(),
        _ => Err(Stop::Refused(Code::C6)),
    }
}

/// The name of a bit of a port.
#[tactic(auto, unfolding(crate::specs::Objects::bit_name))]
pub fn bit_name(alloc: Global, netlist: &Netlist, at: PortBit) -> Result<Name, AllocError>
    ensures { IfOk result (λ n. n ≡ bit_name netlist.now.nets at) }
{
    let Some((name, net)) = netlist.nets.get(at.decl) else {
        return Name::copied(alloc, b"");
    };
    if net.range.is_none() {
        return Name::copied(alloc, name);
    }
    let mut bytes = Vec::from_slice(alloc, name)?;
    bytes.push(b'[')?;
    let mut buffer = Buffer::new();
    bytes.extend_from_slice(buffer.format(at.bit).as_bytes())?;
    bytes.push(b']')?;
    Name::copied(alloc, bytes.as_slice())
}
