//! The ports that lists denote.

ghost use Rattle.std.specs.Prelude.{◌≡◌, option_map, map, OnOk};
ghost use Rattle.sdc_words.specs.Items.{items_of};
ghost use Rattle.sdc_words.specs.View.{word_text, names_text};
ghost use Rattle.sdc_read.specs.Changes.{role_for, IsChange};
ghost use Rattle.sdc_read.specs.Objects.{names_in, port_names, clock_names, all_of, named_bits, is_some_listed};
ghost use Rattle.sdc_read.specs.Objects.{has_role, change_found, change_names, change_all};
ghost use Rattle.sdc_read.specs.Objects.{change_role, change_objects};
ghost use Rattle.sdc_read.specs.Mentions.{nets_of, told, AllFit};
ghost use Rattle.text_forms.specs.Stops.{Changes};
ghost use Rattle.sdc_read.specs.View.{bits_text};

use crate::change::{Bits, Change};
use crate::listed::{ListedNetlist, named_bits, same_role};
use crate::mentions::Mentions;
use crate::ports::PortBit;
use sdc_words::{NameList, Word, first_item};
use std::alloc::AllocError;
use text_forms::Stop;
use verilog_net::PortRole;
use xt_model::Code;

/// The names in a list of ports.
pub fn port_names<'a>(word: Word<'a>) -> Option<NameList<'a>>
    ensures { option_map names_text result ≡ port_names (word_text word.entry) }
{
    match word {
        Word::Bare(name) => Some(NameList::One(name)),
        Word::Braced(names) => Some(NameList::Many(names)),
        Word::Ports(names) => Some(names),
        _ => None,
    }
}

/// The names in a list of clocks.
pub fn clock_names<'a>(word: Word<'a>) -> Option<NameList<'a>>
    ensures { option_map names_text result ≡ clock_names (word_text word.entry) }
{
    match word {
        Word::Bare(name) => Some(NameList::One(name)),
        Word::Braced(names) => Some(NameList::Many(names)),
        Word::Clocks(names) => Some(names),
        _ => None,
    }
}

/// The direction of all ports in a list.
pub fn all_of(word: Word<'_>) -> Option<PortRole>
    ensures { result ≡ all_of (word_text word.entry) }
{
    match word {
        Word::AllInputs => Some(PortRole::Input),
        Word::AllOutputs => Some(PortRole::Output),
        _ => None,
    }
}

/// Whether there are some bits.
fn is_some_listed(list: &[Bits]) -> bool
    ensures { result ≡ is_some_listed (map bits_text list.now) }
{
    match list {
        [] => false,
        _ => true,
    }
}

/// Whether some net is a port of this direction.
#[tactic(auto, using(crate::proofs::Over::role_listed))]
fn has_role(wanted: PortRole, netlist: &ListedNetlist<'_>) -> bool
    ensures { result ≡ has_role wanted netlist.now }
{
    is_some_listed(netlist.ports(wanted))
}

/// Changes the ports with a name.
fn change_named(
    netlist: &ListedNetlist<'_>,
    clock: Option<PortBit>,
    change: Change,
    name: &[u8],
    said: &mut Mentions,
) -> Result<(), Stop>
    requires { IsChange change }
    ensures value { Changes result (told (nets_of netlist.now) said.new)
        (change_found clock change (named_bits (role_for change) netlist.now name.now)
        (told (nets_of netlist.now) said.old)) }
    ensures fits { OnOk result
        (AllFit (nets_of netlist.now) clock said.old → AllFit (nets_of netlist.now) clock said.new) }
{
    let Some(bits) = named_bits(change.role(), netlist.whole(), name) else {
        return Err(Stop::Refused(Code::C6));
    };
    said.push(change, clock, Some(bits))?;
    Ok(())
}

/// Changes the ports with the names between braces.
fn change_many(
    netlist: &ListedNetlist<'_>,
    clock: Option<PortBit>,
    change: Change,
    names: &[u8],
    said: &mut Mentions,
) -> Result<(), Stop>
    requires { IsChange change }
    ensures value { Changes result (told (nets_of netlist.now) said.new)
        (change_names netlist.now clock change (items_of names.now) (told (nets_of netlist.now) said.old)) }
    ensures fits { OnOk result
        (AllFit (nets_of netlist.now) clock said.old → AllFit (nets_of netlist.now) clock said.new) }
{
    let mut rest = names;
    'names: while let Some((name, more)) = first_item(rest) {
        change_named(netlist, clock, change, name, said)?;
        rest = more;
    }
    Ok(())
}

/// Changes the ports with the names of a list.
fn change_names(
    netlist: &ListedNetlist<'_>,
    clock: Option<PortBit>,
    change: Change,
    names: NameList<'_>,
    said: &mut Mentions,
) -> Result<(), Stop>
    requires { IsChange change }
    ensures value { Changes result (told (nets_of netlist.now) said.new)
        (change_names netlist.now clock change (names_in (names_text names.entry))
        (told (nets_of netlist.now) said.old)) }
    ensures fits { OnOk result
        (AllFit (nets_of netlist.now) clock said.old → AllFit (nets_of netlist.now) clock said.new) }
{
    match names {
        NameList::One(name) => change_named(netlist, clock, change, name, said),
        NameList::Many(names) => change_many(netlist, clock, change, names, said),
    }
}

/// Changes all ports of the direction.
#[tactic(auto)]
fn change_all(
    netlist: &ListedNetlist<'_>,
    clock: Option<PortBit>,
    change: Change,
    said: &mut Mentions,
) -> Result<(), AllocError>
    requires { IsChange change }
    ensures value { OnOk result (told (nets_of netlist.now) said.new
        ≡ change_all netlist.now clock change (told (nets_of netlist.now) said.old)) }
    ensures fits { OnOk result
        (AllFit (nets_of netlist.now) clock said.old → AllFit (nets_of netlist.now) clock said.new) }
{
    said.push(change, clock, None)?;
    Ok(())
}

/// Changes all ports of a direction, which is the one that is wanted unless there are none.
fn change_role(
    netlist: &ListedNetlist<'_>,
    clock: Option<PortBit>,
    change: Change,
    role: PortRole,
    said: &mut Mentions,
) -> Result<(), Stop>
    requires { IsChange change }
    ensures value { Changes result (told (nets_of netlist.now) said.new)
        (change_role netlist.now clock change role (told (nets_of netlist.now) said.old)) }
    ensures fits { OnOk result
        (AllFit (nets_of netlist.now) clock said.old → AllFit (nets_of netlist.now) clock said.new) }
{
    if same_role(change.role(), role) {
        change_all(netlist, clock, change, said)?;
        return Ok(());
    }
    if has_role(role, netlist) {
        Err(Stop::Refused(Code::C6))
    } else {
        Ok(())
    }
}

/// Changes the ports of a list.
#[tactic(auto, unfolding(crate::specs::Objects::change_objects))]
pub fn change_objects(
    netlist: &ListedNetlist<'_>,
    clock: Option<PortBit>,
    change: Change,
    list: Word<'_>,
    said: &mut Mentions,
) -> Result<(), Stop>
    requires { IsChange change }
    ensures value { Changes result (told (nets_of netlist.now) said.new)
        (change_objects netlist.now clock change (word_text list.entry) (told (nets_of netlist.now) said.old)) }
    ensures fits { OnOk result
        (AllFit (nets_of netlist.now) clock said.old → AllFit (nets_of netlist.now) clock said.new) }
{
    if let Some(names) = port_names(list) {
        return change_names(netlist, clock, change, names, said);
    }
    match all_of(list) {
        Some(role) => change_role(netlist, clock, change, role, said),
        None => Err(Stop::Refused(Code::C6)),
    }
}
