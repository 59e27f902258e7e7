//! The timing groups of a pin.

ghost use Rattle.std.specs.Prelude.{◌≡◌, option_map, IfOk};
ghost use Rattle.liberty_groups.specs.Trees.{tree_of, entry_of, groups_of};
ghost use Rattle.text_forms.specs.Stops.{Gives};
ghost use Rattle.text_forms.specs.Refusals.{over};
ghost use Rattle.liberty_cells.specs.Timings.{with_table, related_of, add_table, lacks_table, does_not_fit};
ghost use Rattle.liberty_cells.specs.Timings.{empty_timing, read_tables, timing_of, timings_of};

use crate::library_text::LibraryText;
use crate::pin::Role;
use crate::related::RelatedNames;
use crate::timing::{TableUse, Timing, TimingKind};
use crate::values::{kind_of, sense_of};
use liberty_groups::{Attribute, Group};
use liberty_tables::{attribute, first_named, has_group, only, table_of, text_in};
use std::alloc::{AllocError, Global};
use xt_lex::TextFault;
use xt_model::{Code, Row, Table};

impl Timing {
    /// The timing group that has a table of this number for a use.
    pub fn set_table(&mut self, place: TableUse, number: u32)
        ensures { self.new ≡ with_table place number self.old }
    {
        match place {
            TableUse::Rise => self.rise = Some(number),
            TableUse::Fall => self.fall = Some(number),
            TableUse::RiseSlew => self.rise_slew = Some(number),
            TableUse::FallSlew => self.fall_slew = Some(number),
        }
    }
}

/// The related pins of a timing group.
fn related_of(
    alloc: Global,
    bytes: &[u8],
    attribute: Option<&Attribute>,
) -> Result<RelatedNames, TextFault>
    ensures { Gives (λ names. names) result
        (related_of bytes.now (option_map (λ a. entry_of a.now) attribute.entry)) }
{
    let Some(attribute) = attribute else {
        return Ok(RelatedNames::none(alloc));
    };
    match only(alloc, bytes, attribute.values())? {
        Some(text) => RelatedNames::of_string(attribute.line, text),
        None => Err(TextFault::Refused {
            line: attribute.line,
            code: Code::L1,
        }),
    }
}

/// One group of a timing group: a table that is read, or one without a meaning here.
#[tactic(auto, unfolding(crate::specs::Timings::add_table))]
fn add_table(
    alloc: Global,
    text: &LibraryText,
    is_delay: bool,
    group: &Group,
    tables: &mut Vec<Table>,
    timing: &mut Timing,
) -> Result<(), TextFault>
    ensures { Gives (λ u. (tables.new.items, timing.new)) result
        (add_table text.now.bytes.now is_delay text.now.scales text.now.templates.now (tree_of group.now)
        (tables.old.items, timing.old)) }
{
    let Some(place) = TableUse::named(is_delay, text_in(text.bytes, group.name())) else {
        return Ok(());
    };
    let table = table_of(
        alloc,
        text.bytes,
        is_delay,
        text.scales,
        text.templates,
        group,
    )?;
    let Ok(number) = u32::try_from(tables.len()) else {
        return Err(TextFault::NoMemory);
    };
    tables.push(table)?;
    timing.set_table(place, number);
    Ok(())
}

/// The tables of a timing group that is an arc or a check.
fn add_tables(
    alloc: Global,
    text: &LibraryText,
    is_delay: bool,
    group: &Group,
    tables: &mut Vec<Table>,
    timing: &mut Timing,
) -> Result<(), TextFault>
    ensures { Gives (λ u. (tables.new.items, timing.new)) result
        (over (add_table text.now.bytes.now is_delay text.now.scales text.now.templates.now)
        (groups_of (tree_of group.now)) (tables.old.items, timing.old)) }
{
    let mut rest = group.inner();
    'tables: while let [table, more @ ..] = rest {
        add_table(alloc, text, is_delay, table, tables, timing)?;
        rest = more;
    }
    Ok(())
}

/// Whether an arc has a delay without a slew, or a slew without a delay.
fn lacks_table(bytes: &[u8], group: &Group) -> bool
    ensures { result ≡ lacks_table bytes.now (tree_of group.now) }
{
    has_group(bytes, b"cell_rise", group) != has_group(bytes, b"rise_transition", group)
        || has_group(bytes, b"cell_fall", group) != has_group(bytes, b"fall_transition", group)
}

/// Whether a group whose tables are read has no related pins, or one of two tables.
fn does_not_fit(bytes: &[u8], kind: TimingKind, has_related: bool, group: &Group) -> bool
    ensures { result ≡ does_not_fit bytes.now kind has_related (tree_of group.now) }
{
    !has_related || (kind.is_delay() && lacks_table(bytes, group))
}

/// The tables of a timing group, where they are read.
fn read_tables(
    alloc: Global,
    text: &LibraryText,
    group: &Group,
    has_related: bool,
    tables: &mut Vec<Table>,
    timing: &mut Timing,
) -> Result<(), TextFault>
    ensures { Gives (λ u. (tables.new.items, timing.new)) result
        (read_tables text.now.bytes.now text.now.scales text.now.templates.now (tree_of group.now) has_related
        (tables.old.items, timing.old)) }
{
    let kind = timing.kind;
    if !kind.is_read() {
        return Ok(());
    }
    if does_not_fit(text.bytes, kind, has_related, group) {
        return Err(TextFault::Refused {
            line: group.line(),
            code: Code::L4,
        });
    }
    add_tables(alloc, text, kind.is_delay(), group, tables, timing)
}

/// A timing group without its tables.
fn empty_timing(
    alloc: Global,
    bytes: &[u8],
    role: Role,
    related: RelatedNames,
    group: &Group,
) -> Result<Timing, AllocError>
    ensures { IfOk result (λ timing. timing ≡ empty_timing bytes.now role related (tree_of group.now)) }
{
    let kind = kind_of(alloc, bytes, role, attribute(bytes, b"timing_type", group))?;
    let sense = sense_of(alloc, bytes, attribute(bytes, b"timing_sense", group))?;
    Ok(Timing {
        related,
        kind,
        sense,
        rise: None,
        fall: None,
        rise_slew: None,
        fall_slew: None,
    })
}

/// A timing group after the tables so far: its related pins come first, then what it has, then its tables.
#[tactic(auto, unfolding(crate::specs::Timings::timing_of))]
fn timing_of(
    alloc: Global,
    text: &LibraryText,
    role: Role,
    group: &Group,
    tables: &mut Vec<Table>,
) -> Result<Timing, TextFault>
    ensures { Gives (λ timing. (tables.new.items, timing)) result
        (timing_of text.now.bytes.now text.now.scales text.now.templates.now role (tree_of group.now)
        tables.old.items) }
{
    let named = attribute(text.bytes, b"related_pin", group);
    let has_related = named.is_some();
    let related = related_of(alloc, text.bytes, named)?;
    let mut timing = empty_timing(alloc, text.bytes, role, related, group)?;
    read_tables(alloc, text, group, has_related, tables, &mut timing)?;
    Ok(timing)
}

/// The timing groups of a pin, in the order of the text, after the tables so far.
#[tactic(auto, unfolding(crate::specs::Timings::timings_of))]
pub fn timings_of(
    alloc: Global,
    text: &LibraryText,
    role: Role,
    group: &Group,
    tables: &mut Vec<Table>,
) -> Result<Row<Timing>, TextFault>
    ensures { Gives (λ timings. (tables.new.items, timings)) result
        (timings_of text.now.bytes.now text.now.scales text.now.templates.now role (tree_of group.now)
        tables.old.items) }
{
    let mut timings = Vec::new(alloc);
    let mut rest = group.inner();
    'timings: while let Some((inner, more)) = first_named(text.bytes, b"timing", rest) {
        let timing = timing_of(alloc, text, role, inner, tables)?;
        timings.push(timing)?;
        rest = more;
    }
    Ok(Row::from_vec(timings))
}
