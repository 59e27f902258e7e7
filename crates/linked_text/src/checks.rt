//! The lines of checks.

ghost use Rattle.std.specs.Prelude.{◌≡◌, ◌&&◌};
ghost use Rattle.linked_text.specs.EachLine.{Around, check_in, flop_in, has_sink, has_table, port_in};
ghost use Rattle.linked_text.specs.Fields.{Finds, count, delay, fields_of, hold_of, is_name, or_dash};
ghost use Rattle.linked_text.specs.Gives.{LineGives};

use crate::fault::{HOLDS, LineStop, NUMBERS, WORDS};
use crate::field::{count, is_name, quantity};
use crate::line::{nine, seven};
use crate::net_lines::has_sink;
use crate::read_line::LineReader;
use std::alloc::Global;
use xt_model::limits::MOST_DELAY;
use xt_model::{CheckPoint, Name, NetId};

/// Whether it is a hold check.
fn hold(field: &[u8]) -> Option<bool>
    ensures { Finds (λ x. x) result (hold_of field.now) }
{
    if field == b"hold".as_slice() {
        return Some(true);
    }
    if field == b"setup".as_slice() {
        return Some(false);
    }
    None
}

/// The number of a table, or a dash.
fn table_or_dash(field: &[u8]) -> Option<Option<u32>>
    ensures { Finds (λ x. x) result (or_dash count field.now) }
{
    if field == b"-".as_slice() {
        return Some(None);
    }
    let table = count(field)?;
    Some(Some(table))
}

/// An external delay in fs, or a dash.
fn delay_or_dash(field: &[u8]) -> Option<Option<i64>>
    ensures { Finds (λ x. x) result (or_dash delay field.now) }
{
    if field == b"-".as_slice() {
        return Some(None);
    }
    let time = quantity(-MOST_DELAY, MOST_DELAY, field)?;
    Some(Some(time))
}

/// Whether a table of a check is there, where it has one.
fn has_table(tables: u32, table: Option<u32>) -> bool
    ensures { result ≡ has_table tables table }
{
    match table {
        Some(table) => table < tables,
        None => true,
    }
}

/// Whether both tables of a check are there, where it has them.
fn have_tables(tables: u32, rise: Option<u32>, fall: Option<u32>) -> bool
    ensures { result ≡ (has_table tables rise && has_table tables fall) }
{
    has_table(tables, rise) && has_table(tables, fall)
}

/// Whether there is a period, a check may have the name, and the net has the sink.
fn may_stand(period: bool, name: &[u8], sinks: &[u32], net: u32, sink: u32) -> bool
    ensures { result ≡ (period && (is_name name.now && has_sink sinks.now net sink)) }
{
    period && is_name(name) && has_sink(sinks, net, sink)
}

/// Reads a check of either kind, where there is a period or none, the nets have this many sinks, and there are
/// `tables` tables.
#[derive(Drop)]
pub struct CheckReader<'a> {
    pub period: bool,
    pub sinks: &'a [u32],
    pub tables: u32,
}

/// A check of a flop.
#[tactic(auto, unfolding(crate::specs::EachLine::flop_in))]
fn flop(
    alloc: Global,
    period: bool,
    sinks: &[u32],
    tables: u32,
    line: &[u8],
) -> Result<CheckPoint, LineStop>
    ensures { let around : Around = record { period = period; sinks = sinks.now; tables = tables } in
        LineGives (λ x. x) result (flop_in around (fields_of line.now)) }
{
    let Some((word, kind, name, datum, datum_sink, clock, clock_sink, rise, fall)) = nine(line)
    else {
        return Err(WORDS);
    };
    if word != b"flop".as_slice() {
        return Err(WORDS);
    }
    let Some(hold) = hold(kind) else {
        return Err(WORDS);
    };
    let Some(datum) = count(datum) else {
        return Err(NUMBERS);
    };
    let Some(datum_sink) = count(datum_sink) else {
        return Err(NUMBERS);
    };
    let Some(clock) = count(clock) else {
        return Err(NUMBERS);
    };
    let Some(clock_sink) = count(clock_sink) else {
        return Err(NUMBERS);
    };
    let Some(rise) = table_or_dash(rise) else {
        return Err(NUMBERS);
    };
    let Some(fall) = table_or_dash(fall) else {
        return Err(NUMBERS);
    };
    if !may_stand(period, name, sinks, datum, datum_sink) {
        return Err(HOLDS);
    }
    if !has_sink(sinks, clock, clock_sink) {
        return Err(HOLDS);
    }
    if !have_tables(tables, rise, fall) {
        return Err(HOLDS);
    }
    let name = Name::from_slice(alloc, name)?;
    Ok(CheckPoint::Flop {
        name,
        hold,
        datum: NetId(datum),
        datum_sink,
        clock: NetId(clock),
        clock_sink,
        rise,
        fall,
    })
}

/// A check of an output port.
#[tactic(auto, unfolding(crate::specs::EachLine::port_in))]
fn port(
    alloc: Global,
    period: bool,
    sinks: &[u32],
    tables: u32,
    line: &[u8],
) -> Result<CheckPoint, LineStop>
    ensures { let around : Around = record { period = period; sinks = sinks.now; tables = tables } in
        LineGives (λ x. x) result (port_in around (fields_of line.now)) }
{
    let Some((word, kind, name, net, sink, rise, fall)) = seven(line) else {
        return Err(WORDS);
    };
    if word != b"port".as_slice() {
        return Err(WORDS);
    }
    let Some(hold) = hold(kind) else {
        return Err(WORDS);
    };
    let Some(net) = count(net) else {
        return Err(NUMBERS);
    };
    let Some(sink) = count(sink) else {
        return Err(NUMBERS);
    };
    let Some(rise) = delay_or_dash(rise) else {
        return Err(NUMBERS);
    };
    let Some(fall) = delay_or_dash(fall) else {
        return Err(NUMBERS);
    };
    if !may_stand(period, name, sinks, net, sink) {
        return Err(HOLDS);
    }
    let name = Name::from_slice(alloc, name)?;
    Ok(CheckPoint::Port {
        name,
        hold,
        net: NetId(net),
        sink,
        rise,
        fall,
    })
}

impl<'a> LineReader for CheckReader<'a> {
    type Value = CheckPoint;

    ghost of = { λ r line. check_in (record { period = r.period; sinks = r.sinks.now; tables = r.tables }) line };

    fn read(&self, alloc: Global, line: &[u8]) -> Result<CheckPoint, LineStop> {
        if nine(line).is_some() {
            return flop(alloc, self.period, self.sinks, self.tables, line);
        }
        port(alloc, self.period, self.sinks, self.tables, line)
    }
}
