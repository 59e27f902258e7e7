//! The lines of the body of a net.

ghost use Rattle.std.specs.Prelude.{◌≡◌, ◌≤◌, ◌∷◌, [], ◌&&◌, codes, length, map, nat_lt, IfOk};
ghost use Rattle.std.specs.Str.{bytes_eq};
ghost use Rattle.linked_text.specs.EachLine.{arc_in, bounds_in, coupling_in, given_in, has_sink, quiet_in};
ghost use Rattle.linked_text.specs.EachLine.{sink_in, sink_fields};
ghost use Rattle.linked_text.specs.Fields.{Finds, each, fields_of, product};
ghost use Rattle.linked_text.specs.Gives.{LineGives};

use crate::fault::{HOLDS, LineStop, NUMBERS, WORDS};
use crate::field::{between, count, edge, is_name, quantity};
use crate::line::{Fields, five, seven, three, two};
use crate::read_line::{FieldReader, LineReader, each_field};
use std::alloc::Global;
use text_lines::edge_word;
use xt_model::limits::{MOST_CAP, MOST_PRODUCT, MOST_SLEW, MOST_TIME};
use xt_model::{Coupling, Edge, Name, NetId, Quad, Row, SinkPin, TimingArc};

// ---- the words of the lines

fn is_couple(word: &[u8]) -> bool
    ensures { result ≡ bytes_eq word.now (codes "couple") }
{
    matches!(word, b"couple")
}

fn is_sink(word: &[u8]) -> bool
    ensures { result ≡ bytes_eq word.now (codes "sink") }
{
    matches!(word, b"sink")
}

fn is_arc(word: &[u8]) -> bool
    ensures { result ≡ bytes_eq word.now (codes "arc") }
{
    matches!(word, b"arc")
}

// ---- what is given

/// An edge that never switches.
#[tactic(auto, unfolding(crate::specs::EachLine::quiet_in))]
fn quiet(edge: Edge, word: &[u8], second: &[u8]) -> Result<Quad, LineStop>
    ensures { LineGives (λ x. x) result (quiet_in edge (word.now, second.now)) }
{
    if word != edge_word(edge) {
        return Err(WORDS);
    }
    if second != b"quiet".as_slice() {
        return Err(WORDS);
    }
    Ok(Quad::bottom())
}

/// The bounds of an edge.
#[tactic(auto, unfolding(crate::specs::EachLine::bounds_in))]
fn bounds(edge: Edge, line: &[u8]) -> Result<Quad, LineStop>
    ensures { LineGives (λ x. x) result (bounds_in edge (fields_of line.now)) }
{
    let Some((word, tlo, thi, slo, shi)) = five(line) else {
        return Err(WORDS);
    };
    if word != edge_word(edge) {
        return Err(WORDS);
    }
    let Some(tlo) = quantity(-MOST_TIME, MOST_TIME, tlo) else {
        return Err(NUMBERS);
    };
    let Some(thi) = quantity(-MOST_TIME, MOST_TIME, thi) else {
        return Err(NUMBERS);
    };
    let Some(slo) = quantity(0, MOST_SLEW, slo) else {
        return Err(NUMBERS);
    };
    let Some(shi) = quantity(0, MOST_SLEW, shi) else {
        return Err(NUMBERS);
    };
    let quad = Quad { tlo, thi, slo, shi };
    if !quad.live() {
        return Err(HOLDS);
    }
    Ok(quad)
}

/// Reads what is given for an edge.
#[derive(Drop)]
pub struct GivenReader {
    pub edge: Edge,
}

impl LineReader for GivenReader {
    type Value = Quad;

    ghost of = { λ r line. given_in r.edge line };

    fn read(&self, _alloc: Global, line: &[u8]) -> Result<Quad, LineStop> {
        match two(line) {
            Some((word, second)) => quiet(self.edge, word, second),
            None => bounds(self.edge, line),
        }
    }
}

// ---- couplings, sinks and arcs

/// Reads a coupling of the net of number `own` to another one of `nets` nets.
#[derive(Drop)]
pub struct CouplingReader {
    pub nets: usize,
    pub own: usize,
}

impl LineReader for CouplingReader {
    type Value = Coupling;

    ghost of = { λ r line. coupling_in r.nets r.own line };

    #[tactic(auto, unfolding(crate::specs::EachLine::coupling_in))]
    fn read(&self, _alloc: Global, line: &[u8]) -> Result<Coupling, LineStop> {
        let Some((word, to, cap)) = three(line) else {
            return Err(WORDS);
        };
        if !is_couple(word) {
            return Err(WORDS);
        }
        let Some(to) = count(to) else {
            return Err(NUMBERS);
        };
        let Some(cap) = quantity(0, MOST_CAP, cap) else {
            return Err(NUMBERS);
        };
        if (to as usize) >= self.nets || (to as usize) == self.own {
            return Err(HOLDS);
        }
        Ok(Coupling { to: NetId(to), cap })
    }
}

/// Reads a product of a resistance and a capacitance.
struct ProductReader;

impl FieldReader for ProductReader {
    type Value = i128;

    ghost of = { λ _ f. product f };

    fn read(&self, field: &[u8]) -> Option<i128> {
        between(0, MOST_PRODUCT, field)
    }
}

/// The name of a sink, its base and its coefficients, which are to be `count`.
fn sink_fields<'a>(count: usize, line: &'a [u8]) -> Option<(&'a [u8], &'a [u8], Fields<'a>)>
    ensures { Finds (λ x. (x.0.now, x.1.now, x.2)) result (sink_fields count (fields_of line.now)) }
{
    let mut fields = Fields::new(line);
    let word = fields.next_field()?;
    let name = fields.next_field()?;
    let base = fields.next_field()?;
    if !is_sink(word) || fields.len() != count {
        return None;
    }
    Some((name, base, fields))
}

/// Reads a sink of a net with this number of couplings.
#[derive(Drop)]
pub struct SinkReader {
    pub couplings: u32,
}

impl LineReader for SinkReader {
    type Value = SinkPin;

    ghost of = { λ r line. sink_in r.couplings line };

    #[tactic(auto, unfolding(crate::specs::EachLine::sink_in))]
    fn read(&self, alloc: Global, line: &[u8]) -> Result<SinkPin, LineStop> {
        let Some((name, base, coefs)) = sink_fields(self.couplings as usize, line) else {
            return Err(WORDS);
        };
        let Some(base) = between(0, MOST_PRODUCT, base) else {
            return Err(NUMBERS);
        };
        let coefs = each_field(alloc, &ProductReader, self.couplings, coefs)?;
        if !is_name(name) {
            return Err(HOLDS);
        }
        let name = Name::from_slice(alloc, name)?;
        Ok(SinkPin {
            name,
            base,
            coefs: Row::from_vec(coefs),
        })
    }
}

/// Whether the net of number `net` has a sink of number `sink`, where the nets have this many sinks.
pub fn has_sink(sinks: &[u32], net: u32, sink: u32) -> bool
    ensures { result ≡ has_sink sinks.now net sink }
{
    match sinks.get(net as usize) {
        Some(count) => sink < *count,
        None => false,
    }
}

/// Reads an arc, where the nets have this many sinks and there are `tables` tables.
#[derive(Drop)]
pub struct ArcReader<'a> {
    pub sinks: &'a [u32],
    pub tables: u32,
}

/// Whether the net of number `net` has the sink, and both tables are there.
fn are_there(reader: &ArcReader<'_>, net: u32, sink: u32, delay: u32, slew: u32) -> bool
    ensures { result ≡ (has_sink reader.now.sinks.now net sink
        && (nat_lt delay reader.now.tables && nat_lt slew reader.now.tables)) }
{
    has_sink(reader.sinks, net, sink) && delay < reader.tables && slew < reader.tables
}

impl<'a> LineReader for ArcReader<'a> {
    type Value = TimingArc;

    ghost of = { λ r line. arc_in r.sinks.now r.tables line };

    #[tactic(auto, unfolding(crate::specs::EachLine::arc_in))]
    fn read(&self, _alloc: Global, line: &[u8]) -> Result<TimingArc, LineStop> {
        let Some((word, from, sink, input, output, delay, slew)) = seven(line) else {
            return Err(WORDS);
        };
        if !is_arc(word) {
            return Err(WORDS);
        }
        let Some(input) = edge(input) else {
            return Err(WORDS);
        };
        let Some(output) = edge(output) else {
            return Err(WORDS);
        };
        let Some(from) = count(from) else {
            return Err(NUMBERS);
        };
        let Some(sink) = count(sink) else {
            return Err(NUMBERS);
        };
        let Some(delay) = count(delay) else {
            return Err(NUMBERS);
        };
        let Some(slew) = count(slew) else {
            return Err(NUMBERS);
        };
        if !are_there(self, from, sink, delay, slew) {
            return Err(HOLDS);
        }
        Ok(TimingArc {
            from: NetId(from),
            sink,
            input,
            output,
            delay,
            slew,
        })
    }
}
