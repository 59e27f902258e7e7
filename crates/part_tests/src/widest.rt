//! The envelope of designs.

ghost use Rattle.std.specs.Prelude.{◌≤◌};

use crate::rows::{field, number};
use envelope::{envelope, quiet};
use sound_parts::is_sound;
use std::alloc::{AllocError, Global};
use std::process::Abort;
use std::test::Fail;
use xt_model::{
    Coupling, Design, DesignParts, Edge, GivenPair, Miller, Name, Net, NetId, Pair, Quad, Row,
    SinkPin, Table, TimingArc,
};

const QUIET: Pair = Pair {
    rise: Quad::BOTTOM,
    fall: Quad::BOTTOM,
};

/// Windows of a net that rises alone, from the first time to the second, with slews up to the third number.
fn rises(from: i64, to: i64, slew: i64) -> Pair {
    Pair {
        rise: Quad {
            tlo: from,
            thi: to,
            slo: 0,
            shi: slew,
        },
        fall: Quad::BOTTOM,
    }
}

fn falls(from: i64, to: i64) -> Pair {
    let pair = rises(from, to, 0);
    Pair {
        rise: pair.fall,
        fall: pair.rise,
    }
}

fn name(alloc: Global, letter: u8) -> Result<Name, AllocError>
    requires { (33 ≤ letter) × (letter ≤ 126) }
{
    Ok(Name::new([letter].to_vec(alloc)?))
}

/// A net with one sink and nothing else.
fn source(alloc: Global, letter: u8, given: Pair, base: i128) -> Result<Net, AllocError>
    requires { (33 ≤ letter) × (letter ≤ 126) }
{
    let mut sinks = Vec::new(alloc);
    sinks.push(SinkPin {
        name: name(alloc, b's')?,
        base,
        coefs: Row::from_vec(Vec::new(alloc)),
    })?;
    Ok(Net {
        name: name(alloc, letter)?,
        input: true,
        load: 0,
        given: GivenPair::new(alloc, given)?,
        couplings: Row::from_vec(Vec::new(alloc)),
        sinks: Row::from_vec(sinks),
        arcs: Row::from_vec(Vec::new(alloc)),
    })
}

/// A net that an edge of net `from` drives at the same edge, with 1,000 aF to net `to`. Table 0 has its delays
/// and table 1 its slews.
fn driven(alloc: Global, letter: u8, from: u32, edge: Edge, to: u32) -> Result<Net, AllocError>
    requires { (33 ≤ letter) × (letter ≤ 126) }
{
    let arc = TimingArc {
        from: NetId(from),
        sink: 0,
        input: edge,
        output: edge,
        delay: 0,
        slew: 1,
    };
    let coupling = Coupling {
        to: NetId(to),
        cap: 1000,
    };
    Ok(Net {
        name: name(alloc, letter)?,
        input: false,
        load: 0,
        given: GivenPair::quiet(),
        couplings: Row::from_vec([coupling].to_vec(alloc)?),
        sinks: Row::from_vec(Vec::new(alloc)),
        arcs: Row::from_vec([arc].to_vec(alloc)?),
    })
}

/// Delays of 800 fs and 1 fs more for each 5 aF, up to 10,000 aF.
fn delays(alloc: Global) -> Result<Table, AllocError> {
    let slews = Row::from_vec([0].to_vec(alloc)?);
    let loads = Row::from_vec([0, 10_000].to_vec(alloc)?);
    let values = Row::from_vec([800, 2_800].to_vec(alloc)?);
    Ok(Table::new(slews, loads, values))
}

fn no_slew(alloc: Global) -> Result<Table, AllocError> {
    let slews = Row::from_vec([0].to_vec(alloc)?);
    let loads = Row::from_vec([0].to_vec(alloc)?);
    Ok(Table::new(slews, loads, Row::from_vec([0].to_vec(alloc)?)))
}

fn design(
    rt: &impl Abort,
    alloc: Global,
    tables: Vec<Table>,
    nets: Vec<Net>,
) -> Result<Design, Fail> {
    let parts = DesignParts {
        period: None,
        tables: Row::from_vec(tables),
        nets: Row::from_vec(nets),
        checks: Row::from_vec(Vec::new(alloc)),
        miller: Miller::classical(),
    };
    let sound = is_sound(alloc, &parts)?;
    assert!(rt; sound);
    Ok(Design::from_parts(alloc, parts)?)
}

/// The design of one source with these windows and a sink after a wire.
fn one_source(rt: &impl Abort, alloc: Global, given: Pair, base: i128) -> Result<Design, Fail> {
    let mut nets = Vec::new(alloc);
    nets.push(source(alloc, b'a', given, base)?)?;
    design(rt, alloc, Vec::new(alloc), nets)
}

/// The latest time and the greatest slew of a source that rises, the base of its sink, and the limit that is passed
/// after its wire. A wire with a delay of 1 fs has the base 1,000,000.
const LIMITS: &str = "\
70368744177664 0 0 | none
70368744177664 0 1000000 | Limit { net: NetId(0), what: Time, value: 70368744177665 }
0 1099511627776 0 | none
0 1099511627776 1000000 | Limit { net: NetId(0), what: Slew, value: 1099511627778 }
";

/// The limit that a design passes, or that these are its widest windows.
fn widest_in_words(alloc: Global, design: &Design, given: Pair) -> Result<String, AllocError> {
    match envelope(alloc, design) {
        Ok(top) if top.pairs() == [given].as_slice() => format!(in alloc; "none"),
        Ok(_) => format!(in alloc; "other windows"),
        Err(fault) => format!(in alloc; "{fault:?}"),
    }
}

/// Whether in the quiet windows of a design of one net nothing switches.
fn is_quiet(alloc: Global, design: &Design) -> Result<bool, Fail> {
    let windows = quiet(alloc, design)?;
    Ok(windows.pairs() == [QUIET].as_slice())
}

/// The limit that a design of one source passes, where nothing switches in its quiet windows.
fn limit_in_words(alloc: Global, design: &Design, given: Pair) -> Result<String, Fail> {
    if !is_quiet(alloc, design)? {
        return Err(Fail::from("quiet windows switch"));
    }
    Ok(widest_in_words(alloc, design, given)?)
}

/// The limit that the source of a row passes.
fn limit_of(rt: &impl Abort, alloc: Global, source: &str) -> Result<String, Fail> {
    let time = i64::try_from(number(source, 0)).unwrap_or(-1);
    let slew = i64::try_from(number(source, 1)).unwrap_or(-1);
    let given = rises(time, time, slew);
    let design = one_source(rt, alloc, given, number(source, 2))?;
    limit_in_words(alloc, &design, given)
}

#[test]
fn limits_hold_behind_the_wire(rt: HostRuntime) -> Result<(), Fail> {
    for row in LIMITS.lines() {
        let limit = limit_of(&rt, rt.alloc(), field(row, 0))?;
        assert!(rt; limit.as_str() == field(row, 1), "{limit} at {row}");
    }
    Ok(())
}

/// A source that rises and one that falls, and a gate after each, which couple to one another.
fn two_gates(alloc: Global) -> Result<Vec<Net>, AllocError> {
    let mut nets = Vec::new(alloc);
    nets.push(source(alloc, b'p', rises(0, 0, 0), 0)?)?;
    nets.push(source(alloc, b'q', falls(5000, 5000), 0)?)?;
    nets.push(driven(alloc, b'a', 0, Edge::Rise, 3)?)?;
    nets.push(driven(alloc, b'b', 1, Edge::Fall, 2)?)?;
    Ok(nets)
}

/// Their tables.
fn tables(alloc: Global) -> Result<Vec<Table>, AllocError> {
    let mut tables = Vec::new(alloc);
    tables.push(delays(alloc)?)?;
    tables.push(no_slew(alloc)?)?;
    Ok(tables)
}

/// Whether everything overlaps in the widest windows of the two gates.
fn gates_overlap(rt: &impl Abort, alloc: Global) -> Result<bool, Fail> {
    let design = design(rt, alloc, tables(alloc)?, two_gates(alloc)?)?;
    let top = envelope(alloc, &design)?;
    let want = [
        rises(0, 0, 0),
        falls(5000, 5000),
        rises(800, 1200, 0),
        falls(5800, 6200),
    ];
    Ok(top.pairs() == want.as_slice())
}

#[test]
fn everything_overlaps(rt: HostRuntime) -> Result<(), Fail> {
    assert!(rt; gates_overlap(&rt, rt.alloc())?);
    Ok(())
}
