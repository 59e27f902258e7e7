//! Parts that are a sound design, and parts that are not.

ghost use Rattle.std.specs.Prelude.{◌≤◌};
ghost use Rattle.xt_model.specs.Tables.{IsTableNumber};

use crate::rows::field;
use sound_parts::is_sound;
use std::alloc::{AllocError, Global};
use std::test::Fail;
use xt_model::{
    CheckPoint, Coupling, DesignParts, Edge, GivenPair, Miller, Name, Net, NetId, Pair, Quad, Row,
    SinkPin, Table, TimingArc,
};

const LIVE: Quad = Quad {
    tlo: -5,
    thi: 1 << 46,
    slo: 0,
    shi: 1 << 40,
};

/// The number that a row has for a part; the usual one where it has none.
fn value(row: &str, part: &str, usual: i128) -> i128 {
    for change in row.split(',') {
        let (name, text) = change.trim().split_once(' ').unwrap_or((change, ""));
        if name == part {
            return text.parse::<i128>().unwrap_or(usual);
        }
    }
    usual
}

fn number(row: &str, part: &str, usual: i64) -> i64 {
    i64::try_from(value(row, part, i128::from(usual))).unwrap_or(usual)
}

fn index(row: &str, part: &str, usual: u32) -> u32 {
    u32::try_from(value(row, part, i128::from(usual))).unwrap_or(usual)
}

/// The given window of net 0.
fn given(row: &str) -> Quad {
    if number(row, "quiet", 0) == 1 {
        return Quad::BOTTOM;
    }
    Quad {
        tlo: number(row, "tlo", LIVE.tlo),
        thi: number(row, "thi", LIVE.thi),
        slo: number(row, "slo", LIVE.slo),
        shi: number(row, "shi", LIVE.shi),
    }
}

fn name(alloc: Global, letter: u8) -> Result<Name, AllocError>
    requires { (33 ≤ letter) × (letter ≤ 126) }
{
    Ok(Name::new([letter].to_vec(alloc)?))
}

fn table(alloc: Global, value: i64) -> Result<Table, AllocError>
    requires { IsTableNumber value }
{
    let slews = Row::from_vec([0].to_vec(alloc)?);
    let loads = Row::from_vec([0].to_vec(alloc)?);
    Ok(Table::new(slews, loads, Row::from_vec([value].to_vec(alloc)?)))
}

fn sinks(alloc: Global, base: i128, coefs: usize) -> Result<Row<SinkPin>, AllocError> {
    let mut sinks = Vec::new(alloc);
    sinks.push(SinkPin {
        name: name(alloc, b's')?,
        base,
        coefs: Row::from_vec(vec![in alloc; 1; coefs]?),
    })?;
    Ok(Row::from_vec(sinks))
}

/// A net that couples to another by one capacitor, with one sink.
fn first(alloc: Global, row: &str) -> Result<Net, AllocError> {
    let coupling = Coupling {
        to: NetId(index(row, "to", 1)),
        cap: number(row, "cap", 3),
    };
    let pair = Pair {
        rise: given(row),
        fall: Quad::BOTTOM,
    };
    Ok(Net {
        name: name(alloc, b'a')?,
        input: true,
        load: number(row, "load", 7),
        given: GivenPair::new(alloc, pair)?,
        couplings: Row::from_vec([coupling].to_vec(alloc)?),
        sinks: sinks(
            alloc,
            value(row, "base", 0),
            index(row, "coefs", 1) as usize,
        )?,
        arcs: Row::from_vec(Vec::new(alloc)),
    })
}

/// A net that reads the one sink of net 0, with one sink.
fn second(alloc: Global, row: &str) -> Result<Net, AllocError> {
    let arc = TimingArc {
        from: NetId(0),
        sink: index(row, "sink", 0),
        input: Edge::Rise,
        output: Edge::Fall,
        delay: index(row, "table", 0),
        slew: index(row, "table", 0),
    };
    let pair = Pair {
        rise: Quad::BOTTOM,
        fall: if number(row, "kept", 0) == 1 {
            LIVE
        } else {
            Quad::BOTTOM
        },
    };
    let letter = if number(row, "twice", 0) == 1 {
        b'a'
    } else {
        b'b'
    };
    Ok(Net {
        name: name(alloc, letter)?,
        input: false,
        load: 0,
        given: GivenPair::new(alloc, pair)?,
        couplings: Row::from_vec(Vec::new(alloc)),
        sinks: sinks(alloc, 0, 0)?,
        arcs: Row::from_vec([arc].to_vec(alloc)?),
    })
}

/// A check at the one sink of net 1.
fn check(alloc: Global, row: &str) -> Result<CheckPoint, AllocError> {
    Ok(CheckPoint::Port {
        name: name(alloc, b'c')?,
        hold: false,
        net: NetId(1),
        sink: 0,
        rise: Some(number(row, "delay", 1 << 40)),
        fall: None,
    })
}

/// The parts of a sound design of these two nets, one table and this check, with what a row changes in it.
fn parts(alloc: Global, row: &str) -> Result<DesignParts, AllocError> {
    let mut tables = Vec::new(alloc);
    tables.push(table(alloc, 1 << 40)?)?;
    let mut nets = Vec::new(alloc);
    nets.push(first(alloc, row)?)?;
    nets.push(second(alloc, row)?)?;
    let mut checks = Vec::new(alloc);
    checks.push(check(alloc, row)?)?;
    let period = if number(row, "clocks", 1) == 1 {
        Some(number(row, "period", 1))
    } else {
        None
    };
    Ok(DesignParts {
        period,
        tables: Row::from_vec(tables),
        nets: Row::from_vec(nets),
        checks: Row::from_vec(checks),
        miller: Miller::classical(),
    })
}

/// Whether parts are sound, and what is changed in a sound design of which net 0 couples to net 1: numbers by their
/// names. `quiet 1` leaves net 0 without a window, `kept 1` gives one to net 1, `twice 1` gives both nets one name, and
/// `clocks 0` takes the clock away.
const CHANGES: &str = "\
true
true | period 1099511627776
false | period 0
false | period 1099511627777
false | clocks 0
false | twice 1
false | load -1
false | cap -1
true | load 0, cap 35184372088832
false | load 1, cap 35184372088832
false | to 0
false | to 2
true | base 5070602400912917605986812821504
false | base 5070602400912917605986812821505
false | coefs 0
false | coefs 2
true | quiet 1
false | tlo 0, thi -1, slo 0, shi 0
false | slo -1
false | thi 70368744177665
false | kept 1
false | sink 1
false | table 1
false | delay 1099511627777
";

/// Whether the parts of a row are sound.
fn are_sound(alloc: Global, row: &str) -> Result<bool, AllocError> {
    let parts = parts(alloc, field(row, 1))?;
    is_sound(alloc, &parts)
}

#[test]
fn each_fault_is_found(rt: HostRuntime) -> Result<(), Fail> {
    for row in CHANGES.lines() {
        assert!(rt;
            are_sound(rt.alloc(), row)? == (field(row, 0) == "true"),
            "{row}"
        );
    }
    Ok(())
}
