//! The block's files cut at their lines, and with a line that is another.

use crate::block::{LIB, NETLIST, SDC, SPEF};
use crate::call::{calm, compare_line, compare_report, field, outcome};
use std::alloc::{AllocError, Global};
use std::process::Abort;
use std::test::Fail;
use std::thread::Threads;

const WORDS: &str = "report r.lib r.v r.spef r.sdc";

/// The text of a file.
fn file(name: &str) -> &'static str {
    match name {
        "r.lib" => LIB,
        "r.v" => NETLIST,
        "r.spef" => SPEF,
        "r.sdc" => SDC,
        _ => "",
    }
}

/// The text of a file, or what is in the place of that of one.
fn text_at<'a>(name: &str, at: &str, other: &'a str) -> &'a [u8] {
    if name == at {
        other.as_bytes()
    } else {
        file(name).as_bytes()
    }
}

/// What the report says of the block with another text in one place.
fn outcome_with<R: Threads + Sync>(
    rt: &R,
    alloc: Global,
    at: &str,
    other: &str,
) -> Result<String, Fail> {
    let texts = [
        ("r.lib", text_at("r.lib", at, other)),
        ("r.v", text_at("r.v", at, other)),
        ("r.spef", text_at("r.spef", at, other)),
        ("r.sdc", text_at("r.sdc", at, other)),
    ];
    outcome(rt, alloc, WORDS, texts.as_slice(), calm(alloc))
}

/// The first lines of a text, this many.
fn front(alloc: Global, text: &str, lines: u32) -> Result<String, AllocError> {
    let mut out = String::new(alloc);
    let mut count: u32 = 0;
    for line in text.lines() {
        if count < lines {
            out.push_str(line)?;
            out.push_str("\n")?;
            count = count.saturating_add(1);
        }
    }
    Ok(out)
}

/// The text with its line of this number, counted from 1, replaced.
fn replaced(alloc: Global, text: &str, number: u32, line: &str) -> Result<String, AllocError> {
    let mut out = String::new(alloc);
    let mut at: u32 = 1;
    for old in text.lines() {
        out.push_str(if at == number { line } else { old })?;
        out.push_str("\n")?;
        at = at.saturating_add(1);
    }
    Ok(out)
}

/// Files that are cut after some number of lines, from the first number to the last, and the refusal of the line after
/// the cut, or the first line of the outcome.
const CUTS: &str = "\
r.lib | 0 | 30 | L2
r.v | 0 | 9 | V2
r.spef | 0 | 0 | S2
r.spef | 1 | 12 | S4
r.spef | 13 | 25 | 0 xtalk 1
r.spef | 26 | 36 | S2
r.spef | 37 | 37 | 0 xtalk 1
r.spef | 38 | 44 | S2
r.sdc | 0 | 2 | 4 link: K7 f1/D
r.sdc | 3 | 8 | 0 xtalk 1
";

/// The outcome of a file that is cut after this many lines.
fn outcome_of_cut<R: Threads + Sync>(
    rt: &R,
    alloc: Global,
    name: &str,
    lines: u32,
) -> Result<String, Fail> {
    let cut = front(alloc, file(name), lines)?;
    outcome_with(rt, alloc, name, cut.as_str())
}

/// Whether an outcome is the refusal that a row has, at the line after the cut, or begins with its line.
fn is_wanted(alloc: Global, row: &str, lines: u32, seen: &str) -> Result<bool, AllocError> {
    let (name, want) = (field(row, 0), field(row, 3));
    if want.len() == 2 {
        let line = lines.saturating_add(1);
        let refused = format!(in alloc; "3 {name}:{line}: {want}\n")?;
        return Ok(seen == refused.as_str());
    }
    let first = format!(in alloc; "{want}\n")?;
    Ok(seen.starts_with(first.as_str()))
}

/// Compares the outcome of the file of a row that is cut after this many lines.
fn compare_cut<R: Threads + Sync + Abort>(
    rt: &R,
    alloc: Global,
    row: &str,
    lines: u32,
) -> Result<(), Fail> {
    let seen = outcome_of_cut(rt, alloc, field(row, 0), lines)?;
    let seen = seen.as_str();
    assert!(rt;
        is_wanted(alloc, row, lines, seen)?,
        "{seen} after {lines} lines, at {row}"
    );
    Ok(())
}

/// The number that a field has.
fn number(field: &str) -> Result<u32, Fail> {
    Ok(field.parse::<u32>().ok().ok_or("no number")?)
}

#[test]
fn files_cut_behind_each_line(rt: HostRuntime) -> Result<(), Fail> {
    for row in CUTS.lines() {
        let end = number(field(row, 2))?.saturating_add(1);
        for lines in number(field(row, 1))?..end {
            compare_cut(&rt, rt.alloc(), row, lines)?;
        }
    }
    Ok(())
}

/// Lines of the block's parasitics by their numbers, the outcome, and what is in place of the line; `⏎` is a line
/// end.
const LINES: &str = "\
40 | 3 r.spef:40: S3 | 1 *2:1 -0.002
38 | 3 r.spef:38: S6 | *D_NET *1 0.003
38 | 3 r.spef:38: S5 | *D_NET *9 0.003
36 | 4 link: K5 n1 | 2 *1:1 *6:D 50⏎3 *1:1 *1:1 50
36 | 4 link: K5 n1 | 2 *1:1 *6:D 50⏎3 *3:Y *6:D 50
36 | 4 link: K6 n1 f2:D
36 | 4 link: K6 n1 f2:D | 2 *1:1 f2:Q 50
35 | 4 link: K6 n1 f2:D
36 | the report | 2 *1:1 *6:D 50⏎3 *1:8 *1:9 50⏎4 *1:9 *1:8 50
16 | the report | *0001 n1
32 | the report | 1 n1:1 2e-3
38 | the report | *D_NET bus[0] 9
";

/// The outcome of parasitics with the other line of a row.
fn outcome_of_line<R: Threads + Sync>(rt: &R, alloc: Global, row: &str) -> Result<String, Fail> {
    let line = field(row, 2).replace(alloc, '⏎', "\n")?;
    let text = replaced(alloc, SPEF, number(field(row, 0))?, line.as_str())?;
    outcome_with(rt, alloc, "r.spef", text.as_str())
}

#[test]
fn other_lines_have_their_outcomes(rt: HostRuntime) -> Result<(), Fail> {
    for row in LINES.lines() {
        let seen = outcome_of_line(&rt, rt.alloc(), row)?;
        let (seen, want) = (seen.as_str(), field(row, 1));
        if want == "the report" {
            compare_report(&rt, seen, row);
        } else {
            compare_line(&rt, seen, want, row);
        }
    }
    Ok(())
}
