//! The block's report, and the same one through its linked text.

use crate::block::REPORT;
use crate::call::{calm, compare, compare_report, field, outcome, outcome_of_block};
use std::alloc::{AllocError, Global};
use std::process::Abort;
use std::test::Fail;
use std::thread::Threads;

/// A report after its status, without the lines that a report of checks alone leaves out.
fn checks_alone(alloc: Global, report: &str) -> Result<String, AllocError> {
    let mut out = String::from_str(alloc, "0 ")?;
    for line in report.lines() {
        if !line.starts_with("net ") && !line.starts_with("guilty ") {
            out.push_str(line)?;
            out.push_str("\n")?;
        }
    }
    Ok(out)
}

/// Words for the block's report.
const REPORTS: &str = "\
report r.lib r.v r.spef r.sdc
report r.lib r.v r.spef r.sdc --workers 1
report --workers=64 r.lib r.v --kind all r.spef r.sdc
report --miller 0,4,8 r.lib r.v r.spef r.sdc
report --kind=all --workers 07 --miller=00,4,08 r.lib r.v r.spef r.sdc
report r.lib --kind all r.v --workers 3 r.spef --miller=0,4,8 r.sdc
";

#[test]
fn a_block_is_reported(rt: HostRuntime) -> Result<(), Fail> {
    for words in REPORTS.lines() {
        let seen = outcome_of_block(&rt, rt.alloc(), words, calm(rt.alloc()))?;
        compare_report(&rt, seen.as_str(), words);
    }
    Ok(())
}

/// The peaks of glitch noise of the block: each of its two nets that couple has 1 of 4 fF to the other. The greatest
/// window of bus[0] begins at 90 ps and that of n1 at 68 ps, each with half a slew of 20 ps before it.
const NOISE: &str = "\
0 xtalk 1
nets 6 couplings 2 pairs 1 levels 3 bound 15
period 1000.000
noise n1 rise ppm 250000 at 80.000
noise n1 fall ppm 250000 at 80.000
noise bus[0] rise ppm 250000 at 58.000
noise bus[0] fall ppm 250000 at 58.000
end
";

/// Compares what words say of the block with what is wanted.
fn compare_words<R: Threads + Sync + Abort>(
    rt: &R,
    alloc: Global,
    words: &str,
    want: &str,
) -> Result<(), Fail> {
    let seen = outcome_of_block(rt, alloc, words, calm(alloc))?;
    compare(rt, seen.as_str(), want, words);
    Ok(())
}

#[test]
fn the_checks_of_a_block_are_reported_alone(rt: HostRuntime) -> Result<(), Fail> {
    let checks = checks_alone(rt.alloc(), REPORT)?;
    let words = "report r.lib r.v r.spef r.sdc --kind checks";
    compare_words(&rt, rt.alloc(), words, checks.as_str())
}

#[test]
fn the_noise_of_a_block_is_reported(rt: HostRuntime) -> Result<(), Fail> {
    let words = "report r.lib r.v r.spef r.sdc --kind noise";
    compare_words(&rt, rt.alloc(), words, NOISE)
}

/// What `words` say of a file `x.xt` that holds what the call before it printed.
fn outcome_of_printed<R: Threads + Sync>(
    rt: &R,
    alloc: Global,
    words: &str,
    seen: &str,
) -> Result<String, Fail> {
    let Some(text) = seen.strip_prefix("0 ") else {
        return Err(Fail::from("not linked"));
    };
    let texts = [("x.xt", text.as_bytes())];
    outcome(rt, alloc, words, texts.as_slice(), calm(alloc))
}

/// Options of `link` and of `solve`, and those of `report` that ask for the same report.
const LINKED: &str = "\
| |
--miller 0,4,12 | | --miller=0,4,12
--miller 3,3,3 | --miller 0,4,12 | --miller=0,4,12
| --kind checks --miller 1,5,9 | --miller 1,5,9 --kind=checks
| --kind noise | --kind=noise
";

/// What a command says of the block with these options.
fn outcome_with<R: Threads + Sync>(
    rt: &R,
    alloc: Global,
    command: &str,
    options: &str,
) -> Result<String, Fail> {
    let words = format!(in alloc; "{command} r.lib r.v r.spef r.sdc {options}")?;
    outcome_of_block(rt, alloc, words.as_str(), calm(alloc))
}

/// What `solve` says with these options of the text that `link` prints with those.
fn outcome_of_linked<R: Threads + Sync>(
    rt: &R,
    alloc: Global,
    of_link: &str,
    of_solve: &str,
) -> Result<String, Fail> {
    let linked = outcome_with(rt, alloc, "link", of_link)?;
    let words = format!(in alloc; "solve x.xt {of_solve}")?;
    outcome_of_printed(rt, alloc, words.as_str(), linked.as_str())
}

/// Compares what `solve` says of the linked block with what `report` says of its files, by the options of a row.
fn compare_linked<R: Threads + Sync + Abort>(rt: &R, alloc: Global, row: &str) -> Result<(), Fail> {
    let solved = outcome_of_linked(rt, alloc, field(row, 0), field(row, 1))?;
    let reported = outcome_with(rt, alloc, "report", field(row, 2))?;
    assert!(rt; solved.starts_with("0 xtalk 1\n"), "{solved} at {row}");
    compare(rt, solved.as_str(), reported.as_str(), row);
    Ok(())
}

// The linked text is solved to the report of the four files.
#[test]
fn a_linked_block_is_solved_to_its_report(rt: HostRuntime) -> Result<(), Fail> {
    for row in LINKED.lines() {
        compare_linked(&rt, rt.alloc(), row)?;
    }
    Ok(())
}

#[test]
fn a_linked_block_is_solved_to_the_worked_report(rt: HostRuntime) -> Result<(), Fail> {
    let solved = outcome_of_linked(&rt, rt.alloc(), "", "")?;
    compare_report(&rt, solved.as_str(), "solve");
    Ok(())
}
