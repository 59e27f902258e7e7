//! What goes wrong outside of a report: files that are missing, that fail, that are too long or of another format, and
//! an output that fails.

ghost use Rattle.std.specs.Prelude.{◌<◌};

use crate::block::{LIB, NETLIST, REPORT, SDC, SPEF, files};
use crate::call::{
    ROOM, calm, compare, compare_line, compare_report, field, opened, outcome, outcome_of_block,
};
use std::alloc::Global;
use std::process::Abort;
use std::test::Fail;
use std::thread::Threads;

const WORDS: &str = "report r.lib r.v r.spef r.sdc";

/// The outcome of words on the block, and the words: files that are missing, that take the place of one of another
/// format, that are empty, or more than one of these, of which the first counts.
const OTHER_FILES: &str = "\
6 read fault: none | report none r.v r.spef r.sdc
6 read fault: none | report r.lib none r.spef r.sdc
6 read fault: none | report r.lib r.v none r.sdc
6 read fault: none | link r.lib r.v r.spef none
3 r.v:1: L1 | report r.v r.v r.spef r.sdc
3 r.spef:1: L1 | report r.spef r.v r.spef r.sdc
3 r.sdc:1: L1 | report r.sdc r.v r.spef r.sdc
3 r.lib:2: V1 | report r.lib r.lib r.spef r.sdc
3 r.spef:1: V1 | report r.lib r.spef r.spef r.sdc
3 r.sdc:1: V1 | report r.lib r.sdc r.spef r.sdc
3 r.lib:2: S1 | report r.lib r.v r.lib r.sdc
3 r.v:1: S1 | report r.lib r.v r.v r.sdc
3 r.sdc:1: S1 | link r.lib r.v r.sdc r.sdc
3 r.lib:1: C2 | link r.lib r.v r.spef r.lib
3 r.v:1: C2 | link r.lib r.v r.spef r.v
3 r.spef:1: C2 | link r.lib r.v r.spef r.spef
6 read fault: none | report none none none none
3 r.v:1: L1 | report r.v none r.v r.v
3 r.lib:2: V1 | report r.lib r.lib none none
3 r.v:1: S1 | report r.lib r.v r.v none
6 read fault: none | report r.lib none r.lib r.lib
6 read fault: none | report r.lib r.v none r.lib
3 r.lib:1: X1 | solve r.lib
";

#[test]
fn the_first_file_that_fails_counts(rt: HostRuntime) -> Result<(), Fail> {
    let alloc = rt.alloc();
    for row in OTHER_FILES.lines() {
        let seen = outcome_of_block(&rt, alloc, field(row, 1), calm(alloc))?;
        compare_line(&rt, seen.as_str(), field(row, 0), row);
    }
    Ok(())
}

/// The outcome of an empty file in each place.
const EMPTY_FILES: &str = "\
3 x:1: L2 | report x r.v r.spef r.sdc
3 x:1: V2 | report r.lib x r.spef r.sdc
3 x:1: S2 | report r.lib r.v x r.sdc
4 link: K7 f1/D | report r.lib r.v r.spef x
";

/// A file that is longer by a byte than one may be.
const LONG_FILES: &str = "\
5 limit: file x 268435457 | report r.lib x none none
5 limit: file x 268435457 | report r.lib r.v r.spef x
";

/// Compares the outcome where the file `x` holds these bytes.
fn compare_with<R: Threads + Sync + Abort>(
    rt: &R,
    alloc: Global,
    bytes: &[u8],
    rows: &str,
) -> Result<(), Fail> {
    for row in rows.lines() {
        let texts = [
            ("r.lib", LIB.as_bytes()),
            ("r.v", NETLIST.as_bytes()),
            ("r.spef", SPEF.as_bytes()),
            ("r.sdc", SDC.as_bytes()),
            ("x", bytes),
        ];
        let seen = outcome(rt, alloc, field(row, 1), texts.as_slice(), calm(alloc))?;
        compare_line(rt, seen.as_str(), field(row, 0), row);
    }
    Ok(())
}

#[test]
fn empty_and_long_files_have_their_outcomes(rt: HostRuntime) -> Result<(), Fail> {
    let alloc = rt.alloc();
    compare_with(&rt, alloc, b"", EMPTY_FILES)?;
    let zeros: Vec<u8> = vec![in alloc; 0; 268_435_457]?;
    compare_with(&rt, alloc, &zeros, LONG_FILES)
}

/// Words, and the files that are opened, if any: each after those before it, and none after one that is refused.
const OPENED: &str = "\
report r.lib r.v r.spef r.sdc | r.lib r.v r.spef r.sdc
link r.lib r.v r.spef r.lib | r.lib r.v r.spef r.lib
report r.lib r.v r.v r.sdc | r.lib r.v r.v
report r.lib r.lib r.spef r.sdc | r.lib r.lib
link r.v r.v r.spef r.sdc | r.v
report r.lib r.v r.spef
";

#[test]
fn files_are_opened_one_behind_another(rt: HostRuntime) -> Result<(), Fail> {
    let files = files();
    for row in OPENED.lines() {
        let opened = opened(&rt, rt.alloc(), field(row, 0), files.as_slice())?;
        compare(&rt, opened.as_str().trim(), field(row, 1), row);
    }
    Ok(())
}

/// The line of a call that fails, if there is one: each file is opened, read, and read to its end.
fn fault_at(call: u64) -> Option<&'static str> {
    match call / 3 {
        0 => Some("6 read fault: r.lib"),
        1 => Some("6 read fault: r.v"),
        2 => Some("6 read fault: r.spef"),
        3 => Some("6 read fault: r.sdc"),
        _ => None,
    }
}

/// What words say of the block where the call of this number on the files, on the output or on the error stream fails,
/// and the output takes this many bytes at a time.
fn outcome_failing<R: Threads + Sync>(
    rt: &R,
    alloc: Global,
    words: &str,
    failing: (Option<u64>, Option<u64>, Option<u64>),
    most: usize,
) -> Result<String, Fail>
    requires { 0 < most }
{
    let mut outside = calm(alloc);
    let (files, out, err) = failing;
    if let Some(call) = files {
        outside.files.push(call)?;
    }
    if let Some(call) = out {
        outside.out.push(call)?;
    }
    if let Some(call) = err {
        outside.err.push(call)?;
    }
    outside.most = most;
    outcome_of_block(rt, alloc, words, outside)
}

// Each call on the files fails in turn; there are twelve.
#[test]
fn a_failed_call_on_the_files_is_a_read_fault(rt: HostRuntime) -> Result<(), Fail> {
    for call in 0..21 {
        let seen = outcome_failing(&rt, rt.alloc(), WORDS, (Some(call), None, None), ROOM)?;
        let seen = seen.as_str();
        match fault_at(call) {
            Some(line) => compare_line(&rt, seen, line, line),
            None => compare_report(&rt, seen, "no fault"),
        }
    }
    Ok(())
}

// A byte is taken at a time, and each call on the output fails in turn; then one that takes ten.
#[test]
fn a_failed_call_on_the_output_is_a_write_fault(rt: HostRuntime) -> Result<(), Fail> {
    for call in 0..41 {
        let failing = (None, Some(call as u64), None);
        let seen = outcome_failing(&rt, rt.alloc(), WORDS, failing, 1)?;
        let front = REPORT.get(..call).unwrap_or("?");
        assert!(rt;
            seen.as_str().strip_prefix("7 write fault\n") == Some(front),
            "{seen} at {call}"
        );
    }
    let seen = outcome_failing(&rt, rt.alloc(), WORDS, (None, Some(1), None), 10)?;
    assert_eq!(rt; seen.as_str(), "7 write fault\nxtalk 1\nne");
    Ok(())
}

// The status stays where its line can't be written.
#[test]
fn a_line_that_cannot_be_written_changes_no_status(rt: HostRuntime) -> Result<(), Fail> {
    for (words, want) in [("report a b c", "2 "), ("report r.v r.v r.v r.v", "3 ")] {
        let seen = outcome_failing(&rt, rt.alloc(), words, (None, None, Some(0)), ROOM)?;
        compare(&rt, seen.as_str(), want, words);
    }
    Ok(())
}
