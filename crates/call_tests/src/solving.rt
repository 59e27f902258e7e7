//! The commands `solve` and `replay`: the reports of worked designs, whatever the order and the count of the workers.

use crate::call::{compare, each_prints};
use crate::checks::CHECKS;
use crate::designs::{
    APART, APART_REPORT, CROSS, CROSS_REPORT, DIFFER, DIFFER_REPORT, EMPTY, EMPTY_REPORT, LATE,
    LATE_REPORT, LOAD_PAIR, LOAD_PAIR_REPORT, ONE, ONE_REPORT,
};
use crate::miller::MILLER;
use crate::noise::{PEAKS, WORST};
use std::alloc::Global;
use std::process::Abort;
use std::test::Fail;
use std::thread::Threads;

/// Lines of words, the design of `one.xt`, and what each of these words prints.
pub type Printed = (&'static str, &'static [u8], &'static [u8]);

/// Reports of worked designs.
const SOLVED: [Printed; 8] = [
    ("solve one.xt", ONE, ONE_REPORT),
    ("solve one.xt", EMPTY, EMPTY_REPORT),
    ("solve one.xt", CROSS, CROSS_REPORT),
    ("solve one.xt", LOAD_PAIR, LOAD_PAIR_REPORT),
    ("solve one.xt", APART, APART_REPORT),
    ("solve one.xt", LATE, LATE_REPORT),
    ("solve one.xt", DIFFER, DIFFER_REPORT),
    (
        "solve --kind=checks one.xt",
        CROSS,
        b"xtalk 1\nnets 4 couplings 2 pairs 2 levels 2 bound 18\nperiod none\nend\n",
    ),
];

/// Words that ask for the crossed nets' report.
const REPLAYS_OF_CROSS: &str = "\
replay one.xt --order 5 --workers 3
replay --workers=1 one.xt --order=0
replay --order=1 --workers=2 one.xt
replay --order 0007 --workers 07 one.xt --miller=0,4,8
replay one.xt --workers 64 --order 42
replay one.xt --workers=64 --order=18446744073709551615
";

/// Words that ask for the reports of other designs.
const REPLAYS: &str = "\
replay one.xt --order 0 --workers 2
replay one.xt --order 5 --workers 3
replay one.xt --order 77 --workers 64
";

/// The same reports by workers that take turns.
const REPLAYED: [Printed; 4] = [
    (REPLAYS_OF_CROSS, CROSS, CROSS_REPORT),
    (REPLAYS, EMPTY, EMPTY_REPORT),
    (REPLAYS, LOAD_PAIR, LOAD_PAIR_REPORT),
    (REPLAYS, DIFFER, DIFFER_REPORT),
];

/// Compares what the words of a table print.
fn compare_printed<R: Threads + Sync + Abort>(
    rt: &R,
    alloc: Global,
    table: &[Printed],
) -> Result<(), Fail> {
    for (lines, text, printed) in table {
        assert!(rt; each_prints(rt, alloc, lines, text, printed)?, "{lines}");
    }
    Ok(())
}

#[test]
fn reports_each_worked_design(rt: HostRuntime) -> Result<(), Fail> {
    compare_printed(&rt, rt.alloc(), &SOLVED)?;
    compare_printed(&rt, rt.alloc(), &REPLAYED)?;
    compare_printed(&rt, rt.alloc(), &CHECKS)?;
    compare_printed(&rt, rt.alloc(), &PEAKS)
}

#[test]
fn reports_by_miller_numbers_and_the_worst_moments_of_noise(rt: HostRuntime) -> Result<(), Fail> {
    compare(&rt, rt.alloc(), &MILLER)?;
    compare(&rt, rt.alloc(), &[WORST])
}
