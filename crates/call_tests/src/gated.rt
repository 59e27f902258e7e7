//! Calls with a gate, which each of several workers passes in every round.

use crate::call::{Streams, calm, streams_of, words_of};
use crate::designs::{
    CROSS, CROSS_REPORT, EMPTY, EMPTY_REPORT, LOAD_PAIR, LOAD_PAIR_REPORT, ONE, ONE_REPORT,
};
use chaos_core::{Gate, MeetGate, OpenGate};
use std::alloc::Global;
use std::hint::spin_loop;
use std::sync::atomic::{AtomicBool, AtomicU64, Ordering};
use std::test::Fail;
use std::thread::Threads;
use xtalk_top::xtalk_gated;

/// A gate that holds nobody, and notes which workers pass: a bit for each of workers 1 to 64, the lowest for worker 1,
/// and how often any other number came.
#[derive(Drop)]
struct NoteGate {
    workers: AtomicU64,
    others: AtomicU64,
}

impl NoteGate {
    /// A gate that nobody has passed.
    fn new() -> NoteGate {
        NoteGate {
            workers: AtomicU64::new(0),
            others: AtomicU64::new(0),
        }
    }

    /// The bits of the workers that passed; None where another number came.
    fn passed(&self) -> Option<u64> {
        let workers = self.workers.load(Ordering::SeqCst);
        (self.others.load(Ordering::SeqCst) == 0).then_some(workers)
    }
}

impl Gate for NoteGate {
    fn pass(&self, worker: u32, _round: u64) {
        if worker >= 1 && worker <= 64 {
            self.workers.fetch_or(1 << (worker - 1), Ordering::SeqCst);
        } else {
            self.others.fetch_add(1, Ordering::SeqCst);
        }
    }
}

/// Whether the words of a line print this text, and nothing else, where `one.xt` has that text and `edits` no edit.
fn prints<R: Threads + Sync, G: Gate>(
    rt: &R,
    alloc: Global,
    gate: &G,
    line: &str,
    text: &[u8],
    printed: &[u8],
) -> Result<bool, Fail> {
    let words = words_of(alloc, line)?;
    let mut outside = calm(alloc);
    outside.edits.push_str("end\n")?;
    let Streams {
        mut files,
        mut out,
        mut err,
    } = streams_of(alloc, text, outside)?;
    let status = xtalk_gated(rt, alloc, gate, &words, &mut files, &mut out, &mut err);
    Ok(status == 0 && out.bytes() == printed && err.bytes().is_empty())
}

/// Whether two workers meet, and print the report of the coupled gates, as these words ask for.
fn two_meet<R: Threads + Sync>(rt: &R, alloc: Global, line: &str) -> Result<bool, Fail> {
    let gate = MeetGate::new();
    Ok(prints(rt, alloc, &gate, line, LOAD_PAIR, LOAD_PAIR_REPORT)? && !gate.late())
}

/// How often a worker looks whether all others came.
const MOST_TURNS: u32 = 200_000_000;

/// A gate at which the workers of both runs, as many as are awaited, wait for one another in the first round of each
/// run. After this many turns without the others a worker gives up; from then on every worker passes at once.
#[derive(Drop)]
struct FirstRoundGate {
    awaited: u64,
    came: AtomicU64,
    late: AtomicBool,
}

impl FirstRoundGate {
    /// A gate that nobody has passed.
    fn new(awaited: u64) -> FirstRoundGate {
        FirstRoundGate {
            awaited,
            came: AtomicU64::new(0),
            late: AtomicBool::new(false),
        }
    }

    /// Whether nobody has to wait any more.
    fn is_open(&self) -> bool {
        self.came.load(Ordering::SeqCst) >= self.awaited || self.late.load(Ordering::SeqCst)
    }

    /// Whether all came, nobody else, and none gave up.
    fn have_met(&self) -> bool {
        self.came.load(Ordering::SeqCst) == self.awaited && !self.late.load(Ordering::SeqCst)
    }
}

impl Gate for FirstRoundGate {
    fn pass(&self, _worker: u32, round: u64) {
        if round != 1 {
            return;
        }
        self.came.fetch_add(1, Ordering::SeqCst);
        for _turn in 0..MOST_TURNS {
            if self.is_open() {
                return;
            }
            spin_loop();
        }
        self.late.store(true, Ordering::SeqCst);
    }
}

/// Whether this many workers meet in the first rounds of both runs, and the report of the coupled gates is printed, as
/// these words ask for.
fn all_meet<R: Threads + Sync>(
    rt: &R,
    alloc: Global,
    line: &str,
    workers: u64,
) -> Result<bool, Fail> {
    let gate = FirstRoundGate::new(workers);
    Ok(prints(rt, alloc, &gate, line, LOAD_PAIR, LOAD_PAIR_REPORT)? && gate.have_met())
}

// By rounds both runs are made at the same time, each by all workers, where the system gives the threads. Runs that
// follow each other, and workers of a run that do, never meet.
#[test]
fn the_workers_of_both_runs_meet(rt: HostRuntime) -> Result<(), Fail> {
    for (line, workers) in [
        ("solve one.xt --workers 2", 4),
        ("solve one.xt --workers 3", 6),
    ] {
        assert!(rt; all_meet(&rt, rt.alloc(), line, workers)?, "{line}");
    }
    Ok(())
}

// Workers that run one after another never meet. By rounds worker 1 of one run may meet worker 2 of the other.
#[test]
fn two_workers_meet_and_the_report_is_printed(rt: HostRuntime) -> Result<(), Fail> {
    for line in [
        "solve one.xt --workers 2",
        "solve one.xt --workers 2 --engine marks",
    ] {
        assert!(rt; two_meet(&rt, rt.alloc(), line)?, "{line}");
    }
    Ok(())
}

/// The summary of one generated net of number 7.
const SUMMARY: &[u8] = b"\
    xtalk gen 1\n\
    nets 1 couplings 0 pairs 0 levels 1 bound 1\n\
    live 2 wider 0 guilty 0\n\
    least 24.000\n\
    greatest 24.000\n\
    end\n";

/// Whether the words of a line print this text where `one.xt` has that text, and the workers with these bits pass.
fn passes<R: Threads + Sync>(
    rt: &R,
    alloc: Global,
    line: &str,
    text: &[u8],
    printed: &[u8],
    workers: u64,
) -> Result<bool, Fail> {
    let gate = NoteGate::new();
    Ok(prints(rt, alloc, &gate, line, text, printed)? && gate.passed() == Some(workers))
}

/// Words, the text of their file, what they print, and the bits of the workers that pass the gate. One worker alone
/// passes none, but for runs by marks; nor do those of `replay`, who take turns.
const PASSES: [(&str, &[u8], &[u8], u64); 10] = [
    (
        "solve one.xt --workers 7",
        LOAD_PAIR,
        LOAD_PAIR_REPORT,
        0b111_1111,
    ),
    ("solve one.xt --workers 64", CROSS, CROSS_REPORT, u64::MAX),
    ("solve one.xt", CROSS, CROSS_REPORT, 0),
    ("solve one.xt --engine marks", CROSS, CROSS_REPORT, 0b1),
    (
        "solve --engine=marks one.xt --workers 64",
        LOAD_PAIR,
        LOAD_PAIR_REPORT,
        u64::MAX,
    ),
    (
        "eco one.xt edits --workers 5",
        LOAD_PAIR,
        LOAD_PAIR_REPORT,
        0b1_1111,
    ),
    ("eco one.xt edits", CROSS, CROSS_REPORT, 0),
    (
        "replay one.xt --order 5 --workers 3",
        CROSS,
        CROSS_REPORT,
        0,
    ),
    (
        "gen --number 7 --nets 1 --workers 8",
        b"",
        SUMMARY,
        0b1111_1111,
    ),
    ("gen --number 7 --nets 1", b"", SUMMARY, 0),
];

#[test]
fn as_many_workers_pass_as_the_words_say(rt: HostRuntime) -> Result<(), Fail> {
    for (line, text, printed, workers) in &PASSES {
        assert!(rt;
            passes(&rt, rt.alloc(), line, text, printed, *workers)?,
            "{line}"
        );
    }
    Ok(())
}

/// Designs and their reports.
const REPORTS: [(&[u8], &[u8]); 4] = [
    (ONE, ONE_REPORT),
    (EMPTY, EMPTY_REPORT),
    (LOAD_PAIR, LOAD_PAIR_REPORT),
    (CROSS, CROSS_REPORT),
];

#[test]
fn any_number_of_workers_gives_the_same_report(rt: HostRuntime) -> Result<(), Fail> {
    for line in [
        "solve one.xt --workers 1",
        "solve one.xt --workers 2",
        "solve one.xt --workers 7",
        "solve one.xt --workers 64",
        "solve one.xt --engine marks",
        "solve one.xt --engine=marks --workers 7",
    ] {
        for (text, report) in &REPORTS {
            assert!(rt;
                prints(&rt, rt.alloc(), &OpenGate, line, text, report)?,
                "{line}"
            );
        }
    }
    Ok(())
}
