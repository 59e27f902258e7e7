//! Calls on the block with a gate, which each of several workers passes in every round.

use crate::block::{LIB, NETLIST, REPORT, SDC, SPEF};
use crate::call::{Streams, calm, streams_of, words_of};
use chaos_core::Gate;
use std::alloc::Global;
use std::sync::atomic::{AtomicU64, Ordering};
use std::test::Fail;
use std::thread::Threads;
use xt_io::MemorySink;
use xtalk_top::xtalk_gated;

/// A gate that holds nobody, and notes which workers pass: a bit for each of workers 1 to 64, the lowest for worker 1,
/// and how often any other number came.
#[derive(Drop)]
struct NoteGate {
    workers: AtomicU64,
    others: AtomicU64,
}

impl NoteGate {
    /// A gate that nobody has passed.
    fn new() -> NoteGate {
        NoteGate {
            workers: AtomicU64::new(0),
            others: AtomicU64::new(0),
        }
    }

    /// The bits of the workers that passed; None where another number came.
    fn passed(&self) -> Option<u64> {
        let workers = self.workers.load(Ordering::SeqCst);
        (self.others.load(Ordering::SeqCst) == 0).then_some(workers)
    }
}

impl Gate for NoteGate {
    fn pass(&self, worker: u32, _round: u64) {
        if worker >= 1 && worker <= 64 {
            self.workers.fetch_or(1 << (worker - 1), Ordering::SeqCst);
        } else {
            self.others.fetch_add(1, Ordering::SeqCst);
        }
    }
}

/// The status of a call on the block with the words of a line, and the output after it.
fn call<R: Threads + Sync, G: Gate>(
    rt: &R,
    alloc: Global,
    gate: &G,
    line: &str,
) -> Result<(u8, MemorySink), Fail> {
    let words = words_of(alloc, line)?;
    let texts = [
        ("r.lib", LIB.as_bytes()),
        ("r.v", NETLIST.as_bytes()),
        ("r.spef", SPEF.as_bytes()),
        ("r.sdc", SDC.as_bytes()),
    ];
    let Streams {
        mut files,
        mut out,
        mut err,
    } = streams_of(alloc, texts.as_slice(), calm(alloc))?;
    let status = xtalk_gated(rt, alloc, gate, &words, &mut files, &mut out, &mut err);
    Ok((status, out))
}

/// Whether the words of a line print the block's report, and the workers with these bits pass the gate.
fn reports<R: Threads + Sync>(
    rt: &R,
    alloc: Global,
    line: &str,
    workers: u64,
) -> Result<bool, Fail> {
    let gate = NoteGate::new();
    let (status, out) = call(rt, alloc, &gate, line)?;
    Ok(status == 0 && out.bytes() == REPORT.as_bytes() && gate.passed() == Some(workers))
}

/// Words for the block's report, and the bits of the workers that pass the gate. One worker alone passes none, but for
/// runs by marks.
const REPORTS: [(&str, u64); 7] = [
    ("report r.lib r.v r.spef r.sdc", 0),
    ("report r.lib r.v r.spef r.sdc --workers 2", 0b11),
    ("report r.lib r.v r.spef r.sdc --workers 7", 0b111_1111),
    ("report r.lib r.v r.spef r.sdc --workers 64", u64::MAX),
    ("report r.lib r.v r.spef r.sdc --engine marks", 0b1),
    (
        "report r.lib r.v r.spef r.sdc --engine=marks --workers 2",
        0b11,
    ),
    (
        "report r.lib r.v r.spef r.sdc --workers 64 --engine marks",
        u64::MAX,
    ),
];

#[test]
fn any_number_of_workers_gives_the_report(rt: HostRuntime) -> Result<(), Fail> {
    for (line, workers) in &REPORTS {
        assert!(rt; reports(&rt, rt.alloc(), line, *workers)?, "{line}");
    }
    Ok(())
}

/// Whether `link` prints a text, and nobody passes the gate.
fn links<R: Threads + Sync>(rt: &R, alloc: Global) -> Result<bool, Fail> {
    let gate = NoteGate::new();
    let (status, out) = call(rt, alloc, &gate, "link r.lib r.v r.spef r.sdc")?;
    let is_linked = out.bytes().starts_with(b"xtalk-design 1\n");
    Ok(status == 0 && is_linked && gate.passed() == Some(0))
}

#[test]
fn nobody_passes_a_gate_to_link(rt: HostRuntime) -> Result<(), Fail> {
    assert!(rt; links(&rt, rt.alloc())?);
    Ok(())
}
