//! Runs of workers in threads of their own: where they end, and the gates that their workers pass.

ghost use Rattle.std.specs.Prelude.{◌≤◌};
ghost use Rattle.xt_model.specs.declared.direction.Direction.TheVariants.{Widen};
ghost use Rattle.xt_meaning.specs.Barrier.{IsFittingStart};
ghost use Rattle.net_eval.specs.ReadLists.{AreReadLists};

use crate::starts::{low, read, top};
use crate::texts::{CROSS, EMPTY, LOAD_PAIR, ONE};
use chaos_core::{Gate, MeetGate, OpenGate, Settled};
use chaos_run::{run_both, settle};
use net_eval::{ReadLists, read_lists};
use std::alloc::{AllocError, Global};
use std::sync::atomic::{AtomicBool, AtomicU64, Ordering};
use std::test::Fail;
use std::thread::Threads;
use window_words::SharedBoard;
use xt_model::{Design, Direction, NoMemory, Pair, Quad, Windows};

/// A gate that holds nobody, and counts the calls of each worker, with the round of the last; those of all workers
/// above 64 together.
#[derive(Drop)]
pub(crate) struct CountGate {
    calls: Vec<AtomicU64>,
    last: Vec<AtomicU64>,
    strayed: AtomicBool,
}

impl CountGate {
    /// A gate that nobody has passed.
    pub(crate) fn new(alloc: Global) -> Result<CountGate, AllocError> {
        Ok(CountGate {
            calls: zeros(alloc)?,
            last: zeros(alloc)?,
            strayed: AtomicBool::new(false),
        })
    }

    /// Whether workers 1 to `workers` passed once in each round of one run or of several, in this order, `calls` times
    /// in all and last in round `last`, and no other did.
    pub(crate) fn counted(&self, workers: usize, calls: u64, last: u64) -> bool {
        are_first(&self.calls, workers, calls)
            && are_first(&self.last, workers, last)
            && !self.strayed.load(Ordering::SeqCst)
    }
}

/// A zero for each number of a worker, and one for all others.
fn zeros(alloc: Global) -> Result<Vec<AtomicU64>, AllocError> {
    let mut zeros = Vec::new(alloc);
    for _worker in 0..66 {
        zeros.push(AtomicU64::new(0))?;
    }
    Ok(zeros)
}

/// Whether places 1 to `workers` have this number, and all others 0.
fn are_first(numbers: &[AtomicU64], workers: usize, wanted: u64) -> bool {
    for (worker, number) in numbers.iter().enumerate() {
        let passes = worker > 0 && worker <= workers;
        let expected = if passes { wanted } else { 0 };
        if number.load(Ordering::SeqCst) != expected {
            return false;
        }
    }
    true
}

impl Gate for CountGate {
    fn pass(&self, worker: u32, round: u64) {
        let place = if worker > 64 { 65 } else { worker as usize };
        if let Some(calls) = self.calls.get(place) {
            calls.fetch_add(1, Ordering::SeqCst);
        }
        let before = match self.last.get(place) {
            Some(last) => last.swap(round, Ordering::SeqCst),
            None => 0,
        };
        if round != 1 && before.checked_add(1) != Some(round) {
            self.strayed.store(true, Ordering::SeqCst);
        }
    }
}

/// What two runs on one board end in, and the words after them.
#[derive(Drop)]
struct Twice {
    first: Settled,
    second: Settled,
    words: Vec<u64>,
}

/// Widens twice on one board from this start.
fn settle_twice<R: Threads + Sync, G: Gate>(
    rt: &R,
    alloc: Global,
    design: &Design,
    lists: &ReadLists,
    start: &Windows,
    workers: u32,
    gate: &G,
) -> Result<Twice, NoMemory>
    requires start { IsFittingStart Widen design.now start.now }
    requires lists { AreReadLists design.now lists.now }
    requires some { 1 ≤ workers }
    requires few { workers ≤ 64 }
{
    let way = Direction::Widen;
    let (board, mut pass) = SharedBoard::open(alloc, design, way, start)?;
    let first = settle(
        rt, alloc, &board, &mut pass, design, lists, way, workers, gate,
    )?;
    let second = settle(
        rt, alloc, &board, &mut pass, design, lists, way, workers, gate,
    )?;
    let words = board.close(pass)?;
    Ok(Twice {
        first,
        second,
        words,
    })
}

/// The same of a design from windows in which nothing switches.
fn twice_of<R: Threads + Sync, G: Gate>(
    rt: &R,
    alloc: Global,
    design: &Design,
    workers: u32,
    gate: &G,
) -> Result<Twice, Fail>
    requires some { 1 ≤ workers }
    requires few { workers ≤ 64 }
{
    let lists = read_lists(alloc, design)?;
    let top = top(alloc, design)?;
    let low = low(alloc, design, &top)?;
    Ok(settle_twice(rt, alloc, design, &lists, &low, workers, gate)?)
}

/// The same of the design of a text.
fn settled_twice<R: Threads + Sync, G: Gate>(
    rt: &R,
    alloc: Global,
    text: &[u8],
    workers: u32,
    gate: &G,
) -> Result<Twice, Fail>
    requires some { 1 ≤ workers }
    requires few { workers ≤ 64 }
{
    let design = read(alloc, text)?;
    twice_of(rt, alloc, &design, workers, gate)
}

/// Whether this many rounds are from 1 to the most, or none where that is 0.
fn are_from_one(rounds: u64, most: u64) -> bool {
    rounds <= most && (rounds > 0 || most == 0)
}

/// A net that switches by one edge alone: whether it rises, its times, and its one slew.
type Once = (bool, i64, i64, i64);

/// The windows of a net that switches so.
fn pair_of(net: &Once) -> Pair {
    let (rises, tlo, thi, slew) = *net;
    let quad = Quad {
        tlo,
        thi,
        slo: slew,
        shi: slew,
    };
    if rises {
        Pair {
            rise: quad,
            fall: Quad::BOTTOM,
        }
    } else {
        Pair {
            rise: Quad::BOTTOM,
            fall: quad,
        }
    }
}

/// Whether the windows are those of just these nets.
fn are_of(windows: &Windows, nets: &[Once]) -> bool {
    for (pair, net) in windows.pairs().iter().zip(nets) {
        if *pair != pair_of(net) {
            return false;
        }
    }
    windows.pairs().len() == nets.len()
}

// Each gate takes 800 fs, and 200 fs more each time that the coupling counts. It counts once where the two edges keep
// apart, as at 1000 and 1100, and up to twice where they overlap, as from 1000 to 1200 and from 1100 to 1300.
const PAIR_LEAST: [Once; 4] = [
    (true, 0, 0, 0),
    (false, 100, 100, 0),
    (true, 1000, 1000, 0),
    (false, 1100, 1100, 0),
];

const PAIR_GREATEST: [Once; 4] = [
    (true, 0, 0, 0),
    (false, 100, 100, 0),
    (true, 1000, 1200, 0),
    (false, 1100, 1300, 0),
];

// A gate takes 500 fs, and the wire before it 200 fs each time that the coupling counts. With their slews the edges of
// sources reach from 700 to 1300. Those at 1700 begin at 1400, apart from them, and the couplings count once; those
// from 1500 begin at 1200, overlap with the same edge, and need not count.
const CROSS_LEAST: [Once; 4] = [
    (true, 1000, 1000, 600),
    (true, 1000, 1000, 600),
    (true, 1700, 1700, 600),
    (true, 1700, 1700, 600),
];

const CROSS_GREATEST: [Once; 4] = [
    (true, 1000, 1000, 600),
    (true, 1000, 1000, 600),
    (true, 1500, 1700, 600),
    (true, 1500, 1700, 600),
];

/// Whether two runs end in the windows of these nets, the second without a round.
fn end_in(twice: &Twice, nets: &[Once]) -> bool {
    are_of(&twice.first.windows, nets)
        && are_of(&twice.second.windows, nets)
        && twice.second.rounds == 0
}

/// Whether the coupled pair is settled by two workers that meet.
fn two_meet<R: Threads + Sync>(rt: &R, alloc: Global) -> Result<bool, Fail> {
    let gate = MeetGate::new();
    let twice = settled_twice(rt, alloc, LOAD_PAIR, 2, &gate)?;
    // Net a is the third, with 16 words before its own: 2^62 + 1000 stands for 1000.
    let word = twice.words.get(16).copied();
    Ok(!gate.late() && end_in(&twice, &PAIR_LEAST) && word == Some(4_611_686_018_427_388_904))
}

// Workers that run one after another never meet.
#[test]
fn two_workers_meet_and_settle(rt: HostRuntime) -> Result<(), Fail> {
    assert!(rt; two_meet(&rt, rt.alloc())?);
    Ok(())
}

/// Designs, workers, the windows in which they settle, and the most rounds.
const SETTLED: [(&[u8], u32, &[Once], u64); 7] = [
    (EMPTY, 2, &[], 0),
    (ONE, 1, &[(true, 1000, 1000, 0)], 1),
    (ONE, 2, &[(true, 1000, 1000, 0)], 1),
    (ONE, 7, &[(true, 1000, 1000, 0)], 1),
    (ONE, 64, &[(true, 1000, 1000, 0)], 1),
    (LOAD_PAIR, 3, &PAIR_LEAST, 10),
    (CROSS, 64, &CROSS_LEAST, 18),
];

/// Whether this many workers settle the design of a text in the windows of these nets, and each of them passes the gate
/// once a round.
fn each_passes<R: Threads + Sync>(
    rt: &R,
    alloc: Global,
    text: &[u8],
    workers: u32,
    nets: &[Once],
    most: u64,
) -> Result<bool, Fail>
    requires some { 1 ≤ workers }
    requires few { workers ≤ 64 }
{
    let gate = CountGate::new(alloc)?;
    let twice = settled_twice(rt, alloc, text, workers, &gate)?;
    let rounds = twice.first.rounds;
    Ok(
        end_in(&twice, nets)
            && are_from_one(rounds, most)
            && gate.counted(workers as usize, rounds, rounds),
    )
}

#[test]
fn each_worker_passes_the_gate_once_a_round(rt: HostRuntime) -> Result<(), Fail> {
    for (text, workers, nets, most) in &SETTLED {
        assert!(rt; *workers >= 1 && *workers <= 64);
        assert!(rt;
            each_passes(&rt, rt.alloc(), text, *workers, nets, *most)?,
            "{workers} workers"
        );
    }
    Ok(())
}

/// Whether each of `workers` workers passes the gate once in every round of both runs over a design.
fn both_pass<R: Threads + Sync>(
    rt: &R,
    alloc: Global,
    design: &Design,
    workers: u32,
) -> Result<bool, Fail>
    requires some { 1 ≤ workers }
    requires few { workers ≤ 64 }
{
    let lists = read_lists(alloc, design)?;
    let top = top(alloc, design)?;
    let gate = CountGate::new(alloc)?;
    let both = run_both(rt, alloc, design, &lists, &top, workers, &gate)?;
    let rounds = both.low_rounds.saturating_add(both.high_rounds);
    Ok(gate.counted(workers as usize, rounds, both.high_rounds))
}

/// The same of the design of a text.
fn text_passes<R: Threads + Sync>(
    rt: &R,
    alloc: Global,
    text: &[u8],
    workers: u32,
) -> Result<bool, Fail>
    requires some { 1 ≤ workers }
    requires few { workers ≤ 64 }
{
    let design = read(alloc, text)?;
    both_pass(rt, alloc, &design, workers)
}

// Each of these designs makes a round in both runs.
#[test]
fn each_worker_passes_the_gate_in_both_runs(rt: HostRuntime) -> Result<(), Fail> {
    for (text, workers) in [(LOAD_PAIR, 2), (LOAD_PAIR, 64), (CROSS, 3), (CROSS, 7)] {
        assert!(rt; workers >= 1 && workers <= 64);
        assert!(rt;
            text_passes(&rt, rt.alloc(), text, workers)?,
            "{workers} workers"
        );
    }
    Ok(())
}

/// A design, its least and its greatest windows, and the most rounds of the wider and of the narrower run.
#[derive(Drop)]
struct Row {
    text: &'static [u8],
    least: &'static [Once],
    greatest: &'static [Once],
    wider: u64,
    narrower: u64,
}

// Without nets both starts are closed, and the envelope of one source is what the operator gives. No run makes more
// rounds than the levels times one more than four times the pairs of coupled nets: 2 * 5 and 2 * 9 of the last two.
const WORKED: [Row; 4] = [
    Row {
        text: EMPTY,
        least: &[],
        greatest: &[],
        wider: 0,
        narrower: 0,
    },
    Row {
        text: ONE,
        least: &[(true, 1000, 1000, 0)],
        greatest: &[(true, 1000, 1000, 0)],
        wider: 1,
        narrower: 0,
    },
    Row {
        text: LOAD_PAIR,
        least: &PAIR_LEAST,
        greatest: &PAIR_GREATEST,
        wider: 10,
        narrower: 10,
    },
    Row {
        text: CROSS,
        least: &CROSS_LEAST,
        greatest: &CROSS_GREATEST,
        wider: 18,
        narrower: 18,
    },
];

/// Whether two runs of a design end as the row says.
fn ends_as<R: Threads + Sync>(
    rt: &R,
    alloc: Global,
    design: &Design,
    row: &Row,
    workers: u32,
) -> Result<bool, Fail>
    requires some { 1 ≤ workers }
    requires few { workers ≤ 64 }
{
    let lists = read_lists(alloc, design)?;
    let top = top(alloc, design)?;
    let both = run_both(rt, alloc, design, &lists, &top, workers, &OpenGate)?;
    Ok(
        are_of(&both.low, row.least)
            && are_of(&both.high, row.greatest)
            && are_from_one(both.low_rounds, row.wider)
            && are_from_one(both.high_rounds, row.narrower),
    )
}

/// Whether 1, 2, 7 and 64 workers end as the row says.
fn all_end_as<R: Threads + Sync>(
    rt: &R,
    alloc: Global,
    design: &Design,
    row: &Row,
) -> Result<bool, Fail> {
    Ok(
        ends_as(rt, alloc, design, row, 1)?
            && ends_as(rt, alloc, design, row, 2)?
            && ends_as(rt, alloc, design, row, 7)?
            && ends_as(rt, alloc, design, row, 64)?,
    )
}

/// The same of the design of the row.
fn row_holds<R: Threads + Sync>(rt: &R, alloc: Global, row: &Row) -> Result<bool, Fail> {
    let design = read(alloc, row.text)?;
    all_end_as(rt, alloc, &design, row)
}

#[test]
fn both_runs_end_in_the_worked_windows(rt: HostRuntime) -> Result<(), Fail> {
    for row in &WORKED {
        assert!(rt; row_holds(&rt, rt.alloc(), row)?);
    }
    Ok(())
}

#[test]
fn a_worker_that_comes_alone_is_late(rt: HostRuntime) -> Result<(), Fail> {
    let gate = MeetGate::new();
    gate.pass(3, 1);
    assert!(rt; !gate.late());
    gate.pass(1, 1);
    assert!(rt; gate.late());
    gate.pass(2, 1);
    gate.pass(1, 2);
    Ok(())
}
