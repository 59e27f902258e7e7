//! Schedules in which a worker loads a window while another publishes it.

ghost use Rattle.std.specs.Prelude.{◌≡◌, ◌<◌, length, IfOk};
ghost use Rattle.std.specs.List.{All};
ghost use Rattle.xt_model.specs.declared.direction.Direction.TheVariants.{Widen};
ghost use Rattle.xt_meaning.specs.Barrier.{IsFittingStart};
ghost use Rattle.net_eval.specs.ReadLists.{AreReadLists};
ghost use Rattle.chaos_core.specs.Tasks.{idle, task_of};
ghost use Rattle.chaos_core.specs.Rounds.{HasRoom};

use crate::starts::{low, read, top};
use crate::texts::{CHAIN, field};
use chaos_core::{MemoryBoard, Worker, run_schedule, settle_picked};
use net_eval::{ReadLists, read_lists};
use std::alloc::{AllocError, Global};
use std::test::Fail;
use xt_model::{Design, Direction, NoMemory, Pair, Quad, Windows};

const QUIET: Pair = Pair {
    rise: Quad::BOTTOM,
    fall: Quad::BOTTOM,
};

/// A net that rises at a time alone.
const fn rises_at(time: i64) -> Pair {
    Pair {
        rise: Quad {
            tlo: time,
            thi: time,
            slo: 0,
            shi: 0,
        },
        fall: Quad::BOTTOM,
    }
}

/// Picks of worker 0 and of worker 1, each a digit.
fn picks(alloc: Global, digits: &[u8]) -> Result<Vec<u32>, AllocError>
    ensures { IfOk result (λ picks. All (λ pick. pick < 2) picks.items) }
{
    let mut picks = Vec::new(alloc);
    for digit in digits {
        picks.push(u32::from(*digit % 2))?;
    }
    Ok(picks)
}

/// Two idle workers.
fn two_workers(alloc: Global, lists: &ReadLists) -> Result<Vec<Worker>, NoMemory>
    ensures count { IfOk result (λ workers. length workers.items ≡ 2) }
    ensures idle { IfOk result (λ workers. All (λ worker. task_of worker ≡ idle) workers.items) }
    ensures rooms { IfOk result (λ workers. All (HasRoom lists.now) workers.items) }
{
    let mut workers = Vec::new(alloc);
    workers.push(Worker::new(alloc, lists)?)?;
    workers.push(Worker::new(alloc, lists)?)?;
    Ok(workers)
}

/// Widens from `start`, by two workers as the digits pick them.
fn torn(
    alloc: Global,
    design: &Design,
    lists: &ReadLists,
    start: &Windows,
    digits: &[u8],
) -> Result<Windows, NoMemory>
    requires start { IsFittingStart Widen design.now start.now }
    requires lists { AreReadLists design.now lists.now }
    ensures { IfOk result (IsFittingStart Widen design.now) }
{
    let mut board = MemoryBoard::new(alloc, design, Direction::Widen, start)?;
    let mut workers = two_workers(alloc, lists)?;
    let picks = picks(alloc, digits)?;
    run_schedule(
        &mut board,
        workers.as_mut_slice(),
        design,
        lists,
        Direction::Widen,
        picks.as_slice(),
    );
    board.windows(alloc)
}

/// The windows from this start after these picks, and after a whole run from there on.
fn torn_and_settled(
    alloc: Global,
    design: &Design,
    lists: &ReadLists,
    start: &Windows,
    digits: &[u8],
) -> Result<(Windows, Windows), NoMemory>
    requires start { IsFittingStart Widen design.now start.now }
    requires lists { AreReadLists design.now lists.now }
{
    let torn = torn(alloc, design, lists, start, digits)?;
    let end = settle_picked(alloc, design, lists, Direction::Widen, &torn, 1, 0)?;
    Ok((torn, end.windows))
}

/// The same from windows in which nothing switches.
fn torn_from_low(
    alloc: Global,
    design: &Design,
    lists: &ReadLists,
    digits: &[u8],
) -> Result<(Windows, Windows), Fail>
    requires { AreReadLists design.now lists.now }
{
    let top = top(alloc, design)?;
    let start = low(alloc, design, &top)?;
    Ok(torn_and_settled(alloc, design, lists, &start, digits)?)
}

/// Picks, whether net b rises after them, and what worker 0 loads. Worker 1 draws net a, which has nothing to read, and
/// publishes its eight words. Worker 0 draws net b, loads the sixteen words of both nets, and publishes the eight of b.
const TORN: &str = "\
1001111111100000000000000000000000 | quiet | Worker 0 loads the least time of a before worker 1 publishes it, and all \
    else after.
1000000000111111110000000000000000 | quiet | Worker 0 loads the whole window of a before.
1110000011111100000000000000000000 | quiet | Worker 0 loads both times after worker 1 published them, and both slews \
    before.
1111000001111100000000000000000000 | quiet | Worker 0 loads the greatest slew alone before.
1111100000000011110000000000000000 | rises | Worker 0 loads all of the rising window after, and the falling one \
    before, in which nothing switches.
1111111110000000000000000000000000 | rises | Worker 0 loads all after.
";

/// Whether a and b have their windows after the picks of a row, and after a whole run from there on.
fn ends_as_wanted(
    alloc: Global,
    design: &Design,
    lists: &ReadLists,
    row: &str,
) -> Result<bool, Fail>
    requires { AreReadLists design.now lists.now }
{
    let (torn, settled) = torn_from_low(alloc, design, lists, field(row, '|', 0).as_bytes())?;
    let b = if field(row, '|', 1) == "rises" {
        rises_at(1500)
    } else {
        QUIET
    };
    Ok(
        torn.pairs() == [rises_at(1000), b].as_slice()
            && settled.pairs() == [rises_at(1000), rises_at(1500)].as_slice(),
    )
}

/// The same of the chain.
fn chain_ends_as_wanted(alloc: Global, row: &str) -> Result<bool, Fail> {
    let design = read(alloc, CHAIN)?;
    let lists = read_lists(alloc, &design)?;
    ends_as_wanted(alloc, &design, &lists, row)
}

#[test]
fn a_torn_read_makes_no_window_and_a_further_round_mends_it(rt: HostRuntime) -> Result<(), Fail> {
    for row in TORN.lines() {
        assert!(rt; chain_ends_as_wanted(rt.alloc(), row)?, "{row}");
    }
    Ok(())
}
