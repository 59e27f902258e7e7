//! Runs by marks: how many rounds they make, and where they end.

ghost use Rattle.std.specs.Prelude.{◌≡◌, ◌≤◌, [], IfSome, IsTrue, Some};
ghost use Rattle.xt_model.specs.declared.direction.Direction.TheVariants.{Narrow, Widen};
ghost use Rattle.xt_meaning.specs.Barrier.{IsFittingStart};
ghost use Rattle.net_eval.specs.ReadLists.{AreReadLists};
ghost use Rattle.dirty_words.specs.Boards.{IsFree, IsOf};

use crate::starts::{low, read, settled, top};
use crate::texts::{CHAIN, CROSS, EMPTY, LOAD_PAIR, ONE};
use crate::threads::CountGate;
use chaos_core::OpenGate;
use design_gen::generate;
use dirty_run::{settle_dirty, settle_dirty_from};
use dirty_words::{DirtyBoard, DirtyPass, readers};
use net_eval::{ReadLists, read_lists};
use std::alloc::Global;
use std::test::Fail;
use std::thread::Threads;
use xt_model::{Design, Direction, NetId, NoMemory, Windows};

/// The rounds of a run on a board with marks, and of one by marks on words of its own, each where it ends in the
/// windows of a run by rounds; of the second also only where each worker passes the gate once in each round.
type Rounds = [Option<u64>; 2];

/// The rounds of a run on a board with marks, where it ends in these windows.
fn board_rounds<R: Threads + Sync>(
    rt: &R,
    alloc: Global,
    design: &Design,
    lists: &ReadLists,
    way: Direction,
    start: &Windows,
    workers: u32,
    wanted: &Windows,
) -> Result<Option<u64>, NoMemory>
    requires start { IsFittingStart way design.now start.now }
    requires lists { AreReadLists design.now lists.now }
    requires some { 1 ≤ workers }
    requires few { workers ≤ 64 }
{
    let readers = readers(alloc, lists)?;
    let (board, mut first) = DirtyBoard::open(alloc, design, lists, way, start)?;
    let made = settle_dirty(
        rt, alloc, &board, &mut first, design, lists, &readers, way, workers, &OpenGate,
    )?;
    Ok((made.windows.pairs() == wanted.pairs()).then_some(made.rounds))
}

/// The rounds of a run by marks on words of its own, where it ends in these windows, and each worker passes the gate
/// once in each of them.
fn own_rounds<R: Threads + Sync>(
    rt: &R,
    alloc: Global,
    design: &Design,
    lists: &ReadLists,
    way: Direction,
    start: &Windows,
    workers: u32,
    wanted: &Windows,
) -> Result<Option<u64>, NoMemory>
    requires start { IsFittingStart way design.now start.now }
    requires lists { AreReadLists design.now lists.now }
    requires some { 1 ≤ workers }
    requires few { workers ≤ 64 }
{
    let gate = CountGate::new(alloc)?;
    let made = settle_dirty_from(rt, alloc, design, lists, way, start, workers, &gate)?;
    let passed = gate.counted(workers as usize, made.rounds, made.rounds);
    Ok((passed && made.windows.pairs() == wanted.pairs()).then_some(made.rounds))
}

/// The rounds of both from a start.
fn rounds_from<R: Threads + Sync>(
    rt: &R,
    alloc: Global,
    design: &Design,
    lists: &ReadLists,
    way: Direction,
    start: &Windows,
    workers: u32,
) -> Result<Rounds, NoMemory>
    requires start { IsFittingStart way design.now start.now }
    requires lists { AreReadLists design.now lists.now }
    requires some { 1 ≤ workers }
    requires few { workers ≤ 64 }
{
    let wanted = settled(alloc, design, way, start)?;
    let on_board = board_rounds(rt, alloc, design, lists, way, start, workers, &wanted)?;
    let on_own = own_rounds(rt, alloc, design, lists, way, start, workers, &wanted)?;
    Ok([on_board, on_own])
}

/// The rounds of both of a run that widens, and of both of one that narrows.
fn both_rounds<R: Threads + Sync>(
    rt: &R,
    alloc: Global,
    design: &Design,
    top: &Windows,
    workers: u32,
) -> Result<[Option<u64>; 4], NoMemory>
    requires start { IsFittingStart Narrow design.now top.now }
    requires some { 1 ≤ workers }
    requires few { workers ≤ 64 }
{
    let lists = read_lists(alloc, design)?;
    let low = low(alloc, design, top)?;
    let wider = rounds_from(rt, alloc, design, &lists, Direction::Widen, &low, workers)?;
    let narrower = rounds_from(rt, alloc, design, &lists, Direction::Narrow, top, workers)?;
    Ok([wider[0], wider[1], narrower[0], narrower[1]])
}

/// The same of the design of a text.
fn rounds_of<R: Threads + Sync>(
    rt: &R,
    alloc: Global,
    text: &[u8],
    workers: u32,
) -> Result<[Option<u64>; 4], Fail>
    requires some { 1 ≤ workers }
    requires few { workers ≤ 64 }
{
    let design = read(alloc, text)?;
    let top = top(alloc, &design)?;
    Ok(both_rounds(rt, alloc, &design, &top, workers)?)
}

/// Designs, workers, and the rounds on a board and on words of its own of a run that widens, then of one that narrows.
///
/// On a board every net is marked at first, and a net that moved is evaluated once more. One worker on words of its own
/// makes no round from words that are closed, as the envelope of one source is.
const ROUNDS: [(&[u8], u32, [Option<u64>; 4]); 4] = [
    (EMPTY, 2, [Some(0), Some(0), Some(0), Some(0)]),
    (ONE, 1, [Some(1), Some(1), Some(1), Some(0)]),
    (CROSS, 1, [Some(2), Some(1), Some(2), Some(1)]),
    (LOAD_PAIR, 1, [Some(2), Some(1), Some(2), Some(1)]),
];

#[test]
fn runs_by_marks_end_as_runs_by_rounds(rt: HostRuntime) -> Result<(), Fail> {
    for (text, workers, rounds) in &ROUNDS {
        assert!(rt; *workers >= 1 && *workers <= 64);
        let made = rounds_of(&rt, rt.alloc(), text, *workers)?;
        assert!(rt; made == *rounds, "{workers} workers");
    }
    Ok(())
}

/// Whether twenty runs by marks of four workers end in these windows.
fn twenty_end_in<R: Threads + Sync>(
    rt: &R,
    alloc: Global,
    design: &Design,
    lists: &ReadLists,
    low: &Windows,
    wanted: &Windows,
) -> Result<bool, NoMemory>
    requires start { IsFittingStart Widen design.now low.now }
    requires lists { AreReadLists design.now lists.now }
{
    for _run in 0..20 {
        let way = Direction::Widen;
        let found = settle_dirty_from(rt, alloc, design, lists, way, low, 4, &OpenGate)?;
        if found.windows.pairs() != wanted.pairs() {
            return Ok(false);
        }
    }
    Ok(true)
}

/// Whether they end in the windows of one worker by rounds.
fn twenty_end_as_one<R: Threads + Sync>(
    rt: &R,
    alloc: Global,
    design: &Design,
    low: &Windows,
) -> Result<bool, NoMemory>
    requires { IsFittingStart Widen design.now low.now }
{
    let lists = read_lists(alloc, design)?;
    let one = settled(alloc, design, Direction::Widen, low)?;
    twenty_end_in(rt, alloc, design, &lists, low, &one)
}

/// The same of the generated design of 5,000 nets.
fn twenty_end_alike<R: Threads + Sync>(rt: &R, alloc: Global) -> Result<bool, Fail> {
    let design = generate(alloc, 7, 5000)?;
    let top = top(alloc, &design)?;
    let low = low(alloc, &design, &top)?;
    Ok(twenty_end_as_one(rt, alloc, &design, &low)?)
}

#[test]
fn twenty_runs_of_four_threads_end_as_one_worker(rt: HostRuntime) -> Result<(), Fail> {
    assert!(rt; twenty_end_alike(&rt, rt.alloc())?);
    Ok(())
}

/// The number that a pass draws, the net at that place, and whether its mark was set.
type Taken = (u64, u32, bool);

/// What a pass that drew and took nothing draws and takes first; None where it draws no place.
pub fn first_taken(board: &DirtyBoard, pass: &mut DirtyPass, design: &Design) -> Option<Taken>
    requires own { IsOf board.now pass.old }
    requires design { board.now.run.setting.design ≡ design.now }
    requires fresh { pass.old.view.base.drawn ≡ [] }
    requires none { pass.old.view.taken ≡ [] }
    requires free { IsFree pass.old.view }
    ensures own { IsOf board.now pass.new }
    ensures flight { IfSome result (λ taken. IsTrue taken.2
        → pass.new.view.flight ≡ Some (record { net = taken.1; numbers = []; published = 0 })) }
{
    let order = design.order();
    let number = board.draw(pass);
    let place = number as usize;
    if place < order.len() {
        let net = order[place];
        return Some((number, net, board.take(pass, NetId(net))));
    }
    None
}

/// The same on a new board.
fn taken_on_new(
    alloc: Global,
    design: &Design,
    lists: &ReadLists,
    low: &Windows,
) -> Result<Option<Taken>, NoMemory>
    requires start { IsFittingStart Widen design.now low.now }
    requires lists { AreReadLists design.now lists.now }
{
    let (board, mut first) = DirtyBoard::open(alloc, design, lists, Direction::Widen, low)?;
    Ok(first_taken(&board, &mut first, design))
}

/// The same on a board after a run of one worker.
fn taken_after_run<R: Threads + Sync>(
    rt: &R,
    alloc: Global,
    design: &Design,
    lists: &ReadLists,
    low: &Windows,
) -> Result<Option<Taken>, NoMemory>
    requires start { IsFittingStart Widen design.now low.now }
    requires lists { AreReadLists design.now lists.now }
{
    let way = Direction::Widen;
    let readers = readers(alloc, lists)?;
    let (board, mut first) = DirtyBoard::open(alloc, design, lists, way, low)?;
    settle_dirty(
        rt, alloc, &board, &mut first, design, lists, &readers, way, 1, &OpenGate,
    )?;
    board.restart(&mut first);
    Ok(first_taken(&board, &mut first, design))
}

/// Both of a design.
fn both_taken<R: Threads + Sync>(
    rt: &R,
    alloc: Global,
    design: &Design,
    low: &Windows,
) -> Result<[Option<Taken>; 2], NoMemory>
    requires { IsFittingStart Widen design.now low.now }
{
    let lists = read_lists(alloc, design)?;
    Ok([
        taken_on_new(alloc, design, &lists, low)?,
        taken_after_run(rt, alloc, design, &lists, low)?,
    ])
}

/// Both of the design of one source.
fn taken_of_one<R: Threads + Sync>(rt: &R, alloc: Global) -> Result<[Option<Taken>; 2], Fail> {
    let design = read(alloc, ONE)?;
    let top = top(alloc, &design)?;
    let low = low(alloc, &design, &top)?;
    Ok(both_taken(rt, alloc, &design, &low)?)
}

// No net reads the only net.
#[test]
fn a_mark_is_taken_once(rt: HostRuntime) -> Result<(), Fail> {
    assert!(rt; taken_of_one(&rt, rt.alloc())? == [Some((0, 0, true)), Some((0, 0, false))]);
    Ok(())
}

/// The words of a board that is closed after a run of this many workers.
fn closed_words<R: Threads + Sync>(
    rt: &R,
    alloc: Global,
    design: &Design,
    lists: &ReadLists,
    low: &Windows,
    workers: u32,
) -> Result<Vec<u64>, NoMemory>
    requires start { IsFittingStart Widen design.now low.now }
    requires lists { AreReadLists design.now lists.now }
    requires some { 1 ≤ workers }
    requires few { workers ≤ 64 }
{
    let way = Direction::Widen;
    let readers = readers(alloc, lists)?;
    let (board, mut first) = DirtyBoard::open(alloc, design, lists, way, low)?;
    settle_dirty(
        rt, alloc, &board, &mut first, design, lists, &readers, way, workers, &OpenGate,
    )?;
    board.close(first)
}

/// The same of the design of a text.
fn closed_words_of<R: Threads + Sync>(
    rt: &R,
    alloc: Global,
    text: &[u8],
    workers: u32,
) -> Result<Vec<u64>, Fail>
    requires some { 1 ≤ workers }
    requires few { workers ≤ 64 }
{
    let design = read(alloc, text)?;
    let top = top(alloc, &design)?;
    let low = low(alloc, &design, &top)?;
    let lists = read_lists(alloc, &design)?;
    Ok(closed_words(rt, alloc, &design, &lists, &low, workers)?)
}

/// The number in a word whose bound is 0, and that in the low words of an edge that never switches.
const ZERO: u64 = 4_611_686_018_427_387_904;

const QUIET: u64 = 9_223_372_036_854_775_808;

/// Designs, workers, and the words that are left: the first net rises at 1,000 fs, the second at 1,500.
const WORDS: [(&[u8], u32, &[u64]); 3] = [
    (EMPTY, 1, &[]),
    (
        ONE,
        2,
        &[ZERO + 1000, ZERO + 1000, ZERO, ZERO, QUIET, 0, QUIET, 0],
    ),
    (
        CHAIN,
        1,
        &[
            ZERO + 1000,
            ZERO + 1000,
            ZERO,
            ZERO,
            QUIET,
            0,
            QUIET,
            0,
            ZERO + 1500,
            ZERO + 1500,
            ZERO,
            ZERO,
            QUIET,
            0,
            QUIET,
            0,
        ],
    ),
];

#[test]
fn a_closed_board_leaves_its_words(rt: HostRuntime) -> Result<(), Fail> {
    for (text, workers, wanted) in &WORDS {
        assert!(rt; *workers >= 1 && *workers <= 64);
        let words = closed_words_of(&rt, rt.alloc(), text, *workers)?;
        assert!(rt; words.as_slice() == *wanted, "{workers} workers");
    }
    Ok(())
}
