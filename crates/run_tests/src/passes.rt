//! One thread with two passes.

ghost use Rattle.std.specs.Prelude.{◌≡◌, ◌<◌, ◌≤◌, length, [], Some};
ghost use Rattle.xt_model.specs.declared.direction.Direction.TheVariants.{Widen};
ghost use Rattle.xt_model.specs.Quads.{IsPairInRange};
ghost use Rattle.xt_meaning.specs.Barrier.{IsBoundNoFurther, IsFittingStart};
ghost use Rattle.xt_meaning.specs.Words.{bound_in, bounds_in, number_for, numbers_of, onward};
ghost use Rattle.net_eval.specs.ReadLists.{AreReadLists, reads_of};
ghost use Rattle.dirty_words.specs.Boards.{IsOf};

use crate::marks::first_taken;
use crate::starts::{low, read, top};
use crate::texts::{CHAIN, ONE};
use chaos_core::{evaluate, number_in};
use dirty_words::{DirtyBoard, DirtyPass};
use net_eval::{ReadLists, eval, read_lists};
use std::alloc::Global;
use std::test::Fail;
use window_words::SharedBoard;
use xt_model::{Design, Direction, NetId, NoMemory, Pair, Windows};

/// The number of the first word of a net with these windows.
fn number_of(pair: &Pair) -> u64
    requires { IsPairInRange pair.now }
    ensures { result ≡ number_for pair.now.rise.tlo }
{
    (i128::from(pair.rise.tlo) + 4_611_686_018_427_387_904) as u64
}

/// What the operator makes of the first word of the windows.
fn first_number(design: &Design, start: &Windows) -> u64
    requires some { 0 < length design.now.nets }
    requires start { IsFittingStart Widen design.now start.now }
    ensures { IsBoundNoFurther Widen 0 (bound_in result) (onward design.now (bounds_in (numbers_of start.now)) 0) }
{
    prove!(!design.nets().is_empty());
    let pair = eval(design, NetId(0), start);
    number_of(&pair)
}

/// What the first word is found to hold when a pass that was split off lowers it, by the first pass before and after
/// that pass is joined, and in the end.
fn found(alloc: Global, design: &Design, start: &Windows) -> Result<[u64; 4], NoMemory>
    requires some { 0 < length design.now.nets }
    requires start { IsFittingStart Widen design.now start.now }
{
    let value = first_number(design, start);
    let (board, mut first) = SharedBoard::open(alloc, design, Direction::Widen, start)?;
    let mut other = board.split(&mut first);
    let before = board.lower(&mut other, 0, value);
    let early = board.load(&mut first, 0);
    board.join(&mut first, other);
    let joined = board.load(&mut first, 0);
    let words = board.close(first)?;
    Ok([before, early, joined, words.first().copied().unwrap_or(0)])
}

/// The same from windows in which nothing switches.
fn found_from_low(alloc: Global, design: &Design) -> Result<[u64; 4], Fail>
    requires { 0 < length design.now.nets }
{
    let top = top(alloc, design)?;
    let start = low(alloc, design, &top)?;
    Ok(found(alloc, design, &start)?)
}

/// The same of the design of one source.
fn found_of_one(alloc: Global) -> Result<[u64; 4], Fail> {
    let design = read(alloc, ONE)?;
    if design.nets().is_empty() {
        return Err(Fail::from("no net"));
    }
    found_from_low(alloc, &design)
}

// The net rises at 1000 fs, and nothing switches at the start: 2^63 stands for 2^62, and 2^62 + 1000 for 1000.
#[test]
fn a_publication_is_found_before_its_pass_is_joined(rt: HostRuntime) -> Result<(), Fail> {
    let rises = 4_611_686_018_427_388_904;
    assert_eq!(rt;
        found_of_one(rt.alloc())?,
        [9_223_372_036_854_775_808, rises, rises, rises]
    );
    Ok(())
}

/// Lowers the first word of net 0, which the pass has in flight, and answers the number before. The net reads none.
fn lower_source(
    board: &DirtyBoard,
    pass: &mut DirtyPass,
    design: &Design,
    lists: &ReadLists,
    places: &mut [u32],
) -> u64
    requires own { IsOf board.now pass.old }
    requires run { board.now.run.setting.design ≡ design.now }
    requires way { board.now.run.setting.way ≡ Widen }
    requires lists { board.now.run.lists ≡ lists.now }
    requires whole { AreReadLists design.now lists.now }
    requires some { 0 < length design.now.nets }
    requires places { length design.now.nets ≤ length places.old }
    requires fresh { pass.old.view.flight ≡ Some (record { net = 0; numbers = []; published = 0 }) }
    requires none { length (reads_of lists.now 0) ≡ 0 }
{
    pass.respects();
    let pair = evaluate(design, lists.of(NetId(0)), NetId(0), &[], places);
    board.lower(pass, 0, number_in(&pair, 0))
}

/// Loads the first word of the read list of a net, which the pass has in flight.
fn load_first(board: &DirtyBoard, pass: &mut DirtyPass, lists: &ReadLists, net: NetId) -> u64
    requires own { IsOf board.now pass.old }
    requires lists { board.now.run.lists ≡ lists.now }
    requires whole { AreReadLists board.now.run.setting.design lists.now }
    requires there { net.0 < length lists.now }
    requires some { 0 < length (reads_of lists.now net.0) }
    requires fresh { pass.old.view.flight ≡ Some (record { net = net.0; numbers = []; published = 0 }) }
{
    board.load(pass, 8 * lists.of(net)[0].0 as usize)
}

/// What the first word of net 0 is found to hold when a pass that was split off lowers it, and by the first pass, which
/// then loads it for net 1. The other pass is not joined.
fn found_by_reader(
    alloc: Global,
    design: &Design,
    lists: &ReadLists,
    start: &Windows,
) -> Result<[u64; 2], NoMemory>
    requires some { 1 < length design.now.nets }
    requires lists { AreReadLists design.now lists.now }
    requires start { IsFittingStart Widen design.now start.now }
{
    let mut places = vec![in alloc; 0_u32; design.nets().len()]?;
    let (board, mut first) = DirtyBoard::open(alloc, design, lists, Direction::Widen, start)?;
    let mut other = board.split(&mut first);
    let Some((_, 0, true)) = first_taken(&board, &mut other, design) else {
        return Ok([0; 2]);
    };
    let Some((_, 1, true)) = first_taken(&board, &mut first, design) else {
        return Ok([0; 2]);
    };
    if !lists.of(NetId(0)).is_empty() || lists.of(NetId(1)).is_empty() {
        return Ok([0; 2]);
    }
    let before = lower_source(&board, &mut other, design, lists, places.as_mut_slice());
    let found = load_first(&board, &mut first, lists, NetId(1));
    Ok([before, found])
}

/// The same of the design of two nets in a chain, from windows in which nothing switches.
fn found_in_chain(alloc: Global) -> Result<[u64; 2], Fail> {
    let design = read(alloc, CHAIN)?;
    let top = top(alloc, &design)?;
    let low = low(alloc, &design, &top)?;
    let lists = read_lists(alloc, &design)?;
    if design.nets().len() < 2 {
        return Err(Fail::from("not two nets"));
    }
    Ok(found_by_reader(alloc, &design, &lists, &low)?)
}

// Net a rises at 1000 fs, and nothing switches at the start: the numbers are those above. Net b reads nets a and b, in
// this order.
#[test]
fn a_publication_on_a_board_with_marks_is_found_before_its_pass_is_joined(
    rt: HostRuntime,
) -> Result<(), Fail> {
    let rises = 4_611_686_018_427_388_904;
    assert_eq!(rt;
        found_in_chain(rt.alloc())?,
        [9_223_372_036_854_775_808, rises]
    );
    Ok(())
}
