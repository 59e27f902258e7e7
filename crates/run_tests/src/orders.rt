//! Runs of many workers, in many orders, end alike.

ghost use Rattle.std.specs.Prelude.{◌≤◌};
ghost use Rattle.xt_model.specs.declared.direction.Direction.TheVariants.{Narrow};
ghost use Rattle.xt_meaning.specs.Barrier.{IsFittingStart};
ghost use Rattle.net_eval.specs.ReadLists.{AreReadLists};

use crate::starts::{low, read, top};
use crate::texts::{field, text_of};
use chaos_core::settle_picked;
use design_gen::generate;
use net_eval::{ReadLists, read_lists};
use std::alloc::Global;
use std::test::Fail;
use xt_model::{Design, Direction, NoMemory, Windows};

/// Whether runs of this many workers end in these windows, for twenty numbers.
fn end_alike(
    alloc: Global,
    design: &Design,
    lists: &ReadLists,
    way: Direction,
    start: &Windows,
    workers: u32,
    end: &Windows,
) -> Result<bool, NoMemory>
    requires start { IsFittingStart way design.now start.now }
    requires lists { AreReadLists design.now lists.now }
    requires some { 1 ≤ workers }
    requires few { workers ≤ 64 }
{
    for number in 0..20 {
        let run = settle_picked(alloc, design, lists, way, start, workers, number)?;
        if run.windows.pairs() != end.pairs() {
            return Ok(false);
        }
    }
    Ok(true)
}

/// The same of 1, 2, 3, 7 and 64 workers.
fn all_end_alike(
    alloc: Global,
    design: &Design,
    lists: &ReadLists,
    way: Direction,
    start: &Windows,
    end: &Windows,
) -> Result<bool, NoMemory>
    requires start { IsFittingStart way design.now start.now }
    requires lists { AreReadLists design.now lists.now }
{
    Ok(
        end_alike(alloc, design, lists, way, start, 1, end)?
            && end_alike(alloc, design, lists, way, start, 2, end)?
            && end_alike(alloc, design, lists, way, start, 3, end)?
            && end_alike(alloc, design, lists, way, start, 7, end)?
            && end_alike(alloc, design, lists, way, start, 64, end)?,
    )
}

/// The rounds of a run of one worker, if runs of several counts of workers all end in the windows in which it ends.
fn rounds_alike(
    alloc: Global,
    design: &Design,
    lists: &ReadLists,
    way: Direction,
    start: &Windows,
) -> Result<Option<u64>, NoMemory>
    requires start { IsFittingStart way design.now start.now }
    requires lists { AreReadLists design.now lists.now }
{
    let one = settle_picked(alloc, design, lists, way, start, 1, 0)?;
    let are_alike = all_end_alike(alloc, design, lists, way, start, &one.windows)?;
    Ok(are_alike.then_some(one.rounds))
}

/// The same of the wider and of the narrower run, which begins with the widest windows.
fn rounds_of(
    alloc: Global,
    design: &Design,
    lists: &ReadLists,
    top: &Windows,
) -> Result<(Option<u64>, Option<u64>), Fail>
    requires top { IsFittingStart Narrow design.now top.now }
    requires lists { AreReadLists design.now lists.now }
{
    let low = low(alloc, design, top)?;
    let wider = rounds_alike(alloc, design, lists, Direction::Widen, &low)?;
    let narrower = rounds_alike(alloc, design, lists, Direction::Narrow, top)?;
    Ok((wider, narrower))
}

/// The same of a design.
fn both_rounds(alloc: Global, design: &Design) -> Result<(Option<u64>, Option<u64>), Fail> {
    let lists = read_lists(alloc, design)?;
    let top = top(alloc, design)?;
    rounds_of(alloc, design, &lists, &top)
}

/// The same of the design of a text.
fn rounds_of_text(alloc: Global, text: &[u8]) -> Result<(Option<u64>, Option<u64>), Fail> {
    let design = read(alloc, text)?;
    both_rounds(alloc, &design)
}

/// Designs, and the rounds of the wider and of the narrower run.
///
/// Without nets both starts are closed. The envelope of one source, and of a chain, is what the operator gives. One
/// worker takes the nets by level, each after those that it reads. In the last two designs the envelope, where any two
/// edges overlap, is wider than the greatest windows.
const WORKED: &str = "\
empty | 0 | 0
one | 1 | 0
chain | 1 | 0
load pair | 1 | 1
cross | 1 | 1
";

/// Whether the design of a row takes the rounds that it wants.
fn takes_rounds(alloc: Global, row: &str) -> Result<bool, Fail> {
    let (wider, narrower) = rounds_of_text(alloc, text_of(field(row, '|', 0)))?;
    Ok(
        wider == field(row, '|', 1).parse::<u64>().ok()
            && narrower == field(row, '|', 2).parse::<u64>().ok()
            && wider.is_some()
            && narrower.is_some(),
    )
}

#[test]
fn no_order_changes_where_a_run_ends(rt: HostRuntime) -> Result<(), Fail> {
    for row in WORKED.lines() {
        assert!(rt; takes_rounds(rt.alloc(), row)?, "{row}");
    }
    Ok(())
}

/// Whether the runs of a generated design of five nets end alike.
fn generated_end_alike(alloc: Global, number: u64) -> Result<bool, Fail> {
    let design = generate(alloc, number, 5)?;
    let (wider, narrower) = both_rounds(alloc, &design)?;
    Ok(wider.is_some() && narrower.is_some())
}

// Three of these designs have more than one fixpoint.
#[test]
fn no_order_changes_where_a_run_of_a_generated_design_ends(rt: HostRuntime) -> Result<(), Fail> {
    for number in 0..30 {
        assert!(rt; generated_end_alike(rt.alloc(), number)?, "{number}");
    }
    Ok(())
}
