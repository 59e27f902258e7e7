//! Runs in threads over a design of many coupled nets: where they end does not depend on the workers.

ghost use Rattle.std.specs.Prelude.{◌≤◌};
ghost use Rattle.xt_model.specs.declared.direction.Direction.TheVariants.{Narrow};
ghost use Rattle.xt_meaning.specs.Barrier.{IsFittingStart};
ghost use Rattle.net_eval.specs.ReadLists.{AreReadLists};

use crate::starts::top;
use chaos_core::OpenGate;
use chaos_run::{Both, run_both};
use design_gen::generate;
use net_eval::{ReadLists, read_lists};
use std::alloc::Global;
use std::test::Fail;
use std::thread::Threads;
use xt_model::{Design, NoMemory, Windows};

/// Whether runs of `workers` workers end in the windows of these.
fn ends_alike<R: Threads + Sync>(
    rt: &R,
    alloc: Global,
    design: &Design,
    lists: &ReadLists,
    top: &Windows,
    workers: u32,
    wanted: &Both,
) -> Result<bool, NoMemory>
    requires start { IsFittingStart Narrow design.now top.now }
    requires lists { AreReadLists design.now lists.now }
    requires some { 1 ≤ workers }
    requires few { workers ≤ 64 }
{
    let both = run_both(rt, alloc, design, lists, top, workers, &OpenGate)?;
    Ok(both.low.pairs() == wanted.low.pairs() && both.high.pairs() == wanted.high.pairs())
}

/// Whether runs of 2, 7 and 64 workers end in the windows of one.
fn all_end_alike<R: Threads + Sync>(
    rt: &R,
    alloc: Global,
    design: &Design,
    lists: &ReadLists,
    top: &Windows,
) -> Result<bool, NoMemory>
    requires start { IsFittingStart Narrow design.now top.now }
    requires lists { AreReadLists design.now lists.now }
{
    let one = run_both(rt, alloc, design, lists, top, 1, &OpenGate)?;
    Ok(
        ends_alike(rt, alloc, design, lists, top, 2, &one)?
            && ends_alike(rt, alloc, design, lists, top, 7, &one)?
            && ends_alike(rt, alloc, design, lists, top, 64, &one)?,
    )
}

/// The same of a design.
fn design_ends_alike<R: Threads + Sync>(
    rt: &R,
    alloc: Global,
    design: &Design,
) -> Result<bool, Fail> {
    let lists = read_lists(alloc, design)?;
    let top = top(alloc, design)?;
    Ok(all_end_alike(rt, alloc, design, &lists, &top)?)
}

/// The same of the generated design of 5,000 nets, of which each has a coupling or more.
fn generated_ends_alike<R: Threads + Sync>(rt: &R, alloc: Global) -> Result<bool, Fail> {
    let design = generate(alloc, 7, 5000)?;
    design_ends_alike(rt, alloc, &design)
}

#[test]
fn five_thousand_nets_end_as_with_one_worker(rt: HostRuntime) -> Result<(), Fail> {
    assert!(rt; generated_ends_alike(&rt, rt.alloc())?);
    Ok(())
}
