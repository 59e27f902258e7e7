//! The envelope, by one pass over the nets in order of level.

ghost use Rattle.std.specs.Prelude.{◌≡◌, List, IfOk, IfErr, IfSome};
ghost use Rattle.xt_model.specs.declared.direction.Direction.{Direction};
ghost use Rattle.xt_model.specs.declared.quad.Pair.{Pair};
ghost use Rattle.xt_model.specs.Assign.{assigned};
ghost use Rattle.xt_meaning.specs.Operator.{step};
ghost use Rattle.xt_meaning.specs.Fixpoint.{IsContained};
ghost use Rattle.xt_meaning.specs.Envelope.{IsWidest, IsEnvelope, IsAccepted};
ghost use Rattle.xt_meaning.specs.Barrier.{IsFittingStart};
ghost use Rattle.xt_meaning.specs.Laws.{quiet_windows};
ghost use Rattle.envelope.specs.Firsts.{IsFaultOfEnvelope};
ghost use Rattle.envelope.specs.Greatest.{AreWiresAtMost};

use crate::fault::EnvelopeFault;
use crate::greatest::greatest_of_design;
use crate::limits::test_pair_by;
use crate::start::quiet;
use net_eval::eval_widest_grouped;
use std::alloc::Global;
use std::thread::Threads;
use table_box::table_groups;
use xt_model::{Design, Direction, NetId, Windows};

/// The fewest nets in a thread's share: to begin a thread takes as long as to add up the wires of some hundred nets.
const LEAST_SHARE: u32 = 1_024;

/// The pass that [`envelope`] makes, from windows in which nothing switches, with the delay in fs that no wire of the
/// design passes, where one is known.
fn one_pass(
    alloc: Global,
    design: &Design,
    start: Windows,
    greatest: Option<i128>,
) -> Result<Windows, EnvelopeFault>
    requires start { start ≡ quiet_windows design.now }
    requires greatest { IfSome greatest (AreWiresAtMost design.now) }
    ensures envelope { IfOk result (IsEnvelope design.now) }
    ensures accepted { IfOk result (IsAccepted design.now) }
    ensures contains { IfOk
        result
        (λ top. (v : List Pair)
        → IsContained (assigned v) (step design.now v)
        → IsContained (assigned v) (assigned top)) }
    ensures itself { IfOk result (λ top. IsContained (step design.now top) (assigned top)) }
    ensures starts { IfOk result (IsFittingStart Direction.Narrow design.now) }
    ensures limit { IfErr result (IsFaultOfEnvelope design.now) }
    ensures complete { (top : List Pair)
        → IsWidest design.now top
        → IsAccepted design.now top
        → IfErr result (λ fault. fault ≡ EnvelopeFault.NoMemory) }
{
    let mut windows = start;
    let groups = table_groups(alloc, design.tables())?;
    for net in design.order() {
        let pair = eval_widest_grouped(design, groups.as_slice(), NetId(*net), &windows);
        test_pair_by(design, &windows, NetId(*net), &pair, greatest)?;
        windows.set(*net as usize, pair);
    }
    Ok(windows)
}

/// The windows that the operator gives back where everything overlaps, or the first limit that they pass, with
/// the nets in order of level and then of number. All windows that the operator does not narrow lie within
/// them. Linear in what the nets look at, and in their coefficients.
pub fn envelope(alloc: Global, design: &Design) -> Result<Windows, EnvelopeFault>
    ensures envelope { IfOk result (IsEnvelope design.now) }
    ensures accepted { IfOk result (IsAccepted design.now) }
    ensures contains { IfOk
        result
        (λ top. (v : List Pair)
        → IsContained (assigned v) (step design.now v)
        → IsContained (assigned v) (assigned top)) }
    ensures itself { IfOk result (λ top. IsContained (step design.now top) (assigned top)) }
    ensures starts { IfOk result (IsFittingStart Direction.Narrow design.now) }
    ensures limit { IfErr result (IsFaultOfEnvelope design.now) }
    ensures complete { (top : List Pair)
        → IsWidest design.now top
        → IsAccepted design.now top
        → IfErr result (λ fault. fault ≡ EnvelopeFault.NoMemory) }
{
    let start = quiet(alloc, design)?;
    one_pass(alloc, design, start, None)
}

/// The windows or the limit that [`envelope`] gives. Several threads first find the greatest wire delay of the design,
/// each over a share of 1,024 nets or more; the pass then adds up the wires of those nets alone that come near a limit.
/// Of fewer than two such shares this thread makes the pass as [`envelope`] does.
pub fn envelope_by<R: Threads + Sync>(
    rt: &R,
    alloc: Global,
    design: &Design,
    threads: u32,
) -> Result<Windows, EnvelopeFault>
    ensures envelope { IfOk result (IsEnvelope design.now) }
    ensures accepted { IfOk result (IsAccepted design.now) }
    ensures contains { IfOk
        result
        (λ top. (v : List Pair)
        → IsContained (assigned v) (step design.now v)
        → IsContained (assigned v) (assigned top)) }
    ensures itself { IfOk result (λ top. IsContained (step design.now top) (assigned top)) }
    ensures starts { IfOk result (IsFittingStart Direction.Narrow design.now) }
    ensures limit { IfErr result (IsFaultOfEnvelope design.now) }
    ensures complete { (top : List Pair)
        → IsWidest design.now top
        → IsAccepted design.now top
        → IfErr result (λ fault. fault ≡ EnvelopeFault.NoMemory) }
{
    let shares = threads.min(design.nets().len() as u32 / LEAST_SHARE);
    if shares <= 1 {
        return envelope(alloc, design);
    }
    let start = quiet(alloc, design)?;
    let greatest = greatest_of_design(rt, design, &start, shares);
    one_pass(alloc, design, start, Some(greatest))
}
