//! Designs of texts, where runs over a design start, and where they end.

ghost use Rattle.std.specs.Prelude.{IfOk};
ghost use Rattle.xt_model.specs.declared.direction.Direction.TheVariants.{Widen, Narrow};
ghost use Rattle.xt_meaning.specs.Barrier.{IsFittingStart, IsWithinEnvelope};
ghost use Rattle.xt_meaning.specs.Fixpoint.{IsFixpoint};

use chaos_core::settle_picked;
use envelope::{EnvelopeFault, envelope, quiet};
use linked_text::{LinkedFault, has_numbered_lines, read_linked};
use net_eval::read_lists;
use std::alloc::{AllocError, Global};
use xt_model::{Design, Direction, NoMemory, Windows};

/// The design of a text, whose lines have numbers.
pub fn read(alloc: Global, text: &[u8]) -> Result<Design, LinkedFault> {
    if !has_numbered_lines(text) {
        return Err(LinkedFault::NoMemory);
    }
    read_linked(alloc, text)
}

/// The envelope.
pub fn top(alloc: Global, design: &Design) -> Result<Windows, EnvelopeFault>
    ensures { IfOk result (IsFittingStart Narrow design.now) }
{
    envelope(alloc, design)
}

/// Windows in which nothing switches.
pub fn low(alloc: Global, design: &Design, top: &Windows) -> Result<Windows, AllocError>
    requires { IsFittingStart Narrow design.now top.now }
    ensures { IfOk result (IsFittingStart Widen design.now) }
{
    quiet(alloc, design)
}

/// The windows in which a run of one worker ends.
pub fn settled(
    alloc: Global,
    design: &Design,
    way: Direction,
    start: &Windows,
) -> Result<Windows, NoMemory>
    requires { IsFittingStart way design.now start.now }
    ensures fixpoint { IfOk result (IsFixpoint design.now) }
    ensures within { IfOk result (IsWithinEnvelope design.now) }
{
    let lists = read_lists(alloc, design)?;
    let settled = settle_picked(alloc, design, &lists, way, start, 1, 0)?;
    Ok(settled.windows)
}
