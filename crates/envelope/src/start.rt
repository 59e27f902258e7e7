ghost use Rattle.std.specs.Prelude.{◌≡◌, List, IfOk, replicate};
ghost use Rattle.xt_model.specs.declared.direction.Direction.{Direction};
ghost use Rattle.xt_model.specs.declared.quad.Pair.{Pair};
ghost use Rattle.xt_meaning.specs.Barrier.{IsFittingStart, IsWithinEnvelope};
ghost use Rattle.xt_meaning.specs.Laws.{quiet_pair, quiet_windows};

use std::alloc::{AllocError, Global};
use xt_model::{Design, Pair, Quad, Windows};

/// Windows of this many nets that never switch.
fn never(alloc: Global, count: usize) -> Result<Windows, AllocError>
    ensures { IfOk result (λ windows. windows ≡ replicate count quiet_pair) }
{
    let pair = Pair {
        rise: Quad::bottom(),
        fall: Quad::bottom(),
    };
    let pairs = vec![in alloc; pair; count]?;
    Ok(Windows::new(pairs))
}

/// Windows in which nothing switches. Where an envelope keeps the limits, a run can start there that widens.
pub fn quiet(alloc: Global, design: &Design) -> Result<Windows, AllocError>
    ensures quiet { IfOk result (λ windows. windows ≡ quiet_windows design.now) }
    ensures starts { (v : List Pair)
        → IsWithinEnvelope design.now v
        → IfOk result (IsFittingStart Direction.Widen design.now) }
{
    let nets = design.nets();
    let windows = never(alloc, nets.len())?;
    Ok(windows)
}
