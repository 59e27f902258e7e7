//! The walk back along a worst path.

ghost use Rattle.std.specs.Prelude.{◌≡◌, ℕ, ◌<◌, ◌+ℤ◌, length, IfOk};
ghost use Rattle.xt_model.specs.Assign.{assigned};
ghost use Rattle.xt_model.specs.Quads.{IsLive};
ghost use Rattle.xt_model.specs.declared.edge.Edge.{Edge};
ghost use Rattle.xt_meaning.specs.Barrier.{IsWithinEnvelope};
ghost use Rattle.xt_meaning.specs.Operator.{step};
ghost use Rattle.aggressor_report.specs.Passages.{bound_of};
ghost use Rattle.aggressor_report.specs.Paths.{IsPath, total};

use crate::path::Path;
use crate::step::last_step;
use crate::window::bound_at;
use std::alloc::Global;
use xt_model::{Design, Edge, NetId, NoMemory, Row, Windows};

/// The path by which an edge of a net comes to the latest time of its window, or to the earliest, in windows that the
/// operator gives back. It starts at a source, and at each net it takes the first arc in the net's list whose sum is
/// the bound of the window there; a net of level 1 is a source. Takes time in proportion to the arcs of the nets along
/// the path, each with the couplings of the net that it comes from. Fails only for want of memory.
pub fn worst_path(
    alloc: Global,
    design: &Design,
    windows: &Windows,
    net: NetId,
    edge: Edge,
    late: bool,
) -> Result<Path, NoMemory>
    requires net { net.0 < length design.now.nets }
    requires count { length windows.now ≡ length design.now.nets }
    requires within { IsWithinEnvelope design.now windows.now }
    requires closed { (n : ℕ) (e : Edge) → step design.now windows.now n e ≡ assigned windows.now n e }
    requires live { IsLive (assigned windows.now net.0 edge) }
    ensures path { IfOk result (λ p. IsPath late design.now (assigned windows.now) net.0 edge p) }
    ensures sum { IfOk result
        (λ p. (p.time +ℤ total p.steps) ≡ bound_of late (assigned windows.now net.0 edge)) }
{
    prove!((net.0 as usize) < design.nets().len());
    let mut steps = Vec::new(alloc);
    let mut at = net;
    let mut at_edge = edge;
    let mut level = design.level(at);
    'back: while level > 1 {
        let last = last_step(design, windows, at, at_edge, late);
        steps.push(last.step)?;
        at = last.from;
        at_edge = last.input;
        level = design.level(at);
    }
    steps.reverse();
    Ok(Path {
        net: at,
        edge: at_edge,
        time: bound_at(windows, at, at_edge, late),
        steps: Row::from_vec(steps),
    })
}
