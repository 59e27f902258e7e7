//! Whether words are closed, at a start or after a round: it looks at a net only where something that decides it has
//! changed since it was evaluated, and notes the nets that it finds steady.

ghost use Rattle.std.specs.Prelude.{◌≡◌, ◌↔◌, ℕ, ◌+◌, ◌<◌, length, IsTrue};
ghost use Rattle.xt_model.specs.declared.edge.Edge.{Edge};
ghost use Rattle.xt_model.specs.Assign.{assigned};
ghost use Rattle.xt_meaning.specs.Operator.{step};
ghost use Rattle.xt_meaning.specs.Barrier.{IsWithinEnvelope};
ghost use Rattle.xt_meaning.specs.Fixpoint.{IsWindows};
ghost use Rattle.xt_meaning.specs.Words.{numbers_of};
ghost use Rattle.table_box.specs.Groups.{AreGroups};
ghost use Rattle.net_eval.specs.Closing.{IsSteadyAt};
ghost use Rattle.chaos_core.specs.TurnMarks.{AreMarks};

use crate::marks::TurnMarks;
use net_eval::closed_part_grouped;
use xt_model::{Design, NetId, Windows};

/// Whether the operator gives the windows of a net back, which it does where the net is settled. Notes that the net
/// was evaluated, if it does.
fn is_steady(
    design: &Design,
    groups: &[usize],
    marks: &mut TurnMarks,
    windows: &Windows,
    net: u32,
    next: u32,
) -> bool
    requires groups { AreGroups design.now.tables groups.now }
    requires windows { IsWindows design.now windows.now }
    requires within { IsWithinEnvelope design.now windows.now }
    requires marks { AreMarks design.now (numbers_of windows.now) marks.old }
    requires net { net < length design.now.nets }
    requires next { next ≡ net + 1 }
    ensures steady { IsTrue result ↔ IsSteadyAt design.now windows.now net }
    ensures marks { AreMarks design.now (numbers_of windows.now) marks.new }
{
    if marks.is_settled(NetId(net), design.net(net as usize)) {
        return true;
    }
    if !closed_part_grouped(design, groups, windows, net, next) {
        return false;
    }
    marks.note_look(NetId(net));
    true
}

/// Whether the operator gives the windows back at every net. Evaluates no net that is settled, and notes those up to
/// the first that it does not give back. Takes no memory.
pub(crate) fn closed_by(
    design: &Design,
    groups: &[usize],
    marks: &mut TurnMarks,
    windows: &Windows,
) -> bool
    requires groups { AreGroups design.now.tables groups.now }
    requires windows { IsWindows design.now windows.now }
    requires within { IsWithinEnvelope design.now windows.now }
    requires marks { AreMarks design.now (numbers_of windows.now) marks.old }
    ensures closed { IsTrue result
        ↔ ((net : ℕ) (e : Edge) → step design.now windows.now net e ≡ assigned windows.now net e) }
    ensures marks { AreMarks design.now (numbers_of windows.now) marks.new }
{
    marks.begin_turn();
    for net in 0..design.nets().len() as u32 {
        if !is_steady(design, groups, marks, windows, net, net + 1) {
            return false;
        }
    }
    true
}
