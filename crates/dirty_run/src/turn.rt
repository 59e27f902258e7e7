//! A worker's part of a round: it draws numbers, and visits the net at each place of the order that it draws.

ghost use Rattle.std.specs.Prelude.{◌≡◌, ℕ, ◌+◌, ◌*◌, ◌<◌, List, []};
ghost use Rattle.std.specs.List.{All};
ghost use Rattle.xt_model.specs.Levels.{IsOrder};
ghost use Rattle.window_words.specs.Boards.{late_of};
ghost use Rattle.dirty_words.specs.Boards.{IsFree, IsOf};
ghost use Rattle.dirty_run.specs.Notes.{AreNotes};
ghost use Rattle.dirty_run.specs.Visits.{HasRoom, IsRun};
ghost use Rattle.dirty_run.specs.Turns.{HasDrawnNext, HasRun};

use crate::notes::Before;
use crate::visit::visit;
use crate::worker::{Run, Worker};
use dirty_words::DirtyPass;
use xt_model::NetId;

/// The net at the next place, where there is one: draws a number.
fn next_net<G>(run: &Run<'_, G>, pass: &mut DirtyPass) -> Option<NetId>
    requires run { IsRun run.now.board.now run.now.design.now run.now.groups.now
        run.now.lists.now run.now.readers.now run.now.direction }
    requires own { IsOf run.now.board.now pass.old }
    requires late { 0 < late_of pass.old.view.base }
    ensures own { IsOf run.now.board.now pass.new }
    ensures drew { HasDrawnNext run.now.design.now.nets pass.old.view result pass.new.view }
{
    let order = run.design.order();
    let number = run.board.draw(pass) as usize;
    if number < order.len() {
        return Some(NetId(order[number]));
    }
    None
}

/// Draws and visits until a number is drawn that is no place.
pub(crate) fn run_worker<G>(
    run: &Run<'_, G>,
    before: &Before,
    pass: &mut DirtyPass,
    worker: &mut Worker,
)
    requires run { IsRun run.now.board.now run.now.design.now run.now.groups.now
        run.now.lists.now run.now.readers.now run.now.direction }
    requires before { All (AreNotes run.now.design.now run.now.lists.now) before.now.notes.items }
    requires own { IsOf run.now.board.now pass.old }
    requires fresh { pass.old.view.base.drawn ≡ [] }
    requires none { pass.old.view.taken ≡ [] }
    requires free { IsFree pass.old.view }
    requires room { HasRoom run.now.design.now run.now.lists.now worker.old }
    ensures own { IsOf run.now.board.now pass.new }
    ensures ran { (order : List ℕ) → IsOrder run.now.design.now.nets order → HasRun order pass.old.view pass.new.view }
    ensures room { HasRoom run.now.design.now run.now.lists.now worker.new }
{
    // What the pass has seen, where it draws no place.
    pass.respects();
    'places: while let Some(net) = next_net(run, pass) {
        visit(run, before, pass, worker, net);
    }
}
