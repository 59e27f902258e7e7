//! A look at all marks.

ghost use Rattle.std.specs.Prelude.{◌≡◌, ◌<◌, IsFalse};
ghost use Rattle.chaos_core.specs.Boards.{nets_of};
ghost use Rattle.chaos_core.specs.Memories.{AreKept};
ghost use Rattle.chaos_core.specs.Rounds.{AreClosed};
ghost use Rattle.window_words.specs.Steps.{IsRested};
ghost use Rattle.dirty_words.specs.Boards.{IsAlone, IsFree, IsOf};
ghost use Rattle.dirty_run.specs.Turns.{HasLooked};

use dirty_words::{DirtyBoard, DirtyPass};
use xt_model::NetId;

/// Looks at the mark of each net by the first pass: whether one is set. Where none is, the words are closed, without a
/// look at them. Takes no memory.
pub(crate) fn look(board: &DirtyBoard, first: &mut DirtyPass, nets: u32) -> bool
    requires own { IsOf board.now first.old }
    requires alone { IsAlone first.old.view }
    requires free { IsFree first.old.view }
    requires count { nets ≡ nets_of first.old.view.base.setting }
    ensures own { IsOf board.now first.new }
    ensures looked { HasLooked first.old.view nets result first.new.view }
    ensures kept { AreKept first.old.view.base.setting first.old.view.base.seen }
    ensures rested { 0 < nets → IsRested first.old.view.base }
    ensures closed { IsFalse result → AreClosed first.old.view.base.setting.design first.old.view.base.seen }
{
    // What the first has seen, where there is no mark to look at.
    first.respects();
    let mut any = false;
    for net in 0..nets {
        if board.marked(first, NetId(net)) {
            any = true;
        }
    }
    any
}
