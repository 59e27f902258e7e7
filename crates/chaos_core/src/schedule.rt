//! Workers that take turns at words in memory, as a list of picks says.

ghost use Rattle.std.specs.Prelude.{◌≡◌, ℕ, ◌≤◌, ◌<◌, List, length, map, take};
ghost use Rattle.std.specs.List.{All};
ghost use Rattle.xt_model.specs.Levels.{IsOrder};
ghost use Rattle.net_eval.specs.ReadLists.{AreReadLists};
ghost use Rattle.chaos_core.specs.Tasks.{task_of};
ghost use Rattle.chaos_core.specs.Steps.{IsFitting};
ghost use Rattle.chaos_core.specs.Memories.{knowledge_of};
ghost use Rattle.chaos_core.specs.Machine.{IsReached, count_open, scheduled, state_of};

use crate::memory::MemoryBoard;
use crate::steps::worker_step;
use crate::worker::Worker;
use net_eval::ReadLists;
use xt_model::{Design, Direction};

/// Makes one step of a worker for each pick, in order. Takes no memory.
pub fn run_schedule(
    board: &mut MemoryBoard,
    workers: &mut [Worker],
    design: &Design,
    lists: &ReadLists,
    direction: Direction,
    picks: &[u32],
)
    requires design { board.old.setting.design ≡ design.now }
    requires direction { board.old.setting.way ≡ direction }
    requires lists { AreReadLists design.now lists.now }
    requires picks { All (λ pick. pick < length workers.old) picks.now }
    requires fits { All (IsFitting (knowledge_of board.old) lists.now) workers.old }
    requires late { count_open (map task_of workers.old) ≤ (knowledge_of board.old).late }
    ensures setting { board.new.setting ≡ board.old.setting }
    ensures state { (order : List ℕ) → IsOrder design.now.nets order → state_of board.new workers.new
        ≡ scheduled board.old.setting lists.now order (state_of board.old workers.old) picks.now }
    ensures kept { (order : List ℕ) (n : ℕ) → IsOrder design.now.nets order
        → IsReached board.old.setting lists.now (state_of board.old workers.old)
        (scheduled board.old.setting lists.now order (state_of board.old workers.old) (take n picks.now)) }
    ensures fits { All (IsFitting (knowledge_of board.new) lists.now) workers.new }
    ensures late { count_open (map task_of workers.new) ≤ (knowledge_of board.new).late }
{
    prove!(board.words().len() / 8 == design.nets().len());
    for pick in picks {
        worker_step(
            board,
            &mut workers[*pick as usize],
            design,
            lists,
            direction,
        );
    }
}
