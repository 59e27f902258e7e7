//! A round: workers that take turns, as a source of numbers picks them, until all are done.

ghost use Rattle.std.specs.Prelude.{◌≡◌, ℕ, ◌+◌, ◌%◌, ◌<◌, ◌≤◌, List, length, map, replicate, IfOk, IsTrue, IsFalse};
ghost use Rattle.std.specs.List.{All};
ghost use Rattle.xt_model.specs.declared.net.NetId.{NetId};
ghost use Rattle.xt_model.specs.Levels.{IsOrder};
ghost use Rattle.xt_model.specs.Limits.{most_workers};
ghost use Rattle.net_eval.specs.ReadLists.{AreReadLists};
ghost use Rattle.chaos_core.specs.Tasks.{idle, task_of};
ghost use Rattle.chaos_core.specs.Runs.{IsDone};
ghost use Rattle.chaos_core.specs.Steps.{IsFitting};
ghost use Rattle.chaos_core.specs.Memories.{knowledge_of};
ghost use Rattle.chaos_core.specs.Machine.{count_open};
ghost use Rattle.chaos_core.specs.Rounds.{HasOpen, HasRoom, IsPick, IsPicked, IsRound, pause_at, play_at};

use crate::memory::MemoryBoard;
use crate::run::is_done;
use crate::steps::worker_step;
use crate::worker::Worker;
use drawn_numbers::Source;
use net_eval::ReadLists;
use std::alloc::Global;
use xt_model::{Design, Direction, NoMemory};

/// This many idle workers.
pub(crate) fn new_workers(
    alloc: Global,
    lists: &ReadLists,
    count: u32,
) -> Result<Vec<Worker>, NoMemory>
    ensures count { IfOk result (λ workers. length workers.items ≡ count) }
    ensures rooms { IfOk result (λ workers. All (HasRoom lists.now) workers.items) }
{
    let mut workers = Vec::new(alloc);
    for _number in 0..count {
        workers.push(Worker::new(alloc, lists)?)?;
    }
    Ok(workers)
}

/// Makes all workers idle.
fn reset_all(workers: &mut [Worker])
    ensures idle { map task_of workers.new ≡ replicate (length workers.old) idle }
    ensures rooms { (lists : List (List NetId)) → All (HasRoom lists) workers.old
        → All (HasRoom lists) workers.new }
{
    for worker in workers {
        worker.reset();
    }
}

/// Whether some worker is not done.
fn any_open(workers: &[Worker]) -> bool
    ensures open { IsTrue result → HasOpen (map task_of workers.now) }
    ensures done { IsFalse result → All IsDone (map task_of workers.now) }
{
    for worker in workers {
        if !is_done(worker) {
            return true;
        }
    }
    false
}

/// The place that is this many places after another, from the last on to the first.
fn place_after(number: usize, ahead: usize, count: usize) -> usize
    requires number { number < count }
    requires ahead { ahead < count }
    requires few { count ≤ most_workers }
    ensures place { result ≡ (number + ahead) % count }
    ensures inside { result < count }
{
    (number + ahead) % count
}

/// The first worker that is not done, from a place upwards, and from the last worker on to the first.
fn next_open(workers: &[Worker], number: usize) -> usize
    requires number { number < length workers.now }
    requires few { length workers.now ≤ most_workers }
    requires open { HasOpen (map task_of workers.now) }
    ensures picked { IsPicked (map task_of workers.now) number result }
    ensures inside { result < length workers.now }
{
    for ahead in 0..workers.len() {
        let place = place_after(number, ahead, workers.len());
        if !is_done(&workers[place]) {
            return place;
        }
    }
    number
}

/// One pick: a number is drawn, and the worker that it picks makes one step.
fn pick(
    board: &mut MemoryBoard,
    workers: &mut [Worker],
    design: &Design,
    lists: &ReadLists,
    direction: Direction,
    source: &mut Source,
)
    requires design { board.old.setting.design ≡ design.now }
    requires direction { board.old.setting.way ≡ direction }
    requires lists { AreReadLists design.now lists.now }
    requires few { length workers.old ≤ most_workers }
    requires open { HasOpen (map task_of workers.old) }
    requires fits { All (IsFitting (knowledge_of board.old) lists.now) workers.old }
    requires late { count_open (map task_of workers.old) ≤ (knowledge_of board.old).late }
    ensures setting { board.new.setting ≡ board.old.setting }
    ensures count { length workers.new ≡ length workers.old }
    ensures pick { (order : List ℕ) → IsOrder design.now.nets order → IsPick board.old.setting lists.now order
        (play_at source.old.state board.old workers.old) (play_at source.new.state board.new workers.new) }
    ensures fits { All (IsFitting (knowledge_of board.new) lists.now) workers.new }
    ensures late { count_open (map task_of workers.new) ≤ (knowledge_of board.new).late }
{
    prove!(board.words().len() / 8 == design.nets().len());
    let number = source.draw(workers.len() as u64) as usize;
    let place = next_open(workers, number);
    worker_step(board, &mut workers[place], design, lists, direction);
}

/// One round, pick by pick. Takes no memory.
pub(crate) fn round(
    board: &mut MemoryBoard,
    workers: &mut [Worker],
    design: &Design,
    lists: &ReadLists,
    direction: Direction,
    source: &mut Source,
)
    requires design { board.old.setting.design ≡ design.now }
    requires direction { board.old.setting.way ≡ direction }
    requires lists { AreReadLists design.now lists.now }
    requires few { length workers.old ≤ most_workers }
    requires rooms { All (HasRoom lists.now) workers.old }
    ensures setting { board.new.setting ≡ board.old.setting }
    ensures count { length workers.new ≡ length workers.old }
    ensures rooms { All (HasRoom lists.now) workers.new }
    ensures round { (order : List ℕ) → IsOrder design.now.nets order
        → IsRound board.old.setting lists.now order (length workers.old)
        (pause_at source.old.state board.old) (pause_at source.new.state board.new) }
{
    board.restart();
    reset_all(workers);
    'picks: while any_open(workers) {
        pick(board, workers, design, lists, direction, source);
    }
}
