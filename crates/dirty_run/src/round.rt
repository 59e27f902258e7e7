//! A round: workers in threads of their own, each at the board by a pass of its own, until all are done.

ghost use Rattle.std.specs.Prelude.{◌≡◌, ℕ, ◌+◌, ◌<◌, ◌≤◌, List, [], length};
ghost use Rattle.std.specs.List.{All, AllZip};
ghost use Rattle.xt_model.specs.Limits.{most_workers};
ghost use Rattle.xt_model.specs.Levels.{IsOrder};
ghost use Rattle.dirty_words.specs.Views.{with_anew};
ghost use Rattle.dirty_words.specs.Boards.{IsAlone, IsFirst, IsFree, IsOf};
ghost use Rattle.dirty_run.specs.Notes.{AreNotes};
ghost use Rattle.dirty_run.specs.Visits.{IsRun};
ghost use Rattle.dirty_run.specs.Turns.{with_out, HasGathered};
ghost use Rattle.dirty_run.specs.Rounds.{AreIdle, AreRoomy, IsSent, IsReady, HasWorked, IsBack};

use crate::notes::Before;
use crate::turn::run_worker;
use crate::worker::{Run, SeatedWorker, Workers};
use chaos_core::Gate;
use dirty_words::DirtyPass;
use std::thread;
use std::thread::Threads;

/// Gives every worker a pass of its own.
fn send_out<G>(run: &Run<'_, G>, workers: &mut Workers, first: &mut DirtyPass)
    requires own { IsOf run.now.board.now first.old }
    requires first { IsFirst first.old.view }
    requires free { IsFree first.old.view }
    requires few { first.old.view.base.split + length workers.old.idle.items ≤ most_workers }
    requires idle { AreIdle run.now.design.now run.now.lists.now workers.old }
    requires some { 0 < length workers.old.idle.items }
    ensures own { IsOf run.now.board.now first.new }
    ensures view { first.new.view ≡ with_out first.old.view (length workers.old.idle.items) }
    ensures none { workers.new.idle.items ≡ [] }
    ensures count { length workers.new.seated.items ≡ length workers.old.idle.items }
    ensures sent { All (IsSent run.now.design.now run.now.lists.now first.old) workers.new.seated.items }
    ensures roomy { AreRoomy run.now.design.now run.now.lists.now workers.new }
{
    'passes: while let Some(worker) = workers.idle.pop() {
        let pass = run.board.split(first);
        workers.seated.push_reserved(SeatedWorker { pass, worker });
    }
}

/// One worker's part of a round: it passes the gate, and then draws and visits until it is done.
fn work<G: Gate>(run: &Run<'_, G>, before: &Before, own: &mut SeatedWorker, number: u32, round: u64)
    requires run { IsRun run.now.board.now run.now.design.now run.now.groups.now
        run.now.lists.now run.now.readers.now run.now.direction }
    requires before { All (AreNotes run.now.design.now run.now.lists.now) before.now.notes.items }
    requires ready { IsReady run.now.board.now run.now.design.now run.now.lists.now own.old }
    ensures { HasWorked run.now.board.now run.now.design.now run.now.lists.now own.old own.new }
{
    run.gate.pass(number, round);
    run_worker(run, before, &mut own.pass, &mut own.worker);
}

/// All workers work beside one another, half of them in a further thread, and so each half of them, until there is a
/// thread for each. Where no thread can be had, a half works after the other.
fn work_all<R: Threads + Sync, G: Gate>(
    rt: &R,
    run: &Run<'_, G>,
    before: &Before,
    seated: &mut [SeatedWorker],
    round: u64,
)
    requires run { IsRun run.now.board.now run.now.design.now run.now.groups.now
        run.now.lists.now run.now.readers.now run.now.direction }
    requires before { All (AreNotes run.now.design.now run.now.lists.now) before.now.notes.items }
    requires some { 0 < length seated.old }
    requires few { length seated.old ≤ most_workers }
    requires ready { All (IsReady run.now.board.now run.now.design.now run.now.lists.now) seated.old }
    ensures { AllZip (HasWorked run.now.board.now run.now.design.now run.now.lists.now) seated.old seated.new }
{
    let threads = seated.len();
    thread::for_each_mut(
        rt,
        seated,
        threads,
        &|place: usize, own: &mut SeatedWorker|
            requires { (place < most_workers)
                × IsRun run.now.board.now run.now.design.now run.now.groups.now
                run.now.lists.now run.now.readers.now run.now.direction
                × All (AreNotes run.now.design.now run.now.lists.now) before.now.notes.items
                × IsReady run.now.board.now run.now.design.now run.now.lists.now own.now }
            ensures { HasWorked run.entry.now.board.now run.entry.now.design.now run.entry.now.lists.now
                own.entry.now own.exit.now }
        { work(run, before, own, place as u32 + 1, round) },
    );
}

/// Joins the passes of all workers.
fn take_back<G>(run: &Run<'_, G>, workers: &mut Workers, first: &mut DirtyPass)
    requires run { IsRun run.now.board.now run.now.design.now run.now.groups.now
        run.now.lists.now run.now.readers.now run.now.direction }
    requires own { IsOf run.now.board.now first.old }
    requires first { IsFirst first.old.view }
    requires free { IsFree first.old.view }
    requires fresh { first.old.view.base.drawn ≡ [] }
    requires out { first.old.view.base.out ≡ length workers.old.seated.items }
    requires some { 0 < length workers.old.seated.items }
    requires none { workers.old.idle.items ≡ [] }
    requires roomy { AreRoomy run.now.design.now run.now.lists.now workers.old }
    requires back { All (IsBack run.now.board.now run.now.design.now run.now.lists.now first.old)
        workers.old.seated.items }
    ensures own { IsOf run.now.board.now first.new }
    ensures alone { IsAlone first.new.view }
    ensures free { IsFree first.new.view }
    ensures gathered { (order : List ℕ) → IsOrder run.now.design.now.nets order
        → HasGathered order (length workers.old.seated.items) first.old.view first.new.view }
    ensures idle { AreIdle run.now.design.now run.now.lists.now workers.new }
    ensures count { length workers.new.idle.items ≡ length workers.old.seated.items }
{
    // What the first has seen, before a pass is joined.
    first.respects();
    'passes: while let Some(SeatedWorker { pass, worker }) = workers.seated.pop() {
        run.board.join(first, pass);
        workers.idle.push_reserved(worker);
    }
}

/// What each worker noted is left to the next round, and each begins to note anew.
fn leave_notes<G>(run: &Run<'_, G>, workers: &mut Workers)
    requires idle { AreIdle run.now.design.now run.now.lists.now workers.old }
    ensures idle { AreIdle run.now.design.now run.now.lists.now workers.new }
    ensures count { length workers.new.idle.items ≡ length workers.old.idle.items }
{
    for number in 0..workers.idle.len() {
        workers.before.take(number, &mut workers.idle[number].notes);
    }
}

/// One round: every worker gets a pass of its own, all work beside one another until each is done, and all passes are
/// joined. What the workers noted is left to the next round. Takes no memory.
pub(crate) fn round<R: Threads + Sync, G: Gate>(
    rt: &R,
    run: &Run<'_, G>,
    workers: &mut Workers,
    first: &mut DirtyPass,
    round: u64,
)
    requires run { IsRun run.now.board.now run.now.design.now run.now.groups.now
        run.now.lists.now run.now.readers.now run.now.direction }
    requires own { IsOf run.now.board.now first.old }
    requires alone { IsAlone first.old.view }
    requires free { IsFree first.old.view }
    requires idle { AreIdle run.now.design.now run.now.lists.now workers.old }
    requires some { 0 < length workers.old.idle.items }
    requires few { length workers.old.idle.items ≤ most_workers }
    ensures own { IsOf run.now.board.now first.new }
    ensures alone { IsAlone first.new.view }
    ensures free { IsFree first.new.view }
    ensures gathered { (order : List ℕ) → IsOrder run.now.design.now.nets order
        → HasGathered order (length workers.old.idle.items)
        (with_out (with_anew first.old.view) (length workers.old.idle.items)) first.new.view }
    ensures idle { AreIdle run.now.design.now run.now.lists.now workers.new }
    ensures count { length workers.new.idle.items ≡ length workers.old.idle.items }
{
    run.board.restart(first);
    send_out(run, workers, first);
    work_all(
        rt,
        run,
        &workers.before,
        workers.seated.as_mut_slice(),
        round,
    );
    take_back(run, workers, first);
    leave_notes(run, workers);
}
