//! A round: workers in threads of their own, each at the board by a pass of its own, until all are done.

ghost use Rattle.std.specs.Prelude.{◌≡◌, ℕ, ◌+◌, ◌<◌, ◌≤◌, List, [], length};
ghost use Rattle.std.specs.List.{All, AllZip};
ghost use Rattle.xt_model.specs.Limits.{most_workers};
ghost use Rattle.xt_model.specs.Levels.{IsOrder};
ghost use Rattle.table_box.specs.Groups.{AreGroups};
ghost use Rattle.chaos_core.specs.Looks.{IsLook};
ghost use Rattle.chaos_core.specs.Runs.{Ran};
ghost use Rattle.window_words.specs.Boards.{knowledge_of, IsAlone, IsFirst, IsOf};
ghost use Rattle.chaos_run.specs.Rounds.{with_out, AreIdle, AreRoomy, IsRun, IsSent, IsReady, HasRun, IsBack};

use crate::workers::{Run, SeatedWorker, Workers};
use chaos_core::{Gate, Looked, run_grouped};
use std::thread;
use std::thread::Threads;
use window_words::{Pass, Seated};
use xt_model::Windows;

/// Gives every worker a pass of its own.
fn send_out<'a, G>(run: &Run<'a, G>, workers: &mut Workers<'a>, first: &mut Pass)
    requires own { IsOf run.now.board.now first.old }
    requires first { IsFirst first.old }
    requires few { first.old.view.split + length workers.old.idle.items ≤ most_workers }
    requires idle { AreIdle run.now.lists.now workers.old }
    ensures own { IsOf run.now.board.now first.new }
    ensures view { first.new.view ≡ with_out first.old.view (length workers.old.idle.items) }
    ensures none { workers.new.idle.items ≡ [] }
    ensures count { length workers.new.seated.items ≡ length workers.old.idle.items }
    ensures sent { All (IsSent run.now.lists.now first.old) workers.new.seated.items }
    ensures roomy { AreRoomy run.now.lists.now workers.new }
{
    'passes: while let Some(worker) = workers.idle.pop() {
        let pass = run.board.split(first);
        let seated = Some(Seated {
            board: run.board,
            pass,
        });
        workers
            .seated
            .push_reserved(SeatedWorker { seated, worker });
    }
}

/// One worker's part of a round: it passes the gate, and then draws and works until it is done.
fn work<G: Gate>(
    run: &Run<'_, G>,
    groups: &[usize],
    own: &mut SeatedWorker<'_>,
    number: u32,
    round: u64,
    look: &Looked<'_>,
)
    requires groups { AreGroups run.now.design.now.tables groups.now }
    requires run { IsRun run.now.board.now run.now.design.now run.now.lists.now run.now.direction }
    requires look { IsLook run.now.design.now look.now.windows.now look.now.marks.now }
    requires ready { IsReady run.now.board.now run.now.lists.now own.old }
    ensures { HasRun run.now.board.now run.now.design.now run.now.lists.now own.old own.new }
{
    run.gate.pass(number, round);
    own.worker.reset();
    // In a variable of its own while the worker works, so that the board's address need not be read again at each step.
    let Some(mut seated) = own.seated.take() else {
        unreachable!()
    };
    run_grouped(
        &mut seated,
        &mut own.worker,
        run.design,
        groups,
        run.lists,
        run.direction,
        look,
    );
    own.seated = Some(seated);
}

/// All workers work beside one another, half of them in a further thread, and so each half of them, until there is a
/// thread for each. Where no thread can be had, a half works after the other.
fn work_all<R: Threads + Sync, G: Gate>(
    rt: &R,
    run: &Run<'_, G>,
    groups: &[usize],
    seated: &mut [SeatedWorker<'_>],
    round: u64,
    look: &Looked<'_>,
)
    requires groups { AreGroups run.now.design.now.tables groups.now }
    requires run { IsRun run.now.board.now run.now.design.now run.now.lists.now run.now.direction }
    requires look { IsLook run.now.design.now look.now.windows.now look.now.marks.now }
    requires some { 0 < length seated.old }
    requires few { length seated.old ≤ most_workers }
    requires ready { All (IsReady run.now.board.now run.now.lists.now) seated.old }
    ensures { AllZip (HasRun run.now.board.now run.now.design.now run.now.lists.now) seated.old seated.new }
{
    let threads = seated.len();
    thread::for_each_mut(
        rt,
        seated,
        threads,
        &|place: usize, own: &mut SeatedWorker<'_>|
            requires { (place < most_workers) × AreGroups run.now.design.now.tables groups.now
                × IsRun run.now.board.now run.now.design.now run.now.lists.now run.now.direction
                × IsLook run.now.design.now look.now.windows.now look.now.marks.now
                × IsReady run.now.board.now run.now.lists.now own.now }
            ensures { HasRun run.entry.now.board.now run.entry.now.design.now run.entry.now.lists.now
                own.entry.now own.exit.now }
        { work(run, groups, own, place as u32 + 1, round, look) },
    );
}

/// Joins the passes of all workers.
fn take_back<'a, G>(run: &Run<'a, G>, workers: &mut Workers<'a>, first: &mut Pass)
    requires own { IsOf run.now.board.now first.old }
    requires first { IsFirst first.old }
    requires fresh { first.old.view.drawn ≡ [] }
    requires out { first.old.view.out ≡ length workers.old.seated.items }
    requires some { 0 < length workers.old.seated.items }
    requires none { workers.old.idle.items ≡ [] }
    requires roomy { AreRoomy run.now.lists.now workers.old }
    requires back { All (IsBack run.now.board.now run.now.design.now run.now.lists.now first.old)
        workers.old.seated.items }
    ensures own { IsOf run.now.board.now first.new }
    ensures alone { IsAlone first.new.view }
    ensures split { first.new.view.split ≡ first.old.view.split }
    ensures ran { (order : List ℕ) → IsOrder run.now.design.now.nets order
        → Ran order (knowledge_of first.old) (knowledge_of first.new) }
    ensures idle { AreIdle run.now.lists.now workers.new }
    ensures count { length workers.new.idle.items ≡ length workers.old.seated.items }
{
    'passes: while let Some(SeatedWorker { seated, worker }) = workers.seated.pop() {
        let Some(seated) = seated else { unreachable!() };
        run.board.join(first, seated.pass);
        workers.idle.push_reserved(worker);
    }
}

/// One round: every worker gets a pass of its own, all work beside one another until each is done, and all passes are
/// joined. The first pass then knows what all of them did, as if one had done it. Takes no memory.
pub(crate) fn round<'a, R: Threads + Sync, G: Gate>(
    rt: &R,
    run: &Run<'a, G>,
    groups: &[usize],
    workers: &mut Workers<'a>,
    first: &mut Pass,
    round: u64,
    windows: &Windows,
    marks: &[bool],
)
    requires groups { AreGroups run.now.design.now.tables groups.now }
    requires run { IsRun run.now.board.now run.now.design.now run.now.lists.now run.now.direction }
    requires own { IsOf run.now.board.now first.old }
    requires alone { IsAlone first.old.view }
    requires look { IsLook run.now.design.now windows.now marks.now }
    requires idle { AreIdle run.now.lists.now workers.old }
    requires some { 0 < length workers.old.idle.items }
    requires few { length workers.old.idle.items ≤ most_workers }
    ensures own { IsOf run.now.board.now first.new }
    ensures alone { IsAlone first.new.view }
    ensures split { first.new.view.split ≡ length workers.old.idle.items }
    ensures ran { (order : List ℕ) → IsOrder run.now.design.now.nets order
        → Ran order (knowledge_of first.old) (knowledge_of first.new) }
    ensures idle { AreIdle run.now.lists.now workers.new }
    ensures count { length workers.new.idle.items ≡ length workers.old.idle.items }
{
    let look = Looked { windows, marks };
    run.board.restart(first);
    send_out(run, workers, first);
    work_all(rt, run, groups, workers.seated.as_mut_slice(), round, &look);
    take_back(run, workers, first);
}
