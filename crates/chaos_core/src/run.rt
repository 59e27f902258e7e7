//! A worker's run over a board.

ghost use Rattle.std.specs.Prelude.{◌≡◌, ℕ, suc, ◌↔◌, ◌+◌, ◌<◌, ◌%◌, List, [], length, IfSome, IsTrue};
ghost use Rattle.std.specs.List.{All};
ghost use Rattle.xt_model.specs.declared.net.NetId.{NetId};
ghost use Rattle.xt_model.specs.Levels.{IsOrder};
ghost use Rattle.xt_model.specs.Parts.{Parts};
ghost use Rattle.table_box.specs.Groups.{AreGroups};
ghost use Rattle.net_eval.specs.ReadLists.{AreReadLists};
ghost use Rattle.chaos_core.specs.Boards.{nets_of};
ghost use Rattle.chaos_core.specs.Tasks.{done, idle, loaded_of, loading, moved_on, places_of, publishing};
ghost use Rattle.chaos_core.specs.Tasks.{room_of, task_of};
ghost use Rattle.chaos_core.specs.Steps.{AreSteps, Fits, FitsPublishing, IsFitting};
ghost use Rattle.chaos_core.specs.Looks.{IsLook};
ghost use Rattle.chaos_core.specs.Runs.{IsDone, Ran};

use crate::ahead::read_ahead;
use crate::board::Board;
use crate::looked::{Looked, evaluate_by};
use crate::steps::{load_step, publish, publish_step, worker_step};
use crate::words::number_in;
use crate::worker::{Stage, Worker};
use net_eval::ReadLists;
use std::mem;
use xt_model::{Design, Direction, NetId, Pair};

/// Whether a worker is done.
pub(crate) fn is_done(worker: &Worker) -> bool
    ensures { IsTrue result ↔ IsDone (task_of worker.now) }
{
    matches!(worker.stage, Stage::Finished)
}

/// Touches the first word of each of these nets. All are then asked for at once, before they are loaded one by one.
fn touch_words<B: Board>(board: &B, nets: &[NetId])
    requires nets { All (λ (net : NetId). net.0 < nets_of (B.knows board.now).setting) nets.now }
{
    for net in nets {
        board.touch(8 * net.0 as usize);
    }
}

/// Makes the steps in which a worker loads the rest of the words of the read list of its net, one a step, from the
/// first word of a net on. The last of them evaluates the net, unless a look tells what that gives.
fn load_rest<B: Board>(
    board: &mut B,
    worker: &mut Worker,
    design: &Design,
    groups: &[usize],
    lists: &ReadLists,
    net: NetId,
    look: Option<&Looked<'_>>,
)
    requires groups { AreGroups design.now.tables groups.now }
    requires design { (B.knows board.old).setting.design ≡ design.now }
    requires lists { AreReadLists design.now lists.now }
    requires look { IfSome look (λ l. IsLook design.now l.now.windows.now l.now.marks.now) }
    requires fits { IsFitting (B.knows board.old) lists.now worker.old }
    requires loading { task_of worker.old ≡ loading net.0 (loaded_of (task_of worker.old)) }
    requires whole { length (loaded_of (task_of worker.old)) % 8 ≡ 0 }
    ensures fits { IsFitting (B.knows board.new) lists.now worker.new }
    ensures steps { (order : List ℕ) → (more : ℕ) × AreSteps design.now lists.now order (suc more)
        (B.knows board.old) (task_of worker.old) (B.knows board.new) (task_of worker.new) }
    ensures room { room_of worker.new ≡ room_of worker.old }
    ensures places { places_of worker.new ≡ places_of worker.old }
{
    let reads = lists.of(net);
    touch_words(board, reads);
    let alloc = *worker.loaded.allocator();
    // Taken out of the worker until all is loaded, so that its end and its room need not be read again at each load.
    let mut loaded = mem::replace(&mut worker.loaded, Vec::new(alloc));
    for place in loaded.as_slice().len() / 8..reads.len() {
        let first = 8 * reads[place].0 as usize;
        for side in 0..8 {
            let number = board.load(first + side);
            loaded.push_reserved(number);
        }
    }
    let pair = evaluate_by(
        design,
        groups,
        lists,
        net,
        loaded.as_slice(),
        worker.places.as_mut_slice(),
        look,
    );
    worker.loaded = loaded;
    worker.stage = Stage::Publishing(net.0, pair, 0);
}

/// Makes the steps in which a worker loads the rest of the words of the read list of its net, or where it is amid the
/// words of a net, the next step alone.
fn load_on<B: Board>(
    board: &mut B,
    worker: &mut Worker,
    design: &Design,
    groups: &[usize],
    lists: &ReadLists,
    net: NetId,
    look: Option<&Looked<'_>>,
)
    requires groups { AreGroups design.now.tables groups.now }
    requires design { (B.knows board.old).setting.design ≡ design.now }
    requires lists { AreReadLists design.now lists.now }
    requires look { IfSome look (λ l. IsLook design.now l.now.windows.now l.now.marks.now) }
    requires fits { IsFitting (B.knows board.old) lists.now worker.old }
    requires loading { task_of worker.old ≡ loading net.0 (loaded_of (task_of worker.old)) }
    ensures fits { IsFitting (B.knows board.new) lists.now worker.new }
    ensures steps { (order : List ℕ) → (more : ℕ) × AreSteps design.now lists.now order (suc more)
        (B.knows board.old) (task_of worker.old) (B.knows board.new) (task_of worker.new) }
    ensures room { room_of worker.new ≡ room_of worker.old }
    ensures places { places_of worker.new ≡ places_of worker.old }
{
    if worker.loaded.as_slice().len() % 8 == 0 {
        read_ahead(worker, design, net, look);
        load_rest(board, worker, design, groups, lists, net, look);
    } else {
        load_step(board, worker, design, lists, net);
    }
}

/// Makes the two steps in which a worker publishes the words of its net at a place and at the next.
#[inline(always)]
fn publish_two<B: Board>(board: &mut B, direction: Direction, net: u32, pair: &Pair, place: u32)
    requires way { (B.knows board.old).setting.way ≡ direction }
    requires two { place + 1 < 8 }
    requires fits { FitsPublishing (B.knows board.old) net pair.now place }
    ensures way { (B.knows board.new).setting.way ≡ direction }
    ensures fits { (d : Parts) (lists : List (List NetId)) (order : List ℕ)
        → Fits (B.knows board.new) lists (moved_on d lists order (publishing net pair.now (place + 1)) 0) }
    ensures steps { (d : Parts) (lists : List (List NetId)) (order : List ℕ) → AreSteps d lists order 2
        (B.knows board.old) (publishing net pair.now place)
        (B.knows board.new) (moved_on d lists order (publishing net pair.now (place + 1)) 0) }
{
    let first = 8 * net as usize;
    let next = place + 1;
    publish(
        board,
        direction,
        first + place as usize,
        number_in(pair, place),
    );
    publish(
        board,
        direction,
        first + next as usize,
        number_in(pair, next),
    );
}

/// Makes the steps in which a worker publishes the words of its net, one a step, or where it has published some of
/// them, the next step alone.
fn publish_on<B: Board>(
    board: &mut B,
    worker: &mut Worker,
    direction: Direction,
    net: u32,
    pair: Pair,
    from: u32,
)
    requires way { (B.knows board.old).setting.way ≡ direction }
    requires fits { FitsPublishing (B.knows board.old) net pair from }
    ensures fits { (lists : List (List NetId)) → Fits (B.knows board.new) lists (task_of worker.new) }
    ensures steps { (d : Parts) (lists : List (List NetId)) (order : List ℕ)
        → (more : ℕ) × AreSteps d lists order (suc more)
        (B.knows board.old) (publishing net pair from) (B.knows board.new) (task_of worker.new) }
    ensures room { room_of worker.new ≡ room_of worker.old }
    ensures places { places_of worker.new ≡ places_of worker.old }
{
    if from == 0 {
        publish_two(board, direction, net, &pair, 0);
        publish_two(board, direction, net, &pair, 2);
        publish_two(board, direction, net, &pair, 4);
        publish_two(board, direction, net, &pair, 6);
        worker.stage = Stage::Idle;
    } else {
        publish_step(board, worker, direction, net, pair, from);
    }
}

/// Makes a step of a worker that is not done; where it has loaded whole nets of a read list, the steps in which it
/// loads the rest of that, and where it has published none of its net's words, those in which it publishes all.
fn advance<B: Board>(
    board: &mut B,
    worker: &mut Worker,
    design: &Design,
    groups: &[usize],
    lists: &ReadLists,
    direction: Direction,
    look: Option<&Looked<'_>>,
)
    requires groups { AreGroups design.now.tables groups.now }
    requires design { (B.knows board.old).setting.design ≡ design.now }
    requires direction { (B.knows board.old).setting.way ≡ direction }
    requires lists { AreReadLists design.now lists.now }
    requires look { IfSome look (λ l. IsLook design.now l.now.windows.now l.now.marks.now) }
    requires fits { IsFitting (B.knows board.old) lists.now worker.old }
    requires late { task_of worker.old ≡ idle → 0 < (B.knows board.old).late }
    ensures fits { IsFitting (B.knows board.new) lists.now worker.new }
    ensures steps { (order : List ℕ) → IsOrder design.now.nets order
        → (more : ℕ) × AreSteps design.now lists.now order (suc more)
        (B.knows board.old) (task_of worker.old) (B.knows board.new) (task_of worker.new) }
    ensures room { room_of worker.new ≡ room_of worker.old }
    ensures places { places_of worker.new ≡ places_of worker.old }
{
    match worker.stage {
        Stage::Loading(net) => load_on(board, worker, design, groups, lists, NetId(net), look),
        Stage::Publishing(net, pair, from) => {
            publish_on(board, worker, direction, net, pair, from);
        }
        Stage::Idle | Stage::Finished => {
            worker_step(board, worker, design, lists, direction);
        }
    }
}

/// The run of an idle worker, with what a look found or without.
fn run_by<B: Board>(
    board: &mut B,
    worker: &mut Worker,
    design: &Design,
    groups: &[usize],
    lists: &ReadLists,
    direction: Direction,
    look: Option<&Looked<'_>>,
)
    requires groups { AreGroups design.now.tables groups.now }
    requires design { (B.knows board.old).setting.design ≡ design.now }
    requires direction { (B.knows board.old).setting.way ≡ direction }
    requires lists { AreReadLists design.now lists.now }
    requires look { IfSome look (λ l. IsLook design.now l.now.windows.now l.now.marks.now) }
    requires fits { IsFitting (B.knows board.old) lists.now worker.old }
    requires idle { task_of worker.old ≡ idle }
    requires fresh { (B.knows board.old).drawn ≡ [] }
    requires late { 0 < (B.knows board.old).late }
    ensures ran { (order : List ℕ) → IsOrder design.now.nets order → Ran order (B.knows board.old) (B.knows board.new) }
    ensures steps { (order : List ℕ) → IsOrder design.now.nets order
        → (count : ℕ) × AreSteps design.now lists.now order count
        (B.knows board.old) (task_of worker.old) (B.knows board.new) (task_of worker.new) }
    ensures done { task_of worker.new ≡ done }
    ensures room { room_of worker.new ≡ room_of worker.old }
    ensures places { places_of worker.new ≡ places_of worker.old }
{
    'steps: while !is_done(worker) {
        advance(board, worker, design, groups, lists, direction, look);
    }
}

/// Makes steps of an idle worker until it is done: it draws numbers, and evaluates and publishes the net at each
/// place of the order that it draws. Takes no memory.
pub fn run_worker<B: Board>(
    board: &mut B,
    worker: &mut Worker,
    design: &Design,
    lists: &ReadLists,
    direction: Direction,
)
    requires design { (B.knows board.old).setting.design ≡ design.now }
    requires direction { (B.knows board.old).setting.way ≡ direction }
    requires lists { AreReadLists design.now lists.now }
    requires fits { IsFitting (B.knows board.old) lists.now worker.old }
    requires idle { task_of worker.old ≡ idle }
    requires fresh { (B.knows board.old).drawn ≡ [] }
    requires late { 0 < (B.knows board.old).late }
    ensures ran { (order : List ℕ) → IsOrder design.now.nets order → Ran order (B.knows board.old) (B.knows board.new) }
    ensures steps { (order : List ℕ) → IsOrder design.now.nets order
        → (count : ℕ) × AreSteps design.now lists.now order count
        (B.knows board.old) (task_of worker.old) (B.knows board.new) (task_of worker.new) }
    ensures done { task_of worker.new ≡ done }
    ensures room { room_of worker.new ≡ room_of worker.old }
    ensures places { places_of worker.new ≡ places_of worker.old }
{
    run_by(board, worker, design, &[], lists, direction, None);
}

/// A run as by [`run_worker`], where groups of the design's tables are known, as `table_groups` finds them. Where the
/// last look knows that the operator gives the windows of a net back, and the numbers that the worker loads for its
/// read list are those of the look's windows, it does not evaluate the net.
pub fn run_grouped<B: Board>(
    board: &mut B,
    worker: &mut Worker,
    design: &Design,
    groups: &[usize],
    lists: &ReadLists,
    direction: Direction,
    look: &Looked<'_>,
)
    requires groups { AreGroups design.now.tables groups.now }
    requires design { (B.knows board.old).setting.design ≡ design.now }
    requires direction { (B.knows board.old).setting.way ≡ direction }
    requires lists { AreReadLists design.now lists.now }
    requires look { IsLook design.now look.now.windows.now look.now.marks.now }
    requires fits { IsFitting (B.knows board.old) lists.now worker.old }
    requires idle { task_of worker.old ≡ idle }
    requires fresh { (B.knows board.old).drawn ≡ [] }
    requires late { 0 < (B.knows board.old).late }
    ensures ran { (order : List ℕ) → IsOrder design.now.nets order → Ran order (B.knows board.old) (B.knows board.new) }
    ensures steps { (order : List ℕ) → IsOrder design.now.nets order
        → (count : ℕ) × AreSteps design.now lists.now order count
        (B.knows board.old) (task_of worker.old) (B.knows board.new) (task_of worker.new) }
    ensures done { task_of worker.new ≡ done }
    ensures room { room_of worker.new ≡ room_of worker.old }
    ensures places { places_of worker.new ≡ places_of worker.old }
{
    run_by(board, worker, design, groups, lists, direction, Some(look));
}
