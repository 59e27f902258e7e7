//! One step of a worker: one action on the board.

ghost use Rattle.std.specs.Prelude.{◌≡◌, ℕ, ◌*◌, ◌%◌, ◌<◌, ◌≤◌, List, length, IsTrue, IsFalse};
ghost use Rattle.xt_model.specs.Quads.{IsPairInRange};
ghost use Rattle.xt_model.specs.Levels.{IsOrder};
ghost use Rattle.xt_model.specs.declared.net.NetId.{NetId};
ghost use Rattle.xt_model.specs.Parts.{Parts};
ghost use Rattle.xt_meaning.specs.Words.{MovesDown, MovesUp};
ghost use Rattle.net_eval.specs.ReadLists.{AreReadLists, ids};
ghost use Rattle.chaos_core.specs.Boards.{CanPublish, HasPublished, IsSeen, nets_of};
ghost use Rattle.chaos_core.specs.Tasks.{evaluated, idle, loaded_of, loading, moved_on, places_of, publishing};
ghost use Rattle.chaos_core.specs.Tasks.{room_of, task_at, task_of, with_loaded};
ghost use Rattle.chaos_core.specs.Steps.{Fits, FitsPublishing, IsFitting, Steps};
ghost use Rattle.chaos_core.specs.Views.{IsLoaded};

use crate::board::Board;
use crate::loaded::evaluate;
use crate::words::number_in;
use crate::worker::{Moved, Stage, Worker};
use net_eval::ReadLists;
use xt_model::{Design, Direction, NetId, Pair};

/// The stage of a worker that has loaded these numbers for a net: it goes on, until the read list is whole.
#[inline(always)]
fn stage_with(
    design: &Design,
    reads: &[NetId],
    net: NetId,
    numbers: &[u64],
    places: &mut [u32],
) -> Stage
    requires few { length numbers.now ≤ 8 * length reads.now }
    requires whole { length numbers.now ≡ 8 * length reads.now
        → IsLoaded design.now (ids reads.now) net.0 numbers.now }
    requires places { length design.now.nets ≤ length places.old }
    ensures task { task_at result numbers.now ≡ with_loaded design.now (ids reads.now) net.0 numbers.now }
    ensures range { 8 * length reads.now ≤ length numbers.now
        → IsPairInRange (evaluated design.now (ids reads.now) numbers.now net.0) }
    ensures count { length places.new ≡ length places.old }
{
    if numbers.len() < 8 * reads.len() {
        return Stage::Loading(net.0);
    }
    Stage::Publishing(net.0, evaluate(design, reads, net, numbers, places), 0)
}

/// An idle worker draws a place in the order of the nets, and begins with the net there.
fn draw_step<B: Board>(
    board: &mut B,
    worker: &mut Worker,
    design: &Design,
    lists: &ReadLists,
) -> Moved
    requires design { (B.knows board.old).setting.design ≡ design.now }
    requires lists { AreReadLists design.now lists.now }
    requires fits { IsFitting (B.knows board.old) lists.now worker.old }
    requires idle { task_of worker.old ≡ idle }
    requires late { 0 < (B.knows board.old).late }
    ensures fits { IsFitting (B.knows board.new) lists.now worker.new }
    ensures step { (order : List ℕ) → IsOrder design.now.nets order
        → Steps design.now lists.now order (B.knows board.old) idle result (B.knows board.new) (task_of worker.new) }
    ensures room { room_of worker.new ≡ room_of worker.old }
    ensures places { places_of worker.new ≡ places_of worker.old }
{
    let number = board.draw();
    if number >= design.nets().len() as u64 {
        worker.stage = Stage::Finished;
        return Moved::Done;
    }
    let net = NetId(design.order()[number as usize]);
    worker.loaded.clear();
    worker.stage = stage_with(
        design,
        lists.of(net),
        net,
        worker.loaded.as_slice(),
        worker.places.as_mut_slice(),
    );
    Moved::Drew(number)
}

/// A worker loads the next word of the read list of its net.
pub(crate) fn load_step<B: Board>(
    board: &mut B,
    worker: &mut Worker,
    design: &Design,
    lists: &ReadLists,
    net: NetId,
) -> Moved
    requires design { (B.knows board.old).setting.design ≡ design.now }
    requires lists { AreReadLists design.now lists.now }
    requires fits { IsFitting (B.knows board.old) lists.now worker.old }
    requires loading { task_of worker.old ≡ loading net.0 (loaded_of (task_of worker.old)) }
    ensures fits { IsFitting (B.knows board.new) lists.now worker.new }
    ensures step { (order : List ℕ) → Steps design.now lists.now order (B.knows board.old)
        (task_of worker.old) result (B.knows board.new) (task_of worker.new) }
    ensures room { room_of worker.new ≡ room_of worker.old }
    ensures places { places_of worker.new ≡ places_of worker.old }
{
    let reads = lists.of(net);
    let place = worker.loaded.as_slice().len();
    let word = 8 * reads[place / 8].0 as usize + place % 8;
    let number = board.load(word);
    worker.loaded.push_reserved(number);
    worker.stage = stage_with(
        design,
        reads,
        net,
        worker.loaded.as_slice(),
        worker.places.as_mut_slice(),
    );
    Moved::Loaded(word)
}

/// Whether a run in this direction lowers a word. If not, it raises it.
pub fn moves_down(way: Direction, word: usize) -> bool
    ensures down { IsTrue result → MovesDown way (word % 2) }
    ensures up { IsFalse result → MovesUp way (word % 2) }
{
    match way {
        Direction::Widen => word % 2 == 0,
        Direction::Narrow => word % 2 == 1,
    }
}

/// Moves a word to a value, where that is further in the direction.
pub(crate) fn publish<B: Board>(board: &mut B, way: Direction, word: usize, value: u64)
    requires way { (B.knows board.old).setting.way ≡ way }
    requires word { word < 8 * nets_of (B.knows board.old).setting }
    requires value { CanPublish (B.knows board.old) word value }
    ensures publishes { HasPublished (B.knows board.old) word value (B.knows board.new) }
    ensures seen { IsSeen (B.knows board.new).setting (B.knows board.new).seen }
{
    if moves_down(way, word) {
        board.lower(word, value);
    } else {
        board.raise(word, value);
    }
}

/// What a worker is at after it published one of the eight words of its net.
fn stage_after(net: u32, pair: Pair, place: u32) -> Stage
    requires { place < 8 }
    ensures { (d : Parts) (lists : List (List NetId)) (order numbers : List ℕ) (number : ℕ)
        → task_at result numbers ≡ moved_on d lists order (publishing net pair place) number }
{
    if place + 1 < 8 {
        return Stage::Publishing(net, pair, place + 1);
    }
    Stage::Idle
}

/// A worker publishes the next of the eight words of its net.
pub(crate) fn publish_step<B: Board>(
    board: &mut B,
    worker: &mut Worker,
    way: Direction,
    net: u32,
    pair: Pair,
    place: u32,
) -> Moved
    requires way { (B.knows board.old).setting.way ≡ way }
    requires fits { FitsPublishing (B.knows board.old) net pair place }
    ensures fits { (lists : List (List NetId)) → Fits (B.knows board.new) lists (task_of worker.new) }
    ensures step { (d : Parts) (lists : List (List NetId)) (order : List ℕ)
        → Steps d lists order (B.knows board.old) (publishing net pair place) result (B.knows board.new)
        (task_of worker.new) }
    ensures room { room_of worker.new ≡ room_of worker.old }
    ensures places { places_of worker.new ≡ places_of worker.old }
{
    let word = 8 * net as usize + place as usize;
    publish(board, way, word, number_in(&pair, place));
    worker.stage = stage_after(net, pair, place);
    Moved::Published(word)
}

/// Makes one step of a worker: one action on the board, and none where the worker is done. An idle worker draws a
/// place in the order of the nets; it then loads the words of the read list of the net there in ascending order, one
/// a step, publishes the eight words of the net in ascending order, one a step, and is idle again. It is done once it
/// drew a number at or past the net count. Takes no memory.
pub fn worker_step<B: Board>(
    board: &mut B,
    worker: &mut Worker,
    design: &Design,
    lists: &ReadLists,
    direction: Direction,
) -> Moved
    requires design { (B.knows board.old).setting.design ≡ design.now }
    requires direction { (B.knows board.old).setting.way ≡ direction }
    requires lists { AreReadLists design.now lists.now }
    requires fits { IsFitting (B.knows board.old) lists.now worker.old }
    requires late { task_of worker.old ≡ idle → 0 < (B.knows board.old).late }
    ensures fits { IsFitting (B.knows board.new) lists.now worker.new }
    ensures step { (order : List ℕ) → IsOrder design.now.nets order
        → Steps design.now lists.now order (B.knows board.old) (task_of worker.old) result (B.knows board.new)
        (task_of worker.new) }
    ensures room { room_of worker.new ≡ room_of worker.old }
    ensures places { places_of worker.new ≡ places_of worker.old }
{
    match worker.stage {
        Stage::Idle => draw_step(board, worker, design, lists),
        Stage::Loading(net) => load_step(board, worker, design, lists, NetId(net)),
        Stage::Publishing(net, pair, place) => {
            publish_step(board, worker, direction, net, pair, place)
        }
        Stage::Finished => Moved::Done,
    }
}
