//! A visit to a net: its mark is taken, and where it was set, the net is evaluated and published, and where a word
//! moved, its readers are marked.

ghost use Rattle.std.specs.Prelude.{◌≡◌, ℕ, ◌*◌, ◌%◌, ◌<◌, ◌≤◌, ◌↔◌, List, [], length, slice_index, Some};
ghost use Rattle.std.specs.List.{All, Contains};
ghost use Rattle.std.specs.List.Sorted.{IsStrictlyIncreasing};
ghost use Rattle.xt_model.specs.Quads.{IsPairInRange};
ghost use Rattle.table_box.specs.Groups.{AreGroups};
ghost use Rattle.net_eval.specs.ReadLists.{AreReadLists, ids};
ghost use Rattle.chaos_core.specs.Boards.{nets_of};
ghost use Rattle.chaos_core.specs.Tasks.{list_of, evaluated};
ghost use Rattle.chaos_core.specs.Views.{IsLoaded};
ghost use Rattle.dirty_words.specs.declared.view.Flight.{Flight};
ghost use Rattle.dirty_words.specs.Boards.{IsOf};
ghost use Rattle.dirty_words.specs.Steps.{CanTake, IsNextToPublish};
ghost use Rattle.dirty_run.specs.Notes.{AreNotes};
ghost use Rattle.dirty_run.specs.Visits.{first_words, fresh_flight, HasEvaluated, HasLoaded, HasPaid};
ghost use Rattle.dirty_run.specs.Visits.{HasPublished, HasRoom};
ghost use Rattle.dirty_run.specs.Visits.{HasVisited, IsPublishing, IsReady, IsRun};

use crate::notes::{Before, Notes};
use crate::worker::{Run, Worker};
use chaos_core::{evaluate_grouped, evaluate_noted, moves_down, numbers_in};
use dirty_words::{DirtyBoard, DirtyPass};
use net_eval::ReadLists;
use xt_model::{Direction, NetId, Pair};

/// Loads all words of the read list of the net in flight.
fn load_all(
    board: &DirtyBoard,
    pass: &mut DirtyPass,
    lists: &ReadLists,
    net: NetId,
    loaded: &mut [u64],
)
    requires own { IsOf board.now pass.old }
    requires fresh { pass.old.view.flight ≡ Some (fresh_flight net.0) }
    requires there { net.0 < nets_of pass.old.view.base.setting }
    requires lists { pass.old.view.lists ≡ lists.now }
    requires whole { AreReadLists pass.old.view.base.setting.design lists.now }
    requires room { 8 * length (list_of lists.now net.0) ≤ length loaded.old }
    ensures own { IsOf board.now pass.new }
    ensures loaded { HasLoaded pass.old.view net.0 (first_words lists.now net.0 loaded.new) pass.new.view }
    ensures room { length loaded.new ≡ length loaded.old }
{
    // What the pass has seen, where there is no word to load.
    pass.respects();
    let reads = lists.of(net);
    for read in 0..reads.len() {
        let first = 8 * reads[read].0 as usize;
        for place in 0..8 {
            loaded[8 * read + place] = board.load(pass, first + place);
        }
    }
}

/// What the operator makes of a net of the numbers loaded for its read list: as noted in the round before, where what
/// decides it is the same, and else by an evaluation.
fn evaluate_recalled<G>(
    run: &Run<'_, G>,
    before: &Before,
    net: NetId,
    numbers: &[u64],
    places: &mut [u32],
) -> Pair
    requires groups { AreGroups run.now.design.now.tables run.now.groups.now }
    requires before { All (AreNotes run.now.design.now run.now.lists.now) before.now.notes.items }
    requires there { net.0 < length run.now.lists.now }
    requires loaded { IsLoaded run.now.design.now (list_of run.now.lists.now net.0) net.0 numbers.now }
    requires places { length run.now.design.now.nets ≤ length places.old }
    ensures value { result
        ≡ evaluated run.now.design.now (list_of run.now.lists.now net.0) numbers.now net.0 }
    ensures range { IsPairInRange result }
    ensures count { length places.new ≡ length places.old }
{
    let reads = run.lists.of(net);
    let Some(noted) = before.recall(run, net) else {
        return evaluate_grouped(run.design, run.groups, reads, net, numbers, places);
    };
    evaluate_noted(
        run.design,
        run.groups,
        reads,
        net,
        numbers,
        places,
        noted.numbers,
        noted.pair,
    )
}

/// The same, by a worker that notes its evaluations: it notes this one.
fn evaluate_loaded<G>(
    run: &Run<'_, G>,
    before: &Before,
    net: NetId,
    numbers: &[u64],
    places: &mut [u32],
    notes: &mut Notes,
) -> Pair
    requires groups { AreGroups run.now.design.now.tables run.now.groups.now }
    requires before { All (AreNotes run.now.design.now run.now.lists.now) before.now.notes.items }
    requires there { net.0 < length run.now.lists.now }
    requires loaded { IsLoaded run.now.design.now (list_of run.now.lists.now net.0) net.0 numbers.now }
    requires places { length run.now.design.now.nets ≤ length places.old }
    requires notes { AreNotes run.now.design.now run.now.lists.now notes.old }
    ensures value { result
        ≡ evaluated run.now.design.now (list_of run.now.lists.now net.0) numbers.now net.0 }
    ensures range { IsPairInRange result }
    ensures count { length places.new ≡ length places.old }
    ensures notes { AreNotes run.now.design.now run.now.lists.now notes.new }
{
    let pair = evaluate_recalled(run, before, net, numbers, places);
    notes.note(net, numbers, &pair);
    pair
}

/// Loads all words of the read list of the net in flight, and gives what the operator makes of the net of them. Notes
/// both.
fn evaluate<G>(
    run: &Run<'_, G>,
    before: &Before,
    pass: &mut DirtyPass,
    worker: &mut Worker,
    net: NetId,
) -> Pair
    requires run { IsRun run.now.board.now run.now.design.now run.now.groups.now
        run.now.lists.now run.now.readers.now run.now.direction }
    requires before { All (AreNotes run.now.design.now run.now.lists.now) before.now.notes.items }
    requires own { IsOf run.now.board.now pass.old }
    requires fresh { pass.old.view.flight ≡ Some (fresh_flight net.0) }
    requires there { net.0 < nets_of pass.old.view.base.setting }
    requires room { HasRoom run.now.design.now run.now.lists.now worker.old }
    ensures own { IsOf run.now.board.now pass.new }
    ensures evaluated { HasEvaluated pass.old.view run.now.design.now run.now.lists.now net.0 result pass.new.view }
    ensures range { IsPairInRange result }
    ensures room { HasRoom run.now.design.now run.now.lists.now worker.new }
{
    load_all(
        run.board,
        pass,
        run.lists,
        net,
        worker.loaded.as_mut_slice(),
    );
    let loaded = &worker.loaded.as_slice()[..8 * run.lists.of(net).len()];
    let places = worker.places.as_mut_slice();
    evaluate_loaded(run, before, net, loaded, places, &mut worker.notes)
}

/// Publishes the next word of the net in flight: whether that moved the word.
fn publish(
    board: &DirtyBoard,
    pass: &mut DirtyPass,
    way: Direction,
    word: usize,
    value: u64,
) -> bool
    requires own { IsOf board.now pass.old }
    requires way { pass.old.view.base.setting.way ≡ way }
    requires word { word < 8 * nets_of pass.old.view.base.setting }
    requires next { (f : Flight) × IsNextToPublish pass.old.view word value f }
    ensures own { IsOf board.now pass.new }
    ensures published { (f : Flight) → pass.old.view.flight ≡ Some f
        → HasPublished pass.old.view f word value result pass.new.view }
{
    if moves_down(way, word) {
        return value < board.lower(pass, word, value);
    }
    board.raise(pass, word, value) < value
}

/// One of several numbers.
fn number_at(numbers: &[u64], place: usize) -> u64
    requires { place < length numbers.now }
    ensures { result ≡ slice_index numbers.now place }
{
    numbers[place]
}

/// Publishes the eight words of the net in flight: whether one of them moved.
fn publish_all(
    board: &DirtyBoard,
    pass: &mut DirtyPass,
    way: Direction,
    net: NetId,
    pair: &Pair,
) -> bool
    requires own { IsOf board.now pass.old }
    requires way { pass.old.view.base.setting.way ≡ way }
    requires there { net.0 < nets_of pass.old.view.base.setting }
    requires free { pass.old.view.owed ≡ [] }
    requires range { IsPairInRange pair.now }
    requires ready { (f : Flight) × IsReady pass.old.view net.0 pair.now f }
    ensures own { IsOf board.now pass.new }
    ensures published { (f : Flight) → pass.old.view.flight ≡ Some f
        → IsPublishing pass.old.view net.0 pair.now f 8 result pass.new.view }
{
    pass.respects();
    let numbers = numbers_in(pair);
    let mut moved = false;
    for place in 0..8 {
        let word = 8 * net.0 as usize + place;
        if publish(board, pass, way, word, number_at(&numbers, place)) {
            moved = true;
        }
    }
    moved
}

/// Marks each of several nets, all that are owed.
fn pay(board: &DirtyBoard, pass: &mut DirtyPass, readers: &[NetId])
    requires own { IsOf board.now pass.old }
    requires once { IsStrictlyIncreasing (ids readers.now) }
    requires owed { (m : ℕ) → Contains pass.old.view.owed m ↔ Contains (ids readers.now) m }
    ensures own { IsOf board.now pass.new }
    ensures paid { HasPaid pass.old.view pass.new.view }
{
    for reader in readers {
        board.mark(pass, *reader);
    }
}

/// Visits a net of which the pass drew the number.
pub(crate) fn visit<G>(
    run: &Run<'_, G>,
    before: &Before,
    pass: &mut DirtyPass,
    worker: &mut Worker,
    net: NetId,
)
    requires run { IsRun run.now.board.now run.now.design.now run.now.groups.now
        run.now.lists.now run.now.readers.now run.now.direction }
    requires before { All (AreNotes run.now.design.now run.now.lists.now) before.now.notes.items }
    requires own { IsOf run.now.board.now pass.old }
    requires take { CanTake pass.old.view net.0 }
    requires room { HasRoom run.now.design.now run.now.lists.now worker.old }
    ensures own { IsOf run.now.board.now pass.new }
    ensures visited { HasVisited pass.old.view net.0 pass.new.view }
    ensures room { HasRoom run.now.design.now run.now.lists.now worker.new }
{
    // What the pass has seen, where the mark was not set.
    pass.respects();
    if !run.board.take(pass, net) {
        return;
    }
    let pair = evaluate(run, before, pass, worker, net);
    if publish_all(run.board, pass, run.direction, net, &pair) {
        pay(run.board, pass, run.readers.of(net));
    }
}
