//! Words and marks that threads share, and the passes by which they work on them.

ghost use Rattle.std.specs.Prelude.{◌≡◌, ◌+◌, ◌*◌, ◌%◌, ◌<◌, ◌≤◌, ◌^◌, min, max, IfOk, Some, vec_capacity};
ghost use Rattle.std.specs.List.{Contains};
ghost use Rattle.xt_model.specs.Limits.{most_workers, most_nets};
ghost use Rattle.xt_meaning.specs.Barrier.{IsFittingStart};
ghost use Rattle.xt_meaning.specs.Words.{MovesDown, MovesUp};
ghost use Rattle.net_eval.specs.ReadLists.{AreReadLists};
ghost use Rattle.chaos_core.specs.Boards.{nets_of, IsSeen};
ghost use Rattle.window_words.specs.Boards.{late_of};
ghost use Rattle.window_words.specs.Steps.{IsRested};
ghost use Rattle.dirty_words.specs.declared.view.Flight.{Flight};
ghost use Rattle.dirty_words.specs.Views.{first_dirty, with_noted, with_anew, with_pass_out, pass_sent, with_joined};
ghost use Rattle.dirty_words.specs.Boards.{IsAlone, IsFirst, IsFree, IsOf, IsSplitOff};
ghost use Rattle.dirty_words.specs.Steps.{mark_of, CanTake, Took, IsNextToLoad, Loaded, Saw, IsNextToPublish};
ghost use Rattle.dirty_words.specs.Steps.{Published, Looked, Drew};

use crate::rule::{
    DirtyRule, Draw, JoinAgain, Key, Load, Look, Lower, Note, Raise, Restart, See, SplitOff, Take,
};
use crate::view::DirtyView;
use atomic_table::{Seat, Table};
use chaos_core::MemoryBoard;
use net_eval::ReadLists;
use std::alloc::Global;
use std::marker::Model;
use std::snapshot::Snapshot;
use xt_model::{Design, Direction, NetId, NoMemory, Windows};

/// Words that threads share: eight for each net, as `Board` of `chaos_core` says, a mark for each net, and one word
/// from which numbers are drawn. A net is marked where something that it reads may have moved since it was evaluated.
/// Each call but `open` and `close` is one step on one word, and none waits for another thread.
#[derive(Drop)]
pub struct DirtyBoard {
    alloc: Global,
    table: Table<(), DirtyView, Key, DirtyRule, Global>,
    nets: usize,
}

impl Model for DirtyBoard {
    ghost use Rattle.std.specs.Prelude.{◌≡◌};
    ghost use Rattle.net_eval.specs.ReadLists.{AreReadLists};
    ghost use Rattle.chaos_core.specs.Boards.{nets_of};
    ghost use Rattle.dirty_words.specs.Boards.{DirtyId, HasWords, run_at};

    ghost Value = { DirtyId };

    ghost view = { λ b. record { table = b.table.shared.table_id; run = run_at b.table.shared.key } };

    ghost invariant = { λ b. HasWords b.table.shared.table_id (run_at b.table.shared.key).setting
        × (b.nets ≡ nets_of (run_at b.table.shared.key).setting)
        × AreReadLists (run_at b.table.shared.key).setting.design (run_at b.table.shared.key).lists };
}

/// The right to work on the words of a board, and what its holder knows of them. It takes no bytes, and may go to any
/// thread.
#[derive(Drop)]
pub struct DirtyPass {
    seat: Seat<(), DirtyView>,
}

impl Model for DirtyPass {
    ghost use Rattle.dirty_words.specs.Boards.{DirtyHolding, IsHeld};

    ghost Value = { DirtyHolding };

    ghost view = { λ p. record { table = p.seat.table_id; view = p.seat.me.0 } };

    ghost invariant = { λ p. IsHeld p.seat.table_id p.seat.me };
}

impl DirtyPass {
    /// A law, the clause of a call that does nothing: what a pass has seen crosses no barrier and is at or past the
    /// start, which fits.
    pub fn respects(&self)
        ensures { IsSeen self.now.view.base.setting self.now.view.base.seen }
    {
        let _seat = &self.seat;
    }
}

impl DirtyBoard {
    /// The words of these windows, with every net marked and nothing drawn, and the first pass. The read lists are the
    /// design's.
    pub fn open(
        alloc: Global,
        design: &Design,
        lists: &ReadLists,
        direction: Direction,
        start: &Windows,
    ) -> Result<(DirtyBoard, DirtyPass), NoMemory>
        requires start { IsFittingStart direction design.now start.now }
        requires lists { AreReadLists design.now lists.now }
        ensures own { IfOk result (λ opened. IsOf opened.0 opened.1) }
        ensures first { IfOk result (λ opened. opened.1.view ≡ first_dirty (record {
          setting = record { design = design.now; way = direction; start = start.now };
          lists = lists.now;
        })) }
    {
        let nets = design.nets().len();
        let opening = MemoryBoard::new(alloc, design, direction, start)?;
        let mut words = opening.into_words();
        words.reserve_exact(nets + 1)?;
        let marks = vec![in alloc; 1; nets]?;
        words.extend_from_slice(marks.as_slice())?;
        words.push(0)?;
        let key = Key {
            design: Snapshot::of(design),
            way: direction,
            start: Snapshot::of(start),
            lists: Snapshot::of(lists),
        };
        let (table, seat) = Table::of_words(alloc, words.as_slice(), &key)?;
        Ok((DirtyBoard { alloc, table, nets }, DirtyPass { seat }))
    }

    /// A law, the clause of a call that does nothing: the read lists with which the board was opened are the design's.
    pub fn has_read_lists(&self)
        ensures { AreReadLists self.now.run.setting.design self.now.run.lists }
    {
        let _table = &self.table;
    }

    /// Which word is the mark of a net.
    fn mark_word(&self, net: NetId) -> usize
        requires there { net.0 < nets_of self.now.run.setting }
        ensures word { result ≡ 8 * nets_of self.now.run.setting + net.0 }
    {
        self.draw_word() - self.nets + net.0 as usize
    }

    /// Which word is the draw word. It is the last.
    fn draw_word(&self) -> usize
        ensures word { result ≡ 9 * nets_of self.now.run.setting }
        ensures room { 9 * nets_of self.now.run.setting + 1 < 2 ^ 64 }
    {
        self.table.word_count() - 1
    }

    /// Takes the mark of a net, in one step: whether it was set. Then the net is in flight. The pass drew the number of
    /// the net's place in the order of the nets.
    pub fn take(&self, pass: &mut DirtyPass, net: NetId) -> bool
        requires own { IsOf self.now pass.old }
        requires take { CanTake pass.old.view net.0 }
        ensures own { IsOf self.now pass.new }
        ensures took { Took pass.old.view net.0 (mark_of result) pass.new.view }
    {
        let word = self.mark_word(net);
        self.table.shared.swap::<Take>(&mut pass.seat, word, 0) == 1
    }

    /// The number in the next word of the read list of the net in flight. It crosses no barrier and is at or past what
    /// was seen there, and is then loaded, and what is seen there.
    pub fn load(&self, pass: &mut DirtyPass, word: usize) -> u64
        requires own { IsOf self.now pass.old }
        requires word { word < 8 * nets_of pass.old.view.base.setting }
        requires next { (f : Flight) × IsNextToLoad pass.old.view word f }
        ensures own { IsOf self.now pass.new }
        ensures loaded { (f : Flight) → pass.old.view.flight ≡ Some f
            → Loaded pass.old.view f word result pass.new.view }
    {
        self.table.shared.load::<Load>(&mut pass.seat, word)
    }

    /// The number in a word, which is just what the first pass has seen there: it finds that while none is out.
    pub fn word(&self, first: &mut DirtyPass, word: usize) -> u64
        requires own { IsOf self.now first.old }
        requires alone { IsAlone first.old.view }
        requires word { word < 8 * nets_of first.old.view.base.setting }
        ensures own { IsOf self.now first.new }
        ensures saw { Saw first.old.view word result first.new.view }
    {
        self.table.shared.load::<See>(&mut first.seat, word)
    }

    /// Leaves the least of the number in a word and `value` there, and answers the number before. The word is the next
    /// of the net in flight, and the value what the operator makes there of the loaded words. Where the word moved, the
    /// pass owes a mark to each reader of the net; with the eighth word the flight ends.
    pub fn lower(&self, pass: &mut DirtyPass, word: usize, value: u64) -> u64
        requires own { IsOf self.now pass.old }
        requires word { word < 8 * nets_of pass.old.view.base.setting }
        requires way { MovesDown pass.old.view.base.setting.way (word % 2) }
        requires next { (f : Flight) × IsNextToPublish pass.old.view word value f }
        ensures own { IsOf self.now pass.new }
        ensures published { (f : Flight) → pass.old.view.flight ≡ Some f
            → Published pass.old.view f word result (min result value) pass.new.view }
    {
        self.table
            .shared
            .fetch_min::<Lower>(&mut pass.seat, word, value)
    }

    /// Leaves the greatest of the number in a word and `value` there, and answers the number before; else as `lower`.
    pub fn raise(&self, pass: &mut DirtyPass, word: usize, value: u64) -> u64
        requires own { IsOf self.now pass.old }
        requires word { word < 8 * nets_of pass.old.view.base.setting }
        requires way { MovesUp pass.old.view.base.setting.way (word % 2) }
        requires next { (f : Flight) × IsNextToPublish pass.old.view word value f }
        ensures own { IsOf self.now pass.new }
        ensures published { (f : Flight) → pass.old.view.flight ≡ Some f
            → Published pass.old.view f word result (max result value) pass.new.view }
    {
        self.table
            .shared
            .fetch_max::<Raise>(&mut pass.seat, word, value)
    }

    /// Marks a net to which the pass owes it.
    pub fn mark(&self, pass: &mut DirtyPass, net: NetId)
        requires own { IsOf self.now pass.old }
        requires owed { Contains pass.old.view.owed net.0 }
        ensures own { IsOf self.now pass.new }
        ensures view { pass.new.view ≡ with_noted pass.old.view net.0 }
    {
        let seat = &mut pass.seat;
        let word = self.mark_word(net);
        self.table.shared.fetch_or::<Note>(seat, word, 1);
    }

    /// Whether a net is marked: the first pass finds that while none is out. An unmarked net is at or past what the
    /// operator makes of it, and where no net is marked, the words are closed.
    pub fn marked(&self, first: &mut DirtyPass, net: NetId) -> bool
        requires own { IsOf self.now first.old }
        requires alone { IsAlone first.old.view }
        requires there { net.0 < nets_of first.old.view.base.setting }
        ensures own { IsOf self.now first.new }
        ensures looked { Looked first.old.view net.0 (mark_of result) first.new.view }
    {
        let word = self.mark_word(net);
        self.table.shared.load::<Look>(&mut first.seat, word) == 1
    }

    /// A number greater than every number that the pass drew since the last restart.
    pub fn draw(&self, pass: &mut DirtyPass) -> u64
        requires own { IsOf self.now pass.old }
        requires late { 0 < late_of pass.old.view.base }
        ensures own { IsOf self.now pass.new }
        ensures drew { Drew pass.old.view result pass.new.view }
    {
        let word = self.draw_word();
        self.table.shared.fetch_add::<Draw>(&mut pass.seat, word, 1)
    }

    /// Begins the numbers that are drawn anew. The nets that were taken are found no more.
    pub fn restart(&self, first: &mut DirtyPass)
        requires own { IsOf self.now first.old }
        requires alone { IsAlone first.old.view }
        ensures own { IsOf self.now first.new }
        ensures view { first.new.view ≡ with_anew first.old.view }
    {
        let word = self.draw_word();
        self.table.shared.store::<Restart>(&mut first.seat, word, 0);
    }

    /// A pass that has seen as much as the first and knows the same nets to have been found marked. The first then
    /// knows of no unmarked net. Takes no memory.
    pub fn split(&self, first: &mut DirtyPass) -> DirtyPass
        requires own { IsOf self.now first.old }
        requires first { IsFirst first.old.view }
        requires free { IsFree first.old.view }
        requires few { first.old.view.base.split < most_workers }
        ensures own { IsOf self.now first.new }
        ensures view { first.new.view ≡ with_pass_out first.old.view }
        ensures own_other { IsOf self.now result }
        ensures view_other { result.view ≡ pass_sent first.old.view }
    {
        let seat = self.table.shared.split_seat::<SplitOff>(&mut first.seat);
        DirtyPass { seat }
    }

    /// Takes a pass back: the first then knows what both knew.
    pub fn join(&self, first: &mut DirtyPass, other: DirtyPass)
        requires own { IsOf self.now first.old }
        requires first { IsFirst first.old.view }
        requires free { IsFree first.old.view }
        requires own_other { IsOf self.now other }
        requires other { IsSplitOff other.view }
        requires free_other { IsFree other.view }
        ensures own { IsOf self.now first.new }
        ensures view { first.new.view ≡ with_joined first.old.view other.view }
        ensures seen { IsSeen first.old.view.base.setting first.old.view.base.seen }
        ensures seen_other { IsSeen other.view.base.setting other.view.base.seen }
    {
        let DirtyPass { seat } = other;
        self.table
            .shared
            .join_seat::<JoinAgain>(&mut first.seat, seat);
    }

    /// Writes the words of the bounds, which are what the first pass has seen, into `words`, which has room for them.
    /// Takes no memory.
    pub fn load_words(&self, first: &mut DirtyPass, words: &mut Vec<u64>)
        requires own { IsOf self.now first.old }
        requires alone { IsAlone first.old.view }
        requires room { 8 * nets_of first.old.view.base.setting ≤ vec_capacity words.old }
        ensures own { IsOf self.now first.new }
        ensures view { first.new.view ≡ first.old.view }
        ensures words { words.new.items ≡ first.old.view.base.seen }
        ensures rested { 0 < nets_of first.old.view.base.setting → IsRested first.old.view.base }
    {
        // What the first has seen, where there is no word to load.
        first.respects();
        words.clear();
        for word in 0..8 * self.nets {
            words.push_reserved(self.word(first, word));
        }
    }

    /// The words of the bounds, which are what the first pass has seen. Where there is no memory, the board and the
    /// pass are gone.
    pub fn close(self, first: DirtyPass) -> Result<Vec<u64>, NoMemory>
        requires own { IsOf self first }
        requires alone { IsAlone first.view }
        ensures words { IfOk result (λ words. words.items ≡ first.view.base.seen) }
        ensures rested { IfOk result (λ _. 0 < nets_of first.view.base.setting → IsRested first.view.base) }
    {
        let mut first = first;
        let mut words = Vec::with_capacity(self.alloc, 8 * self.nets)?;
        self.load_words(&mut first, &mut words);
        Ok(words)
    }
}
