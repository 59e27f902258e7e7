//! Words that threads share, and the passes by which they work on them.

ghost use Rattle.std.specs.Prelude.{◌≡◌, ◌+◌, ◌*◌, ◌%◌, ◌<◌, ◌^◌, min, max, IfOk};
ghost use Rattle.xt_model.specs.Limits.{most_workers};
ghost use Rattle.xt_meaning.specs.Barrier.{IsFittingStart};
ghost use Rattle.xt_meaning.specs.Words.{MovesDown, MovesUp};
ghost use Rattle.chaos_core.specs.Boards.{nets_of, CanPublish, IsSeen};
ghost use Rattle.window_words.specs.Views.{first_view, begun_anew, with_one_out, sent_out, with_both};
ghost use Rattle.window_words.specs.Boards.{knowledge_of, late_of, IsAlone, IsFirst, IsOf, IsSplitOff};
ghost use Rattle.window_words.specs.Steps.{Loaded, Published, Drew, IsRested};

use crate::rule::{Draw, JoinAgain, Key, Load, Lower, Raise, Restart, SplitOff, WindowRule};
use crate::view::View;
use atomic_table::{Seat, Table};
use chaos_core::MemoryBoard;
use std::alloc::Global;
use std::marker::Model;
use std::snapshot::Snapshot;
use xt_model::{Design, Direction, NoMemory, Windows};

/// Words that threads share: eight for each net, as `Board` of `chaos_core` says, and one from which numbers are
/// drawn. Each call but `open` and `close` is one step on one word, and none waits for another thread.
#[derive(Drop)]
pub struct SharedBoard {
    alloc: Global,
    table: Table<(), View, Key, WindowRule, Global>,
}

impl Model for SharedBoard {
    ghost use Rattle.window_words.specs.Boards.{BoardId, HasWords, setting_of};

    ghost Value = { BoardId };

    ghost view = { λ b. record { table = b.table.shared.table_id; setting = setting_of b.table.shared.key } };

    ghost invariant = { λ b. HasWords b.table.shared.table_id (setting_of b.table.shared.key) };
}

/// The right to work on the words of a board, and what its holder knows of them. It takes no bytes, and may go to any
/// thread.
#[derive(Drop)]
pub struct Pass {
    seat: Seat<(), View>,
}

impl Model for Pass {
    ghost use Rattle.window_words.specs.Boards.{Holding, IsHeld};

    ghost Value = { Holding };

    ghost view = { λ p. record { table = p.seat.table_id; view = p.seat.me.0 } };

    ghost invariant = { λ p. IsHeld p.seat.table_id p.seat.me };
}

impl Pass {
    ghost use Rattle.chaos_core.specs.Boards.{IsSeen};

    /// A law, the clause of a call that does nothing: what a pass has seen crosses no barrier and is at or past the
    /// start, which fits.
    pub fn respects(&self)
        ensures { IsSeen self.now.view.setting self.now.view.seen }
    {
        let _seat = &self.seat;
    }
}

impl SharedBoard {
    /// The words of these windows, with nothing drawn, and the first pass.
    pub fn open(
        alloc: Global,
        design: &Design,
        direction: Direction,
        start: &Windows,
    ) -> Result<(SharedBoard, Pass), NoMemory>
        requires start { IsFittingStart direction design.now start.now }
        ensures own { IfOk result (λ opened. IsOf opened.0 opened.1) }
        ensures first { IfOk result (λ opened. opened.1.view
            ≡ first_view (record { design = design.now; way = direction; start = start.now })) }
    {
        let opening = MemoryBoard::new(alloc, design, direction, start)?;
        let mut words = opening.into_words();
        words.push(0)?;
        let key = Key {
            design: Snapshot::of(design),
            way: direction,
            start: Snapshot::of(start),
        };
        let (table, seat) = Table::of_words(alloc, words.as_slice(), &key)?;
        Ok((SharedBoard { alloc, table }, Pass { seat }))
    }

    /// The number in a word. It crosses no barrier and is at or past what was seen there, and is then what is seen
    /// there. The first pass finds, while none is out, just what it has seen.
    pub fn load(&self, pass: &mut Pass, word: usize) -> u64
        requires own { IsOf self.now pass.old }
        requires word { word < 8 * nets_of pass.old.view.setting }
        ensures own { IsOf self.now pass.new }
        ensures loaded { Loaded pass.old.view word result pass.new.view }
    {
        self.table.shared.load::<Load>(&mut pass.seat, word)
    }

    /// Reads a word and tells nothing, so that the cache can have it when it is loaded. Takes no pass.
    pub fn touch(&self, word: usize)
        requires word { word < 8 * nets_of self.now.setting }
    {
        let _number = self.table.shared.peek(word);
    }

    /// Leaves the least of the number in a word and `value` there, and answers the number before.
    pub fn lower(&self, pass: &mut Pass, word: usize, value: u64) -> u64
        requires own { IsOf self.now pass.old }
        requires other { IsSplitOff pass.old }
        requires word { word < 8 * nets_of pass.old.view.setting }
        requires way { MovesDown pass.old.view.setting.way (word % 2) }
        requires value { CanPublish (knowledge_of pass.old) word value }
        ensures own { IsOf self.now pass.new }
        ensures published { Published pass.old.view word result (min result value) pass.new.view }
    {
        self.table
            .shared
            .fetch_min::<Lower>(&mut pass.seat, word, value)
    }

    /// Leaves the greatest of the number in a word and `value` there, and answers the number before.
    pub fn raise(&self, pass: &mut Pass, word: usize, value: u64) -> u64
        requires own { IsOf self.now pass.old }
        requires other { IsSplitOff pass.old }
        requires word { word < 8 * nets_of pass.old.view.setting }
        requires way { MovesUp pass.old.view.setting.way (word % 2) }
        requires value { CanPublish (knowledge_of pass.old) word value }
        ensures own { IsOf self.now pass.new }
        ensures published { Published pass.old.view word result (max result value) pass.new.view }
    {
        self.table
            .shared
            .fetch_max::<Raise>(&mut pass.seat, word, value)
    }

    /// Which word is the draw word. It is the last.
    fn draw_word(&self) -> usize
        ensures word { result ≡ 8 * nets_of self.now.setting }
        ensures room { 8 * nets_of self.now.setting + 1 < 2 ^ 64 }
    {
        self.table.word_count() - 1
    }

    /// A number greater than every number that the pass drew since the last restart.
    pub fn draw(&self, pass: &mut Pass) -> u64
        requires own { IsOf self.now pass.old }
        requires late { 0 < late_of pass.old.view }
        ensures own { IsOf self.now pass.new }
        ensures drew { Drew pass.old.view result pass.new.view }
    {
        let word = self.draw_word();
        self.table.shared.fetch_add::<Draw>(&mut pass.seat, word, 1)
    }

    /// Begins the numbers that are drawn anew.
    pub fn restart(&self, first: &mut Pass)
        requires own { IsOf self.now first.old }
        requires alone { IsAlone first.old.view }
        ensures own { IsOf self.now first.new }
        ensures view { first.new.view ≡ begun_anew first.old.view }
    {
        let word = self.draw_word();
        self.table.shared.store::<Restart>(&mut first.seat, word, 0);
    }

    /// A pass that has seen as much as the first. Takes no memory.
    pub fn split(&self, first: &mut Pass) -> Pass
        requires own { IsOf self.now first.old }
        requires first { IsFirst first.old }
        requires few { first.old.view.split < most_workers }
        ensures own { IsOf self.now first.new }
        ensures view { first.new.view ≡ with_one_out first.old.view }
        ensures own_other { IsOf self.now result }
        ensures view_other { result.view ≡ sent_out first.old.view }
    {
        let seat = self.table.shared.split_seat::<SplitOff>(&mut first.seat);
        Pass { seat }
    }

    /// Takes a pass back: the first then knows what both knew. What each has seen crosses no barrier.
    pub fn join(&self, first: &mut Pass, other: Pass)
        requires own { IsOf self.now first.old }
        requires first { IsFirst first.old }
        requires own_other { IsOf self.now other }
        requires other { IsSplitOff other }
        ensures own { IsOf self.now first.new }
        ensures view { first.new.view ≡ with_both first.old.view other.view }
        ensures seen { IsSeen first.old.view.setting first.old.view.seen }
        ensures seen_other { IsSeen other.view.setting other.view.seen }
    {
        let Pass { seat } = other;
        self.table
            .shared
            .join_seat::<JoinAgain>(&mut first.seat, seat);
    }

    /// The words, which are what the first pass has seen: they are no further than what the operator makes of them, and
    /// the numbers that all passes drew are those below some number, each once. Where there is no memory, the board and
    /// the pass are gone.
    pub fn close(self, first: Pass) -> Result<Vec<u64>, NoMemory>
        requires own { IsOf self first }
        requires alone { IsAlone first.view }
        ensures words { IfOk result (λ words. words.items ≡ first.view.seen) }
        ensures rested { IfOk result (λ _. 0 < nets_of first.view.setting → IsRested first.view) }
    {
        let mut first = first;
        let count = self.draw_word();
        let mut words = Vec::with_capacity(self.alloc, count)?;
        for word in 0..count {
            words.push(self.load(&mut first, word))?;
        }
        Ok(words)
    }
}
