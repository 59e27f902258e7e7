//! Words in memory, for workers that take turns on one thread.

ghost use Rattle.std.specs.Prelude.{◌≡◌, ◌<◌, ◌≤◌, ◌*◌, List, length, IfOk, OnOk, ◌++◌};
ghost use Rattle.xt_model.specs.Quads.{IsInRange, IsPairInRange};
ghost use Rattle.xt_model.specs.declared.quad.Pair.{Pair};
ghost use Rattle.xt_meaning.specs.Barrier.{IsFittingStart};
ghost use Rattle.xt_meaning.specs.Words.{numbers_of, quad_numbers};
ghost use Rattle.chaos_core.specs.Boards.{nets_of};
ghost use Rattle.chaos_core.specs.Memories.{IsKept, knowledge_of};

use crate::board::Board;
use crate::words::{pairs_of, push_numbers, set_pairs};
use std::alloc::Global;
use std::marker::Model;
use std::snapshot::Snapshot;
use xt_model::{Design, Direction, NoMemory, Windows};

/// A board whose words nobody else can move. Its design and its start take no bytes.
#[derive(Drop)]
pub struct MemoryBoard {
    words: Vec<u64>,
    next: u64,
    way: Direction,
    design: Snapshot<Design>,
    start: Snapshot<Windows>,
}

impl Model for MemoryBoard {
    ghost use Rattle.chaos_core.specs.Memories.{Memory, IsKept};

    ghost Value = { Memory };

    ghost view = { λ b. record {
      setting = record { design = b.design.value; way = b.way; start = b.start.value };
      words = b.words.items;
      next = b.next;
    } };

    ghost invariant = { λ b. IsKept (record {
      setting = record { design = b.design.value; way = b.way; start = b.start.value };
      words = b.words.items;
      next = b.next;
    }) };
}

impl MemoryBoard {
    /// The words of these windows, with nothing drawn.
    pub fn new(
        alloc: Global,
        design: &Design,
        direction: Direction,
        start: &Windows,
    ) -> Result<MemoryBoard, NoMemory>
        requires { IsFittingStart direction design.now start.now }
        ensures { IfOk result (λ board. board ≡ record {
          setting = record { design = design.now; way = direction; start = start.now };
          words = numbers_of start.now;
          next = 0;
        }) }
    {
        let pairs = start.pairs();
        prove!(pairs.len() == design.nets().len());
        // One word more than the nets have: boards that threads share append the word from which numbers are drawn.
        let mut words = Vec::with_capacity(alloc, 8 * pairs.len() + 1)?;
        push_numbers(&mut words, pairs)?;
        Ok(MemoryBoard {
            words,
            next: 0,
            way: direction,
            design: Snapshot::of(design),
            start: Snapshot::of(start),
        })
    }

    /// The number in each word.
    pub fn words(&self) -> &[u64]
        ensures value { result.now ≡ self.now.words }
        ensures kept { IsKept self.now }
    {
        self.words.as_slice()
    }

    /// The number in each word, of a board that is not needed any more. Takes no memory.
    pub fn into_words(self) -> Vec<u64>
        ensures value { result.items ≡ self.words }
        ensures kept { IsKept self }
    {
        self.words
    }

    /// The windows whose bounds are in the words. A run in the same direction can start at them.
    pub fn windows(&self, alloc: Global) -> Result<Windows, NoMemory>
        ensures numbers { IfOk result (λ windows. numbers_of windows ≡ self.now.words) }
        ensures fits { IfOk result
            (λ windows. IsFittingStart self.now.setting.way self.now.setting.design windows) }
        ensures kept { IsKept self.now }
    {
        let pairs = pairs_of(alloc, self.words())?;
        Ok(Windows::new(pairs))
    }

    /// Gives each net the windows whose bounds are in its words. Takes no memory.
    pub(crate) fn load_into(&self, windows: &mut Windows)
        requires { length windows.old ≡ nets_of self.now.setting }
        ensures numbers { numbers_of windows.new ≡ self.now.words }
        ensures fits { IsFittingStart self.now.setting.way self.now.setting.design windows.new }
        ensures kept { IsKept self.now }
    {
        set_pairs(windows, self.words());
    }

    /// Begins the numbers that are drawn anew.
    pub fn restart(&mut self)
        ensures anew { self.new ≡ record self.old { next = 0 } }
        ensures kept { IsKept self.new }
    {
        self.next = 0;
    }
}

impl Board for MemoryBoard {
    ghost knows = { λ board. knowledge_of board };

    fn load(&mut self, word: usize) -> u64 {
        self.words[word]
    }

    fn lower(&mut self, word: usize, value: u64) -> u64 {
        let before = self.words[word];
        self.words[word] = before.min(value);
        before
    }

    fn raise(&mut self, word: usize, value: u64) -> u64 {
        let before = self.words[word];
        self.words[word] = before.max(value);
        before
    }

    fn touch(&self, word: usize) {}

    fn draw(&mut self) -> u64 {
        let number = self.next;
        self.next += 1;
        number
    }
}
