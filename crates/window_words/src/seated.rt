//! A pass at its board.

ghost use Rattle.window_words.specs.Boards.{knowledge_of, IsOf, IsSplitOff};

use crate::board::{Pass, SharedBoard};
use chaos_core::Board;

/// A board and a pass that was split off from its first: what a worker works on. Others may move the words between two
/// of its calls.
#[derive(Drop)]
pub struct Seated<'a> {
    pub board: &'a SharedBoard,
    pub pass: Pass,
    ghost own: { IsOf board.now pass },
    ghost other: { IsSplitOff pass },
}

impl<'a> Board for Seated<'a> {
    ghost knows = { λ seated. knowledge_of seated.pass };

    fn load(&mut self, word: usize) -> u64 {
        self.board.load(&mut self.pass, word)
    }

    fn lower(&mut self, word: usize, value: u64) -> u64 {
        self.board.lower(&mut self.pass, word, value)
    }

    fn raise(&mut self, word: usize, value: u64) -> u64 {
        self.board.raise(&mut self.pass, word, value)
    }

    fn touch(&self, word: usize) {
        self.board.touch(word);
    }

    fn draw(&mut self) -> u64 {
        self.board.draw(&mut self.pass)
    }
}
