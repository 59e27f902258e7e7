//! Commands that are being read.

ghost use Rattle.std.specs.Prelude.{◌≡◌, ℕ, ◌+◌, ◌≤◌, length, map, option_map, Some, IfOk, OnOk};
ghost use Rattle.xt_lex.specs.View.{text_of};
ghost use Rattle.sdc_words.specs.Words.{nothing, end_of, touches, ended_by, added, opened, closed, placed, finished};
ghost use Rattle.sdc_words.specs.Words.{read_of, word_of};
ghost use Rattle.sdc_words.specs.View.{word_text};

use crate::part::Part;
use crate::word::{Word, bracketed, word_of};
use std::alloc::{AllocError, Global};
use std::marker::Model;
use xt_lex::{Kind, Lexeme, MOST_BYTES};
use xt_model::Row;

/// A command in part: its words so far, how many brackets are open, the tokens after the outermost one, and where a
/// closing sign ended, if it comes last.
#[derive(Drop)]
pub struct Partial<'a> {
    words: Vec<Word<'a>>,
    depth: usize,
    inside: Vec<Lexeme<'a>>,
    ended: Option<u32>,
}

impl<'a> Model for Partial<'a> {
    ghost use Rattle.std.specs.Prelude.{◌+◌, ◌≤◌, map, length};
    ghost use Rattle.xt_lex.specs.View.{text_of};
    ghost use Rattle.sdc_words.specs.Words.{PartialText};
    ghost use Rattle.sdc_words.specs.View.{word_text};

    ghost Value = { PartialText };

    ghost view = { λ p. record {
      words = map word_text p.words.items;
      depth = p.depth;
      inside = map text_of p.inside.items;
      ended = p.ended;
    } };

    ghost invariant = { λ p. p.depth ≤ length p.inside.items + 1 };
}

/// The place after a token.
fn end_of(token: Lexeme<'_>) -> u32
    requires { token.from + length token.text.now ≤ MOST_BYTES }
    ensures { result ≡ end_of (text_of token.entry) }
{
    token.from + token.text.len() as u32
}

/// Whether a token begins where a closing sign ended.
fn touches(ended: Option<u32>, from: u32) -> bool
    ensures { result ≡ touches ended from }
{
    match ended {
        Some(place) => place == from,
        None => false,
    }
}

/// The place after a token that a closing sign ends.
fn ended_by(kind: Kind, place: u32) -> Option<u32>
    ensures { result ≡ ended_by kind place }
{
    match kind {
        Kind::Word => None,
        _ => Some(place),
    }
}

impl<'a> Partial<'a> {
    /// Nothing of a command.
    pub fn new(alloc: Global) -> Partial<'a>
        ensures { result ≡ nothing }
    {
        Partial {
            words: Vec::new(alloc),
            depth: 0,
            inside: Vec::new(alloc),
            ended: None,
        }
    }

    /// A bracket opens.
    fn open(&mut self, token: Lexeme<'a>) -> Result<(), AllocError>
        ensures { OnOk result (self.new ≡ opened (text_of token.entry) self.old) }
    {
        if self.depth == 0 {
            self.inside.clear();
            self.depth = 1;
        } else {
            self.inside.push(token)?;
            self.depth += 1;
        }
        self.ended = None;
        Ok(())
    }

    /// A bracket closes; whether one was open.
    fn close(&mut self, token: Lexeme<'a>) -> Result<bool, AllocError>
        requires { token.from + length token.text.now ≤ MOST_BYTES }
        ensures { IfOk result (λ fits. closed (text_of token.entry) self.old ≡ read_of fits self.new) }
    {
        if self.depth == 0 {
            return Ok(false);
        }
        if self.depth == 1 {
            self.words.push(bracketed(self.inside.as_slice()))?;
            self.inside.clear();
            self.depth = 0;
        } else {
            self.inside.push(token)?;
            self.depth -= 1;
        }
        self.ended = Some(end_of(token));
        Ok(true)
    }

    /// A token that is no bracket; whether it fits.
    fn place(&mut self, token: Lexeme<'a>) -> Result<bool, AllocError>
        requires { token.from + length token.text.now ≤ MOST_BYTES }
        ensures { IfOk result (λ fits.
            placed (text_of token.entry) self.old (word_of token.entry.kind token.entry.text.now)
            ≡ read_of fits self.new) }
    {
        let Some(word) = word_of(token.kind, token.text) else {
            return Ok(false);
        };
        if self.depth == 0 {
            self.words.push(word)?;
        } else {
            self.inside.push(token)?;
        }
        self.ended = ended_by(token.kind, end_of(token));
        Ok(true)
    }

    /// A further token of the command; whether it fits.
    #[tactic(auto, unfolding(crate::specs::Words::added))]
    pub fn add(&mut self, token: Lexeme<'a>) -> Result<bool, AllocError>
        requires { token.from + length token.text.now ≤ MOST_BYTES }
        ensures { IfOk result (λ fits. added (text_of token.entry) self.old ≡ read_of fits self.new) }
    {
        let part = Part::of(token.kind, token.text);
        if touches(self.ended, token.from) && !part.closes() {
            return Ok(false);
        }
        match part {
            Part::Opens => {
                self.open(token)?;
                Ok(true)
            }
            Part::Closes => self.close(token),
            Part::Plain => self.place(token),
        }
    }

    /// The words, unless a bracket is open.
    pub fn finish(self) -> Option<Row<Word<'a>>>
        ensures { option_map (map word_text) result ≡ finished (Some self.entry) }
    {
        let Partial {
            words,
            depth,
            inside: _,
            ended: _,
        } = self;
        if depth == 0 {
            Some(Row::from_vec(words))
        } else {
            None
        }
    }
}
