//! A text cut into pieces.

ghost use Rattle.std.specs.Prelude.{◌≡◌, ℕ, ◌+◌, ◌<◌, ◌≤◌, ◌^◌, true, [], ◌∷◌, length, MatchOption, IfSome};
ghost use Rattle.xt_lex.specs.Bytes.{line_behind};
ghost use Rattle.xt_lex.specs.Pieces.{front_of, is_inline};

use crate::bytes::{is_newline, line_behind};
use crate::class::Class;
use crate::front::Front;
use crate::liberty::liberty_front;
use crate::rules::{MOST_BYTES, Rules};
use crate::sdc::sdc_front;
use crate::spef::spef_front;
use crate::verilog::verilog_front;
use std::marker::Model;

/// A piece of a text, with the place and the line of its first byte.
#[derive(Clone, Copy)]
pub struct Piece<'a> {
    pub class: Class,
    pub text: &'a [u8],
    pub from: u32,
    pub line: u32,
}

/// The pieces of a text that are left, from left to right.
#[derive(Drop)]
pub struct Pieces<'a> {
    rules: Rules,
    fresh: bool,
    from: u32,
    line: u32,
    rest: &'a [u8],
}

impl<'a> Model for Pieces<'a> {
    ghost use Rattle.std.specs.Prelude.{ℕ, ◌+◌, ◌≤◌, List, length};
    ghost use Rattle.xt_lex.specs.Pieces.{PieceText, pieces_from};

    ghost Value = { List PieceText };

    ghost view = { λ c. pieces_from c.rules c.fresh 0 c.from c.line c.rest.now };

    ghost invariant = { λ c. (c.from + length c.rest.now ≤ 268435456) × (c.line ≤ c.from + 1) };
}

/// The piece at the front of a text.
#[tactic(auto, unfolding(crate::specs::Pieces::front_of))]
#[inline(always)]
pub fn front_by(rules: Rules, fresh: bool, first: u8, more: &[u8]) -> Front
    ensures value { result ≡ front_of rules fresh first more.now }
    ensures within { result.inner ≤ length more.now }
{
    match rules {
        Rules::Liberty => liberty_front(first, more),
        Rules::Verilog => verilog_front(fresh, first, more),
        Rules::Spef => spef_front(first, more),
        Rules::Sdc => sdc_front(fresh, first, more),
    }
}

/// The line after a piece that begins in this line.
#[inline(always)]
fn line_past(class: Class, text: &[u8], line: u32) -> u32
    requires fits { line + length text.now < 2 ^ 32 }
    requires within { is_inline class ≡ true → line_behind text.now line ≡ line }
    ensures value { result ≡ line_behind text.now line }
    ensures bound { result ≤ line + length text.now }
{
    if class.is_inline() {
        return line;
    }
    // Most of the white space between tokens is a single byte.
    match text {
        [byte] => line + is_newline(*byte) as u32,
        _ => line_behind(text, line),
    }
}

impl<'a> Pieces<'a> {
    ghost use Rattle.xt_lex.specs.Pieces.{pieces_of};
    ghost use Rattle.xt_lex.specs.View.{piece_of};

    /// The pieces of a text.
    pub fn new(bytes: &'a [u8], rules: Rules) -> Pieces<'a>
        requires { length bytes.now ≤ MOST_BYTES }
        ensures { result ≡ pieces_of rules bytes.entry.now }
    {
        Pieces {
            rules,
            fresh: true,
            from: 0,
            line: 1,
            rest: bytes,
        }
    }

    /// The next piece.
    #[inline(always)]
    pub fn next_piece(&mut self) -> Option<Piece<'a>>
        ensures next { MatchOption result ((self.old ≡ []) × (self.new ≡ [])) (λ p. self.old ≡ piece_of p ∷ self.new) }
        ensures within { IfSome result (λ p. p.from + length p.text.now ≤ MOST_BYTES) }
        ensures line { IfSome result (λ p. p.line ≤ p.from + 1) }
    {
        let [first, more @ ..] = self.rest else {
            return None;
        };
        let front = front_by(self.rules, self.fresh, *first, more);
        let (text, rest) = self.rest.split_at(front.inner + 1);
        let piece = Piece {
            class: front.class,
            text,
            from: self.from,
            line: self.line,
        };
        self.fresh = front.fresh;
        self.from += text.len() as u32;
        self.line = line_past(front.class, text, self.line);
        self.rest = rest;
        Some(piece)
    }
}
