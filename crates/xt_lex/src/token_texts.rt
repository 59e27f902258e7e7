//! The tokens of a text one by one.

ghost use Rattle.std.specs.Prelude.{◌≡◌, ℕ, ◌+◌, ◌<◌, ◌≤◌, [], ◌∷◌, length, MatchOption, IfSome};

use crate::pieces::Pieces;
use crate::rules::{MOST_BYTES, Rules};
use crate::token::{Kind, Token};
use std::marker::Model;

/// A token with its bytes, the first of them at the place `from` of the text and in line `line`, counted from 1.
#[derive(Clone, Copy)]
pub struct Lexeme<'a> {
    pub kind: Kind,
    pub text: &'a [u8],
    pub from: u32,
    pub line: u32,
}

/// The tokens of a text that are left, from left to right. It takes no memory, and looks at each byte once.
#[derive(Drop)]
pub struct Lexemes<'a> {
    pieces: Pieces<'a>,
}

impl<'a> Model for Lexemes<'a> {
    ghost use Rattle.std.specs.Prelude.{List};
    ghost use Rattle.xt_lex.specs.Tokens.{TokenText, tokens_among};

    ghost Value = { List TokenText };

    ghost view = { λ c. tokens_among c.pieces };
}

impl Lexeme<'_> {
    ghost use Rattle.xt_lex.specs.Tokens.{token_of};
    ghost use Rattle.xt_lex.specs.View.{text_of};

    /// The token without its bytes.
    #[inline]
    pub fn token(&self) -> Token
        requires { self.now.from + length self.now.text.now ≤ MOST_BYTES }
        ensures { result ≡ token_of (text_of self.now) }
    {
        Token {
            kind: self.kind,
            from: self.from,
            to: self.from + self.text.len() as u32,
            line: self.line,
        }
    }
}

impl<'a> Lexemes<'a> {
    ghost use Rattle.std.specs.List.{All};
    ghost use Rattle.xt_lex.specs.Tokens.{token_texts, IsTextOf};
    ghost use Rattle.xt_lex.specs.View.{text_of};

    /// The tokens of a text. Where it has a fault, they go on after it: look for the fault first.
    pub fn new(bytes: &'a [u8], rules: Rules) -> Lexemes<'a>
        requires { length bytes.now ≤ MOST_BYTES }
        ensures tokens { result ≡ token_texts rules bytes.entry.now }
        ensures texts { All (IsTextOf bytes.entry.now) result }
    {
        Lexemes {
            pieces: Pieces::new(bytes, rules),
        }
    }

    /// The next token.
    #[inline(always)]
    pub fn next_token(&mut self) -> Option<Lexeme<'a>>
        ensures next { MatchOption result ((self.old ≡ []) × (self.new ≡ [])) (λ t. self.old ≡ text_of t ∷ self.new) }
        ensures within { IfSome result (λ t. t.from + length t.text.now ≤ MOST_BYTES) }
    {
        'pieces: while let Some(piece) = self.pieces.next_piece() {
            if let Some(kind) = piece.class.kind() {
                return Some(Lexeme {
                    kind,
                    text: piece.text,
                    from: piece.from,
                    line: piece.line,
                });
            }
        }
        None
    }
}
