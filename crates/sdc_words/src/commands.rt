//! The commands of a text one by one.

ghost use Rattle.std.specs.Prelude.{◌≡◌, ℕ, ◌+◌, ◌≤◌, [], ◌∷◌, length, None, Some, IfOk, IfSome, MatchOption};
ghost use Rattle.xt_lex.specs.View.{text_of};
ghost use Rattle.sdc_words.specs.Words.{is_break, with_token, finished, read_of, commands_from, commands_of};
ghost use Rattle.sdc_words.specs.View.{command_text};

use crate::partial::Partial;
use crate::word::Word;
use std::alloc::{AllocError, Global};
use std::marker::Model;
use xt_lex::{Kind, Lexeme, Lexemes, MOST_BYTES, Rules};
use xt_model::Row;

/// A command: the line of its first word, and its words. It has no words where brackets do not match, where a `[` of a
/// bare word stays open, or where a word or a bracket touches the end of a word in braces, quotes or brackets.
#[derive(Drop)]
pub struct Command<'a> {
    pub line: u32,
    pub words: Option<Row<Word<'a>>>,
}

/// The commands of a text that are left, in its order.
#[derive(Drop)]
pub struct Commands<'a> {
    tokens: Lexemes<'a>,
}

impl<'a> Model for Commands<'a> {
    ghost use Rattle.std.specs.Prelude.{List, None};
    ghost use Rattle.sdc_words.specs.Words.{CommandText, commands_from};

    ghost Value = { List CommandText };

    ghost view = { λ c. commands_from None c.tokens };
}

/// Whether a command ends at a token.
fn is_break(kind: Kind) -> bool
    ensures { result ≡ is_break kind }
{
    match kind {
        Kind::Break => true,
        _ => false,
    }
}

/// The first token of the next command.
fn first_token<'a>(tokens: &mut Lexemes<'a>) -> Option<Lexeme<'a>>
    ensures first { MatchOption result
        ((commands_from None tokens.old ≡ []) × (commands_from None tokens.new ≡ []))
        (λ t. commands_from None tokens.old ≡ commands_from (Some (with_token (text_of t) None)) tokens.new) }
    ensures within { IfSome result (λ t. t.from + length t.text.now ≤ MOST_BYTES) }
{
    'tokens: while let Some(token) = tokens.next_token() {
        if !is_break(token.kind) {
            return Some(token);
        }
    }
    None
}

/// A command of this line, whose tokens fit or do not.
fn ended<'a>(line: u32, fits: bool, read: Partial<'a>) -> Command<'a>
    ensures { command_text result ≡ record { line = line; words = finished (read_of fits read.entry) } }
{
    Command {
        line,
        words: if fits { read.finish() } else { None },
    }
}

/// The command that begins with this token.
fn read_command<'a>(
    alloc: Global,
    tokens: &mut Lexemes<'a>,
    first: Lexeme<'a>,
) -> Result<Command<'a>, AllocError>
    requires { first.from + length first.text.now ≤ MOST_BYTES }
    ensures { IfOk result (λ c. commands_from (Some (with_token (text_of first.entry) None)) tokens.old
        ≡ command_text c ∷ commands_from None tokens.new) }
{
    let mut read = Partial::new(alloc);
    let mut fits = read.add(first)?;
    'tokens: while let Some(token) = tokens.next_token() {
        if is_break(token.kind) {
            return Ok(ended(first.line, fits, read));
        }
        if fits {
            fits = read.add(token)?;
        }
    }
    Ok(ended(first.line, fits, read))
}

impl<'a> Commands<'a> {
    /// The commands of a text. Where its tokens have a fault, they go on after it: look for the fault first.
    #[tactic(auto, unfolding(crate::specs::Words::commands_of))]
    pub fn new(bytes: &'a [u8]) -> Commands<'a>
        requires { length bytes.now ≤ MOST_BYTES }
        ensures { result ≡ commands_of bytes.entry.now }
    {
        Commands {
            tokens: Lexemes::new(bytes, Rules::Sdc),
        }
    }

    /// The next command.
    pub fn next_command(&mut self, alloc: Global) -> Result<Option<Command<'a>>, AllocError>
        ensures { IfOk result (λ o. MatchOption o ((self.old ≡ []) × (self.new ≡ []))
            (λ c. self.old ≡ command_text c ∷ self.new)) }
    {
        match first_token(&mut self.tokens) {
            None => Ok(None),
            Some(first) => {
                let command = read_command(alloc, &mut self.tokens, first)?;
                Ok(Some(command))
            }
        }
    }
}
