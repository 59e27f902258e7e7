//! The fault of a text's tokens.

ghost use Rattle.std.specs.Prelude.{◌≡◌, ℕ, ◌+◌, ◌<◌, ◌≤◌, ◌^◌, length};
ghost use Rattle.std.specs.List.{list_any};
ghost use Rattle.xt_lex.specs.Bytes.{is_foreign};
ghost use Rattle.xt_lex.specs.Pieces.{pieces_of};
ghost use Rattle.xt_lex.specs.Faults.{fault_of, foreign_line, first_foreign};

use crate::bytes::{is_foreign, is_newline, last_line};
use crate::fault::LexFault;
use crate::pieces::Pieces;
use crate::rules::{MOST_BYTES, Rules};
use crate::unclosed::any_unclosed;

/// The line of the first foreign byte, where the bytes begin in this line.
#[inline]
fn foreign_line(bytes: &[u8], line: u32) -> Option<u32>
    requires { line + length bytes.now < 2 ^ 32 }
    ensures { result ≡ foreign_line line bytes.now }
{
    let mut here = line;
    let mut rest = bytes;
    'bytes: while let [byte, more @ ..] = rest {
        if is_foreign(*byte) {
            return Some(here);
        }
        if is_newline(*byte) {
            here += 1;
        }
        rest = more;
    }
    None
}

/// Whether some byte is foreign.
fn has_foreign(bytes: &[u8]) -> bool
    ensures { result ≡ list_any is_foreign bytes.now }
{
    let mut foreign = false;
    let mut rest = bytes;
    'bytes: while let [byte, more @ ..] = rest {
        foreign |= is_foreign(*byte);
        rest = more;
    }
    foreign
}

/// The line of the first foreign byte outside comments and quoted strings.
fn first_foreign(bytes: &[u8], rules: Rules) -> Option<u32>
    requires { length bytes.now ≤ MOST_BYTES }
    ensures { result ≡ first_foreign (pieces_of rules bytes.now) }
{
    // Most texts have no foreign byte at all, which is seen faster than where one stands.
    if !has_foreign(bytes) {
        return None;
    }
    let mut pieces = Pieces::new(bytes, rules);
    'pieces: while let Some(piece) = pieces.next_piece() {
        if !piece.class.may_hold_any() {
            if let Some(line) = foreign_line(piece.text, piece.line) {
                return Some(line);
            }
        }
    }
    None
}

/// The fault of a text's tokens, if there is one.
pub fn find_fault(bytes: &[u8], rules: Rules) -> Option<LexFault>
    requires { length bytes.now ≤ MOST_BYTES }
    ensures { result ≡ fault_of rules bytes.now }
{
    if let Some(line) = first_foreign(bytes, rules) {
        return Some(LexFault::Byte(line));
    }
    if any_unclosed(bytes, rules) {
        Some(LexFault::Unended(last_line(bytes)))
    } else {
        None
    }
}
