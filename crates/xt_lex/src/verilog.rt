//! The pieces of a Verilog text.

ghost use Rattle.std.specs.Prelude.{◌≡◌, ℕ, ◌+◌, ◌<◌, ◌≤◌, length, true};
ghost use Rattle.std.specs.List.{prefix_len};
ghost use Rattle.std.specs.Char.{is_ascii_digit};
ghost use Rattle.xt_lex.specs.Verilog.{begins_name, is_in_name, is_base, is_constant, attribute, verilog_front};

use crate::bytes::{begins, behind_first, is_blank, is_newline, opens_comment};
use crate::class::Class;
use crate::front::{Front, to_line_end};
use crate::runs::{blanks, past_pair, printables};

/// Whether an identifier may begin with this byte.
#[inline]
fn begins_name(byte: u8) -> bool
    ensures { result ≡ begins_name byte }
{
    byte.is_ascii_alphabetic() || byte == b'_'
}

/// Whether an identifier may go on with this byte.
#[inline]
fn is_in_name(byte: u8) -> bool
    ensures { result ≡ is_in_name byte }
{
    byte.is_ascii_alphanumeric() || (byte == b'_' || byte == b'$')
}

/// Whether this byte is the base of a constant.
#[inline]
fn is_base(byte: u8) -> bool
    ensures { result ≡ is_base byte }
{
    matches!(byte, b'b' | b'h' | b'd' | b'o' | b'B' | b'H' | b'D' | b'O')
}

/// Whether a `1` before these bytes begins a constant.
#[inline]
fn is_constant(more: &[u8]) -> bool
    ensures value { result ≡ is_constant more.now }
    ensures room { result ≡ true → 3 ≤ length more.now }
{
    match more {
        [quote, base, digit, ..] => *quote == b'\''
            && (is_base(*base) && (*digit == b'0' || *digit == b'1')),
        _ => false,
    }
}

/// The number of bytes of an identifier's rest.
#[inline]
fn name_rest(more: &[u8]) -> usize
    ensures value { result ≡ prefix_len is_in_name more.now }
    ensures within { result ≤ length more.now }
{
    more.iter().take_while(|byte| is_in_name(**byte)).count()
}

/// The number of bytes of a number's rest.
#[inline]
fn digits(more: &[u8]) -> usize
    ensures value { result ≡ prefix_len is_ascii_digit more.now }
    ensures within { result ≤ length more.now }
{
    more.iter().take_while(|byte| byte.is_ascii_digit()).count()
}

/// An attribute, where `more` begins at the `*` after its `(`.
#[inline(always)]
fn attribute(more: &[u8]) -> Front
    requires { 0 < length more.now }
    ensures value { result ≡ attribute more.now }
    ensures within { result.inner ≤ length more.now }
{
    let end = past_pair(b'*', b')', behind_first(more));
    Front::enclosed(Class::Skipped, Class::UnclosedPlain, 1, end, more.len())
}

/// The piece at the front of a Verilog text, where `fresh` says that a line begins there.
#[tactic(auto, unfolding(crate::specs::Verilog::verilog_front))]
#[inline(always)]
pub fn verilog_front(fresh: bool, first: u8, more: &[u8]) -> Front
    ensures value { result ≡ verilog_front fresh first more.now }
    ensures within { result.inner ≤ length more.now }
{
    if is_newline(first) {
        Front {
            class: Class::Blank,
            inner: 0,
            fresh: true,
        }
    } else if is_blank(first) {
        Front::piece(Class::Blank, blanks(more))
    } else if !first.is_ascii_graphic() {
        Front::piece(Class::Foreign, 0)
    } else if begins_name(first) {
        Front::piece(Class::Word, name_rest(more))
    } else if first == b'1' && is_constant(more) {
        Front::piece(Class::Word, 3)
    } else if first.is_ascii_digit() {
        Front::piece(Class::Word, digits(more))
    } else if first == b'\\' {
        Front::piece(Class::Escaped, printables(more))
    } else if first == b'/' && begins(b'/', more) {
        Front::piece(Class::Comment, to_line_end(more))
    } else if opens_comment(first, more) {
        Front::block_comment(more)
    } else if first == b'(' && begins(b'*', more) {
        attribute(more)
    } else if fresh && first == b'`' {
        Front::piece(Class::Skipped, to_line_end(more))
    } else {
        Front::piece(Class::Mark, 0)
    }
}
