//! The pieces of an SDC text.

ghost use Rattle.std.specs.Prelude.{◌≡◌, ℕ, ◌+◌, ◌<◌, ◌≤◌, length, false};
ghost use Rattle.xt_lex.specs.Sdc.{to_command_line_end, ends_bare_word, in_bit_after, bare_word, blank, sdc_front};

use crate::bytes::{is_blank, is_newline, joins_lines};
use crate::class::Class;
use crate::front::Front;
use crate::runs::{blanks, past_byte};

/// The number of bytes up to the end of a comment.
#[inline]
fn to_line_end(bytes: &[u8]) -> usize
    ensures value { result ≡ to_command_line_end false bytes.now }
    ensures within { result ≤ length bytes.now }
{
    let mut passed: usize = 0;
    let mut joined = false;
    let mut rest = bytes;
    'bytes: while let [byte, more @ ..] = rest {
        if is_newline(*byte) && !joined {
            return passed;
        }
        joined = *byte == b'\\';
        passed += 1;
        rest = more;
    }
    passed
}

/// Whether a bare word ends before a byte that has these after it.
#[inline]
fn ends_word(in_bit: bool, byte: u8, more: &[u8]) -> bool
    ensures { result ≡ ends_bare_word in_bit byte more.now }
{
    !byte.is_ascii_graphic()
        || (byte == b';' || (joins_lines(byte, more) || !in_bit && byte == b']'))
}

/// Whether a `[` of a bare word is open after this byte.
#[inline]
fn in_bit_after(in_bit: bool, byte: u8) -> bool
    ensures { result ≡ in_bit_after in_bit byte }
{
    if in_bit { byte != b']' } else { byte == b'[' }
}

/// The number of bytes of a bare word's rest.
#[inline]
fn word_rest(bytes: &[u8]) -> usize
    ensures value { result ≡ bare_word false bytes.now }
    ensures within { result ≤ length bytes.now }
{
    let mut passed: usize = 0;
    let mut in_bit = false;
    let mut rest = bytes;
    'bytes: while let [byte, more @ ..] = rest {
        if ends_word(in_bit, *byte, more) {
            return passed;
        }
        in_bit = in_bit_after(in_bit, *byte);
        passed += 1;
        rest = more;
    }
    passed
}

/// White space, after which a command begins if one began before it.
#[inline]
fn blank(fresh: bool, inner: usize) -> Front
    ensures { result ≡ blank fresh inner }
{
    Front {
        class: Class::Blank,
        inner,
        fresh,
    }
}

/// The piece at the front of an SDC text, where `fresh` says that a command begins there or after blanks.
#[tactic(auto, unfolding(crate::specs::Sdc::sdc_front))]
#[inline(always)]
pub fn sdc_front(fresh: bool, first: u8, more: &[u8]) -> Front
    ensures value { result ≡ sdc_front fresh first more.now }
    ensures within { result.inner ≤ length more.now }
{
    if is_newline(first) || first == b';' {
        Front {
            class: Class::Break,
            inner: 0,
            fresh: true,
        }
    } else if is_blank(first) {
        blank(fresh, blanks(more))
    } else if joins_lines(first, more) {
        blank(fresh, 1)
    } else if !first.is_ascii_graphic() {
        Front::piece(Class::Foreign, 0)
    } else if fresh && first == b'#' {
        Front::piece(Class::Comment, to_line_end(more))
    } else if first == b'"' {
        Front::enclosed(
            Class::Text,
            Class::Unclosed,
            0,
            past_byte(b'"', more),
            more.len(),
        )
    } else if first == b'{' {
        Front::enclosed(
            Class::Escaped,
            Class::UnclosedPlain,
            0,
            past_byte(b'}', more),
            more.len(),
        )
    } else if first == b'[' || first == b']' {
        Front::piece(Class::Mark, 0)
    } else {
        Front::piece(Class::Word, word_rest(more))
    }
}
