//! The pieces of a Liberty text.

ghost use Rattle.std.specs.Prelude.{◌≡◌, ℕ, ◌+◌, ◌<◌, ◌≤◌, length, false, IfSome};
ghost use Rattle.xt_lex.specs.Liberty.{is_liberty_mark, past_quote, ends_liberty_word, liberty_word, liberty_front};

use crate::bytes::{is_white, joins_lines, opens_comment};
use crate::class::Class;
use crate::front::Front;
use crate::runs::whites;
use memchr::memchr2;

/// Whether a byte is a mark.
#[inline]
fn is_mark(byte: u8) -> bool
    ensures { result ≡ is_liberty_mark byte }
{
    matches!(byte, b'(' | b')' | b'{' | b'}' | b':' | b';' | b',')
}

/// The number of bytes up to and with the quote that ends a string.
fn past_quote(bytes: &[u8]) -> Option<usize>
    ensures value { result ≡ past_quote false bytes.now }
    ensures within { IfSome result (λ n. n ≤ length bytes.now) }
{
    let mut passed: usize = 0;
    'marks: while passed < bytes.len() {
        let (_, rest) = bytes.split_at(passed);
        match memchr2(b'"', b'\\', rest) {
            None => return None,
            Some(place) => {
                if rest[place] == b'"' {
                    return Some(passed + place + 1);
                }
                passed += place + 2;
            }
        }
    }
    None
}

/// Whether a word ends before a byte that has these after it.
#[inline]
fn ends_word(byte: u8, more: &[u8]) -> bool
    ensures { result ≡ ends_liberty_word byte more.now }
{
    !byte.is_ascii_graphic()
        || (is_mark(byte)
            || (byte == b'"' || (opens_comment(byte, more) || joins_lines(byte, more))))
}

/// The number of bytes of a word's rest.
#[inline]
fn word_rest(bytes: &[u8]) -> usize
    ensures value { result ≡ liberty_word bytes.now }
    ensures within { result ≤ length bytes.now }
{
    let mut passed: usize = 0;
    let mut rest = bytes;
    'bytes: while let [byte, more @ ..] = rest {
        if ends_word(*byte, more) {
            return passed;
        }
        passed += 1;
        rest = more;
    }
    passed
}

/// The piece at the front of a Liberty text.
#[tactic(auto, unfolding(crate::specs::Liberty::liberty_front))]
#[inline(always)]
pub fn liberty_front(first: u8, more: &[u8]) -> Front
    ensures value { result ≡ liberty_front first more.now }
    ensures within { result.inner ≤ length more.now }
{
    if is_white(first) {
        Front::piece(Class::Blank, whites(more))
    } else if joins_lines(first, more) {
        Front::piece(Class::Blank, 1)
    } else if !first.is_ascii_graphic() {
        Front::piece(Class::Foreign, 0)
    } else if opens_comment(first, more) {
        Front::block_comment(more)
    } else if first == b'"' {
        Front::enclosed(
            Class::Text,
            Class::Unclosed,
            0,
            past_quote(more),
            more.len(),
        )
    } else if is_mark(first) {
        Front::piece(Class::Mark, 0)
    } else {
        Front::piece(Class::Word, word_rest(more))
    }
}
