//! Whether something is open at a text's end.

ghost use Rattle.std.specs.Prelude.{◌≡◌, ℕ, ◌≤◌, false, length, drop};
ghost use Rattle.std.specs.List.{list_any};
ghost use Rattle.xt_lex.specs.Faults.{any_unclosed};
ghost use Rattle.xt_lex.specs.Openings.{openings, is_opening};
ghost use Rattle.xt_lex.specs.Pieces.{pieces_of};
ghost use Rattle.xt_lex.specs.declared.rules.Rules.TheVariants.{Liberty, Spef};
ghost use Rattle.xt_lex.specs.Spef.{is_in_word, spef_part};

use crate::class::Class;
use crate::front::Front;
use crate::liberty::liberty_front;
use crate::pieces::front_by;
use crate::rules::{MOST_BYTES, Rules};
use crate::runs::printables;
use crate::spef::spef_front;
use memchr::{memchr2, memrchr2};

/// Two bytes of which each piece that nothing closes has one.
fn openings(rules: Rules) -> (u8, u8)
    ensures { result ≡ openings rules }
{
    match rules {
        Rules::Liberty => (b'"', b'*'),
        Rules::Verilog => (b'*', b'*'),
        Rules::Spef => (b'"', b'/'),
        Rules::Sdc => (b'"', b'{'),
    }
}

/// The number of bytes up to and with the last such byte: no piece that begins after them is left open.
fn past_openings(bytes: &[u8], rules: Rules) -> usize
    ensures within { result ≤ length bytes.now }
    ensures none { list_any (is_opening rules) (drop result bytes.now) ≡ false }
{
    let (one, other) = openings(rules);
    match memrchr2(one, other, bytes) {
        Some(place) => place + 1,
        None => 0,
    }
}

/// Whether some piece of a Liberty text is not closed. It begins with a `"` or a `/`, so what lies between these is
/// passed over as it is.
fn liberty_unclosed(bytes: &[u8]) -> bool
    ensures { result ≡ any_unclosed (pieces_of Liberty bytes.now) }
{
    let mut rest = bytes;
    'openings: while let Some(place) = memchr2(b'"', b'/', rest) {
        let (_, here) = rest.split_at(place);
        let [first, more @ ..] = here else {
            return false;
        };
        let front = liberty_front(*first, more);
        if front.class.is_unclosed() {
            return true;
        }
        let (_, back) = more.split_at(front.inner);
        rest = back;
    }
    false
}

/// Whether a word of a SPEF text goes on at this place, up to which no string and no comment begins.
#[inline]
fn is_in_word(place: usize, bytes: &[u8]) -> bool
    requires { place ≤ length bytes.now }
    ensures { result ≡ is_in_word place bytes.now }
{
    0 < place && bytes[place - 1].is_ascii_graphic()
}

/// The piece at the front of a SPEF text, or what is left there of a word.
#[inline]
fn spef_part(in_word: bool, first: u8, more: &[u8]) -> Front
    ensures value { result ≡ spef_part in_word first more.now }
    ensures within { result.inner ≤ length more.now }
{
    if in_word {
        Front::piece(Class::Word, printables(more))
    } else {
        spef_front(first, more)
    }
}

/// Whether some piece of a SPEF text is not closed. It begins with a `"` or a `/` that is not within a word, so what
/// lies between these is passed over as it is.
fn spef_unclosed(bytes: &[u8]) -> bool
    ensures { result ≡ any_unclosed (pieces_of Spef bytes.now) }
{
    let mut rest = bytes;
    'openings: while let Some(place) = memchr2(b'"', b'/', rest) {
        let in_word = is_in_word(place, rest);
        let (_, here) = rest.split_at(place);
        let [first, more @ ..] = here else {
            return false;
        };
        let front = spef_part(in_word, *first, more);
        if front.class.is_unclosed() {
            return true;
        }
        let (_, back) = more.split_at(front.inner);
        rest = back;
    }
    false
}

/// Whether some piece is not closed, by one piece after another.
fn piece_unclosed(bytes: &[u8], rules: Rules) -> bool
    requires { length bytes.now ≤ MOST_BYTES }
    ensures { result ≡ any_unclosed (pieces_of rules bytes.now) }
{
    let end = past_openings(bytes, rules);
    let mut fresh = true;
    let mut passed: usize = 0;
    'pieces: while passed < end {
        let (_, rest) = bytes.split_at(passed);
        let [first, more @ ..] = rest else {
            return false;
        };
        let front = front_by(rules, fresh, *first, more);
        if front.class.is_unclosed() {
            return true;
        }
        fresh = front.fresh;
        passed += front.inner + 1;
    }
    false
}

/// Whether some piece is not closed.
pub fn any_unclosed(bytes: &[u8], rules: Rules) -> bool
    requires { length bytes.now ≤ MOST_BYTES }
    ensures { result ≡ any_unclosed (pieces_of rules bytes.now) }
{
    match rules {
        Rules::Liberty => liberty_unclosed(bytes),
        Rules::Spef => spef_unclosed(bytes),
        _ => piece_unclosed(bytes, rules),
    }
}
