//! How far a piece reaches.

ghost use Rattle.std.specs.Prelude.{◌≡◌, ℕ, ◌+◌, ◌<◌, ◌≤◌, length, true, IfSome};
ghost use Rattle.std.specs.List.{prefix_len};
ghost use Rattle.std.specs.Char.{is_ascii_graphic};
ghost use Rattle.xt_lex.specs.Bytes.{is_blank, is_white};
ghost use Rattle.xt_lex.specs.Runs.{past_byte, is_pair, past_pair};

use crate::bytes::{begins, is_blank, is_white};

/// The number of bytes up to and with the first such byte.
#[inline]
pub fn past_byte(last: u8, bytes: &[u8]) -> Option<usize>
    ensures value { result ≡ past_byte last bytes.now }
    ensures within { IfSome result (λ n. n ≤ length bytes.now) }
{
    let mut passed: usize = 0;
    let mut rest = bytes;
    'bytes: while let [byte, more @ ..] = rest {
        passed += 1;
        if *byte == last {
            return Some(passed);
        }
        rest = more;
    }
    None
}

/// Whether such a pair of bytes is where this byte has these after it.
#[inline]
fn is_pair(left: u8, right: u8, byte: u8, more: &[u8]) -> bool
    ensures value { result ≡ is_pair left right byte more.now }
    ensures room { result ≡ true → 0 < length more.now }
{
    byte == left && begins(right, more)
}

/// The number of bytes up to and with the first such pair of bytes.
#[inline]
pub fn past_pair(left: u8, right: u8, bytes: &[u8]) -> Option<usize>
    ensures value { result ≡ past_pair left right bytes.now }
    ensures within { IfSome result (λ n. n ≤ length bytes.now) }
{
    let mut passed: usize = 0;
    let mut rest = bytes;
    'bytes: while let [byte, more @ ..] = rest {
        if is_pair(left, right, *byte, more) {
            return Some(passed + 2);
        }
        passed += 1;
        rest = more;
    }
    None
}

/// The number of blanks in front.
#[inline]
pub fn blanks(bytes: &[u8]) -> usize
    ensures value { result ≡ prefix_len is_blank bytes.now }
    ensures within { result ≤ length bytes.now }
{
    bytes.iter().take_while(|byte| is_blank(**byte)).count()
}

/// The number of bytes of white space in front.
#[inline]
pub fn whites(bytes: &[u8]) -> usize
    ensures value { result ≡ prefix_len is_white bytes.now }
    ensures within { result ≤ length bytes.now }
{
    bytes.iter().take_while(|byte| is_white(**byte)).count()
}

/// The number of printable bytes in front.
#[inline]
pub fn printables(bytes: &[u8]) -> usize
    ensures value { result ≡ prefix_len is_ascii_graphic bytes.now }
    ensures within { result ≤ length bytes.now }
{
    bytes
        .iter()
        .take_while(|byte| byte.is_ascii_graphic())
        .count()
}
