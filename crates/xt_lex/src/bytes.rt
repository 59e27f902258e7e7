//! Bytes and lines.

ghost use Rattle.std.specs.Prelude.{true, ◌≡◌, ℕ, ◌+◌, ◌<◌, ◌≤◌, ◌^◌, length, Option, drop};
ghost use Rattle.xt_lex.specs.Bytes.{is_newline, is_blank, is_white, is_foreign, line_behind, last_line};
ghost use Rattle.xt_lex.specs.Bytes.{begins, opens_comment, joins_lines};

use crate::rules::MOST_BYTES;

/// Whether a byte ends a line.
#[inline]
pub fn is_newline(byte: u8) -> bool
    ensures { result ≡ is_newline byte }
{
    byte == b'\n'
}

/// Whether a byte is white space within a line.
#[inline]
pub fn is_blank(byte: u8) -> bool
    ensures { result ≡ is_blank byte }
{
    byte == b' ' || (byte == b'\t' || byte == b'\r')
}

/// Whether a byte is white space.
#[inline]
pub fn is_white(byte: u8) -> bool
    ensures { result ≡ is_white byte }
{
    is_blank(byte) || is_newline(byte)
}

/// Whether a byte is allowed only in comments and quoted strings.
#[inline]
pub fn is_foreign(byte: u8) -> bool
    ensures { result ≡ is_foreign byte }
{
    !byte.is_ascii_graphic() && !is_white(byte)
}

/// Whether the bytes begin with this one.
#[inline]
pub fn begins(first: u8, bytes: &[u8]) -> bool
    ensures { result ≡ begins first bytes.now }
{
    match bytes {
        [byte, ..] => *byte == first,
        [] => false,
    }
}

/// Whether `/*` is where this byte has these after it.
#[inline]
pub fn opens_comment(byte: u8, more: &[u8]) -> bool
    ensures value { result ≡ opens_comment byte more.now }
    ensures room { result ≡ true → 0 < length more.now }
{
    byte == b'/' && begins(b'*', more)
}

/// Whether a backslash comes before a newline where this byte has these after it.
#[inline]
pub fn joins_lines(byte: u8, more: &[u8]) -> bool
    ensures value { result ≡ joins_lines byte more.now }
    ensures room { result ≡ true → 0 < length more.now }
{
    byte == b'\\' && begins(b'\n', more)
}

/// The bytes after the first one.
#[inline]
pub fn behind_first(bytes: &[u8]) -> &[u8]
    ensures { result.now ≡ drop 1 bytes.now }
{
    match bytes {
        [_, more @ ..] => more,
        [] => bytes,
    }
}

/// The line after bytes that begin in this line.
#[inline]
pub fn line_behind(bytes: &[u8], line: u32) -> u32
    requires { line + length bytes.now < 2 ^ 32 }
    ensures value { result ≡ line_behind bytes.now line }
    ensures bound { result ≤ line + length bytes.now }
{
    let mut behind = line;
    let mut rest = bytes;
    'bytes: while let [byte, more @ ..] = rest {
        if is_newline(*byte) {
            behind += 1;
        }
        rest = more;
    }
    behind
}

/// The last line of a text: one more than its newline bytes.
pub fn last_line(bytes: &[u8]) -> u32
    requires { length bytes.now ≤ MOST_BYTES }
    ensures { result ≡ last_line bytes.now }
{
    line_behind(bytes, 1)
}
