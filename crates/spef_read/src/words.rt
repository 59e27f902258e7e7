//! What words may be besides keywords.

ghost use Rattle.std.specs.Prelude.{◌≡◌, ℕ, ◌≤◌, length};
ghost use Rattle.std.specs.List.{list_all};
ghost use Rattle.std.specs.Char.{is_ascii_digit};
ghost use Rattle.xt_number.specs.Value.{without_zeros};
ghost use Rattle.spef_read.specs.Words.{are_digits, place_of, before, from_mark, is_pair, is_value};
ghost use Rattle.spef_read.specs.Words.{counted, is_bracket};

use xt_number::is_number;

/// Whether each byte is a digit.
#[inline]
pub fn all_digits(bytes: &[u8]) -> bool
    ensures { result ≡ list_all is_ascii_digit bytes.now }
{
    bytes.iter().all(|byte| byte.is_ascii_digit())
}

/// Whether the word is one digit or more, and nothing else.
#[inline]
pub fn are_digits(word: &[u8]) -> bool
    ensures { result ≡ are_digits word.now }
{
    !word.is_empty() && all_digits(word)
}

/// The digits without the zeros in front.
pub fn without_zeros(digits: &[u8]) -> &[u8]
    ensures { result.now ≡ without_zeros digits.now }
{
    let mut rest = digits;
    'zeros: while let [b'0', more @ ..] = rest {
        rest = more;
    }
    rest
}

/// How many bytes come before the first one that is this.
#[inline]
fn place_of(mark: u8, word: &[u8]) -> usize
    ensures place { result ≡ place_of mark word.now }
    ensures within { result ≤ length word.now }
{
    word.iter().take_while(|byte| !(**byte == mark)).count()
}

/// The bytes before the first one that is this, and those from it on.
#[inline]
pub fn split_at_mark(mark: u8, word: &[u8]) -> (&[u8], &[u8])
    ensures front { result.0.now ≡ before mark word.now }
    ensures rest { result.1.now ≡ from_mark mark word.now }
{
    word.split_at(place_of(mark, word))
}

/// Whether the word is two numbers with a colon between them.
fn is_pair(word: &[u8]) -> bool
    ensures { result ≡ is_pair word.now }
{
    let (first, rest) = split_at_mark(b':', word);
    match rest {
        [] => false,
        [_, last @ ..] => is_number(first) && is_number(last),
    }
}

/// Whether the word has the form of a value: a number, or three with colons between them.
pub fn is_value(word: &[u8]) -> bool
    ensures { result ≡ is_value word.now }
{
    let (first, rest) = split_at_mark(b':', word);
    match rest {
        [] => is_number(word),
        [_, more @ ..] => is_number(first) && is_pair(more),
    }
}

/// The number of a value that counts: of three the middle one.
pub fn counted(word: &[u8]) -> &[u8]
    ensures { result.now ≡ counted word.now }
{
    let (_, rest) = split_at_mark(b':', word);
    match rest {
        [] => word,
        [_, more @ ..] => {
            let (middle, _) = split_at_mark(b':', more);
            middle
        }
    }
}

/// Whether the word is the left bracket of a bus's bit.
#[inline]
pub fn is_bracket(word: &[u8]) -> bool
    ensures { result ≡ is_bracket word.now }
{
    word == b"[".as_slice() || (word == b"<".as_slice() || word == b"(".as_slice())
}
