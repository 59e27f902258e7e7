//! Fields: words, names and numbers.

ghost use Rattle.std.specs.Prelude.{◌≡◌, ◌<◌, ◌≤◌, ◌≤ℤ◌, nat_le, ◌&&◌, ◌^◌, length, ◌==◌, option_map};
ghost use Rattle.std.specs.Prelude.{IfSome, IsTrue, ◌↔◌, pos, neg_ℤ, if◌then◌else◌, Some, None};
ghost use Rattle.std.specs.Char.{is_ascii_digit};
ghost use Rattle.std.specs.Fmt.{decimal};
ghost use Rattle.std.specs.List.{list_all};
ghost use Rattle.std.specs.Str.Parse.{digits_value};
ghost use Rattle.linked_text.specs.Fields.{Finds, between, count, delay, edge_of, hold_of, is_canonical, is_name};
ghost use Rattle.linked_text.specs.Fields.{is_numeral, is_rising, kind_of, number_of, or_dash, signed_of, size};
ghost use Rattle.linked_text.specs.Fits.{IsSmaller};

use itoa::Buffer;
use xt_model::Edge;
use xt_model::limits::MOST_NAME;

/// Any digits, at most this many, write a number of 64 bits.
const SHORT: usize = 19;

/// The number that at most 19 bytes write, where each of them is a digit.
fn short_value(field: &[u8]) -> Option<u64>
    requires { length field.now ≤ 19 }
    ensures { result ≡ (if list_all is_ascii_digit field.now then Some (digits_value 10 field.now) else None) }
{
    let mut value: u64 = 0;
    for digit in field {
        if !digit.is_ascii_digit() {
            return None;
        }
        value = 10 * value + u64::from(*digit - b'0');
    }
    Some(value)
}

/// The number of 64 bits that at most 19 bytes write, without needless zeros.
fn short_number(field: &[u8]) -> Option<u64>
    requires { length field.now ≤ 19 }
    ensures { Finds (λ x. x) result (number_of (2 ^ 64) field.now) }
{
    if field.is_empty() {
        return None;
    }
    if field[0] == b'0' && field.len() > 1 {
        return None;
    }
    short_value(field)
}

/// Whether the field is what is written for `n`.
fn is_written_so(n: u128, field: &[u8]) -> bool
    ensures { IsTrue result ↔ (field.now ≡ decimal n) }
{
    let mut buffer = Buffer::new();
    buffer.format(n).as_bytes() == field
}

/// The number below `limit` that any bytes write, without needless zeros. Hardly a field has that many bytes.
#[cold]
#[inline(never)]
fn long_number(limit: u128, field: &[u8]) -> Option<u128>
    requires { limit ≤ 2 ^ 127 }
    ensures { Finds (λ x. x) result (number_of limit field.now) }
{
    let Ok(text) = str::from_utf8(field) else {
        return None;
    };
    let Ok(n) = text.parse::<u128>() else {
        return None;
    };
    if n >= limit {
        return None;
    }
    if !is_written_so(n, field) {
        return None;
    }
    Some(n)
}

/// The number below `limit` that is written so, without needless zeros.
pub fn number_from(limit: u128, field: &[u8]) -> Option<u128>
    requires { limit ≤ 2 ^ 127 }
    ensures value { Finds (λ x. x) result (number_of limit field.now) }
    ensures below { IfSome result (λ n. n < limit) }
{
    if field.len() > SHORT {
        return long_number(limit, field);
    }
    let n = u128::from(short_number(field)?);
    if n >= limit {
        return None;
    }
    Some(n)
}

/// The number of a size below `limit` that is written so.
pub fn signed_from(limit: u128, field: &[u8]) -> Option<i128>
    requires { limit ≤ 2 ^ 127 }
    ensures value { Finds (λ x. x) result (signed_of limit field.now) }
    ensures below { IfSome result (IsSmaller limit) }
{
    match field {
        [] => None,
        [b'-', digits @ ..] => {
            let n = number_from(limit, digits)?;
            if n == 0 {
                return None;
            }
            Some(-(n as i128))
        }
        _ => {
            let n = number_from(limit, field)?;
            Some(n as i128)
        }
    }
}

/// The number from `low` to `high` that is written so.
#[tactic(auto, unfolding(crate::specs::Fields::between))]
pub fn between(low: i128, high: i128, field: &[u8]) -> Option<i128>
    ensures value { Finds (λ x. x) result (between low high field.now) }
    ensures low { IfSome result (λ x. low ≤ℤ x) }
    ensures high { IfSome result (λ x. x ≤ℤ high) }
{
    let x = signed_from(1 << 127, field)?;
    if low <= x && x <= high {
        return Some(x);
    }
    None
}

/// The same at 64 bits.
pub fn quantity(low: i64, high: i64, field: &[u8]) -> Option<i64>
    ensures value { Finds (λ x. x) result (between low high field.now) }
    ensures low { IfSome result (λ x. low ≤ℤ x) }
    ensures high { IfSome result (λ x. x ≤ℤ high) }
{
    let x = between(low as i128, high as i128, field)?;
    Some(x as i64)
}

/// A count or a reference.
pub fn count(field: &[u8]) -> Option<u32>
    ensures { Finds (λ x. x) result (count field.now) }
{
    let n = number_from(1 << 32, field)?;
    Some(n as u32)
}

/// A number of rows or columns.
#[tactic(auto, unfolding(crate::specs::Fields::size))]
pub fn size(field: &[u8]) -> Option<u32>
    ensures { Finds (λ x. x) result (size field.now) }
{
    let n = number_from(65, field)?;
    if n >= 1 {
        return Some(n as u32);
    }
    None
}

/// Whether each byte is a digit.
fn are_digits(bytes: &[u8]) -> bool
    ensures { result ≡ list_all is_ascii_digit bytes.now }
{
    bytes.iter().all(|b| b.is_ascii_digit())
}

/// Whether these are digits, of which the first of several is no 0.
fn is_numeral(bytes: &[u8]) -> bool
    ensures { result ≡ is_numeral bytes.now }
{
    match bytes {
        [] => false,
        [first, more @ ..] => are_digits(bytes) && (*first != b'0' || more.is_empty()),
    }
}

/// Whether a whole number of any size is written as it has to be.
pub fn is_canonical(field: &[u8]) -> bool
    ensures { result ≡ is_canonical field.now }
{
    match field {
        [] => false,
        [b'-', digits @ ..] => is_numeral(digits) && digits != b"0".as_slice(),
        _ => is_numeral(field),
    }
}

/// Whether each byte is a printable one other than a space.
fn is_printable(bytes: &[u8]) -> bool
    ensures { result ≡ list_all (λ b. nat_le 33 b && nat_le b 126) bytes.now }
{
    bytes.iter().all(|b| 33 <= *b && *b <= 126)
}

/// Whether the bytes may be a name.
pub fn is_name(bytes: &[u8]) -> bool
    ensures { result ≡ is_name bytes.now }
{
    !bytes.is_empty() && bytes.len() <= MOST_NAME && is_printable(bytes)
}

/// The edge of this word.
pub fn edge(field: &[u8]) -> Option<Edge>
    ensures { Finds (λ x. x) result (edge_of field.now) }
{
    match field {
        b"rise" => Some(Edge::Rise),
        b"fall" => Some(Edge::Fall),
        _ => None,
    }
}

/// Whether it is an input port.
pub fn kind(field: &[u8]) -> Option<bool>
    ensures { Finds (λ x. x) result (kind_of field.now) }
{
    match field {
        b"i" => Some(true),
        b"w" => Some(false),
        _ => None,
    }
}

/// Whether each number is above the one before it.
pub fn is_rising(xs: &[i64]) -> bool
    ensures { result ≡ is_rising xs.now }
{
    let Some((first, others)) = xs.split_first() else {
        return true;
    };
    let mut last = *first;
    for x in others {
        if *x <= last {
            return false;
        }
        last = *x;
    }
    true
}
