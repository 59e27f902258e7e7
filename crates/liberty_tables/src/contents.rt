//! The bytes of a Liberty text: words, strings, and what they hold.

ghost use Rattle.std.specs.Prelude.{◌≡◌, IfOk, MatchOption, map, option_map, true, false};
ghost use Rattle.liberty_tables.specs.Contents.{text_in, unquoted, has_escape, is_changed, held_by, content};
ghost use Rattle.liberty_tables.specs.Search.{only};

use liberty_groups::Span;
use memchr::memchr2;
use std::alloc::{AllocError, Global};

/// The bytes at a place of a text.
pub fn text_in(bytes: &[u8], span: Span) -> &[u8]
    ensures { result.now ≡ text_in bytes.now span }
{
    if span.from <= span.to && span.to as usize <= bytes.len() {
        &bytes[span.from as usize..span.to as usize]
    } else {
        b""
    }
}

/// What a string holds, by the bytes after its opening quote.
fn unquoted(alloc: Global, string: &[u8]) -> Result<Vec<u8>, AllocError>
    ensures { IfOk result (λ held. held.items ≡ unquoted false string.now) }
{
    let mut held = Vec::new(alloc);
    let mut kept = false;
    let mut rest = string;
    'bytes: while let [byte, more @ ..] = rest {
        if kept {
            held.push(if *byte == b'\n' { b' ' } else { *byte })?;
            kept = false;
        } else if *byte == b'"' {
            return Ok(held);
        } else if *byte == b'\\' {
            kept = true;
        } else {
            held.push(*byte)?;
        }
        rest = more;
    }
    Ok(held)
}

/// What a string without a backslash holds, by the bytes after its opening quote: those before the closing one.
fn plain_string(string: &[u8]) -> Option<&[u8]>
    ensures { MatchOption result (has_escape string.now ≡ true) (λ held. held.now ≡ unquoted false string.now) }
{
    match memchr2(b'"', b'\\', string) {
        None => Some(string),
        Some(place) => {
            if string[place] == b'"' {
                let (held, _) = string.split_at(place);
                Some(held)
            } else {
                None
            }
        }
    }
}

/// What a word or a string holds, where it is a part of the text as it is.
#[tactic(auto, unfolding(crate::specs::Contents::held_by))]
pub fn plain(bytes: &[u8]) -> Option<&[u8]>
    ensures { MatchOption result (is_changed bytes.now ≡ true) (λ held. held.now ≡ held_by bytes.now) }
{
    match bytes {
        [b'"', more @ ..] => plain_string(more),
        _ => Some(bytes),
    }
}

/// What a word or a string holds.
#[tactic(auto, unfolding(crate::specs::Contents::held_by))]
fn held_by(alloc: Global, bytes: &[u8]) -> Result<Vec<u8>, AllocError>
    ensures { IfOk result (λ held. held.items ≡ held_by bytes.now) }
{
    match bytes {
        [b'"', more @ ..] => unquoted(alloc, more),
        _ => {
            let mut held = Vec::new(alloc);
            held.extend_from_slice(bytes)?;
            Ok(held)
        }
    }
}

/// What the word or the string at a place holds.
pub fn content(alloc: Global, bytes: &[u8], span: Span) -> Result<Vec<u8>, AllocError>
    ensures { IfOk result (λ held. held.items ≡ content bytes.now span) }
{
    held_by(alloc, text_in(bytes, span))
}

/// What the only one of some values holds.
pub fn only(alloc: Global, bytes: &[u8], values: &[Span]) -> Result<Option<Vec<u8>>, AllocError>
    ensures { IfOk result (λ one. option_map (λ held. held.items) one ≡ only (map (content bytes.now) values.now)) }
{
    match values {
        [value] => Ok(Some(content(alloc, bytes, *value)?)),
        _ => Ok(None),
    }
}
