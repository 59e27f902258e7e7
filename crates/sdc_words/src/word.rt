//! Single words.

ghost use Rattle.std.specs.Prelude.{◌≡◌, false, map, option_map};
ghost use Rattle.xt_lex.specs.Sdc.{in_bit_after};
ghost use Rattle.xt_lex.specs.View.{text_of};
ghost use Rattle.sdc_words.specs.Words.{enclosed_in, ends_open, word_of, names_of, all_ports, listed, object_list};
ghost use Rattle.sdc_words.specs.Words.{bracketed};
ghost use Rattle.sdc_words.specs.View.{names_text, word_text};

use xt_lex::{Kind, Lexeme};

/// The names in a list: a bare one, or those between braces, which white space separates.
#[derive(Clone, Copy, Debug, PartialEq, Eq)]
pub enum NameList<'a> {
    One(&'a [u8]),
    Many(&'a [u8]),
}

/// A word of a command. Braces, quotes and brackets do not belong to the bytes.
#[derive(Clone, Copy, Debug, PartialEq, Eq)]
pub enum Word<'a> {
    Bare(&'a [u8]),
    Braced(&'a [u8]),
    Quoted(&'a [u8]),
    /// `[get_ports LIST]`.
    Ports(NameList<'a>),
    /// `[get_clocks LIST]`.
    Clocks(NameList<'a>),
    /// `[all_inputs]`.
    AllInputs,
    /// `[all_outputs]`.
    AllOutputs,
    /// Another word in brackets.
    Bracketed,
}

/// The bytes between the first and the last one.
fn enclosed_in(text: &[u8]) -> &[u8]
    ensures { result.now ≡ enclosed_in text.now }
{
    if text.len() < 2 {
        b""
    } else {
        &text[1..text.len() - 1]
    }
}

/// Whether a `[` of a bare word is open after this byte.
fn in_bit_after(open_bit: bool, byte: u8) -> bool
    ensures { result ≡ in_bit_after open_bit byte }
{
    if open_bit { byte != b']' } else { byte == b'[' }
}

/// Whether a `[` of a bare word is open at its end.
fn ends_open(text: &[u8]) -> bool
    ensures { result ≡ ends_open false text.now }
{
    let mut open_bit = false;
    let mut rest = text;
    'bytes: while let [byte, more @ ..] = rest {
        open_bit = in_bit_after(open_bit, *byte);
        rest = more;
    }
    open_bit
}

/// A word that is not in brackets, unless it is a bare one with an open `[`.
pub fn word_of<'a>(kind: Kind, text: &'a [u8]) -> Option<Word<'a>>
    ensures { option_map word_text result ≡ word_of kind text.entry.now }
{
    match kind {
        Kind::Word => {
            if ends_open(text) {
                None
            } else {
                Some(Word::Bare(text))
            }
        }
        Kind::Escaped => Some(Word::Braced(enclosed_in(text))),
        _ => Some(Word::Quoted(enclosed_in(text))),
    }
}

/// The names of a list in brackets.
fn names_of<'a>(kind: Kind, text: &'a [u8]) -> Option<NameList<'a>>
    ensures { option_map names_text result ≡ names_of kind text.entry.now }
{
    match kind {
        Kind::Word => Some(NameList::One(text)),
        Kind::Escaped => Some(NameList::Many(enclosed_in(text))),
        _ => None,
    }
}

/// What one token between brackets denotes.
fn all_ports<'a>(kind: Kind, text: &[u8]) -> Word<'a>
    ensures { word_text result ≡ all_ports kind text.now }
{
    match kind {
        Kind::Word => {
            if text == b"all_inputs".as_slice() {
                Word::AllInputs
            } else if text == b"all_outputs".as_slice() {
                Word::AllOutputs
            } else {
                Word::Bracketed
            }
        }
        _ => Word::Bracketed,
    }
}

/// What a word with a list between brackets denotes.
fn listed<'a>(text: &[u8], names: NameList<'a>) -> Word<'a>
    ensures { word_text result ≡ listed text.now (names_text names.entry) }
{
    if text == b"get_ports".as_slice() {
        Word::Ports(names)
    } else if text == b"get_clocks".as_slice() {
        Word::Clocks(names)
    } else {
        Word::Bracketed
    }
}

/// What two tokens between brackets denote.
fn object_list<'a>(kind: Kind, text: &[u8], names: Option<NameList<'a>>) -> Word<'a>
    ensures { word_text result ≡ object_list kind text.now (option_map names_text names.entry) }
{
    match (kind, names) {
        (Kind::Word, Some(names)) => listed(text, names),
        _ => Word::Bracketed,
    }
}

/// What the tokens between brackets denote.
pub fn bracketed<'a>(inside: &[Lexeme<'a>]) -> Word<'a>
    ensures { word_text result ≡ bracketed (map text_of inside.now) }
{
    match inside {
        [one] => all_ports(one.kind, one.text),
        [first, list] => object_list(first.kind, first.text, names_of(list.kind, list.text)),
        _ => Word::Bracketed,
    }
}
