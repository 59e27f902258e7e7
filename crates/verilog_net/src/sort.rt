//! The sorts of tokens.

ghost use Rattle.std.specs.Prelude.{◌≡◌};
ghost use Rattle.verilog_net.specs.Sorts.{is_direction, is_net_type, is_unsupported};
ghost use Rattle.verilog_net.specs.Sorts.{name_sort, digits_sort, letters_sort, word_sort, mark_sort};

use text_forms::{TokenSort, is_name};
use xt_lex::Kind;
use xt_model::Code;

/// What a token is to the grammar. A token of another sort than these fits nowhere.
#[derive(Clone, Copy)]
pub enum Sort {
    Module,
    Endmodule,
    /// `input` or `output`.
    Direction,
    /// `wire`, `tri`, `supply0` or `supply1`.
    NetType,
    /// A word or mark of a construct that is not read.
    Unsupported,
    Name,
    Number,
    Constant,
    LeftParen,
    RightParen,
    LeftBracket,
    RightBracket,
    LeftBrace,
    Comma,
    Semicolon,
    Colon,
    Dot,
    Other,
    /// The end of the text.
    End,
}

/// Whether the word is a direction.
#[inline]
fn is_direction(word: &[u8]) -> bool
    ensures { result ≡ is_direction word.now }
{
    word == b"input".as_slice() || word == b"output".as_slice()
}

/// Whether the word is the type of a net.
#[inline]
fn is_net_type(word: &[u8]) -> bool
    ensures { result ≡ is_net_type word.now }
{
    word == b"wire".as_slice()
        || (word == b"tri".as_slice()
            || (word == b"supply0".as_slice() || word == b"supply1".as_slice()))
}

/// Whether the word begins something that is not read.
#[inline]
fn is_unsupported(word: &[u8]) -> bool
    ensures { result ≡ is_unsupported word.now }
{
    word == b"assign".as_slice()
        || (word == b"inout".as_slice()
            || (word == b"parameter".as_slice()
                || (word == b"always".as_slice()
                    || (word == b"initial".as_slice()
                        || (word == b"reg".as_slice()
                            || (word == b"function".as_slice()
                                || (word == b"task".as_slice()
                                    || word == b"generate".as_slice())))))))
}

/// What the bytes in the place of a name are.
#[inline]
fn name_sort(name: &[u8]) -> Sort
    ensures { result ≡ name_sort name.now }
{
    if is_name(name) {
        Sort::Name
    } else {
        Sort::Other
    }
}

/// What digits are, by what comes after the first of them.
#[inline]
fn digits_sort(more: &[u8]) -> Sort
    ensures { result ≡ digits_sort more.now }
{
    match more {
        [b'\'', ..] => Sort::Constant,
        _ => Sort::Number,
    }
}

/// What a word of letters is.
#[inline]
fn letters_sort(word: &[u8]) -> Sort
    ensures { result ≡ letters_sort word.now }
{
    if word == b"module".as_slice() {
        Sort::Module
    } else if word == b"endmodule".as_slice() {
        Sort::Endmodule
    } else if is_direction(word) {
        Sort::Direction
    } else if is_net_type(word) {
        Sort::NetType
    } else if is_unsupported(word) {
        Sort::Unsupported
    } else {
        name_sort(word)
    }
}

/// What a word is.
#[tactic(auto, unfolding(crate::specs::Sorts::word_sort))]
#[inline]
fn word_sort(word: &[u8]) -> Sort
    ensures { result ≡ word_sort word.now }
{
    match word {
        [] => Sort::Other,
        [first, more @ ..] => {
            if first.is_ascii_digit() {
                digits_sort(more)
            } else {
                letters_sort(word)
            }
        }
    }
}

/// What a mark is.
#[tactic(auto, unfolding(crate::specs::Sorts::mark_sort))]
#[inline]
fn mark_sort(mark: &[u8]) -> Sort
    ensures { result ≡ mark_sort mark.now }
{
    match mark {
        b"(" => Sort::LeftParen,
        b")" => Sort::RightParen,
        b"[" => Sort::LeftBracket,
        b"]" => Sort::RightBracket,
        b"{" => Sort::LeftBrace,
        b"," => Sort::Comma,
        b";" => Sort::Semicolon,
        b":" => Sort::Colon,
        b"." => Sort::Dot,
        b"#" => Sort::Unsupported,
        _ => Sort::Other,
    }
}

impl TokenSort for Sort {
    ghost use Rattle.verilog_net.specs.Sorts.{sort_by, same_sort};
    ghost use Rattle.verilog_net.specs.Forms.{misfit};
    ghost use Rattle.verilog_net.specs.declared.sort.Sort.TheVariants.{End};

    ghost sort_by = { sort_by };

    ghost end = { End };

    ghost same = { same_sort };

    ghost misfit = { misfit };

    #[inline]
    fn sort_by(kind: Kind, text: &[u8]) -> Sort {
        match kind {
            Kind::Word => word_sort(text),
            Kind::Mark => mark_sort(text),
            Kind::Escaped => name_sort(text),
            Kind::Text | Kind::Break => Sort::Other,
        }
    }

    #[inline]
    fn end() -> Sort {
        Sort::End
    }

    #[inline]
    fn same(self, other: Sort) -> bool {
        self as u8 == other as u8
    }

    fn misfit(self) -> Code {
        match self {
            Sort::End => Code::V2,
            Sort::Unsupported => Code::V3,
            _ => Code::V1,
        }
    }
}
