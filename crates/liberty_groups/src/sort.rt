//! The sorts of tokens.

ghost use Rattle.std.specs.Prelude.{◌≡◌};
ghost use Rattle.liberty_groups.specs.Sorts.{word_sort, mark_sort};

use text_forms::TokenSort;
use xt_lex::Kind;
use xt_model::Code;

/// What a token is to the grammar. A token of another sort than these fits nowhere.
#[derive(Clone, Copy)]
pub enum Sort {
    /// The word `library`.
    Library,
    /// Another word.
    Word,
    /// A string.
    Text,
    LeftParen,
    RightParen,
    LeftBrace,
    RightBrace,
    Colon,
    Semicolon,
    Comma,
    Other,
    /// The end of the text.
    End,
}

/// What a word is.
#[inline]
fn word_sort(word: &[u8]) -> Sort
    ensures { result ≡ word_sort word.now }
{
    if word == b"library".as_slice() {
        Sort::Library
    } else {
        Sort::Word
    }
}

/// What a mark is.
#[tactic(auto, unfolding(crate::specs::Sorts::mark_sort))]
#[inline]
fn mark_sort(mark: &[u8]) -> Sort
    ensures { result ≡ mark_sort mark.now }
{
    match mark {
        b"(" => Sort::LeftParen,
        b")" => Sort::RightParen,
        b"{" => Sort::LeftBrace,
        b"}" => Sort::RightBrace,
        b":" => Sort::Colon,
        b";" => Sort::Semicolon,
        b"," => Sort::Comma,
        _ => Sort::Other,
    }
}

impl TokenSort for Sort {
    ghost use Rattle.liberty_groups.specs.Sorts.{sort_by, same_sort};
    ghost use Rattle.liberty_groups.specs.Grammar.{misfit};
    ghost use Rattle.liberty_groups.specs.declared.sort.Sort.TheVariants.{End};

    ghost sort_by = { sort_by };

    ghost end = { End };

    ghost same = { same_sort };

    ghost misfit = { misfit };

    #[inline]
    fn sort_by(kind: Kind, text: &[u8]) -> Sort {
        match kind {
            Kind::Word => word_sort(text),
            Kind::Text => Sort::Text,
            Kind::Mark => mark_sort(text),
            Kind::Escaped | Kind::Break => Sort::Other,
        }
    }

    #[inline]
    fn end() -> Sort {
        Sort::End
    }

    #[inline]
    fn same(self, other: Sort) -> bool {
        self as u8 == other as u8
    }

    fn misfit(self) -> Code {
        match self {
            Sort::End => Code::L2,
            _ => Code::L1,
        }
    }
}
