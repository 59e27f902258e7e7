//! The sorts of tokens.

ghost use Rattle.std.specs.Prelude.{◌≡◌};
ghost use Rattle.spef_read.specs.Sorts.{is_title, is_separator, is_unit, is_skipped, is_unsupported, is_connection};
ghost use Rattle.spef_read.specs.Sorts.{net_sort, outer_sort, keyword_sort, index_sort, starred_sort, plain_sort};
ghost use Rattle.spef_read.specs.Sorts.{word_sort};

use crate::words::{all_digits, are_digits, is_bracket, is_value};
use text_forms::TokenSort;
use xt_lex::Kind;
use xt_model::Code;

/// What a token is to the grammar.
#[derive(Clone, Copy)]
pub enum Sort {
    /// `*SPEF`.
    Spef,
    /// `*DESIGN`, `*DATE`, `*VENDOR`, `*PROGRAM` or `*VERSION`.
    Title,
    /// `*DESIGN_FLOW`.
    Flow,
    /// `*DIVIDER` or `*DELIMITER`.
    Separator,
    /// `*BUS_DELIMITER`.
    Brackets,
    /// `*T_UNIT`, `*C_UNIT`, `*R_UNIT` or `*L_UNIT`.
    Unit,
    /// `*NAME_MAP`.
    NameMap,
    /// `*PORTS`, `*PHYSICAL_PORTS`, `*POWER_NETS` or `*GROUND_NETS`, whose sections are skipped.
    Skipped,
    /// `*D_NET`.
    Net,
    /// `*R_NET`, `*D_PNET`, `*R_PNET`, `*DEFINE` or `*PDEFINE`, whose sections are not taken.
    Unsupported,
    /// `*INDUC`.
    Inductances,
    /// `*V`.
    Confidence,
    /// `*CONN`.
    Connections,
    /// `*CAP`.
    Capacitors,
    /// `*RES`.
    Resistors,
    /// `*END`.
    NetEnd,
    /// `*P`, `*I` or `*N`.
    Connection,
    /// `*` and digits.
    Index,
    /// Any other word that begins with `*`.
    Starred,
    /// Digits.
    Digits,
    /// Any other number, or three numbers with colons between them.
    Value,
    /// `[`, `<` or `(`.
    Bracket,
    /// Any other word.
    Word,
    /// A string.
    Text,
    /// The end of the text.
    End,
}

/// Whether the word after `*` is that of an item of the header with one string.
fn is_title(word: &[u8]) -> bool
    ensures { result ≡ is_title word.now }
{
    word == b"DESIGN".as_slice()
        || (word == b"DATE".as_slice()
            || (word == b"VENDOR".as_slice()
                || (word == b"PROGRAM".as_slice() || word == b"VERSION".as_slice())))
}

/// Whether the word after `*` is that of a mark of names.
fn is_separator(word: &[u8]) -> bool
    ensures { result ≡ is_separator word.now }
{
    word == b"DIVIDER".as_slice() || word == b"DELIMITER".as_slice()
}

/// Whether the word after `*` is that of a unit.
fn is_unit(word: &[u8]) -> bool
    ensures { result ≡ is_unit word.now }
{
    word == b"T_UNIT".as_slice()
        || (word == b"C_UNIT".as_slice()
            || (word == b"R_UNIT".as_slice() || word == b"L_UNIT".as_slice()))
}

/// Whether the word after `*` begins a section that is skipped.
fn is_skipped(word: &[u8]) -> bool
    ensures { result ≡ is_skipped word.now }
{
    word == b"PORTS".as_slice()
        || (word == b"PHYSICAL_PORTS".as_slice()
            || (word == b"POWER_NETS".as_slice() || word == b"GROUND_NETS".as_slice()))
}

/// Whether the word after `*` begins a section that is not taken.
fn is_unsupported(word: &[u8]) -> bool
    ensures { result ≡ is_unsupported word.now }
{
    word == b"R_NET".as_slice()
        || (word == b"D_PNET".as_slice()
            || (word == b"R_PNET".as_slice()
                || (word == b"DEFINE".as_slice() || word == b"PDEFINE".as_slice())))
}

/// Whether the word after `*` begins a connection.
fn is_connection(word: &[u8]) -> bool
    ensures { result ≡ is_connection word.now }
{
    word == b"P".as_slice() || (word == b"I".as_slice() || word == b"N".as_slice())
}

/// What a word after `*` of a net's section is.
fn net_sort(word: &[u8]) -> Sort
    ensures { result ≡ net_sort word.now }
{
    if word == b"D_NET".as_slice() {
        Sort::Net
    } else if word == b"CONN".as_slice() {
        Sort::Connections
    } else if word == b"CAP".as_slice() {
        Sort::Capacitors
    } else if word == b"RES".as_slice() {
        Sort::Resistors
    } else if word == b"END".as_slice() {
        Sort::NetEnd
    } else if word == b"V".as_slice() {
        Sort::Confidence
    } else if word == b"INDUC".as_slice() {
        Sort::Inductances
    } else {
        Sort::Starred
    }
}

/// What a word after `*` is that may be outside the sections of nets.
fn outer_sort(word: &[u8]) -> Sort
    ensures { result ≡ outer_sort word.now }
{
    if word == b"SPEF".as_slice() {
        Sort::Spef
    } else if is_title(word) {
        Sort::Title
    } else if word == b"DESIGN_FLOW".as_slice() {
        Sort::Flow
    } else if is_separator(word) {
        Sort::Separator
    } else if word == b"BUS_DELIMITER".as_slice() {
        Sort::Brackets
    } else if is_unit(word) {
        Sort::Unit
    } else if word == b"NAME_MAP".as_slice() {
        Sort::NameMap
    } else if is_skipped(word) {
        Sort::Skipped
    } else if is_unsupported(word) {
        Sort::Unsupported
    } else {
        net_sort(word)
    }
}

/// What a word of letters after `*` is.
fn keyword_sort(word: &[u8]) -> Sort
    ensures { result ≡ keyword_sort word.now }
{
    if is_connection(word) {
        Sort::Connection
    } else {
        outer_sort(word)
    }
}

/// What digits after `*` are, with these bytes after the first of them.
#[inline]
fn index_sort(more: &[u8]) -> Sort
    ensures { result ≡ index_sort more.now }
{
    if all_digits(more) {
        Sort::Index
    } else {
        Sort::Starred
    }
}

/// What `*` is with these bytes after it.
#[tactic(auto, unfolding(crate::specs::Sorts::starred_sort))]
#[inline]
fn starred_sort(bytes: &[u8]) -> Sort
    ensures { result ≡ starred_sort bytes.now }
{
    match bytes {
        [] => Sort::Starred,
        [first, more @ ..] => {
            if first.is_ascii_digit() {
                index_sort(more)
            } else {
                keyword_sort(bytes)
            }
        }
    }
}

/// What a word without a `*` in front is.
#[inline]
fn plain_sort(word: &[u8]) -> Sort
    ensures { result ≡ plain_sort word.now }
{
    if are_digits(word) {
        Sort::Digits
    } else if is_value(word) {
        Sort::Value
    } else if is_bracket(word) {
        Sort::Bracket
    } else {
        Sort::Word
    }
}

/// What a word is.
#[tactic(auto, unfolding(crate::specs::Sorts::word_sort))]
#[inline]
fn word_sort(word: &[u8]) -> Sort
    ensures { result ≡ word_sort word.now }
{
    match word {
        [] => Sort::Word,
        [b'*', more @ ..] => starred_sort(more),
        [_, ..] => plain_sort(word),
    }
}

impl TokenSort for Sort {
    ghost use Rattle.spef_read.specs.Sorts.{sort_by, same_sort};
    ghost use Rattle.spef_read.specs.Forms.{misfit};
    ghost use Rattle.spef_read.specs.declared.sort.Sort.TheVariants as sorts;

    ghost sort_by = { sort_by };

    ghost end = { sorts.End };

    ghost same = { same_sort };

    ghost misfit = { misfit };

    #[inline]
    fn sort_by(kind: Kind, text: &[u8]) -> Sort {
        match kind {
            Kind::Text => Sort::Text,
            Kind::Word | Kind::Mark | Kind::Escaped | Kind::Break => word_sort(text),
        }
    }

    #[inline]
    fn end() -> Sort {
        Sort::End
    }

    #[inline]
    fn same(self, other: Sort) -> bool {
        self as u8 == other as u8
    }

    fn misfit(self) -> Code {
        match self {
            Sort::End => Code::S2,
            _ => Code::S1,
        }
    }
}
