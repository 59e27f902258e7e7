//! Which words are allowed where.

ghost use Rattle.std.specs.Prelude.{◌≡◌, [], option_map};
ghost use Rattle.std.specs.List.{list_all};
ghost use Rattle.sdc_words.specs.Items.{items_of};
ghost use Rattle.sdc_words.specs.View.{word_text, names_text};
ghost use Rattle.sdc_forms.specs.Options.{text_in, is_short, are_short, are_objects, is_name_in, fits};
ghost use Rattle.sdc_forms.specs.Options.{first_slot, is_number, is_option};
ghost use Rattle.sdc_forms.specs.View.{is_form};

use crate::command::CommandName;
use sdc_words::{NameList, Word, first_item};
use text_forms::is_name;
use xt_model::limits::MOST_TEXT_NAME;
use xt_number::{NumberFault, read_fixed};

/// A place for a word.
#[derive(Clone, Copy)]
pub enum Slot {
    /// A number, a unit or a waveform.
    Value,
    /// The name of a clock.
    Name,
    /// An object list.
    Objects,
    /// Any word.
    Any,
}

/// The bytes of a word that is not in brackets.
pub fn text_in<'a>(word: Word<'a>) -> Option<&'a [u8]>
    ensures { option_map (λ t. t.now) result ≡ text_in (word_text word.entry) }
{
    match word {
        Word::Bare(text) => Some(text),
        Word::Braced(text) => Some(text),
        Word::Quoted(text) => Some(text),
        _ => None,
    }
}

/// Whether a name is not too long.
fn is_short(name: &[u8]) -> bool
    ensures { result ≡ is_short name.now }
{
    name.len() <= MOST_TEXT_NAME
}

/// Whether no name between braces is too long.
fn all_short(names: &[u8]) -> bool
    ensures { result ≡ list_all is_short (items_of names.now) }
{
    let mut rest = names;
    'names: while let Some((name, more)) = first_item(rest) {
        if !is_short(name) {
            return false;
        }
        rest = more;
    }
    true
}

/// Whether no name of a list is too long.
fn are_short(names: NameList<'_>) -> bool
    ensures { result ≡ are_short (names_text names.entry) }
{
    match names {
        NameList::One(name) => is_short(name),
        NameList::Many(names) => all_short(names),
    }
}

/// Whether a word is an object list, with no name too long.
fn are_objects(word: Word<'_>) -> bool
    ensures { result ≡ are_objects (word_text word.entry) }
{
    match word {
        Word::Bare(name) => is_short(name),
        Word::Braced(names) => all_short(names),
        Word::Ports(names) => are_short(names),
        Word::Clocks(names) => are_short(names),
        Word::AllInputs => true,
        Word::AllOutputs => true,
        _ => false,
    }
}

impl Slot {
    /// The place of the first argument of a command.
    pub fn first(command: CommandName) -> Slot
        ensures { result ≡ first_slot command }
    {
        match command {
            CommandName::InputDelay => Slot::Value,
            CommandName::OutputDelay => Slot::Value,
            CommandName::InputTransition => Slot::Value,
            CommandName::Load => Slot::Value,
            _ => Slot::Objects,
        }
    }

    /// Whether a word may be here.
    pub fn fits(self, word: Word<'_>) -> bool
        ensures { result ≡ fits self (word_text word.entry) }
    {
        match self {
            Slot::Value => text_in(word).is_some(),
            Slot::Name => match text_in(word) {
                Some(name) => is_name(name),
                None => false,
            },
            Slot::Objects => are_objects(word),
            Slot::Any => true,
        }
    }
}

/// Whether the answer is that a text is no number.
fn is_form(read: Result<i64, NumberFault>) -> bool
    ensures { result ≡ is_form read }
{
    match read {
        Ok(_) => false,
        Err(NumberFault::Form) => true,
        Err(NumberFault::Digits) => false,
        Err(NumberFault::Range) => false,
    }
}

/// Whether the bytes are a number.
fn is_number(text: &[u8]) -> bool
    ensures { result ≡ is_number text.now }
{
    !is_form(read_fixed(text, 0))
}

/// Whether a bare word with these bytes is an option.
pub fn is_option(text: &[u8]) -> bool
    ensures { result ≡ is_option text.now }
{
    match text {
        [b'-', ..] => !is_number(text),
        _ => false,
    }
}
