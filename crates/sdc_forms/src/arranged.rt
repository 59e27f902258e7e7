//! The words of a command as options and arguments.

ghost use Rattle.std.specs.Prelude.{◌≡◌, map, option_map, Some, IfOk, OnOk};
ghost use Rattle.std.specs.List.{list_all};
ghost use Rattle.sdc_words.specs.View.{word_text};
ghost use Rattle.sdc_forms.specs.Options.{fits};
ghost use Rattle.sdc_forms.specs.declared.slot.Slot.TheVariants as slots;
ghost use Rattle.sdc_forms.specs.Arranged.{role_named, role_of, is_given, with_given, with_option, placed_as, placed};
ghost use Rattle.sdc_forms.specs.Arranged.{nothing, arranged, given_fits, arguments_fit, words_fit, is_whole, value_of};
ghost use Rattle.sdc_forms.specs.View.{given_text};

use crate::command::CommandName;
use crate::option::OptionName;
use crate::slot::{Slot, is_option};
use sdc_words::Word;
use std::alloc::{AllocError, Global};
use std::marker::Model;

/// What a word is to a command.
#[derive(Clone, Copy)]
pub enum Role {
    Argument,
    /// An option that the command has not.
    Stray,
    Named(OptionName),
}

/// An option that is given, with the word after it where it takes one.
#[derive(Clone, Copy)]
pub struct Given<'a> {
    pub name: OptionName,
    pub value: Option<Word<'a>>,
}

/// The options and the arguments of a command, an option that still wants its word, and whether an option is unknown or
/// is there twice.
#[derive(Drop)]
pub struct Arranged<'a> {
    given: Vec<Given<'a>>,
    arguments: Vec<Word<'a>>,
    pending: Option<OptionName>,
    strays: bool,
}

impl<'a> Model for Arranged<'a> {
    ghost use Rattle.std.specs.Prelude.{map};
    ghost use Rattle.sdc_words.specs.View.{word_text};
    ghost use Rattle.sdc_forms.specs.Arranged.{ArrangedText};
    ghost use Rattle.sdc_forms.specs.View.{given_text};

    ghost Value = { ArrangedText };

    ghost view = { λ a. record {
      given = map given_text a.given.items;
      arguments = map word_text a.arguments.items;
      pending = a.pending;
      strays = a.strays;
    } };
}

/// What an option is to a command, if it has it.
fn role_named(option: Option<OptionName>) -> Role
    ensures { result ≡ role_named option }
{
    match option {
        Some(option) => Role::Named(option),
        None => Role::Stray,
    }
}

/// What a word is to a command.
fn role_of(command: CommandName, word: Word<'_>) -> Role
    ensures { result ≡ role_of command (word_text word.entry) }
{
    match word {
        Word::Bare(text) => {
            if is_option(text) {
                role_named(OptionName::named(command, text))
            } else {
                Role::Argument
            }
        }
        _ => Role::Argument,
    }
}

/// Whether an option is among those that are given.
pub fn is_given(option: OptionName, given: &[Given<'_>]) -> bool
    ensures { result ≡ is_given option (map given_text given.now) }
{
    let mut rest = given;
    'given: while let [first, more @ ..] = rest {
        if option.same(first.name) {
            return true;
        }
        rest = more;
    }
    false
}

/// Whether the word after an option may be there.
fn given_fits(given: &Given<'_>) -> bool
    ensures { result ≡ given_fits (given_text given.now) }
{
    match (given.name.slot(), given.value) {
        (Some(slot), Some(word)) => slot.fits(word),
        _ => true,
    }
}

/// Whether the words after all options may be there.
fn all_given_fit(given: &[Given<'_>]) -> bool
    ensures { result ≡ list_all given_fits (map given_text given.now) }
{
    let mut rest = given;
    'given: while let [first, more @ ..] = rest {
        if !given_fits(first) {
            return false;
        }
        rest = more;
    }
    true
}

/// Whether all words are object lists.
fn all_objects(words: &[Word<'_>]) -> bool
    ensures { result ≡ list_all (fits slots.Objects) (map word_text words.now) }
{
    let mut rest = words;
    'words: while let [first, more @ ..] = rest {
        if !Slot::Objects.fits(*first) {
            return false;
        }
        rest = more;
    }
    true
}

/// Whether each argument is allowed where it is.
fn arguments_fit(command: CommandName, arguments: &[Word<'_>]) -> bool
    ensures { result ≡ arguments_fit command (map word_text arguments.now) }
{
    match arguments {
        [] => true,
        [first, more @ ..] => Slot::first(command).fits(*first) && all_objects(more),
    }
}

impl<'a> Arranged<'a> {
    /// No word.
    fn new(alloc: Global) -> Arranged<'a>
        ensures { result ≡ nothing }
    {
        Arranged {
            given: Vec::new(alloc),
            arguments: Vec::new(alloc),
            pending: None,
            strays: false,
        }
    }

    /// An option with its word.
    fn give(&mut self, name: OptionName, value: Option<Word<'a>>) -> Result<(), AllocError>
        ensures { OnOk result (self.new ≡ with_given name (option_map word_text value.entry) self.old) }
    {
        let again = self.strays || is_given(name, self.given.as_slice());
        self.given.push(Given { name, value })?;
        self.strays = again;
        self.pending = None;
        Ok(())
    }

    /// An option, which wants its word next if it takes one.
    fn give_option(&mut self, name: OptionName) -> Result<(), AllocError>
        ensures { OnOk result (self.new ≡ with_option name self.old) }
    {
        if name.slot().is_some() {
            self.pending = Some(name);
            Ok(())
        } else {
            self.give(name, None)
        }
    }

    /// A further word.
    #[tactic(auto, unfolding(crate::specs::Arranged::placed))]
    fn place(&mut self, command: CommandName, word: Word<'a>) -> Result<(), AllocError>
        ensures { OnOk result (self.new ≡ placed command (word_text word.entry) self.old) }
    {
        if let Some(name) = self.pending {
            return self.give(name, Some(word));
        }
        match role_of(command, word) {
            Role::Argument => {
                self.arguments.push(word)?;
                Ok(())
            }
            Role::Stray => {
                self.strays = true;
                Ok(())
            }
            Role::Named(name) => self.give_option(name),
        }
    }

    /// The words after a command's name.
    #[tactic(auto, unfolding(crate::specs::Arranged::arranged))]
    pub fn of(
        alloc: Global,
        command: CommandName,
        words: &[Word<'a>],
    ) -> Result<Arranged<'a>, AllocError>
        ensures { IfOk result (λ a. a ≡ arranged command (map word_text words.now)) }
    {
        let mut arranged = Arranged::new(alloc);
        let mut rest = words;
        'words: while let [word, more @ ..] = rest {
            arranged.place(command, *word)?;
            rest = more;
        }
        Ok(arranged)
    }

    /// Whether each word is allowed where it is.
    #[tactic(auto, unfolding(crate::specs::Arranged::words_fit))]
    pub fn words_fit(&self, command: CommandName) -> bool
        ensures { result ≡ words_fit command self.now }
    {
        all_given_fit(self.given.as_slice()) && arguments_fit(command, self.arguments.as_slice())
    }

    /// Whether no option is unknown, is there twice or lacks its word.
    pub fn is_whole(&self) -> bool
        ensures { result ≡ is_whole self.now }
    {
        !self.strays && !self.pending.is_some()
    }

    /// Whether an option is given.
    pub fn has(&self, option: OptionName) -> bool
        ensures { result ≡ is_given option self.now.given }
    {
        is_given(option, self.given.as_slice())
    }

    /// The word after an option.
    pub fn value_of(&self, option: OptionName) -> Option<Word<'a>>
        ensures { option_map word_text result ≡ value_of option self.now.given }
    {
        value_in(option, self.given.as_slice())
    }

    /// The arguments.
    pub fn arguments(&self) -> &[Word<'a>]
        ensures { map word_text result.now ≡ self.now.arguments }
    {
        self.arguments.as_slice()
    }
}

/// The word after an option among those that are given.
fn value_in<'a>(option: OptionName, given: &[Given<'a>]) -> Option<Word<'a>>
    ensures { option_map word_text result ≡ value_of option (map given_text given.now) }
{
    let mut rest = given;
    'given: while let [first, more @ ..] = rest {
        if option.same(first.name) {
            return first.value;
        }
        rest = more;
    }
    None
}
