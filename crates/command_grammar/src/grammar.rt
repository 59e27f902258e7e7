//! The words after a command's own, by the command's rule: positional words, and options with their values.

ghost use Rattle.std.specs.Prelude.{◌≡◌, ◌<◌, ◌^◌, IfOk, [], drop, length, map, string_bytes};
ghost use Rattle.std.specs.Prelude.{Option, Some, None, true, false, is_some, option_map};
ghost use Rattle.std.specs.List.{list_all};
ghost use Rattle.clap.specs.Lexer.{long_of, name_and_value, strip_byte};
ghost use Rattle.clap.specs.Words.{app_of, rule_of};
ghost use Rattle.command_grammar.specs.Grammar;
ghost use Rattle.command_grammar.specs.Grammar.{given_of};
ghost use Rattle.command_grammar.specs.Forms.{after_first, form_of, texts_of};
ghost use Rattle.command_grammar.specs.Reading;
ghost use Rattle.command_grammar.specs.Reading.{Holds, app_of_form};

use clap::error::ErrorKind;
use clap::{Arg, ArgMatches, Command};
use std::alloc::{AllocError, Global};
use thiserror::Error;

/// What may follow the word of a command, in any order: positional words, each by a name of its own, and options.
/// An option is `--name value` or `--name=value`. A positional word or a value is not empty and does not begin with a
/// dash, and no name has two.
#[derive(Clone, Copy)]
pub struct CommandRule {
    pub positionals: &'static [&'static str],
    pub options: &'static [&'static str],
}

/// Why the words ask for nothing.
#[derive(Debug, Drop, Error)]
pub enum WordsFault {
    /// They are outside the grammar.
    #[error("bad command line")]
    Bad,
    /// There was no memory.
    #[error("out of memory")]
    NoMemory,
}

// ---- words

fn without_dash(word: &str) -> Option<&str>
    ensures { option_map (λ s. s.now) result ≡ strip_byte 45 word.now }
{
    word.strip_prefix('-')
}

fn name_and_value(text: &str) -> (&str, Option<&str>)
    ensures { (result.0.now, option_map (λ s. s.now) result.1) ≡ name_and_value text.now }
{
    match text.split_once('=') {
        Some((name, value)) => (name, Some(value)),
        None => (text, None),
    }
}

// The name in the word of an option, and the value after its `=`.
fn long_of(word: &str) -> Option<(&str, Option<&str>)>
    ensures { option_map (λ p. (p.0.now, option_map (λ s. s.now) p.1)) result ≡ long_of word.now }
{
    let rest = without_dash(without_dash(word)?)?;
    if rest.is_empty() {
        return None;
    }
    Some(name_and_value(rest))
}

fn is_plain(word: &str) -> bool
    ensures { result ≡ Grammar.is_plain word.now }
{
    match word.as_bytes() {
        [] => false,
        [b'-', ..] => false,
        _ => true,
    }
}

fn has_option(options: &[&str], name: &str) -> bool
    ensures { result ≡ Grammar.has_option (texts_of options.now) name.now }
{
    options.iter().any(|option| *option == name)
}

fn is_option(options: &[&str], word: &str) -> bool
    ensures { result ≡ is_some (Grammar.option_of (texts_of options.now) word.now) }
{
    match long_of(word) {
        Some((name, None)) => has_option(options, name),
        Some((name, Some(value))) => has_option(options, name) && is_plain(value),
        None => false,
    }
}

// Whether `clap` is shown the word.
fn is_listed(options: &[&str], word: &str) -> bool
    ensures { result ≡ Reading.is_listed (texts_of options.now) word.now }
{
    is_plain(word) || is_option(options, word)
}

fn are_listed(options: &[&str], words: &[String]) -> bool
    ensures { result ≡ list_all (λ word. Reading.is_listed (texts_of options.now) (string_bytes word))
        words.now }
{
    words.iter().all(|word| is_listed(options, word.as_str()))
}

// ---- `clap`

fn option_arg<'a>(alloc: Global, name: &'static str) -> Arg<'a>
    ensures rule { rule_of result ≡ Reading.option_rule name.entry.now }
    ensures local { result.global ≡ false }
{
    Arg::new(alloc, name).long(name)
}

fn positional_arg<'a>(alloc: Global, name: &'static str) -> Arg<'a>
    ensures rule { rule_of result ≡ Reading.positional_rule name.entry.now }
    ensures local { result.global ≡ false }
{
    Arg::new(alloc, name)
}

fn new_command<'a>(alloc: Global) -> Command<'a>
    ensures { app_of result ≡ Reading.app_with [] }
{
    Command::new(alloc, "xtalk")
        .disable_help_flag(true)
        .disable_version_flag(true)
}

// A command of these options.
fn command_of_options<'a>(
    alloc: Global,
    options: &'static [&'static str],
) -> Result<Command<'a>, AllocError>
    ensures { IfOk result (λ c. app_of c ≡ Reading.app_with (map Reading.option_rule (texts_of options.now))) }
{
    let mut command = new_command(alloc);
    for name in options {
        command = command.arg(option_arg(alloc, name))?;
    }
    Ok(command)
}

fn command<'a>(alloc: Global, rule: &CommandRule) -> Result<Command<'a>, AllocError>
    ensures app { IfOk result (λ c. app_of c ≡ app_of_form (form_of rule.now)) }
    ensures room { length rule.now.positionals.now < 2 ^ 63 }
{
    let mut command = command_of_options(alloc, rule.options)?;
    for name in rule.positionals {
        command = command.arg(positional_arg(alloc, name))?;
    }
    Ok(command)
}

// What the command finds in the words, the first of which is the command's own.
fn matches<'a>(
    alloc: Global,
    rule: &CommandRule,
    words: &'a [String],
) -> Result<ArgMatches<'a>, WordsFault>
    requires { list_all (Reading.is_listed (form_of rule.now).options) (after_first words.now) ≡ true }
    ensures ok { IfOk result (Holds (given_of (form_of rule.now) (after_first words.now))) }
    ensures bad { result ≡ Err WordsFault.Bad → given_of (form_of rule.now) (after_first words.now) ≡ None }
{
    let Ok(command) = command(alloc, rule) else {
        return Err(WordsFault::NoMemory);
    };
    match command.try_get_matches_from(words) {
        Ok(matches) => Ok(matches),
        Err(error) => match error.kind() {
            ErrorKind::OutOfMemory => Err(WordsFault::NoMemory),
            _ => Err(WordsFault::Bad),
        },
    }
}

fn words_after_first(words: &[String]) -> &[String]
    ensures { result.now ≡ drop 1 words.now }
{
    match words {
        [_, rest @ ..] => rest,
        [] => words,
    }
}

/// Reads the words after the first one by the rule of their command. The matches have the word of each name that
/// has one. `Bad` comes exactly where the words are not of the rule's form.
pub fn read<'a>(
    alloc: Global,
    rule: &CommandRule,
    words: &'a [String],
) -> Result<ArgMatches<'a>, WordsFault>
    ensures ok { IfOk result (Holds (given_of (form_of rule.now) (after_first words.now))) }
    ensures bad { result ≡ Err WordsFault.Bad → given_of (form_of rule.now) (after_first words.now) ≡ None }
{
    if !are_listed(rule.options, words_after_first(words)) {
        return Err(WordsFault::Bad);
    }
    matches(alloc, rule, words)
}
