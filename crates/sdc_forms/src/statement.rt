//! What commands say.

ghost use Rattle.std.specs.Prelude.{◌≡◌, map, option_map, IfSome, IfOk};
ghost use Rattle.sdc_words.specs.View.{word_text};
ghost use Rattle.sdc_forms.specs.Statement.{picked_of, text_of_word, power_if, number_and_list, one_list};
ghost use Rattle.sdc_forms.specs.Statement.{statement_of_arranged, time_power, cap_power, statement_of_units};
ghost use Rattle.sdc_forms.specs.Statement.{statement_of_clock, statement_of_input_delay, statement_of_output_delay};
ghost use Rattle.sdc_forms.specs.Statement.{statement_of_transition, statement_of_load, whole_statement};
ghost use Rattle.sdc_forms.specs.Statement.{statement_of_version, statement_of_set, statement_of_command};
ghost use Rattle.sdc_forms.specs.Statement.{statement_of_words};
ghost use Rattle.text_forms.specs.Stops.{Computes};
ghost use Rattle.sdc_forms.specs.View.{statement_text, IsPower, HasPowers};

use crate::arranged::Arranged;
use crate::command::CommandName;
use crate::option::OptionName;
use crate::picked::Picked;
use crate::slot::text_in;
use crate::units::{cap_power, time_power};
use sdc_words::Word;
use std::alloc::Global;
use text_forms::Stop;
use xt_model::{Code, Row};

/// What a command says.
#[derive(Clone, Copy)]
pub enum Statement<'a> {
    Nothing,
    /// The powers of ten of the units of time (in fs) and of capacitance (in aF), where they are given.
    Units(Option<i32>, Option<i32>),
    /// A clock's name, its period, its waveform and its source.
    Clock(Option<&'a [u8]>, &'a [u8], Option<&'a [u8]>, Word<'a>),
    /// A delay of input ports, the clock to which it refers, which edges and sides it is for, and the ports.
    InputDelay(&'a [u8], Word<'a>, Picked, Word<'a>),
    /// The same of output ports.
    OutputDelay(&'a [u8], Word<'a>, Picked, Word<'a>),
    /// A slew of input ports, which edges and sides it is for, and the ports.
    InputTransition(&'a [u8], Picked, Word<'a>),
    /// A load of output ports, and the ports.
    Load(&'a [u8], Word<'a>),
}

/// Which edges and sides a command sets.
fn picked_of(words: &Arranged<'_>) -> Picked
    ensures { result ≡ picked_of words.now.given }
{
    let (rise, fall) = (words.has(OptionName::Rise), words.has(OptionName::Fall));
    let (min, max) = (words.has(OptionName::Min), words.has(OptionName::Max));
    Picked {
        rise: rise || !fall,
        fall: fall || !rise,
        min: min || !max,
        max: max || !min,
    }
}

/// The bytes of a word that is there and not in brackets.
fn text_of_word<'a>(word: Option<Word<'a>>) -> Option<&'a [u8]>
    ensures { option_map (λ t. t.now) result ≡ text_of_word (option_map word_text word.entry) }
{
    match word {
        Some(word) => text_in(word),
        None => None,
    }
}

/// The power of ten of a unit of time, if one is given.
fn time_if(word: Option<Word<'_>>) -> Option<Option<i32>>
    ensures value { result ≡ power_if time_power (option_map word_text word.entry) }
    ensures bounds { IfSome result (λ o. IfSome o IsPower) }
{
    match word {
        None => Some(None),
        Some(word) => {
            let text = text_in(word)?;
            let power = time_power(text)?;
            Some(Some(power))
        }
    }
}

/// The power of ten of a unit of capacitance, if one is given.
fn cap_if(word: Option<Word<'_>>) -> Option<Option<i32>>
    ensures value { result ≡ power_if cap_power (option_map word_text word.entry) }
    ensures bounds { IfSome result (λ o. IfSome o IsPower) }
{
    match word {
        None => Some(None),
        Some(word) => {
            let text = text_in(word)?;
            let power = cap_power(text)?;
            Some(Some(power))
        }
    }
}

/// A number and a list.
fn number_and_list<'a>(words: &[Word<'a>]) -> Option<(&'a [u8], Word<'a>)>
    ensures { option_map (λ x. (x.0.now, word_text x.1)) result ≡ number_and_list (map word_text words.now) }
{
    match words {
        [number, ports] => {
            let text = text_in(*number)?;
            Some((text, *ports))
        }
        _ => None,
    }
}

/// One list.
fn one_list<'a>(words: &[Word<'a>]) -> Option<Word<'a>>
    ensures { option_map word_text result ≡ one_list (map word_text words.now) }
{
    match words {
        [ports] => Some(*ports),
        _ => None,
    }
}

/// What `set_units` says.
#[tactic(auto, unfolding(crate::specs::Statement::statement_of_units))]
fn statement_of_units<'a>(words: &Arranged<'a>) -> Option<Statement<'a>>
    ensures value { option_map statement_text result ≡ statement_of_units words.now }
    ensures powers { IfSome result HasPowers }
{
    if !words.arguments().is_empty() {
        return None;
    }
    let time = time_if(words.value_of(OptionName::Time))?;
    let cap = cap_if(words.value_of(OptionName::Capacitance))?;
    Some(Statement::Units(time, cap))
}

/// What `create_clock` says.
#[tactic(auto, unfolding(crate::specs::Statement::statement_of_clock))]
fn statement_of_clock<'a>(words: &Arranged<'a>) -> Option<Statement<'a>>
    ensures value { option_map statement_text result ≡ statement_of_clock words.now }
    ensures powers { IfSome result HasPowers }
{
    let period = text_of_word(words.value_of(OptionName::Period))?;
    let source = one_list(words.arguments())?;
    let name = text_of_word(words.value_of(OptionName::Name));
    let waveform = text_of_word(words.value_of(OptionName::Waveform));
    Some(Statement::Clock(name, period, waveform, source))
}

/// What `set_input_delay` says.
#[tactic(auto, unfolding(crate::specs::Statement::statement_of_input_delay))]
fn statement_of_input_delay<'a>(words: &Arranged<'a>) -> Option<Statement<'a>>
    ensures value { option_map statement_text result ≡ statement_of_input_delay words.now }
    ensures powers { IfSome result HasPowers }
{
    let clock = words.value_of(OptionName::Clock)?;
    let (number, ports) = number_and_list(words.arguments())?;
    Some(Statement::InputDelay(number, clock, picked_of(words), ports))
}

/// What `set_output_delay` says.
#[tactic(auto, unfolding(crate::specs::Statement::statement_of_output_delay))]
fn statement_of_output_delay<'a>(words: &Arranged<'a>) -> Option<Statement<'a>>
    ensures value { option_map statement_text result ≡ statement_of_output_delay words.now }
    ensures powers { IfSome result HasPowers }
{
    let clock = words.value_of(OptionName::Clock)?;
    let (number, ports) = number_and_list(words.arguments())?;
    Some(Statement::OutputDelay(number, clock, picked_of(words), ports))
}

/// What `set_input_transition` says.
#[tactic(auto, unfolding(crate::specs::Statement::statement_of_transition))]
fn statement_of_transition<'a>(words: &Arranged<'a>) -> Option<Statement<'a>>
    ensures value { option_map statement_text result ≡ statement_of_transition words.now }
    ensures powers { IfSome result HasPowers }
{
    let (number, ports) = number_and_list(words.arguments())?;
    Some(Statement::InputTransition(number, picked_of(words), ports))
}

/// What `set_load` says.
#[tactic(auto, unfolding(crate::specs::Statement::statement_of_load))]
fn statement_of_load<'a>(words: &Arranged<'a>) -> Option<Statement<'a>>
    ensures value { option_map statement_text result ≡ statement_of_load words.now }
    ensures powers { IfSome result HasPowers }
{
    let (number, ports) = number_and_list(words.arguments())?;
    Some(Statement::Load(number, ports))
}

/// What a command with options and arguments says.
#[tactic(auto, unfolding(crate::specs::Statement::statement_of_arranged))]
fn statement_of_arranged<'a>(command: CommandName, words: &Arranged<'a>) -> Option<Statement<'a>>
    ensures value { option_map statement_text result ≡ statement_of_arranged command words.now }
    ensures powers { IfSome result HasPowers }
{
    match command {
        CommandName::SetUnits => statement_of_units(words),
        CommandName::CreateClock => statement_of_clock(words),
        CommandName::InputDelay => statement_of_input_delay(words),
        CommandName::OutputDelay => statement_of_output_delay(words),
        CommandName::InputTransition => statement_of_transition(words),
        CommandName::Load => statement_of_load(words),
        _ => None,
    }
}

/// What arranged words say.
#[tactic(auto, unfolding(crate::specs::Statement::whole_statement))]
fn whole_statement<'a>(command: CommandName, words: &Arranged<'a>) -> Result<Statement<'a>, Stop>
    ensures value { Computes statement_text result (whole_statement command words.now) }
    ensures powers { IfOk result HasPowers }
{
    if !words.words_fit(command) {
        return Err(Stop::Refused(Code::C1));
    }
    if !words.is_whole() {
        return Err(Stop::Refused(Code::C3));
    }
    match statement_of_arranged(command, words) {
        Some(statement) => Ok(statement),
        None => Err(Stop::Refused(Code::C3)),
    }
}

/// What `set` says with this variable.
fn statement_of_version<'a>(
    variable: Option<&[u8]>,
    words: &[Word<'_>],
) -> Result<Statement<'a>, Stop>
    ensures value { Computes statement_text result
        (statement_of_version (option_map (λ t. t.now) variable.entry) (map word_text words.now)) }
    ensures powers { IfOk result HasPowers }
{
    let Some(variable) = variable else {
        return Err(Stop::Refused(Code::C1));
    };
    if variable != b"sdc_version".as_slice() {
        return Err(Stop::Refused(Code::C2));
    }
    if words.len() == 1 {
        Ok(Statement::Nothing)
    } else {
        Err(Stop::Refused(Code::C3))
    }
}

/// What `set` says.
#[tactic(auto, unfolding(crate::specs::Statement::statement_of_set))]
fn statement_of_set<'a>(words: &[Word<'_>]) -> Result<Statement<'a>, Stop>
    ensures value { Computes statement_text result (statement_of_set (map word_text words.now)) }
    ensures powers { IfOk result HasPowers }
{
    match words {
        [] => Err(Stop::Refused(Code::C3)),
        [variable, more @ ..] => statement_of_version(text_in(*variable), more),
    }
}

/// What a command says with these words after its name.
#[tactic(auto, unfolding(crate::specs::Statement::statement_of_command))]
fn statement_of_command<'a>(
    alloc: Global,
    command: CommandName,
    words: &[Word<'a>],
) -> Result<Statement<'a>, Stop>
    ensures value { Computes statement_text result (statement_of_command command (map word_text words.now)) }
    ensures powers { IfOk result HasPowers }
{
    match command {
        CommandName::Set => statement_of_set(words),
        CommandName::Ignored => Ok(Statement::Nothing),
        CommandName::Unknown => Err(Stop::Refused(Code::C2)),
        _ => {
            let arranged = Arranged::of(alloc, command, words)?;
            whole_statement(command, &arranged)
        }
    }
}

/// What the words of a command say.
///
/// `C1` is that the words do not fit: brackets do not match, or a word is not allowed where it is, which is looked at
/// for the whole command first. `C2` is a command that is not known; `C3` an option or an argument that is unknown,
/// missing or twice, or a unit that is not listed.
#[tactic(auto, unfolding(crate::specs::Statement::statement_of_words))]
pub fn statement_of_words<'a>(
    alloc: Global,
    words: Option<&Row<Word<'a>>>,
) -> Result<Statement<'a>, Stop>
    ensures value { Computes statement_text result
        (statement_of_words (option_map (λ r. map word_text r.now) words.entry)) }
    ensures powers { IfOk result HasPowers }
{
    let Some(words) = words else {
        return Err(Stop::Refused(Code::C1));
    };
    match words.as_slice() {
        [] => Ok(Statement::Nothing),
        [name, more @ ..] => match text_in(*name) {
            Some(name) => statement_of_command(alloc, CommandName::named(name), more),
            None => Err(Stop::Refused(Code::C1)),
        },
    }
}
