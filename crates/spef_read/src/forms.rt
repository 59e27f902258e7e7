//! One form of a text outside the sections of nets, from its first token on, by what may come next. What several of
//! them call with the token is inlined, so that no token is written to memory for a call.

ghost use Rattle.std.specs.Prelude.{◌≡◌, false, ◌∷◌};
ghost use Rattle.spef_read.specs.declared.sort.Sort.TheVariants.{Brackets};
ghost use Rattle.spef_read.specs.Forms.{separator_of, quantity_of, section_forms, start_forms, header_forms};
ghost use Rattle.spef_read.specs.Forms.{flow_forms, unit_forms, pairs_forms, pair_name_forms, skipped_forms};
ghost use Rattle.spef_read.specs.Forms.{forms_in, is_done};
ghost use Rattle.text_forms.specs.Tokens.{token_of};
ghost use Rattle.spef_read.specs.View.{item_text, whole_of, ReadsForm};

use crate::context::Context;
use crate::item::{FormRead, FormResult, Item, Quantity, Separator};
use crate::net_forms::{
    cap_second, cap_value, capacitors, connection, connections, lists_from, net_name, net_total,
    res_second, res_value, resistors, totalled,
};
use crate::slots::{any_word, is_word};
use crate::sort::Sort;
use text_forms::{Term, Terms, TokenSort};
use xt_model::Code;

/// A form that was read, whose last token is in this line.
#[inline]
pub fn done(item: Item<'_>, line: u32, next: Context) -> FormRead<'_>
    ensures { whole_of result ≡ record { item = item_text item.entry; line = line; next = next } }
{
    FormRead { item, line, next }
}

/// Which mark of names the word gives.
fn separator_of(word: &[u8]) -> Separator
    ensures { result ≡ separator_of word.now }
{
    if word == b"*DIVIDER".as_slice() {
        Separator::Divider
    } else {
        Separator::Delimiter
    }
}

/// What the word's unit is of.
fn quantity_of(word: &[u8]) -> Quantity
    ensures { result ≡ quantity_of word.now }
{
    if word == b"*T_UNIT".as_slice() {
        Quantity::Time
    } else if word == b"*C_UNIT".as_slice() {
        Quantity::Capacitance
    } else if word == b"*R_UNIT".as_slice() {
        Quantity::Resistance
    } else {
        Quantity::Inductance
    }
}

/// At the start of a text.
fn at_start<'a>(first: Term<'a, Sort>, terms: &mut Terms<'a, Sort>) -> FormResult<'a>
    ensures { ReadsForm result start_forms (token_of first.entry ∷ terms.old) terms.new }
{
    if !Sort::Spef.same(first.sort) {
        return Err(first.refused());
    }
    let text = terms.expect(Sort::Text)?;
    Ok(done(Item::Nothing, text.line, Context::Header))
}

/// A section, or the end of the text, from its first token on.
#[inline(always)]
fn section_from<'a>(first: Term<'a, Sort>, terms: &Terms<'a, Sort>) -> FormResult<'a>
    ensures { ReadsForm result section_forms (token_of first.entry ∷ terms.now) terms.now }
{
    match first.sort {
        Sort::NameMap => Ok(done(Item::Nothing, first.line, Context::Pairs)),
        Sort::Skipped => Ok(done(Item::Nothing, first.line, Context::Skipped)),
        Sort::Net => Ok(done(Item::NetBegins, first.line, Context::NetName)),
        Sort::Unsupported => Ok(done(Item::Refused(Code::S7), first.line, Context::Done)),
        Sort::End => Ok(done(Item::TextEnds, first.line, Context::Done)),
        _ => Err(first.refused()),
    }
}

/// The brackets of a bus's bit.
fn brackets<'a>(first: Term<'a, Sort>, terms: &mut Terms<'a, Sort>) -> FormResult<'a>
    requires { first.sort ≡ Brackets }
    ensures { ReadsForm result header_forms (token_of first.entry ∷ terms.old) terms.new }
{
    let second = terms.any()?;
    match second.sort {
        Sort::Word => Ok(done(Item::Pair(second.text), second.line, Context::Header)),
        Sort::Bracket => {
            let right = any_word(terms)?;
            let item = Item::Brackets(second.text, right.text);
            Ok(done(item, right.line, Context::Header))
        }
        _ => Err(second.refused()),
    }
}

/// An item of the header, or what comes after it, from its first token on.
#[inline(always)]
fn header_from<'a>(first: Term<'a, Sort>, terms: &mut Terms<'a, Sort>) -> FormResult<'a>
    ensures { ReadsForm result header_forms (token_of first.entry ∷ terms.old) terms.new }
{
    match first.sort {
        Sort::Title => {
            let text = terms.expect(Sort::Text)?;
            Ok(done(Item::Nothing, text.line, Context::Header))
        }
        Sort::Flow => {
            let text = terms.expect(Sort::Text)?;
            Ok(done(Item::Nothing, text.line, Context::Flow))
        }
        Sort::Separator => {
            let mark = any_word(terms)?;
            let item = Item::Separator(separator_of(first.text), mark.text);
            Ok(done(item, mark.line, Context::Header))
        }
        Sort::Brackets => brackets(first, terms),
        Sort::Unit => {
            let number = any_word(terms)?;
            let item = Item::UnitNumber(quantity_of(first.text), number.text);
            Ok(done(item, number.line, Context::Unit))
        }
        _ => section_from(first, &*terms),
    }
}

/// After a string of the design's flow.
fn flow<'a>(first: Term<'a, Sort>, terms: &mut Terms<'a, Sort>) -> FormResult<'a>
    ensures { ReadsForm result flow_forms (token_of first.entry ∷ terms.old) terms.new }
{
    if Sort::Text.same(first.sort) {
        Ok(done(Item::Nothing, first.line, Context::Flow))
    } else {
        header_from(first, terms)
    }
}

/// After the number of a unit.
fn unit<'a>(first: Term<'a, Sort>, terms: &Terms<'a, Sort>) -> FormResult<'a>
    ensures { ReadsForm result unit_forms (token_of first.entry ∷ terms.now) terms.now }
{
    if is_word(first.sort) {
        Ok(done(Item::Unit(first.text), first.line, Context::Header))
    } else {
        Err(first.refused())
    }
}

/// In the name map.
fn pairs<'a>(first: Term<'a, Sort>, terms: &Terms<'a, Sort>) -> FormResult<'a>
    ensures { ReadsForm result pairs_forms (token_of first.entry ∷ terms.now) terms.now }
{
    if Sort::Index.same(first.sort) {
        Ok(done(Item::PairNumber(first.text), first.line, Context::PairName))
    } else {
        section_from(first, terms)
    }
}

/// After the number of a pair.
fn pair_name<'a>(first: Term<'a, Sort>, terms: &Terms<'a, Sort>) -> FormResult<'a>
    ensures { ReadsForm result pair_name_forms (token_of first.entry ∷ terms.now) terms.now }
{
    if is_word(first.sort) {
        Ok(done(Item::PairName(first.text), first.line, Context::Pairs))
    } else {
        Err(first.refused())
    }
}

/// In a section that is skipped.
fn skipped<'a>(first: Term<'a, Sort>, terms: &Terms<'a, Sort>) -> FormResult<'a>
    ensures { ReadsForm result skipped_forms (token_of first.entry ∷ terms.now) terms.now }
{
    match first.sort {
        Sort::NameMap | Sort::Skipped | Sort::Net | Sort::Unsupported | Sort::End => {
            section_from(first, terms)
        }
        _ => Ok(done(Item::Nothing, first.line, Context::Skipped)),
    }
}

/// The form that is next in a context.
pub fn read_form<'a>(context: Context, terms: &mut Terms<'a, Sort>) -> FormResult<'a>
    requires { is_done context ≡ false }
    ensures { ReadsForm result (forms_in context) terms.old terms.new }
{
    let first = terms.any()?;
    match context {
        Context::Start => at_start(first, terms),
        Context::Header => header_from(first, terms),
        Context::Flow => flow(first, terms),
        Context::Unit => unit(first, &*terms),
        Context::Pairs => pairs(first, &*terms),
        Context::PairName => pair_name(first, &*terms),
        Context::Skipped => skipped(first, &*terms),
        Context::BehindNet => section_from(first, &*terms),
        Context::NetName => net_name(first, &*terms),
        Context::NetTotal => net_total(first, &*terms),
        Context::Totalled => totalled(first, terms),
        Context::Lists => lists_from(first, &*terms),
        Context::Connections => connections(first, &*terms),
        Context::Connection => connection(first, &*terms),
        Context::Capacitors => capacitors(first, terms),
        Context::CapSecond => cap_second(first, &*terms),
        Context::CapValue => cap_value(first, &*terms),
        Context::Resistors => resistors(first, terms),
        Context::ResSecond => res_second(first, &*terms),
        Context::ResValue => res_value(first, &*terms),
        Context::Done => Err(first.refused()),
    }
}
