//! One form of a net's section, from its first token on, by what may come next. What several of them call with the
//! token is inlined, as in `forms`.

ghost use Rattle.std.specs.Prelude.{◌∷◌};
ghost use Rattle.spef_read.specs.Forms.{closing_forms, behind_capacitors, behind_connections, net_name_forms};
ghost use Rattle.spef_read.specs.Forms.{net_total_forms, lists_forms, totalled_forms, connections_forms};
ghost use Rattle.spef_read.specs.Forms.{connection_forms, capacitors_forms, cap_second_forms, cap_value_forms};
ghost use Rattle.spef_read.specs.Forms.{resistors_forms, res_second_forms, res_value_forms};
ghost use Rattle.text_forms.specs.Tokens.{token_of};
ghost use Rattle.spef_read.specs.View.{ReadsForm};

use crate::context::Context;
use crate::forms::done;
use crate::item::{FormResult, Item};
use crate::slots::{any_word, is_value_sort, is_word};
use crate::sort::Sort;
use text_forms::{Term, Terms, TokenSort};
use xt_model::Code;

/// The end of a net, from its token on.
#[inline(always)]
fn closing_from<'a>(first: Term<'a, Sort>, terms: &Terms<'a, Sort>) -> FormResult<'a>
    ensures { ReadsForm result closing_forms (token_of first.entry ∷ terms.now) terms.now }
{
    match first.sort {
        Sort::NetEnd => Ok(done(Item::NetEnds, first.line, Context::BehindNet)),
        Sort::Inductances => Ok(done(Item::Refused(Code::S7), first.line, Context::Done)),
        Sort::Unsupported => Ok(done(Item::Refused(Code::S7), first.line, Context::Done)),
        _ => Err(first.refused()),
    }
}

/// What comes after the capacitors of a net, from its first token on.
#[inline(always)]
fn behind_capacitors<'a>(first: Term<'a, Sort>, terms: &Terms<'a, Sort>) -> FormResult<'a>
    ensures { ReadsForm result behind_capacitors (token_of first.entry ∷ terms.now) terms.now }
{
    if Sort::Resistors.same(first.sort) {
        Ok(done(Item::Nothing, first.line, Context::Resistors))
    } else {
        closing_from(first, terms)
    }
}

/// What comes after the connections of a net, from its first token on.
#[inline(always)]
fn behind_connections<'a>(first: Term<'a, Sort>, terms: &Terms<'a, Sort>) -> FormResult<'a>
    ensures { ReadsForm result behind_connections (token_of first.entry ∷ terms.now) terms.now }
{
    if Sort::Capacitors.same(first.sort) {
        Ok(done(Item::Nothing, first.line, Context::Capacitors))
    } else {
        behind_capacitors(first, terms)
    }
}

/// The name of a net.
pub fn net_name<'a>(first: Term<'a, Sort>, terms: &Terms<'a, Sort>) -> FormResult<'a>
    ensures { ReadsForm result net_name_forms (token_of first.entry ∷ terms.now) terms.now }
{
    if is_word(first.sort) {
        Ok(done(Item::NetName(first.text), first.line, Context::NetTotal))
    } else {
        Err(first.refused())
    }
}

/// The total capacitance of a net.
pub fn net_total<'a>(first: Term<'a, Sort>, terms: &Terms<'a, Sort>) -> FormResult<'a>
    ensures { ReadsForm result net_total_forms (token_of first.entry ∷ terms.now) terms.now }
{
    if is_value_sort(first.sort) {
        Ok(done(Item::Total(first.text), first.line, Context::Totalled))
    } else {
        Err(first.refused())
    }
}

/// The lists of a net, or its end.
#[inline(always)]
pub fn lists_from<'a>(first: Term<'a, Sort>, terms: &Terms<'a, Sort>) -> FormResult<'a>
    ensures { ReadsForm result lists_forms (token_of first.entry ∷ terms.now) terms.now }
{
    if Sort::Connections.same(first.sort) {
        Ok(done(Item::Nothing, first.line, Context::Connections))
    } else {
        behind_connections(first, terms)
    }
}

/// After the total capacitance of a net.
pub fn totalled<'a>(first: Term<'a, Sort>, terms: &mut Terms<'a, Sort>) -> FormResult<'a>
    ensures { ReadsForm result totalled_forms (token_of first.entry ∷ terms.old) terms.new }
{
    if !Sort::Confidence.same(first.sort) {
        return lists_from(first, &*terms);
    }
    let second = terms.any()?;
    match second.sort {
        Sort::End => Err(second.refused()),
        _ => Ok(done(Item::Nothing, second.line, Context::Lists)),
    }
}

/// After `*CONN`.
pub fn connections<'a>(first: Term<'a, Sort>, terms: &Terms<'a, Sort>) -> FormResult<'a>
    ensures { ReadsForm result connections_forms (token_of first.entry ∷ terms.now) terms.now }
{
    if Sort::Connection.same(first.sort) {
        Ok(done(Item::Nothing, first.line, Context::Connection))
    } else {
        behind_connections(first, terms)
    }
}

/// In a connection.
pub fn connection<'a>(first: Term<'a, Sort>, terms: &Terms<'a, Sort>) -> FormResult<'a>
    ensures { ReadsForm result connection_forms (token_of first.entry ∷ terms.now) terms.now }
{
    match first.sort {
        Sort::NameMap | Sort::Skipped | Sort::Net | Sort::End => Err(first.refused()),
        Sort::Capacitors | Sort::Resistors | Sort::NetEnd | Sort::Inductances | Sort::Unsupported =>
            { behind_connections(first, terms) }
        _ => Ok(done(Item::Nothing, first.line, Context::Connection)),
    }
}

/// A capacitor, or what comes after the last one.
pub fn capacitors<'a>(first: Term<'a, Sort>, terms: &mut Terms<'a, Sort>) -> FormResult<'a>
    ensures { ReadsForm result capacitors_forms (token_of first.entry ∷ terms.old) terms.new }
{
    if !Sort::Digits.same(first.sort) {
        return behind_capacitors(first, &*terms);
    }
    let node = any_word(terms)?;
    Ok(done(Item::FirstNode(node.text), node.line, Context::CapSecond))
}

/// After the first node of a capacitor.
pub fn cap_second<'a>(first: Term<'a, Sort>, terms: &Terms<'a, Sort>) -> FormResult<'a>
    ensures { ReadsForm result cap_second_forms (token_of first.entry ∷ terms.now) terms.now }
{
    match first.sort {
        Sort::Text | Sort::End => Err(first.refused()),
        Sort::Digits | Sort::Value => Ok(done(
            Item::CapValue(first.text),
            first.line,
            Context::Capacitors,
        )),
        _ => Ok(done(Item::CapNode(first.text), first.line, Context::CapValue)),
    }
}

/// After the second node of a capacitor.
pub fn cap_value<'a>(first: Term<'a, Sort>, terms: &Terms<'a, Sort>) -> FormResult<'a>
    ensures { ReadsForm result cap_value_forms (token_of first.entry ∷ terms.now) terms.now }
{
    if is_value_sort(first.sort) {
        Ok(done(Item::CapValue(first.text), first.line, Context::Capacitors))
    } else {
        Err(first.refused())
    }
}

/// A resistor, or what comes after the last one.
pub fn resistors<'a>(first: Term<'a, Sort>, terms: &mut Terms<'a, Sort>) -> FormResult<'a>
    ensures { ReadsForm result resistors_forms (token_of first.entry ∷ terms.old) terms.new }
{
    if !Sort::Digits.same(first.sort) {
        return closing_from(first, &*terms);
    }
    let node = any_word(terms)?;
    Ok(done(Item::FirstNode(node.text), node.line, Context::ResSecond))
}

/// After the first node of a resistor.
pub fn res_second<'a>(first: Term<'a, Sort>, terms: &Terms<'a, Sort>) -> FormResult<'a>
    ensures { ReadsForm result res_second_forms (token_of first.entry ∷ terms.now) terms.now }
{
    if is_word(first.sort) {
        Ok(done(Item::ResNode(first.text), first.line, Context::ResValue))
    } else {
        Err(first.refused())
    }
}

/// After the second node of a resistor.
pub fn res_value<'a>(first: Term<'a, Sort>, terms: &Terms<'a, Sort>) -> FormResult<'a>
    ensures { ReadsForm result res_value_forms (token_of first.entry ∷ terms.now) terms.now }
{
    if is_value_sort(first.sort) {
        Ok(done(Item::ResValue(first.text), first.line, Context::Resistors))
    } else {
        Err(first.refused())
    }
}
