//! One form of a library by what may come next.

ghost use Rattle.std.specs.Prelude.{◌≡◌, ℕ, ◌+◌, ◌≤◌, false, ◌∷◌, length};
ghost use Rattle.liberty_groups.specs.Grammar.{start_forms, args_forms, library_forms, item_forms};
ghost use Rattle.liberty_groups.specs.Grammar.{named_forms, first_value_forms, values_forms, behind_forms};
ghost use Rattle.liberty_groups.specs.Grammar.{forms_in, first_form, after_group, is_end};
ghost use Rattle.text_forms.specs.Tokens.{token_of};
ghost use Rattle.text_forms.specs.Stops.{Reads};
ghost use Rattle.liberty_groups.specs.View.{whole_of};

use crate::context::Context;
use crate::item::{FormRead, Item};
use crate::sort::Sort;
use crate::span::span_of;
use text_forms::{Refused, Term, Terms};
use xt_lex::MOST_BYTES;
use xt_model::Code;

/// The greatest number of groups that are open at one place.
pub const MOST_OPEN: u32 = 64;

/// A form that was read, whose last token is in this line.
#[inline]
fn done(item: Item, line: u32, next: Context) -> FormRead
    ensures { whole_of result ≡ record { item = item; line = line; next = next } }
{
    FormRead { item, line, next }
}

/// At the start of a text.
fn at_start(terms: &mut Terms<'_, Sort>) -> Result<FormRead, Refused>
    ensures { Reads (λ r. (whole_of r, terms.new)) result (first_form start_forms terms.old) }
{
    let first = terms.any()?;
    match first.sort {
        Sort::Library => {
            let second = terms.any()?;
            match second.sort {
                Sort::LeftParen => Ok(done(
                    Item::Named(span_of(first), first.line),
                    second.line,
                    Context::LibraryArgs,
                )),
                _ => Err(second.refused()),
            }
        }
        _ => Err(first.refused()),
    }
}

/// Within parentheses, after which `next` comes.
fn in_args(here: Context, next: Context, terms: &mut Terms<'_, Sort>) -> Result<FormRead, Refused>
    ensures { Reads (λ r. (whole_of r, terms.new)) result (first_form (args_forms here next) terms.old) }
{
    let first = terms.any()?;
    match first.sort {
        Sort::Library | Sort::Word | Sort::Text => {
            Ok(done(Item::Value(span_of(first)), first.line, here))
        }
        Sort::Comma | Sort::Colon => Ok(done(Item::Nothing, first.line, here)),
        Sort::RightParen => Ok(done(Item::Nothing, first.line, next)),
        _ => Err(first.refused()),
    }
}

/// After the parentheses of the library.
fn at_library(terms: &mut Terms<'_, Sort>) -> Result<FormRead, Refused>
    ensures { Reads (λ r. (whole_of r, terms.new)) result (first_form library_forms terms.old) }
{
    let first = terms.any()?;
    match first.sort {
        Sort::LeftBrace => Ok(done(Item::Opens, first.line, Context::Items(1))),
        _ => Err(first.refused()),
    }
}

/// What may come after the end of a group.
#[inline]
fn after_group(depth: u32) -> Context
    ensures { result ≡ after_group depth }
{
    if 1 < depth {
        Context::Items(depth - 1)
    } else {
        Context::Behind
    }
}

/// An item from its first token on.
fn item_from(
    first: Term<'_, Sort>,
    depth: u32,
    terms: &mut Terms<'_, Sort>,
) -> Result<FormRead, Refused>
    requires { first.from + length first.text.now ≤ MOST_BYTES }
    ensures { Reads (λ r. (whole_of r, terms.new)) result
        (first_form (item_forms depth) (token_of first.entry ∷ terms.old)) }
{
    match first.sort {
        Sort::Semicolon => Ok(done(Item::Ends, first.line, Context::Items(depth))),
        Sort::RightBrace => Ok(done(Item::Closes, first.line, after_group(depth))),
        Sort::Library | Sort::Word => {
            let second = terms.any()?;
            let named = Item::Named(span_of(first), first.line);
            match second.sort {
                Sort::Colon => Ok(done(named, second.line, Context::FirstValue(depth))),
                Sort::LeftParen => Ok(done(named, second.line, Context::Args(depth))),
                _ => Err(second.refused()),
            }
        }
        _ => Err(first.refused()),
    }
}

/// Where an item may begin.
fn at_item(depth: u32, terms: &mut Terms<'_, Sort>) -> Result<FormRead, Refused>
    ensures { Reads (λ r. (whole_of r, terms.new)) result (first_form (item_forms depth) terms.old) }
{
    let first = terms.any()?;
    item_from(first, depth, terms)
}

/// After the parentheses of a group or of an attribute.
fn at_named(depth: u32, terms: &mut Terms<'_, Sort>) -> Result<FormRead, Refused>
    ensures { Reads (λ r. (whole_of r, terms.new)) result (first_form (named_forms depth) terms.old) }
{
    let first = terms.any()?;
    match first.sort {
        Sort::LeftBrace => {
            if depth < MOST_OPEN {
                Ok(done(Item::Opens, first.line, Context::Items(depth + 1)))
            } else {
                Ok(done(Item::TooDeep, first.line, Context::Done))
            }
        }
        _ => item_from(first, depth, terms),
    }
}

/// After the colon of an attribute.
fn at_first_value(depth: u32, terms: &mut Terms<'_, Sort>) -> Result<FormRead, Refused>
    ensures { Reads (λ r. (whole_of r, terms.new)) result (first_form (first_value_forms depth) terms.old) }
{
    let first = terms.any()?;
    match first.sort {
        Sort::Library | Sort::Word | Sort::Text => Ok(done(
            Item::Value(span_of(first)),
            first.line,
            Context::Values(depth),
        )),
        _ => Err(first.refused()),
    }
}

/// After a value of such an attribute.
fn in_values(depth: u32, terms: &mut Terms<'_, Sort>) -> Result<FormRead, Refused>
    ensures { Reads (λ r. (whole_of r, terms.new)) result (first_form (values_forms depth) terms.old) }
{
    let first = terms.any()?;
    match first.sort {
        Sort::Library | Sort::Word | Sort::Text => Ok(done(
            Item::Value(span_of(first)),
            first.line,
            Context::Values(depth),
        )),
        Sort::Semicolon => Ok(done(Item::Ends, first.line, Context::Items(depth))),
        _ => Err(first.refused()),
    }
}

/// After the library.
fn behind(terms: &mut Terms<'_, Sort>) -> Result<FormRead, Refused>
    ensures { Reads (λ r. (whole_of r, terms.new)) result (first_form behind_forms terms.old) }
{
    let first = terms.any()?;
    match first.sort {
        Sort::Semicolon => Ok(done(Item::Nothing, first.line, Context::Behind)),
        Sort::End => Ok(done(Item::Nothing, first.line, Context::Done)),
        _ => Err(first.refused()),
    }
}

/// The next form.
pub fn form(context: Context, terms: &mut Terms<'_, Sort>) -> Result<FormRead, Refused>
    requires { is_end context ≡ false }
    ensures { Reads (λ r. (whole_of r, terms.new)) result (first_form (forms_in context) terms.old) }
{
    match context {
        Context::Start => at_start(terms),
        Context::LibraryArgs => in_args(Context::LibraryArgs, Context::LibraryNamed, terms),
        Context::LibraryNamed => at_library(terms),
        Context::Items(depth) => at_item(depth, terms),
        Context::Args(depth) => in_args(Context::Args(depth), Context::Named(depth), terms),
        Context::Named(depth) => at_named(depth, terms),
        Context::FirstValue(depth) => at_first_value(depth, terms),
        Context::Values(depth) => in_values(depth, terms),
        Context::Behind => behind(terms),
        Context::Done => Err(Refused {
            line: 1,
            code: Code::L2,
        }),
    }
}
