//! A library that was read in part.

ghost use Rattle.std.specs.Prelude.{◌≡◌, false, [], ◌∷◌, OnOk, MatchOption, option_map};
ghost use Rattle.text_forms.specs.Misfits.{IsFurther};
ghost use Rattle.text_forms.specs.Stops.{Changes, Reads, refusal_of};
ghost use Rattle.liberty_groups.specs.Building.{nothing_read, settled, opened, closed, with_value};
ghost use Rattle.liberty_groups.specs.Trees.{entry_of, tree_of};
ghost use Rattle.liberty_groups.specs.View.{unfinished, innermost_first, first};

use crate::context::Context;
use crate::forms::form;
use crate::group::{Attribute, Group};
use crate::item::{FormRead, Item};
use crate::sort::Sort;
use crate::span::Span;
use crate::values::Values;
use std::alloc::{AllocError, Global};
use std::marker::PhantomData;
use std::mem;
use text_forms::{FormReader, Refused, Stop, Terms};
use xt_model::Code;

/// The groups that are open, the innermost last, and the last name with its values, where it is not yet part of a
/// group.
#[derive(Drop)]
pub struct Building<'a> {
    groups: Vec<Group>,
    entry: Option<Attribute>,
    text: PhantomData<&'a [u8]>,
}

/// The innermost group.
#[tactic(auto, using(crate::proofs::TreeLaws::innermost_push, crate::proofs::TreeLaws::innermost_none))]
fn take_innermost(groups: &mut Vec<Group>) -> Option<Group>
    ensures innermost { MatchOption result (innermost_first groups.old.items ≡ [])
        (λ g. innermost_first groups.old.items ≡ tree_of g ∷ innermost_first groups.new.items) }
    ensures empty { MatchOption result (innermost_first groups.new.items ≡ []) (λ g. Unit {0}) }
{
    groups.pop()
}

/// A group within the others.
#[tactic(auto, using(crate::proofs::TreeLaws::innermost_push))]
fn put_innermost(groups: &mut Vec<Group>, group: Group) -> Result<(), AllocError>
    ensures { OnOk result (innermost_first groups.new.items ≡ tree_of group ∷ innermost_first groups.old.items) }
{
    groups.push(group)?;
    Ok(())
}

/// What the last name with its values is, where it opened no group: an attribute of the innermost group.
fn settle(
    alloc: Global,
    groups: &mut Vec<Group>,
    entry: Option<Attribute>,
) -> Result<(), AllocError>
    ensures { OnOk result (innermost_first groups.new.items
        ≡ settled (option_map entry_of entry) (innermost_first groups.old.items)) }
{
    if let Some(attribute) = entry {
        if let Some(mut group) = take_innermost(groups) {
            group.add_attribute(alloc, attribute)?;
            put_innermost(groups, group)?;
        }
    }
    Ok(())
}

/// Opens a group by its name and its arguments.
fn open(alloc: Global, groups: &mut Vec<Group>, entry: Option<Attribute>) -> Result<(), AllocError>
    ensures { OnOk result (innermost_first groups.new.items
        ≡ opened (option_map entry_of entry) (innermost_first groups.old.items)) }
{
    if let Some(head) = entry {
        put_innermost(groups, Group::new(alloc, head))?;
    }
    Ok(())
}

/// Closes the innermost group.
fn close(groups: &mut Vec<Group>) -> Result<(), AllocError>
    ensures { OnOk result (innermost_first groups.new.items ≡ closed (innermost_first groups.old.items)) }
{
    if let Some(group) = take_innermost(groups) {
        if let Some(mut around) = take_innermost(groups) {
            around.add_group(group)?;
            put_innermost(groups, around)?;
        } else {
            put_innermost(groups, group)?;
        }
    }
    Ok(())
}

/// One more value after the last name.
fn add_value(alloc: Global, entry: &mut Option<Attribute>, value: Span) -> Result<(), AllocError>
    ensures { OnOk result (option_map entry_of entry.new ≡ with_value value (option_map entry_of entry.old)) }
{
    if let Some(attribute) = entry {
        attribute.values.push(alloc, value)?;
    }
    Ok(())
}

impl<'a> Building<'a> {
    /// Nothing was read yet.
    #[tactic(auto, using(crate::proofs::TreeLaws::innermost_none))]
    pub fn new(alloc: Global) -> Building<'a>
        ensures { unfinished result ≡ nothing_read }
    {
        Building {
            groups: Vec::new(alloc),
            entry: None,
            text: PhantomData,
        }
    }

    /// The group that is left when the text was read to its end, if there is one.
    pub fn into_library(self) -> Option<Group>
        ensures { option_map tree_of result ≡ first (unfinished self.entry).groups }
    {
        let Building {
            mut groups,
            entry: _,
            text: _,
        } = self;
        take_innermost(&mut groups)
    }
}

impl<'a> FormReader for Building<'a> {
    ghost use Rattle.liberty_groups.specs.Grammar.{Slot, fits, forms_in, is_end, first_form, misfit};
    ghost use Rattle.liberty_groups.specs.declared.sort.Sort.TheVariants.{End};
    ghost use Rattle.liberty_groups.specs.View.{whole_of};
    ghost use Rattle.liberty_groups.specs.declared.item.Item.{Item};
    ghost use Rattle.liberty_groups.specs.Building.{Unfinished, step};

    type Sort = Sort;

    type Terms = Terms<'a, Sort>;

    type Context = Context;

    type Item = Item;

    ghost tokens = { λ ts. ts };

    ghost Slot = { Slot };

    ghost Said = { Item };

    ghost fits = { fits };

    ghost forms_in = { forms_in };

    ghost is_done = { is_end };

    ghost item_of = { λ item. item };

    ghost State = { Unfinished };

    ghost state_of = { unfinished };

    ghost means = { step };

    fn is_done(context: Context) -> bool
        ensures { result ≡ is_end context }
    {
        matches!(context, Context::Done)
    }

    fn read_form(context: Context, terms: &mut Terms<'a, Sort>) -> Result<FormRead, Refused>
        requires { is_end context ≡ false }
        ensures { Reads (λ r. (whole_of r, terms.new)) result (first_form (forms_in context) terms.old) }
    {
        form(context, terms)
    }

    fn further(terms: &mut Terms<'a, Sort>) -> Option<Refused>
        ensures { MatchOption result (terms.old ≡ []) (λ r. IsFurther (refusal_of r) misfit End terms.old) }
    {
        terms.further()
    }

    fn act(&mut self, alloc: Global, item: Item) -> Result<(), Stop>
        ensures { Changes result (unfinished self.new) (step item (unfinished self.old)) }
    {
        match item {
            Item::Nothing => {}
            Item::Named(name, line) => {
                let named = Attribute {
                    name,
                    values: Values::none(),
                    line,
                };
                let entry = mem::replace(&mut self.entry, Some(named));
                settle(alloc, &mut self.groups, entry)?;
            }
            Item::Value(value) => add_value(alloc, &mut self.entry, value)?,
            Item::Ends => {
                let entry = mem::take(&mut self.entry);
                settle(alloc, &mut self.groups, entry)?;
            }
            Item::Opens => {
                let entry = mem::take(&mut self.entry);
                open(alloc, &mut self.groups, entry)?;
            }
            Item::TooDeep => return Err(Stop::Refused(Code::L1)),
            Item::Closes => {
                let entry = mem::take(&mut self.entry);
                settle(alloc, &mut self.groups, entry)?;
                close(&mut self.groups)?;
            }
        }
        Ok(())
    }
}
