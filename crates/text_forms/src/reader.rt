//! Texts that are read form by form.

ghost use Rattle.std.specs.Prelude.{◌≡◌, Bool, false, List, [], MatchOption, Result};
ghost use Rattle.text_forms.specs.Forms.{Token, Form, form_at};
ghost use Rattle.text_forms.specs.Misfits.{misfits_by, IsFurther};
ghost use Rattle.text_forms.specs.Reader.{whole_of, rest_by};
ghost use Rattle.text_forms.specs.Stops.{refusal_of, Reads, Changes, Gives, Steps};
ghost use Rattle.xt_model.specs.declared.code.Code.{Code};

use crate::form_read::FormRead;
use crate::refused::Refused;
use crate::stop::Stop;
use crate::terms::TokenSort;
use std::alloc::Global;
use xt_lex::TextFault;

/// A text that was read in part. Its forms are read one after another by the forms that may come next; each changes
/// what the text means so far by its item, or is refused.
pub trait FormReader {
    type Sort: TokenSort;
    /// The tokens that are left.
    type Terms;
    /// What may come next.
    type Context: Copy;
    /// What a form says.
    type Item;

    ghost tokens: { Self.Terms → List (Token Self.Sort) };

    /// A place of a form, which sorts of tokens fit.
    ghost Slot: { Type 0 };

    ghost fits: { Slot → Self.Sort → Bool };

    /// An item as the grammar has it.
    ghost Said: { Type 0 };

    ghost item_of: { Self.Item → Said };

    ghost forms_in: { Self.Context → List (Form Slot Self.Sort Said Self.Context) };

    ghost is_done: { Self.Context → Bool };

    /// What a text means so far.
    ghost State: { Type 0 };

    ghost state_of: { Self → State };

    ghost means: { Said → State → Result State Code };

    /// Whether the text is at its end.
    fn is_done(context: Self::Context) -> bool
        ensures { result ≡ is_done context };

    /// The next form.
    fn read_form(
        context: Self::Context,
        terms: &mut Self::Terms,
    ) -> Result<FormRead<Self::Item, Self::Context>, Refused>
        requires { is_done context ≡ false }
        ensures { Reads (λ r. (whole_of item_of r, tokens terms.new)) result
            (form_at fits (misfits_by Self.Sort.misfit Self.Sort.end) (forms_in context) [] (tokens terms.old)) };

    /// The refusal of a further token, if there is one.
    fn further(terms: &mut Self::Terms) -> Option<Refused>
        ensures { MatchOption result (tokens terms.old ≡ [])
            (λ r. IsFurther (refusal_of r) Self.Sort.misfit Self.Sort.end (tokens terms.old)) };

    /// What a form means.
    fn act(&mut self, alloc: Global, item: Self::Item) -> Result<(), Stop>
        ensures { Changes result (state_of self.new) (means (item_of item) (state_of self.old)) };
}

/// Reads one form and does what it says.
fn step<R: FormReader>(
    alloc: Global,
    context: R::Context,
    terms: &mut R::Terms,
    state: &mut R,
) -> Result<R::Context, TextFault>
    requires { R.is_done context ≡ false }
    ensures { Steps (rest_by R.fits (misfits_by R.Sort.misfit R.Sort.end) R.is_done R.forms_in R.means)
        context (R.tokens terms.old) (R.state_of state.old) result (R.tokens terms.new) (R.state_of state.new) }
{
    let read = R::read_form(context, terms)?;
    match state.act(alloc, read.item) {
        Ok(()) => Ok(read.next),
        Err(stop) => Err(stop.at_line(read.line)),
    }
}

/// Reads a text without a fault of its tokens to its end.
pub fn read_all<R: FormReader>(
    alloc: Global,
    start: R::Context,
    terms: &mut R::Terms,
    state: &mut R,
) -> Result<(), TextFault>
    ensures { Gives (λ _. R.state_of state.new) result
        (rest_by R.fits (misfits_by R.Sort.misfit R.Sort.end) R.is_done R.forms_in R.means
        start (R.tokens terms.old) (R.state_of state.old)) }
{
    let mut context = start;
    'forms: while !R::is_done(context) {
        context = step(alloc, context, terms, state)?;
    }
    match R::further(terms) {
        None => Ok(()),
        Some(refused) => Err(TextFault::from(refused)),
    }
}
