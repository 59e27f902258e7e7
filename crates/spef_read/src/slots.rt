//! Which sorts fit a place of a form that takes several.

ghost use Rattle.std.specs.Prelude.{◌≡◌, true, ◌∷◌, IfOk, IfErr};
ghost use Rattle.spef_read.specs.Forms.{AnyWord, fits, misfit, IsMisfit, is_word, is_value_sort};
ghost use Rattle.spef_read.specs.declared.sort.Sort.TheVariants.{End};
ghost use Rattle.text_forms.specs.Misfits.{refusal_at};
ghost use Rattle.text_forms.specs.Stops.{refusal_of};
ghost use Rattle.text_forms.specs.Tokens.{token_of};

use crate::sort::Sort;
use text_forms::{Refused, Term, Terms};

/// Whether a token of this sort is a word; a keyword is one too.
#[inline]
pub fn is_word(sort: Sort) -> bool
    ensures { result ≡ is_word sort }
{
    !matches!(sort, Sort::Text | Sort::End)
}

/// Whether a token of this sort has the form of a value.
#[inline]
pub fn is_value_sort(sort: Sort) -> bool
    ensures { result ≡ is_value_sort sort }
{
    matches!(sort, Sort::Digits | Sort::Value)
}

/// The next token, which has to be a word.
#[inline]
pub fn any_word<'a>(terms: &mut Terms<'a, Sort>) -> Result<Term<'a, Sort>, Refused>
    ensures found { IfOk result (λ t. (terms.old ≡ token_of t ∷ terms.new) × (fits AnyWord t.sort ≡ true)) }
    ensures refused { IfErr result (λ r. refusal_of r ≡ refusal_at misfit End terms.old) }
    ensures other { IfErr result (λ r. IsMisfit AnyWord terms.old) }
{
    let term = terms.any()?;
    if is_word(term.sort) {
        Ok(term)
    } else {
        Err(term.refused())
    }
}
