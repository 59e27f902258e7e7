//! The tokens of a text one by one, as a grammar sees them.

ghost use Rattle.std.specs.Prelude.{◌≡◌, ℕ, ◌+◌, ◌≤◌, Bool, true, List, [], ◌∷◌, length, drop};
ghost use Rattle.std.specs.Prelude.{MatchOption, IfSome, MatchResult, IfOk, IfErr};
ghost use Rattle.text_forms.specs.Misfits.{refusal_of_token, refusal_at, IsOther, IsFurther};
ghost use Rattle.text_forms.specs.Stops.{refusal_of};
ghost use Rattle.text_forms.specs.Tokens.{seen_by, token_of, token_by, sorted_tokens};
ghost use Rattle.xt_lex.specs.Bytes.{last_line};
ghost use Rattle.xt_lex.specs.View.{text_of};

use crate::refused::Refused;
use std::marker::{Model, PhantomData};
use xt_lex::{Kind, Lexeme, Lexemes, MOST_BYTES, Rules, last_line};
use xt_model::Code;

/// What tokens are to a grammar: their sorts, and the codes of those that do not fit.
pub trait TokenSort: Copy {
    ghost use Rattle.xt_lex.specs.declared.token.Kind.{Kind};
    ghost use Rattle.xt_model.specs.declared.code.Code.{Code};

    ghost sort_by: { Kind → List ℕ → Self };

    ghost end: { Self };

    ghost same: { Self → Self → Bool };

    ghost misfit: { Self → Code };

    /// What a token is by its kind and its bytes, of an escaped name those after its backslash.
    fn sort_by(kind: Kind, text: &[u8]) -> Self
        ensures { result ≡ sort_by kind text.now };

    /// The end of a text.
    fn end() -> Self
        ensures { result ≡ end };

    /// Whether both are one sort.
    fn same(self, other: Self) -> bool
        ensures value { result ≡ same self other }
        ensures equal { result ≡ true → other ≡ self };

    /// The code of a token of this sort where it does not fit.
    fn misfit(self) -> Code
        ensures { result ≡ misfit self };
}

/// A token: its sort, its bytes (of an escaped name those after its backslash), and where its first byte is.
#[derive(Clone, Copy)]
pub struct Term<'a, S> {
    pub sort: S,
    pub text: &'a [u8],
    pub from: u32,
    pub line: u32,
}

impl<'a, S: TokenSort> Term<'a, S> {
    /// The refusal of a token that does not fit.
    pub fn refused(self) -> Refused
        ensures { refusal_of result ≡ refusal_of_token S.misfit (token_of self.entry) }
    {
        Refused {
            line: self.line,
            code: self.sort.misfit(),
        }
    }
}

/// The tokens of a text that are left, from left to right, and after them the end of the text. It takes no memory.
#[derive(Drop)]
pub struct Terms<'a, S: TokenSort> {
    lexemes: Lexemes<'a>,
    last: u32,
    ended: bool,
    sorts: PhantomData<S>,
}

impl<'a, S: TokenSort> Model for Terms<'a, S> {
    ghost use Rattle.std.specs.Prelude.{List};
    ghost use Rattle.text_forms.specs.Forms.{Token};
    ghost use Rattle.text_forms.specs.Tokens.{tokens_to_end};

    ghost Value = { List (Token S) };

    ghost view = { λ c. tokens_to_end S.sort_by S.end c.ended c.last c.lexemes };
}

/// The bytes that a grammar sees of a token.
#[inline]
fn seen_by(kind: Kind, text: &[u8]) -> &[u8]
    ensures seen { result.now ≡ seen_by kind text.now }
    ensures length { length result.now ≤ length text.now }
{
    match (kind, text) {
        (Kind::Escaped, [_, more @ ..]) => more,
        _ => text,
    }
}

/// A token with its sort.
#[inline]
fn sorted<'a, S: TokenSort>(lexeme: Lexeme<'a>) -> Term<'a, S>
    ensures token { token_of result ≡ token_by S.sort_by S.end lexeme.entry.kind (text_of lexeme.entry) }
    ensures from { result.from ≡ lexeme.entry.from }
    ensures length { length result.text.now ≤ length lexeme.entry.text.now }
{
    let text = seen_by(lexeme.kind, lexeme.text);
    Term {
        sort: S::sort_by(lexeme.kind, text),
        text,
        from: lexeme.from,
        line: lexeme.line,
    }
}

impl<'a, S: TokenSort> Terms<'a, S> {
    /// The tokens of a text without a fault.
    pub fn new(bytes: &'a [u8], rules: Rules) -> Terms<'a, S>
        requires { length bytes.now ≤ MOST_BYTES }
        ensures { result ≡ sorted_tokens S.sort_by S.end rules bytes.entry.now }
    {
        Terms {
            lexemes: Lexemes::new(bytes, rules),
            last: last_line(bytes),
            ended: false,
            sorts: PhantomData,
        }
    }

    /// The next token.
    #[inline]
    pub fn next_term(&mut self) -> Option<Term<'a, S>>
        ensures next { MatchOption result ((self.old ≡ []) × (self.new ≡ [])) (λ t. self.old ≡ token_of t ∷ self.new) }
        ensures within { IfSome result (λ t. t.from + length t.text.now ≤ MOST_BYTES) }
    {
        match self.lexemes.next_token() {
            Some(lexeme) => Some(sorted(lexeme)),
            None => {
                if self.ended {
                    return None;
                }
                self.ended = true;
                Some(Term {
                    sort: S::end(),
                    text: b"",
                    from: 0,
                    line: self.last,
                })
            }
        }
    }

    /// The next token of a form.
    #[inline]
    pub fn any(&mut self) -> Result<Term<'a, S>, Refused>
        ensures next { MatchResult result (λ t. self.old ≡ token_of t ∷ self.new)
            (λ r. (self.old ≡ []) × (refusal_of r ≡ refusal_at S.misfit S.end [])) }
        ensures within { IfOk result (λ t. t.from + length t.text.now ≤ MOST_BYTES) }
    {
        match self.next_term() {
            Some(term) => Ok(term),
            None => Err(Refused {
                line: 1,
                code: S::end().misfit(),
            }),
        }
    }

    /// The next token of a form, which has to be of this sort.
    #[inline]
    pub fn expect(&mut self, sort: S) -> Result<Term<'a, S>, Refused>
        ensures found { IfOk result (λ t. (self.old ≡ token_of t ∷ self.new) × (t.sort ≡ sort)) }
        ensures within { IfOk result (λ t. t.from + length t.text.now ≤ MOST_BYTES) }
        ensures refused { IfErr result (λ r. refusal_of r ≡ refusal_at S.misfit S.end self.old) }
        ensures other { IfErr result (λ r. IsOther S.same sort self.old) }
    {
        let term = self.any()?;
        if sort.same(term.sort) {
            Ok(term)
        } else {
            Err(term.refused())
        }
    }

    /// The refusal of a further token, if there is one.
    pub fn further(&mut self) -> Option<Refused>
        ensures { MatchOption result (self.old ≡ [])
            (λ r. IsFurther (refusal_of r) S.misfit S.end self.old) }
    {
        match self.next_term() {
            Some(term) => Some(term.refused()),
            None => None,
        }
    }
}
