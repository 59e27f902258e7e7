//! The token list of a text.

ghost use Rattle.std.specs.Prelude.{◌≡◌, ℕ, ◌+◌, ◌<◌, ◌≤◌, length, IfOk, IfErr, None};
ghost use Rattle.xt_lex.specs.Tokens.{tokens_of, AreApart};
ghost use Rattle.xt_lex.specs.Faults.{fault_of, IsFault};

use crate::fault::LexFault;
use crate::faults::find_fault;
use crate::rules::{MOST_BYTES, Rules};
use crate::token::Token;
use crate::token_texts::Lexemes;
use std::alloc::Global;

/// The tokens of a text by these rules, or the text's fault.
pub fn tokens(alloc: Global, bytes: &[u8], rules: Rules) -> Result<Vec<Token>, LexFault>
    requires { length bytes.now ≤ MOST_BYTES }

    ensures tokens { IfOk result (λ list. list.items ≡ tokens_of rules bytes.now) }
    ensures spans { IfOk result (λ list. AreApart 0 list.items (length bytes.now)) }
    ensures sound { IfOk result (λ list. fault_of rules bytes.now ≡ None) }
    ensures fault { IfErr result (λ e. IsFault e (fault_of rules bytes.now)) }
{
    if let Some(fault) = find_fault(bytes, rules) {
        return Err(fault);
    }
    let mut list = Vec::new(alloc);
    let mut lexemes = Lexemes::new(bytes, rules);
    'tokens: while let Some(lexeme) = lexemes.next_token() {
        list.push(lexeme.token())?;
    }
    Ok(list)
}
