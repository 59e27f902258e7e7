//! Refusals of a text.

ghost use Rattle.std.specs.Prelude.{◌≡◌, ◌≤◌, length, option_map};
ghost use Rattle.text_forms.specs.Refusals.{tokens_refused};
ghost use Rattle.text_forms.specs.Stops.{refusal_of};
ghost use Rattle.xt_lex.specs.declared.text_fault.TextFault.TheVariants as faults;

use xt_lex::{LexFault, MOST_BYTES, Rules, TextFault, find_fault};
use xt_model::Code;

/// Why a text is refused, and at which line.
#[derive(Clone, Copy, Debug, PartialEq, Eq)]
pub struct Refused {
    pub line: u32,
    pub code: Code,
}

impl From<Refused> for TextFault {
    ghost from_gives = { λ r e. e ≡ faults.Refused r.line r.code };

    fn from(refused: Refused) -> TextFault {
        TextFault::Refused {
            line: refused.line,
            code: refused.code,
        }
    }
}

/// The refusal of a text for a fault of its tokens: by `byte` where a byte is not allowed where it is, at the line
/// of the first one, and else by `early` where a string or a comment is open at the end, at the last line.
pub fn tokens_refused(bytes: &[u8], rules: Rules, byte: Code, early: Code) -> Option<Refused>
    requires { length bytes.now ≤ MOST_BYTES }
    ensures { option_map refusal_of result ≡ tokens_refused rules byte early bytes.now }
{
    match find_fault(bytes, rules) {
        Some(LexFault::Byte(line)) => Some(Refused { line, code: byte }),
        Some(LexFault::Unended(line)) => Some(Refused { line, code: early }),
        Some(LexFault::NoMemory) | None => None,
    }
}
