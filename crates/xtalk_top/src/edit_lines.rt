//! The lines of a text of edits.

ghost use Rattle.std.specs.Prelude.{◌≡◌, ◌<◌, ◌≤◌, [], ◌∷◌, length, IfOk, IfErr, IfSome, MatchOption, position, ◌==◌};
ghost use Rattle.xt_model.specs.Parts.{Parts};
ghost use Rattle.call_meaning.specs.Call.{IsStop};
ghost use Rattle.call_meaning.specs.Eco.{Ends, GoesOn, LinesMean, lines_of, most_edits};

use crate::edit_refusal::refused;
use call_meaning::Stop;
use command_line::FileName;
use std::alloc::Global;
use xt_model::Code;

/// The most edits of a text.
const MOST_EDITS: u32 = 1024;

// The place of the first newline.
fn first_newline(bytes: &[u8]) -> Option<usize>
    ensures value { result ≡ position (λ b. b == 10) bytes.now }
    ensures within { IfSome result (λ i. i < length bytes.now) }
{
    bytes.iter().position(|b| *b == b'\n')
}

// The bytes before the first newline, and those after it.
fn first_line(bytes: &[u8]) -> Option<(&[u8], &[u8])>
    ensures lines { MatchOption result (lines_of bytes.now ≡ bytes.now ∷ [])
        (λ x. lines_of bytes.now ≡ x.0.now ∷ lines_of x.1.now) }
    ensures shorter { IfSome result (λ x. length x.1.now < length bytes.now) }
{
    match first_newline(bytes) {
        Some(at) => {
            let (line, _) = bytes.split_at(at);
            let (_, more) = bytes.split_at(at + 1);
            Some((line, more))
        }
        None => None,
    }
}

/// The line that is to be the next edit after this many, and the bytes after its newline; or nothing, where the text
/// ends as it has to.
pub fn next_line<'a>(
    alloc: Global,
    file: &FileName,
    rest: &'a [u8],
    count: u32,
) -> Result<Option<(&'a [u8], &'a [u8])>, Stop>
    requires { count ≤ most_edits }
    ensures means { IfOk result (λ next. MatchOption next (Ends file.now (lines_of rest.now) count)
        (λ x. GoesOn file.now (lines_of rest.now) count x.0.now (lines_of x.1.now))) }
    ensures shorter { IfOk result (λ next. IfSome next (λ x. length x.1.now < length rest.now)) }
    ensures few { IfOk result (λ next. IfSome next (λ _. count < most_edits)) }
    ensures stop { IfErr result (λ stop. (d : Parts)
        → IsStop (LinesMean file.now (lines_of rest.now) count d) (λ _. ⊥) stop) }
{
    let Some((line, more)) = first_line(rest) else {
        return Err(refused(alloc, file, count + 1, Code::E1));
    };
    if line == b"end".as_slice() {
        if more.is_empty() {
            return Ok(None);
        }
        return Err(refused(alloc, file, count + 2, Code::E1));
    }
    if count == MOST_EDITS {
        return Err(refused(alloc, file, count + 1, Code::E1));
    }
    Ok(Some((line, more)))
}
