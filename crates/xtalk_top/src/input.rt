//! The design that a linked text holds.

ghost use Rattle.std.specs.Prelude.{◌≤◌, length, IfOk, IfErr};
ghost use Rattle.call_meaning.specs.Outcome.{LinkedMeans, IsDesignText};
ghost use Rattle.call_meaning.specs.FailureWords.{most_bytes};
ghost use Rattle.call_meaning.specs.Call.{IsStop};

use call_meaning::{FileRefusal, PassedLimit, Refusal, Stop, TextRefusal};
use command_line::FileName;
use linked_text::{LinkedFault, read_linked_text};
use std::alloc::Global;
use xt_model::Design;

/// The design whose linked text a file of this name holds.
pub fn read_design(alloc: Global, file: FileName, bytes: Vec<u8>) -> Result<Design, Stop>
    requires { length bytes.items ≤ most_bytes }
    ensures ok { IfOk result (IsDesignText bytes.items) }
    ensures stop { IfErr result (IsStop (LinkedMeans file bytes.items (λ _. ⊥)) (λ _. ⊥)) }
{
    match read_linked_text(alloc, bytes) {
        Ok(design) => Ok(design),
        Err(LinkedFault::Refused { line, code }) => Err(Stop::Refused(Refusal::File {
            file,
            why: FileRefusal::Content(TextRefusal::At { line, code }),
        })),
        Err(LinkedFault::Limit { what, name, value }) => Err(Stop::Refused(Refusal::File {
            file,
            why: FileRefusal::Content(TextRefusal::Beyond(PassedLimit { what, name, value })),
        })),
        Err(LinkedFault::NoMemory) => Err(Stop::NoMemory),
    }
}
