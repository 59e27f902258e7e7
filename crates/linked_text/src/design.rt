//! From a linked text to a design.

ghost use Rattle.std.specs.Prelude.{◌≡◌, ◌<◌, ◌+◌, ◌-◌, ◌==◌, ◌^◌, ◌↔◌, ℕ, List, Option};
ghost use Rattle.std.specs.Prelude.{Err, IfOk, IsTrue};
ghost use Rattle.std.specs.List.{count_by};
ghost use Rattle.xt_model.specs.declared.code.Code.{Code};
ghost use Rattle.xt_model.specs.declared.fault.LimitKind.{LimitKind};
ghost use Rattle.xt_model.specs.Parts.{Parts};
ghost use Rattle.xt_model.specs.Sound.{IsSound};
ghost use Rattle.text_lines.specs.Lines.{text_of};
ghost use Rattle.linked_text.specs.declared.fault.LinkedFault.TheVariants.{Refused, Limit};
ghost use Rattle.linked_text.specs.Linked.{linked};
ghost use Rattle.linked_text.specs.Answers.{Answers, IsTextOf, AnswersWithLine};

use crate::fault::{Fault, LinkedFault, Stop};
use crate::parts::{end, parts};
use crate::read_line::{newlines, refused};
use std::alloc::Global;
use xt_model::{BuildFault, Code, Design};

/// Whether the number of each line of a text fits 32 bits, which `read_linked` asks for.
pub fn has_numbered_lines(bytes: &[u8]) -> bool
    ensures { IsTrue result ↔ (count_by (λ b. b == 10) bytes.now + 1 < 2 ^ 32) }
{
    newlines(bytes) < (1 << 32) - 1
}

/// The number of the line from which on `left` of all newlines are left.
fn line_number(all: usize, left: usize) -> u32
    requires { all + 1 < 2 ^ 32 }
    ensures { result ≡ 1 + (all - left) }
{
    1 + all.saturating_sub(left) as u32
}

/// The design of a text, or its first refusal.
fn read(alloc: Global, bytes: Vec<u8>) -> Result<Design, Stop>
    ensures { Answers bytes.items result }
{
    let (parts, behind) = parts(alloc, bytes)?;
    let last = behind.as_slice();
    let (_, rest) = end(alloc, &parts, last)?;
    match Design::from_parts(alloc, parts) {
        Ok(design) => {
            if rest.is_empty() {
                return Ok(design);
            }
            Err(refused(rest, Code::X1))
        }
        Err(BuildFault::Loop(_)) => Err(refused(last, Code::X3)),
        Err(BuildFault::NoMemory) => Err(Stop::NoMemory),
    }
}

/// The same with the number of the line that is refused.
fn read_with_line(alloc: Global, bytes: Vec<u8>) -> Result<Design, LinkedFault>
    requires { count_by (λ b. b == 10) bytes.items + 1 < 2 ^ 32 }
    ensures { AnswersWithLine bytes.items result }
{
    let all = newlines(bytes.as_slice());
    match read(alloc, bytes) {
        Ok(design) => Ok(design),
        Err(Stop::At(Fault::Refused { left, code })) => Err(LinkedFault::Refused {
            line: line_number(all, left),
            code,
        }),
        Err(Stop::At(Fault::Limit { what, name, value })) => {
            Err(LinkedFault::Limit { what, name, value })
        }
        Err(Stop::NoMemory) => Err(LinkedFault::NoMemory),
    }
}

/// The design of a linked text, or the first refusal of the text; the bytes are all of it.
pub fn read_linked(alloc: Global, bytes: &[u8]) -> Result<Design, LinkedFault>
    // Each line has a number of 32 bits: `has_numbered_lines`.
    requires { count_by (λ b. b == 10) bytes.now + 1 < 2 ^ 32 }
    // What the text means, line by line: a design, or the first refusal.
    ensures means { AnswersWithLine bytes.now result }
    // What is read is sound, and spelled so.
    ensures ok { IfOk result (IsTextOf bytes.now) }
    // No other sound design is spelled so.
    ensures only { IfOk result (λ d. (e : Parts) → IsSound e → bytes.now ≡ text_of (linked e) → d ≡ e) }
    // A refused text is of no design.
    ensures refused { (line : ℕ) (code : Code) → result ≡ Err (Refused line code)
        → (d : Parts) → IsTextOf bytes.now d → ⊥ }
    ensures limited { (what : LimitKind) (name : Option (List ℕ)) (value : ℕ) → result ≡ Err (Limit what name value)
        → (d : Parts) → IsTextOf bytes.now d → ⊥ }
{
    let text = Vec::from_slice(alloc, bytes)?;
    read_with_line(alloc, text)
}

/// The same as `read_linked`, of a text that is let go while it is read: each time half of what was left is read.
pub fn read_linked_text(alloc: Global, bytes: Vec<u8>) -> Result<Design, LinkedFault>
    requires { count_by (λ b. b == 10) bytes.items + 1 < 2 ^ 32 }
    ensures means { AnswersWithLine bytes.items result }
    ensures ok { IfOk result (IsTextOf bytes.items) }
{
    read_with_line(alloc, bytes)
}
