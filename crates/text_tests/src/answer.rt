//! What becomes of a text, in words.

use linked_text::{LinkedFault, has_numbered_lines, read_linked, write_linked};
use std::alloc::{AllocError, Global};
use std::process::Abort;
use std::test::Fail;
use xt_model::{Design, Name};

/// The name and a space before it, or nothing.
fn with_space(alloc: Global, name: &Option<Name>) -> Result<String, AllocError> {
    let Some(name) = name else {
        return Ok(String::new(alloc));
    };
    let name = str::from_utf8(name.bytes()).unwrap_or("?");
    format!(in alloc; " {name}")
}

/// `read` where a design is written again as the text that it was read from.
fn written_again(alloc: Global, design: &Design, text: &str) -> Result<String, Fail> {
    let written = write_linked(alloc, design)?;
    let is_same = written.as_slice() == text.as_bytes();
    let words = if is_same { "read" } else { "another text" };
    Ok(String::from_str(alloc, words)?)
}

/// The code of a refusal and its line, or the limit that is passed, the value, and the net where it has a name.
fn fault_in_words(alloc: Global, fault: &LinkedFault) -> Result<String, Fail> {
    match fault {
        LinkedFault::Refused { line, code } => {
            let code = code.text();
            Ok(format!(in alloc; "{code} {line}")?)
        }
        LinkedFault::Limit { what, name, value } => {
            let name = with_space(alloc, name)?;
            let name = name.as_str();
            Ok(format!(in alloc; "{what:?} {value}{name}")?)
        }
        LinkedFault::NoMemory => Err(Fail::from("out of memory")),
    }
}

/// What becomes of a text.
fn answer(alloc: Global, text: &str) -> Result<String, Fail> {
    if !has_numbered_lines(text.as_bytes()) {
        return Err(Fail::from("too many lines"));
    }
    match read_linked(alloc, text.as_bytes()) {
        Ok(design) => written_again(alloc, &design, text),
        Err(fault) => fault_in_words(alloc, &fault),
    }
}

/// Compares what becomes of a text; `changed` is what it has that is of note.
pub fn compare(
    rt: &impl Abort,
    alloc: Global,
    text: &str,
    changed: &str,
    want: &str,
) -> Result<(), Fail> {
    let answer = answer(alloc, text)?;
    let answer = answer.as_str();
    assert!(rt; answer == want, "{answer} at {changed}");
    Ok(())
}
