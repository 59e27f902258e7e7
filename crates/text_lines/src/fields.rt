//! The fields of a line as they are written: each is followed by a space, or by the newline that ends the line.

ghost use Rattle.std.specs.Prelude.{◌≡◌, ◌++◌, OnOk};
ghost use Rattle.text_lines.specs.Fields.{field};

use itoa::{Buffer, Integer};
use std::alloc::AllocError;

/// Appends a word and the byte after it.
#[tactic(auto, unfolding(crate::specs::Fields::field))]
pub fn push_word(out: &mut Vec<u8>, word: &[u8], mark: u8) -> Result<(), AllocError>
    ensures { OnOk result (out.new.items ≡ out.old.items ++ field word.now mark) }
{
    out.extend_from_slice(word)?;
    out.push(mark)?;
    Ok(())
}

/// Appends a whole number, and nothing after it.
pub fn push_bare_number<I: Integer>(out: &mut Vec<u8>, number: I) -> Result<(), AllocError>
    ensures { OnOk result (out.new.items ≡ out.old.items ++ I.text number) }
{
    let mut buffer = Buffer::new();
    out.extend_from_slice(buffer.format(number).as_bytes())?;
    Ok(())
}

/// Appends a whole number and the byte after it.
#[tactic(auto, unfolding(crate::specs::Fields::field))]
pub fn push_number<I: Integer>(out: &mut Vec<u8>, number: I, mark: u8) -> Result<(), AllocError>
    ensures { OnOk result (out.new.items ≡ out.old.items ++ field (I.text number) mark) }
{
    push_bare_number(out, number)?;
    out.push(mark)?;
    Ok(())
}
