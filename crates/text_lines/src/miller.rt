//! The line of the Miller numbers.

ghost use Rattle.std.specs.Prelude.{◌≡◌, ◌++◌, OnOk};
ghost use Rattle.text_lines.specs.Lines.{text_of};
ghost use Rattle.text_lines.specs.Miller.{miller_lines};

use crate::fields::{push_number, push_word};
use std::alloc::AllocError;
use xt_model::Miller;

/// Appends the line of the Miller numbers, in quarters, which the classical ones do not have.
pub fn push_miller(out: &mut Vec<u8>, miller: &Miller) -> Result<(), AllocError>
    ensures { OnOk result (out.new.items ≡ out.old.items ++ text_of (miller_lines miller.now)) }
{
    if miller.is_classical() {
        return Ok(());
    }
    push_word(out, b"miller", b' ')?;
    push_number(out, miller.low(), b' ')?;
    push_number(out, miller.mid(), b' ')?;
    push_number(out, miller.high(), b'\n')?;
    Ok(())
}
