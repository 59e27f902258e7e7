//! Times, capacitances and windows as fields of a line.

ghost use Rattle.std.specs.Prelude.{◌≡◌, ◌++◌, OnOk};
ghost use Rattle.xt_number.specs.Thousandths.{thousandths};
ghost use Rattle.report_text.specs.Fields.{quad_text};
ghost use Rattle.text_lines.specs.Fields.{field};

use std::alloc::AllocError;
use text_lines::push_word;
use xt_model::Quad;
use xt_number::{cap_text, time_text};

/// Appends a time, given in fs, in ps, and the byte after it.
pub fn push_time(out: &mut Vec<u8>, time: i64, mark: u8) -> Result<(), AllocError>
    ensures { OnOk result (out.new.items ≡ out.old.items ++ field (thousandths time) mark) }
{
    push_word(out, time_text(i128::from(time)).bytes(), mark)
}

/// Appends a capacitance, given in aF, in fF, and the byte after it.
pub fn push_cap(out: &mut Vec<u8>, cap: i64, mark: u8) -> Result<(), AllocError>
    ensures { OnOk result (out.new.items ≡ out.old.items ++ field (thousandths cap) mark) }
{
    push_word(out, cap_text(i128::from(cap)).bytes(), mark)
}

/// Appends the four bounds of a window in ps, and the byte after the last.
pub fn push_quad(out: &mut Vec<u8>, quad: &Quad, mark: u8) -> Result<(), AllocError>
    ensures { OnOk result (out.new.items ≡ out.old.items ++ quad_text quad.now mark) }
{
    push_time(out, quad.tlo, b' ')?;
    push_time(out, quad.thi, b' ')?;
    push_time(out, quad.slo, b' ')?;
    push_time(out, quad.shi, mark)
}
