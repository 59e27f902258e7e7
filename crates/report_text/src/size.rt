//! The lines on the design as a whole.

ghost use Rattle.std.specs.Prelude.{◌≡◌, ◌++◌, length, OnOk};
ghost use Rattle.std.specs.List.{sum_by};
ghost use Rattle.xt_model.specs.Levels.{IsDepth, IsPairCount};
ghost use Rattle.text_lines.specs.Lines.{line_text};
ghost use Rattle.report_text.specs.Report.{title_line, size_line, clock_line};

use crate::fields::push_time;
use std::alloc::AllocError;
use text_lines::{push_number, push_word};
use xt_model::Design;

/// Appends the name and the version of the format.
#[tactic(auto, unfolding(text_lines::specs::Fields::field))]
pub fn push_title(out: &mut Vec<u8>) -> Result<(), AllocError>
    ensures { OnOk result (out.new.items ≡ out.old.items ++ line_text title_line) }
{
    push_word(out, b"xtalk", b' ')?;
    push_word(out, b"1", b'\n')
}

/// How many entries the nets' coupling lists have.
fn coupling_count(design: &Design) -> usize
    ensures { result ≡ sum_by (λ n. length n.couplings) design.now.nets }
{
    let mut count = 0;
    for net in design.nets() {
        count += net.couplings.len();
    }
    count
}

/// Appends the line of counts: `pairs` of coupled nets, and `levels`.
pub fn push_size(
    out: &mut Vec<u8>,
    design: &Design,
    pairs: u64,
    levels: u32,
) -> Result<(), AllocError>
    requires pairs { IsPairCount design.now.nets pairs }
    requires levels { IsDepth design.now.nets levels }
    ensures { OnOk result (out.new.items ≡ out.old.items ++ line_text (size_line design.now pairs levels)) }
{
    push_word(out, b"nets", b' ')?;
    push_number(out, design.nets().len(), b' ')?;
    push_word(out, b"couplings", b' ')?;
    push_number(out, coupling_count(design), b' ')?;
    push_word(out, b"pairs", b' ')?;
    push_number(out, pairs, b' ')?;
    push_word(out, b"levels", b' ')?;
    push_number(out, levels, b' ')?;
    push_word(out, b"bound", b' ')?;
    push_number(out, design.bound(), b'\n')
}

/// Appends the line of the clock period.
#[tactic(auto, unfolding(text_lines::specs::Fields::field))]
pub fn push_clock(out: &mut Vec<u8>, design: &Design) -> Result<(), AllocError>
    ensures { OnOk result (out.new.items ≡ out.old.items ++ line_text (clock_line design.now)) }
{
    push_word(out, b"period", b' ')?;
    match design.period() {
        None => push_word(out, b"none", b'\n'),
        Some(time) => push_time(out, time, b'\n'),
    }
}
