//! From a design to its linked text.

ghost use Rattle.std.specs.Prelude.{◌≡◌, ◌++◌, OnOk, IfOk};
ghost use Rattle.text_lines.specs.Lines.{line_text, text_of};
ghost use Rattle.linked_text.specs.Linked.{head_line, counts_line, period_line, linked};

use crate::write_check::CheckWriter;
use crate::write_net::{BodyWriter, HeadWriter};
use crate::write_table::TableWriter;
use crate::writer::write_each;
use std::alloc::{AllocError, Global};
use text_lines::{push_miller, push_number, push_word};
use xt_model::{Design, Miller, NoMemory};

/// The bytes for each net that a linked text has room for before it has to grow: those of blocks from `bench/block.py`
/// have some 250.
const NET_BYTES: usize = 256;

/// Appends the name and the version of the format.
#[tactic(auto, unfolding(text_lines::specs::Fields::field))]
fn push_head(out: &mut Vec<u8>, miller: &Miller) -> Result<(), AllocError>
    ensures { OnOk result (out.new.items ≡ out.old.items ++ line_text (head_line miller.now)) }
{
    push_word(out, b"xtalk-design", b' ')?;
    if miller.is_classical() {
        return push_word(out, b"1", b'\n');
    }
    push_word(out, b"2", b'\n')
}

/// Appends how many tables, nets and checks there are.
fn push_counts(out: &mut Vec<u8>, design: &Design) -> Result<(), AllocError>
    ensures { OnOk result (out.new.items ≡ out.old.items ++ line_text (counts_line design.now)) }
{
    push_word(out, b"counts", b' ')?;
    push_number(out, design.tables().len(), b' ')?;
    push_number(out, design.nets().len(), b' ')?;
    push_number(out, design.checks().len(), b'\n')
}

/// Appends the line of the clock period.
#[tactic(auto, unfolding(text_lines::specs::Fields::field))]
fn push_period(out: &mut Vec<u8>, design: &Design) -> Result<(), AllocError>
    ensures { OnOk result (out.new.items ≡ out.old.items ++ line_text (period_line design.now)) }
{
    push_word(out, b"period", b' ')?;
    match design.period() {
        None => push_word(out, b"none", b'\n'),
        Some(time) => push_number(out, time, b'\n'),
    }
}

/// Appends all lines.
fn push_linked(out: &mut Vec<u8>, design: &Design) -> Result<(), AllocError>
    ensures { OnOk result (out.new.items ≡ out.old.items ++ text_of (linked design.now)) }
{
    let miller = design.miller();
    push_head(out, &miller)?;
    push_counts(out, design)?;
    push_period(out, design)?;
    push_miller(out, &miller)?;
    write_each(out, &TableWriter, design.tables())?;
    write_each(out, &HeadWriter, design.nets())?;
    write_each(out, &BodyWriter, design.nets())?;
    write_each(out, &CheckWriter, design.checks())?;
    push_word(out, b"end", b'\n')
}

/// The linked text of a design. Takes time in proportion to its bytes.
pub fn write_linked(alloc: Global, design: &Design) -> Result<Vec<u8>, NoMemory>
    ensures { IfOk result (λ text. text.items ≡ text_of (linked design.now)) }
{
    let mut out = Vec::with_capacity(alloc, NET_BYTES * design.nets().len())?;
    push_linked(&mut out, design)?;
    Ok(out)
}
