//! The lines of tables, as they are written.

ghost use Rattle.std.specs.Prelude.{◌≡◌, ◌++◌, ◌*◌, length, OnOk};
ghost use Rattle.std.specs.List.{flat_map};
ghost use Rattle.text_lines.specs.Lines.{line_text, text_of};
ghost use Rattle.linked_text.specs.Linked.{numbers_line, row_lines, table_lines};
ghost use Rattle.linked_text.specs.Writing.{spaced};

use crate::writer::{Writer, write_each};
use std::alloc::AllocError;
use text_lines::{push_bare_number, push_number, push_word};
use xt_model::Table;

/// Writes numbers, each after a space.
struct NumberWriter;

impl Writer for NumberWriter {
    type Value = i64;

    ghost text = { λ _ x. spaced x };

    fn write(&self, out: &mut Vec<u8>, value: &i64) -> Result<(), AllocError> {
        out.push(b' ')?;
        push_bare_number(out, *value)
    }
}

/// Appends a line of numbers after a word.
fn push_numbers(out: &mut Vec<u8>, word: &[u8], numbers: &[i64]) -> Result<(), AllocError>
    ensures { OnOk result (out.new.items ≡ out.old.items ++ line_text (numbers_line word.now numbers.now)) }
{
    out.extend_from_slice(word)?;
    write_each(out, &NumberWriter, numbers)?;
    out.push(b'\n')?;
    Ok(())
}

/// Appends `count` rows of `columns` values each.
fn push_rows(
    out: &mut Vec<u8>,
    count: usize,
    columns: usize,
    values: &[i64],
) -> Result<(), AllocError>
    requires { length values.now ≡ count * columns }
    ensures { OnOk result (out.new.items ≡ out.old.items ++ text_of (row_lines count columns values.now)) }
{
    let mut rest = values;
    for _ in 0..count {
        let (row, after) = rest.split_at(columns);
        push_numbers(out, b"row", row)?;
        rest = after;
    }
    Ok(())
}

/// Writes tables.
pub struct TableWriter;

impl Writer for TableWriter {
    type Value = Table;

    ghost text = { λ _ t. text_of (table_lines t) };

    fn write(&self, out: &mut Vec<u8>, table: &Table) -> Result<(), AllocError> {
        let (slews, loads) = (table.slews(), table.loads());
        push_word(out, b"table", b' ')?;
        push_number(out, slews.len(), b' ')?;
        push_number(out, loads.len(), b'\n')?;
        push_numbers(out, b"slews", slews)?;
        push_numbers(out, b"loads", loads)?;
        push_rows(out, slews.len(), loads.len(), table.values())
    }
}
