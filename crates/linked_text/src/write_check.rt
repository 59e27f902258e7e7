//! The lines of checks, as they are written.

ghost use Rattle.std.specs.Prelude.{◌≡◌, ◌++◌, Bool, OnOk, List, ℕ};
ghost use Rattle.text_lines.specs.Lines.{line_text};
ghost use Rattle.text_lines.specs.Words.{check_word};
ghost use Rattle.linked_text.specs.Linked.{check_line, delay_field, table_field};
ghost use Rattle.text_lines.specs.Fields.{field};

use crate::write_net::push_sink;
use crate::writer::Writer;
use std::alloc::AllocError;
use text_lines::{check_word, push_number, push_word};
use xt_model::{CheckPoint, Name};

/// Appends the words that the line of a check begins with: its kind, what is checked, and its name.
fn push_head(out: &mut Vec<u8>, kind: &[u8], hold: bool, name: &Name) -> Result<(), AllocError>
    ensures { OnOk result (out.new.items
        ≡ out.old.items ++ (field kind.now 32 ++ (field (check_word hold) 32 ++ field name.now 32))) }
{
    push_word(out, kind, b' ')?;
    push_word(out, check_word(hold), b' ')?;
    push_word(out, name.bytes(), b' ')
}

/// Appends the number of a table, or that there is none.
fn push_table(out: &mut Vec<u8>, table: Option<u32>, mark: u8) -> Result<(), AllocError>
    ensures { OnOk result (out.new.items ≡ out.old.items ++ field (table_field table) mark) }
{
    match table {
        None => push_word(out, b"-", mark),
        Some(number) => push_number(out, number, mark),
    }
}

/// Appends the numbers of two tables, or that there is none, and ends the line.
fn push_tables(out: &mut Vec<u8>, rise: Option<u32>, fall: Option<u32>) -> Result<(), AllocError>
    ensures { OnOk result (out.new.items
        ≡ out.old.items ++ (field (table_field rise) 32 ++ field (table_field fall) 10)) }
{
    push_table(out, rise, b' ')?;
    push_table(out, fall, b'\n')
}

/// Appends an external delay, or that there is none.
fn push_delay(out: &mut Vec<u8>, delay: Option<i64>, mark: u8) -> Result<(), AllocError>
    ensures { OnOk result (out.new.items ≡ out.old.items ++ field (delay_field delay) mark) }
{
    match delay {
        None => push_word(out, b"-", mark),
        Some(time) => push_number(out, time, mark),
    }
}

/// Appends two external delays, or that there is none, and ends the line.
fn push_delays(out: &mut Vec<u8>, rise: Option<i64>, fall: Option<i64>) -> Result<(), AllocError>
    ensures { OnOk result (out.new.items
        ≡ out.old.items ++ (field (delay_field rise) 32 ++ field (delay_field fall) 10)) }
{
    push_delay(out, rise, b' ')?;
    push_delay(out, fall, b'\n')
}

/// Writes checks.
pub struct CheckWriter;

impl Writer for CheckWriter {
    type Value = CheckPoint;

    ghost text = { λ _ c. line_text (check_line c) };

    fn write(&self, out: &mut Vec<u8>, check: &CheckPoint) -> Result<(), AllocError> {
        match check {
            CheckPoint::Flop {
                name,
                hold,
                datum,
                datum_sink,
                clock,
                clock_sink,
                rise,
                fall,
            } => {
                push_head(out, b"flop", *hold, name)?;
                push_sink(out, *datum, *datum_sink)?;
                push_sink(out, *clock, *clock_sink)?;
                push_tables(out, *rise, *fall)
            }
            CheckPoint::Port {
                name,
                hold,
                net,
                sink,
                rise,
                fall,
            } => {
                push_head(out, b"port", *hold, name)?;
                push_sink(out, *net, *sink)?;
                push_delays(out, *rise, *fall)
            }
        }
    }
}
