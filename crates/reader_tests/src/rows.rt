//! Tables of texts. A row has what becomes of a text, in words, a bar, and the text, in which `⏎` is a line end and
//! `⟨3:a#⟩` denotes `a0a1a2`.

use liberty_cells::read_library;
use liberty_groups::read_groups;
use spef_read::read_spef;
use std::alloc::{AllocError, Global};
use std::process::Abort;
use std::test::Fail;
use verilog_net::{read_modules, read_netlist};
use xt_lex::{MOST_BYTES, TextFault};

/// What comes before the first bar of a row, and after it.
pub fn at_bar(row: &str) -> Result<(&str, &str), Fail> {
    let Some((before, behind)) = row.split_once('|') else {
        return Err(Fail::from("a row without a bar"));
    };
    Ok((
        before.strip_suffix(' ').unwrap_or(before),
        behind.strip_prefix(' ').unwrap_or(behind),
    ))
}

/// Appends a piece, in which each `#` is a number.
fn push_piece(alloc: Global, out: &mut String, piece: &str, number: u32) -> Result<(), AllocError> {
    let digits = format!(in alloc; "{number}")?;
    let piece = piece.replace(alloc, '#', digits.as_str())?;
    out.push_str(piece.as_str())
}

/// Appends a piece as often as the number before its colon says, and `⟨` where there is none; `#` in it is the number
/// of times before.
fn push_pieces(alloc: Global, out: &mut String, pieces: &str) -> Result<(), AllocError> {
    let (count, piece) = pieces.split_once(':').unwrap_or(("", pieces));
    let Some(count) = count.parse::<u32>().ok() else {
        return out.push_str("⟨");
    };
    for number in 0..count {
        push_piece(alloc, out, piece, number)?;
    }
    Ok(())
}

/// The text of a row, with its line ends and its repeated pieces.
pub fn with_lines(alloc: Global, text: &str) -> Result<String, AllocError> {
    let text = text.replace(alloc, '⏎', "\n")?;
    let mut out = String::new(alloc);
    for part in text.as_str().split('⟨') {
        let (pieces, behind) = part.split_once('⟩').unwrap_or(("0:", part));
        push_pieces(alloc, &mut out, pieces)?;
        out.push_str(behind)?;
    }
    Ok(out)
}

/// `read`, or the code of a refusal and its line.
pub fn in_words<T: Drop>(alloc: Global, answer: Result<T, TextFault>) -> Result<String, Fail> {
    match answer {
        Ok(_) => Ok(String::from_str(alloc, "read")?),
        Err(TextFault::Refused { line, code }) => {
            let code = code.text();
            Ok(format!(in alloc; "{code} {line}")?)
        }
        Err(TextFault::NoMemory) => Err(Fail::from("out of memory")),
    }
}

/// What reads a text.
#[derive(Clone, Copy)]
pub enum Reader {
    Groups,
    Library,
    Netlist,
    Modules,
    Spef,
}

/// What becomes of a text: `read`, or its refusal.
pub fn answer(alloc: Global, reader: Reader, text: &[u8]) -> Result<String, Fail> {
    if MOST_BYTES < text.len() {
        return Err(Fail::from("too long"));
    }
    match reader {
        Reader::Groups => in_words(alloc, read_groups(alloc, text)),
        Reader::Library => in_words(alloc, read_library(alloc, text)),
        Reader::Netlist => in_words(alloc, read_netlist(alloc, text)),
        Reader::Modules => in_words(alloc, read_modules(alloc, text)),
        Reader::Spef => in_words(alloc, read_spef(alloc, text)),
    }
}

/// What becomes of the text of a row after this beginning and before this end.
fn answer_within(
    alloc: Global,
    reader: Reader,
    before: &str,
    row: &str,
    after: &str,
) -> Result<String, Fail> {
    let row = with_lines(alloc, row)?;
    let row = row.as_str();
    let text = format!(in alloc; "{before}{row}{after}")?;
    answer(alloc, reader, text.as_bytes())
}

/// What reads the texts of a table, what each text begins with, the rows, and what each text ends with.
pub type Texts = (Reader, &'static str, &'static str, &'static str);

/// Compares what becomes of the texts of some tables.
pub fn compare(rt: &impl Abort, alloc: Global, tables: &[Texts]) -> Result<(), Fail> {
    for (reader, before, rows, after) in tables {
        for row in rows.lines() {
            let (want, text) = at_bar(row)?;
            let words = answer_within(alloc, *reader, before, text, after)?;
            assert!(rt; words.as_str() == want, "{words} at {row}");
        }
    }
    Ok(())
}
