//! Texts by patterns. In a pattern `⏎` is a line end, `⟦2⟧` the field of number 2 of a row, and `⟨5: a##⟩` denotes
//! ` a0 a1 a2 a3 a4`. Between two `#` there is a way to write the number k of the repetition: nothing for k itself,
//! `2+1` for 2k + 1, and `ps` for k thousandths.

use crate::call::field;
use std::alloc::{AllocError, Global};

/// The number k in this way.
fn number_in_words(alloc: Global, number: u32, way: &str) -> Result<String, AllocError> {
    if way == "ps" {
        let (ps, tenths, hundredths, fs) = (
            number / 1000,
            number / 100 % 10,
            number / 10 % 10,
            number % 10,
        );
        return format!(in alloc; "{ps}.{tenths}{hundredths}{fs}");
    }
    let (factor, summand) = way.split_once('+').unwrap_or(("1", "0"));
    let (factor, summand) = (factor.parse::<u64>().ok(), summand.parse::<u64>().ok());
    let product = factor.unwrap_or(0).saturating_mul(number as u64);
    let number = product.saturating_add(summand.unwrap_or(0));
    format!(in alloc; "{number}")
}

/// Appends a piece for the number k.
fn push_piece(alloc: Global, out: &mut String, piece: &str, number: u32) -> Result<(), AllocError> {
    let mut is_way = false;
    for part in piece.split('#') {
        if is_way {
            let number = number_in_words(alloc, number, part)?;
            out.push_str(number.as_str())?;
        } else {
            out.push_str(part)?;
        }
        is_way = !is_way;
    }
    Ok(())
}

/// Appends a piece as often as the number before its colon says, and `?` where there is none.
fn push_pieces(alloc: Global, out: &mut String, pieces: &str) -> Result<(), AllocError> {
    let (count, piece) = pieces.split_once(':').unwrap_or(("", pieces));
    let Some(count) = count.parse::<u32>().ok() else {
        return out.push_str("?");
    };
    for number in 0..count {
        push_piece(alloc, out, piece, number)?;
    }
    Ok(())
}

/// The pattern with the fields of a row.
fn filled(alloc: Global, pattern: &str, row: &str) -> Result<String, AllocError> {
    let mut out = String::new(alloc);
    for part in pattern.split('⟦') {
        let (number, behind) = part.split_once('⟧').unwrap_or(("", part));
        if let Some(number) = number.parse::<usize>().ok() {
            out.push_str(field(row, number))?;
        }
        out.push_str(behind)?;
    }
    out.as_str().replace(alloc, '⏎', "\n")
}

/// The text of a pattern for a row.
pub fn text_of(alloc: Global, pattern: &str, row: &str) -> Result<String, AllocError> {
    let pattern = filled(alloc, pattern, row)?;
    let mut out = String::new(alloc);
    for part in pattern.as_str().split('⟨') {
        let (pieces, behind) = part.split_once('⟩').unwrap_or(("0:", part));
        push_pieces(alloc, &mut out, pieces)?;
        out.push_str(behind)?;
    }
    Ok(out)
}
