//! The summary of a design and its two windows.

ghost use Rattle.std.specs.Prelude.{◌≡◌, ◌++◌, ℕ, List, [], ◌∷◌, codes, length, OnOk, IfOk};
ghost use Rattle.xt_model.specs.Levels.{IsDepth, IsPairCount};
ghost use Rattle.text_lines.specs.Lines.{line_text, text_of};
ghost use Rattle.report_text.specs.declared.edge_windows.EdgeWindows.{EdgeWindows};
ghost use Rattle.report_text.specs.Summary.{count_line, summary, summary_by};
ghost use Rattle.report_text.specs.Pieces.{IsTally};
ghost use Rattle.xt_number.specs.Thousandths.{thousandths};

use crate::size::push_size;
use crate::tally::{Tally, tally_by, tally_of};
use std::alloc::{AllocError, Global};
use std::thread::Threads;
use text_lines::{push_number, push_word};
use xt_model::{Design, NoMemory, Windows};
use xt_number::time_text;

/// Appends the name and the version of the format.
#[tactic(auto, unfolding(text_lines::specs::Fields::field))]
fn push_title(out: &mut Vec<u8>) -> Result<(), AllocError>
    ensures { OnOk result (out.new.items ≡ out.old.items
        ++ line_text (codes "xtalk" ∷ codes "gen" ∷ codes "1" ∷ [])) }
{
    push_word(out, b"xtalk", b' ')?;
    push_word(out, b"gen", b' ')?;
    push_word(out, b"1", b'\n')
}

/// Appends the line of counts.
fn push_counts(out: &mut Vec<u8>, tally: &Tally) -> Result<(), AllocError>
    ensures { (edges : List EdgeWindows) (guilty : ℕ) → IsTally edges guilty tally.now
        → OnOk result (out.new.items ≡ out.old.items ++ line_text (count_line edges guilty)) }
{
    push_word(out, b"live", b' ')?;
    push_number(out, tally.live, b' ')?;
    push_word(out, b"wider", b' ')?;
    push_number(out, tally.wider, b' ')?;
    push_word(out, b"guilty", b' ')?;
    push_number(out, tally.guilty, b'\n')
}

/// Appends a line of a word and a time, given in fs, in ps.
#[tactic(auto, unfolding(text_lines::specs::Fields::field))]
fn push_total(out: &mut Vec<u8>, word: &[u8], time: i128) -> Result<(), AllocError>
    ensures { OnOk result (out.new.items ≡ out.old.items ++ line_text (word.now ∷ thousandths time ∷ [])) }
{
    push_word(out, word, b' ')?;
    push_word(out, time_text(time).bytes(), b'\n')
}

/// Appends all lines: `pairs` of coupled nets, and `levels`.
fn push_summary(
    out: &mut Vec<u8>,
    design: &Design,
    pairs: u64,
    levels: u32,
    tally: &Tally,
) -> Result<(), AllocError>
    requires pairs { IsPairCount design.now.nets pairs }
    requires levels { IsDepth design.now.nets levels }
    ensures { (edges : List EdgeWindows) (guilty : ℕ) → IsTally edges guilty tally.now
        → OnOk result (out.new.items
        ≡ out.old.items ++ text_of (summary_by design.now pairs levels edges guilty)) }
{
    push_title(out)?;
    push_size(out, design, pairs, levels)?;
    push_counts(out, tally)?;
    push_total(out, b"least", tally.least)?;
    push_total(out, b"greatest", tally.greatest)?;
    push_word(out, b"end", b'\n')
}

/// The summary of a design, by what is counted of its nets.
fn summary_of(alloc: Global, design: &Design, tally: &Tally) -> Result<Vec<u8>, NoMemory>
    ensures { (edges : List EdgeWindows) (guilty : ℕ) → IsTally edges guilty tally.now
        → IfOk result (λ text. (pairs : ℕ) × (depth : ℕ)
        × IsPairCount design.now.nets pairs × IsDepth design.now.nets depth
        × (text.items ≡ text_of (summary_by design.now pairs depth edges guilty))) }
{
    let mut out = Vec::new(alloc);
    let (pairs, levels) = (design.pairs(), design.levels());
    push_summary(&mut out, design, pairs, levels, tally)?;
    Ok(out)
}

/// The summary of a design and of its least and greatest windows, one pair a net, as text in lines. Takes time in
/// proportion to the nets and the couplings, and memory for the text.
pub fn write_summary(
    alloc: Global,
    design: &Design,
    low: &Windows,
    high: &Windows,
) -> Result<Vec<u8>, NoMemory>
    requires low { length low.now ≡ length design.now.nets }
    requires high { length high.now ≡ length design.now.nets }
    ensures { IfOk result (λ text. (pairs : ℕ) × (depth : ℕ)
        × IsPairCount design.now.nets pairs × IsDepth design.now.nets depth
        × (text.items ≡ text_of (summary design.now pairs depth low.now high.now))) }
{
    let nets = design.nets().len() as u32;
    let tally = tally_of(design, low, high, 0, nets);
    summary_of(alloc, design, &tally)
}

/// As [`write_summary`], by this many threads, each of which counts a share of the nets.
pub fn write_summary_by<R: Threads + Sync>(
    rt: &R,
    alloc: Global,
    design: &Design,
    low: &Windows,
    high: &Windows,
    threads: u32,
) -> Result<Vec<u8>, NoMemory>
    requires low { length low.now ≡ length design.now.nets }
    requires high { length high.now ≡ length design.now.nets }
    ensures { IfOk result (λ text. (pairs : ℕ) × (depth : ℕ)
        × IsPairCount design.now.nets pairs × IsDepth design.now.nets depth
        × (text.items ≡ text_of (summary design.now pairs depth low.now high.now))) }
{
    let nets = design.nets().len() as u32;
    let tally = tally_by(rt, design, low, high, 0, nets, threads);
    summary_of(alloc, design, &tally)
}
