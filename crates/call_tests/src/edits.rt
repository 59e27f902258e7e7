//! Edits of a solved design: the design after each, where its runs start, and how many rounds they make.

ghost use Rattle.std.specs.Prelude.{IfOk};
ghost use Rattle.xt_model.specs.declared.direction.Direction.TheVariants.{Narrow};
ghost use Rattle.xt_meaning.specs.Barrier.{IsFittingStart};
ghost use Rattle.xt_meaning.specs.Envelope.{IsAccepted, IsEnvelope};
ghost use Rattle.xt_meaning.specs.Fixpoint.{IsGreatestFixpoint, IsLeastFixpoint};
ghost use Rattle.eco_warm.specs.Possible.{IsEditOf};
ghost use Rattle.eco_warm.specs.Starts.{IsAfterEdit};

use crate::call::field;
use crate::designs::LOAD_PAIR;
use chaos_core::OpenGate;
use chaos_run::{Both, run_both};
use eco_warm::{Edit, Edited, StartWindows, apply, edit_design, read_edit, starts};
use envelope::envelope;
use linked_text::{has_numbered_lines, read_linked};
use net_eval::read_lists;
use std::alloc::{AllocError, Global};
use std::test::Fail;
use std::thread::Threads;
use xt_model::{Design, Edge, Windows};
use xtalk_top::warm;

/// The design of the coupled gates.
fn gates(alloc: Global) -> Result<Design, Fail> {
    if !has_numbered_lines(LOAD_PAIR) {
        return Err(Fail::from("the text has too many lines"));
    }
    Ok(read_linked(alloc, LOAD_PAIR)?)
}

/// The edit that a line says.
fn edit_of(alloc: Global, design: &Design, line: &str) -> Result<Edit, Fail>
    ensures { IfOk result (IsEditOf design.now.nets) }
{
    match read_edit(alloc, design, line.as_bytes()) {
        Ok(edit) => Ok(edit),
        Err(_) => Err(Fail::from("the line says no edit")),
    }
}

/// The design after the edit that a line says; as it is where the line is a dash.
fn edited(alloc: Global, design: Design, line: &str) -> Result<Design, Fail> {
    if line == "-" {
        return Ok(design);
    }
    let edit = edit_of(alloc, &design, line)?;
    match edit_design(alloc, design, &edit) {
        Ok(after) => Ok(after.design),
        Err(_) => Err(Fail::from("the design does not allow the first edit")),
    }
}

/// A design after an edit, while the design before is kept.
fn after(alloc: Global, before: &Design, edit: &Edit) -> Result<Edited, Fail>
    requires { IsEditOf before.now.nets edit.now }
    ensures { IfOk result (λ x. IsAfterEdit before.now x.design x.change) }
{
    match apply(alloc, before, edit) {
        Ok(edited) => Ok(edited),
        Err(_) => Err(Fail::from("the design does not allow the edit")),
    }
}

/// The load of a net, and the capacitance of its first coupling.
fn caps_in_words(alloc: Global, design: &Design, number: usize) -> Result<String, AllocError> {
    let Some(net) = design.nets().get(number) else {
        return String::from_str(alloc, "no net");
    };
    let load = net.load;
    match net.couplings.as_slice().first() {
        Some(coupling) => {
            let cap = coupling.cap;
            format!(in alloc; "{load} {cap}")
        }
        None => format!(in alloc; "{load}"),
    }
}

/// The earliest and the latest time of an edge of a net.
fn times_in_words(
    alloc: Global,
    windows: &Windows,
    number: usize,
    edge: Edge,
) -> Result<String, AllocError> {
    if number >= windows.pairs().len() {
        return String::from_str(alloc, "no net");
    }
    let window = windows.pair(number).at(edge);
    if !window.live() {
        return String::from_str(alloc, "quiet");
    }
    let (tlo, thi) = (window.tlo, window.thi);
    format!(in alloc; "{tlo} {thi}")
}

/// When a may rise and b may fall.
fn both_in_words(alloc: Global, windows: &Windows) -> Result<String, AllocError> {
    let a = times_in_words(alloc, windows, 2, Edge::Rise)?;
    let b = times_in_words(alloc, windows, 3, Edge::Fall)?;
    let (a, b) = (a.as_str(), b.as_str());
    format!(in alloc; "{a}, {b}")
}

/// Where the runs after an edit start, and whether each makes a round.
fn runs_in_words<R: Threads + Sync>(
    rt: &R,
    alloc: Global,
    before: &Design,
    after: &Edited,
    old: &Both,
    top: &Windows,
) -> Result<String, Fail>
    requires edit { IsAfterEdit before.now after.now.design after.now.change }
    requires low { IsLeastFixpoint before.now old.now.low }
    requires high { IsGreatestFixpoint before.now old.now.high }
    requires envelope { IsEnvelope after.now.design top.now }
    requires accepted { IsAccepted after.now.design top.now }
{
    let StartWindows { low, high } = starts(alloc, before, after, &old.low, &old.high, top)?;
    let (low, high) = (both_in_words(alloc, &low)?, both_in_words(alloc, &high)?);
    let found = warm(rt, alloc, before, after, old, top, 2, &OpenGate)?;
    let (least, greatest) = (
        both_in_words(alloc, &found.low)?,
        both_in_words(alloc, &found.high)?,
    );
    let (low, high) = (low.as_str(), high.as_str());
    let (least, greatest) = (least.as_str(), greatest.as_str());
    let (narrower, wider) = (found.high_rounds > 0, found.low_rounds > 0);
    Ok(format!(in alloc; "{low} | {high} | {least} | {greatest} | {wider} {narrower}")?)
}

/// The same, where the design before has this envelope.
fn runs_from<R: Threads + Sync>(
    rt: &R,
    alloc: Global,
    before: &Design,
    old_top: &Windows,
    after: &Edited,
) -> Result<String, Fail>
    requires start { IsFittingStart Narrow before.now old_top.now }
    requires edit { IsAfterEdit before.now after.now.design after.now.change }
{
    let lists = read_lists(alloc, before)?;
    let old = run_both(rt, alloc, before, &lists, old_top, 1, &OpenGate)?;
    let top = envelope(alloc, &after.design)?;
    runs_in_words(rt, alloc, before, after, &old, &top)
}

/// The design after an edit, made twice of one design, and its runs.
fn edit_in_words<R: Threads + Sync>(
    rt: &R,
    alloc: Global,
    before: &Design,
    line: &str,
) -> Result<String, Fail> {
    let edit = edit_of(alloc, before, line)?;
    let once = after(alloc, before, &edit)?;
    let twice = after(alloc, before, &edit)?;
    let (a, b) = (
        caps_in_words(alloc, &once.design, 2)?,
        caps_in_words(alloc, &twice.design, 3)?,
    );
    let top = envelope(alloc, before)?;
    let runs = runs_from(rt, alloc, before, &top, &twice)?;
    let (a, b, runs) = (a.as_str(), b.as_str(), runs.as_str());
    let (change, pairs) = (once.change, once.design.pairs());
    Ok(format!(in alloc; "{change:?} {pairs} | {a}, {b} | {runs}")?)
}

/// What comes of the edit of a row, after the one that is made before it.
fn row_in_words<R: Threads + Sync>(rt: &R, alloc: Global, row: &str) -> Result<String, Fail> {
    let design = edited(alloc, gates(alloc)?, field(row, 0))?;
    edit_in_words(rt, alloc, &design, field(row, 1))
}

/// An edit that is made first, or a dash, and an edit. How it moves windows, and how many pairs of nets are coupled
/// after it; the load of a and of b, each with its coupling; where the two runs start, and where they end; and whether
/// the widening run makes a round, and the narrowing one.
///
/// A load of 5 aF delays by 1 fs, and the gates alone by 800. In the envelope each counts the coupling not at all and
/// twice: of 1000 aF, that is 800 to 1200, and 100 more for b; of 500, with 500 at ground, 900 to 1100. In the greatest
/// windows it is once and twice. So after `apart a b 500` the old ones within the new envelope are the new greatest.
const EDITS: &str = "\
- | apart a b 500 | Shrinks 1 | 500 500, 500 500 | quiet, quiet | 1000 1100, 1100 1200 | \
    1000 1000, 1100 1100 | 1000 1100, 1100 1200 | true false
- | shield a b | Shrinks 0 | 1000, 1000 | quiet, quiet | 1000 1000, 1100 1100 | \
    1000 1000, 1100 1100 | 1000 1000, 1100 1100 | true false
apart a b 500 | near b a 500 | Grows 1 | 0 1000, 0 1000 | 1000 1000, 1100 1100 | 800 1200, 900 1300 | \
    1000 1000, 1100 1100 | 1000 1200, 1100 1300 | false true
";

#[test]
fn edits_are_made_and_solved_from_old_windows(rt: HostRuntime) -> Result<(), Fail> {
    for row in EDITS.lines() {
        let (_, wanted) = row.split_once(" | ").unwrap_or((row, ""));
        let (_, wanted) = wanted.split_once(" | ").unwrap_or((row, ""));
        let seen = row_in_words(&rt, rt.alloc(), row)?;
        assert!(rt; seen.as_str() == wanted, "{seen} at {row}");
    }
    Ok(())
}
