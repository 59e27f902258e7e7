//! The lines on couplings that can change a victim's delay.

ghost use Rattle.std.specs.Prelude.{◌≡◌, ◌++◌, ◌<◌, length, map, Some, IsSome, OnOk};
ghost use Rattle.std.specs.List.{All};
ghost use Rattle.text_lines.specs.Lines.{line_text, text_of};
ghost use Rattle.aggressor_report.specs.Guilt.{coupling_of, guilty};
ghost use Rattle.report_text.specs.Report.{guilty_line, mark_word};

use crate::fields::push_cap;
use aggressor_report::{Guilt, Mark, guilty};
use std::alloc::{AllocError, Global};
use text_lines::{edge_word, push_word};
use xt_model::{Coupling, Design, NoMemory, Windows};

/// The word of a mark.
fn mark_word(mark: Mark) -> &'static [u8]
    ensures { result.now ≡ mark_word mark }
{
    match mark {
        Mark::No => b"no",
        Mark::Possible => b"possible",
        Mark::Sure => b"sure",
    }
}

/// The coupling that an entry is of.
fn coupling<'a>(design: &'a Design, entry: &Guilt) -> &'a Coupling
    requires { IsSome (coupling_of design.now entry.now) }
    ensures value { coupling_of design.now entry.now ≡ Some result.now }
    ensures aggressor { result.now.to.0 < length design.now.nets }
{
    let victim = design.net(entry.victim.0 as usize);
    &victim.couplings.as_slice()[entry.coupling as usize]
}

/// Appends the line of an entry.
fn push_line(out: &mut Vec<u8>, design: &Design, entry: &Guilt) -> Result<(), AllocError>
    requires { IsSome (coupling_of design.now entry.now) }
    ensures { OnOk result (out.new.items ≡ out.old.items ++ line_text (guilty_line design.now entry.now)) }
{
    let victim = design.net(entry.victim.0 as usize);
    let coupling = coupling(design, entry);
    let aggressor = design.net(coupling.to.0 as usize);
    push_word(out, b"guilty", b' ')?;
    push_word(out, victim.name.bytes(), b' ')?;
    push_word(out, edge_word(entry.edge), b' ')?;
    push_word(out, aggressor.name.bytes(), b' ')?;
    push_cap(out, coupling.cap, b' ')?;
    push_word(out, b"fast", b' ')?;
    push_word(out, mark_word(entry.fast), b' ')?;
    push_word(out, b"slow", b' ')?;
    push_word(out, mark_word(entry.slow), b'\n')
}

/// Appends the lines of entries.
fn push_lines(out: &mut Vec<u8>, design: &Design, entries: &[Guilt]) -> Result<(), AllocError>
    requires { All (λ g. IsSome (coupling_of design.now g)) entries.now }
    ensures { OnOk result (out.new.items ≡ out.old.items ++ text_of (map (guilty_line design.now) entries.now)) }
{
    for entry in entries {
        push_line(out, design, entry)?;
    }
    Ok(())
}

/// Appends a line for each edge of a net and coupling of it that can change the edge's delay.
pub fn push_guilty(
    out: &mut Vec<u8>,
    alloc: Global,
    design: &Design,
    low: &Windows,
    high: &Windows,
) -> Result<(), NoMemory>
    requires low { length low.now ≡ length design.now.nets }
    requires high { length high.now ≡ length design.now.nets }
    ensures { let entries = guilty design.now low.now high.now in
        OnOk result (out.new.items ≡ out.old.items ++ text_of (map (guilty_line design.now) entries)) }
{
    let entries = guilty(alloc, design, low, high)?;
    push_lines(out, design, &entries)?;
    Ok(())
}
