//! The lines on peaks of glitch noise.

ghost use Rattle.std.specs.Prelude.{◌≡◌, ◌++◌, ◌<◌, length, map, OnOk};
ghost use Rattle.std.specs.List.{All};
ghost use Rattle.text_lines.specs.Lines.{line_text, text_of};
ghost use Rattle.report_text.specs.Report.{Appends, IsNoise, peak_line};

use crate::fields::push_time;
use glitch_noise::{Peak, noise};
use std::alloc::{AllocError, Global};
use text_lines::{edge_word, push_number, push_word};
use xt_model::{Design, NoMemory, Windows};

/// Appends the line of a peak.
fn push_line(out: &mut Vec<u8>, design: &Design, peak: &Peak) -> Result<(), AllocError>
    requires { peak.now.victim.0 < length design.now.nets }
    ensures { OnOk result (out.new.items ≡ out.old.items ++ line_text (peak_line design.now peak.now)) }
{
    let victim = design.net(peak.victim.0 as usize);
    push_word(out, b"noise", b' ')?;
    push_word(out, victim.name.bytes(), b' ')?;
    push_word(out, edge_word(peak.edge), b' ')?;
    push_word(out, b"ppm", b' ')?;
    push_number(out, peak.ppm, b' ')?;
    push_word(out, b"at", b' ')?;
    push_time(out, peak.moment, b'\n')
}

/// Appends the lines of peaks.
fn push_lines(out: &mut Vec<u8>, design: &Design, peaks: &[Peak]) -> Result<(), AllocError>
    requires { All (λ p. p.victim.0 < length design.now.nets) peaks.now }
    ensures { OnOk result (out.new.items ≡ out.old.items ++ text_of (map (peak_line design.now) peaks.now)) }
{
    for peak in peaks {
        push_line(out, design, peak)?;
    }
    Ok(())
}

/// Appends a line for each peak of a design in its greatest windows.
pub fn push_noise(
    out: &mut Vec<u8>,
    alloc: Global,
    design: &Design,
    high: &Windows,
) -> Result<(), NoMemory>
    requires { length high.now ≡ length design.now.nets }
    ensures { OnOk result (Appends (IsNoise design.now high.now) out.old.items out.new.items) }
{
    let peaks = noise(alloc, design, high)?;
    push_lines(out, design, &peaks)?;
    Ok(())
}
