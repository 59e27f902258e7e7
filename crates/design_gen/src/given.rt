//! What the sources of a generated design are given.

ghost use Rattle.std.specs.Prelude.{◌≡◌, ◌<◌, IfOk, OnOk};
ghost use Rattle.drawn_numbers.specs.Draws.{after, drawn};
ghost use Rattle.design_gen.specs.Generated.{window_by};
ghost use Rattle.design_gen.specs.Lists.{each_below};

use drawn_numbers::Source;
use std::alloc::{AllocError, Global};
use xt_model::Quad;

/// The window by a number below 2000: from 0 to 99 ps on, 0 to 19 ps wide, with slews of 20 ps.
fn window_by(number: u64) -> Quad
    requires { number < 2000 }
    ensures { result ≡ window_by number }
{
    let start = (number % 100) as i64 * 1000;
    let width = (number / 100) as i64 * 1000;
    Quad {
        tlo: start,
        thi: start + width,
        slo: 20_000,
        shi: 20_000,
    }
}

/// A window for each source.
pub(crate) fn draw_windows(
    alloc: Global,
    source: &mut Source,
    sources: u32,
) -> Result<Vec<Quad>, AllocError>
    ensures windows { IfOk result (λ ws.
        ws.items ≡ each_below (λ n. window_by (drawn source.old.state n 2000)) sources) }
    ensures state { OnOk result (source.new.state ≡ after source.old.state sources) }
{
    let mut windows = Vec::new(alloc);
    for i in 0..sources {
        windows.push(window_by(source.draw(2000)))?;
    }
    Ok(windows)
}
