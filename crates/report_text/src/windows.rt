//! The lines on the windows of each net.

ghost use Rattle.std.specs.Prelude.{◌≡◌, ◌++◌, ◌<◌, length, OnOk};
ghost use Rattle.xt_model.specs.Quads.{IsInRange};
ghost use Rattle.xt_model.specs.Assign.{assigned};
ghost use Rattle.text_lines.specs.Lines.{line_text, text_of};
ghost use Rattle.report_text.specs.Report.{window_line, window_lines};
ghost use Rattle.report_text.specs.Pieces.{windows_text};

use crate::fields::push_quad;
use std::alloc::AllocError;
use text_lines::{edge_word, push_word};
use xt_model::{Edge, Net, Quad, Windows};

/// The window of an edge of a net.
pub fn window(windows: &Windows, net: usize, edge: Edge) -> Quad
    requires { net < length windows.now }
    ensures value { result ≡ assigned windows.now net edge }
    ensures range { IsInRange result }
{
    windows.pair(net).at(edge)
}

/// Appends the line of the two windows of an edge of a net.
#[tactic(auto, unfolding(text_lines::specs::Fields::field))]
fn push_window(
    out: &mut Vec<u8>,
    name: &[u8],
    edge: Edge,
    low: &Quad,
    high: &Quad,
) -> Result<(), AllocError>
    ensures { OnOk result (out.new.items ≡ out.old.items ++ line_text (window_line name.now edge low.now high.now)) }
{
    push_word(out, b"net", b' ')?;
    push_word(out, name, b' ')?;
    push_word(out, edge_word(edge), b' ')?;
    if !high.live() {
        return push_word(out, b"quiet", b'\n');
    }
    push_word(out, b"least", b' ')?;
    push_quad(out, low, b' ')?;
    push_word(out, b"greatest", b' ')?;
    push_quad(out, high, b'\n')
}

/// Appends the line of an edge of the net of this number.
fn push_edge(
    out: &mut Vec<u8>,
    net: &Net,
    number: usize,
    edge: Edge,
    low: &Windows,
    high: &Windows,
) -> Result<(), AllocError>
    requires low { number < length low.now }
    requires high { number < length high.now }
    ensures { let least = assigned low.now number edge in
        let greatest = assigned high.now number edge in
        OnOk result (out.new.items ≡ out.old.items ++ line_text (window_line net.now.name edge least greatest)) }
{
    let low = window(low, number, edge);
    let high = window(high, number, edge);
    push_window(out, net.name.bytes(), edge, &low, &high)
}

/// Appends the two lines of the net of this number.
fn push_net(
    out: &mut Vec<u8>,
    net: &Net,
    number: usize,
    low: &Windows,
    high: &Windows,
) -> Result<(), AllocError>
    requires low { number < length low.now }
    requires high { number < length high.now }
    ensures { OnOk result (out.new.items ≡ out.old.items ++ windows_text low.now high.now number net.now) }
{
    push_edge(out, net, number, Edge::Rise, low, high)?;
    push_edge(out, net, number, Edge::Fall, low, high)
}

/// Appends the two lines of each net.
pub fn push_windows(
    out: &mut Vec<u8>,
    nets: &[Net],
    low: &Windows,
    high: &Windows,
) -> Result<(), AllocError>
    requires low { length low.now ≡ length nets.now }
    requires high { length high.now ≡ length nets.now }
    ensures { OnOk result (out.new.items ≡ out.old.items ++ text_of (window_lines low.now high.now 0 nets.now)) }
{
    for (number, net) in nets.iter().enumerate() {
        push_net(out, net, number, low, high)?;
    }
    Ok(())
}
