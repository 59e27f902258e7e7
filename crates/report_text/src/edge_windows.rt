//! The two windows of an edge.

ghost use Rattle.std.specs.Prelude.{◌≡◌, ◌<◌, ◌^◌, ◌-ℤ◌, ◌≤ℤ◌, neg_ℤ, pos, length};
ghost use Rattle.report_text.specs.Summary.{is_wider, windows_of};

use crate::windows::window;
use xt_model::{Edge, Quad, Windows};

/// The least and the greatest window of an edge of a net.
#[derive(Clone, Copy)]
pub struct EdgeWindows {
    pub low: Quad,
    pub high: Quad,
}

impl EdgeWindows {
    /// The windows of an edge of the net of this number.
    pub fn of(low: &Windows, high: &Windows, net: usize, edge: Edge) -> EdgeWindows
        requires low { net < length low.now }
        requires high { net < length high.now }
        ensures { result ≡ windows_of low.now high.now net edge }
    {
        EdgeWindows {
            low: window(low, net, edge),
            high: window(high, net, edge),
        }
    }

    /// Whether the two windows differ.
    pub fn is_wider(&self) -> bool
        ensures { result ≡ is_wider self.now }
    {
        !(self.low.tlo == self.high.tlo
            && self.low.thi == self.high.thi
            && self.low.slo == self.high.slo
            && self.low.shi == self.high.shi)
    }
}

/// How wide a window is, in fs.
pub fn width(quad: &Quad) -> i128
    ensures value { result ≡ quad.now.thi -ℤ quad.now.tlo }
    ensures low { neg_ℤ (pos (2 ^ 64)) ≤ℤ result }
    ensures high { result ≤ℤ pos (2 ^ 64) }
{
    i128::from(quad.thi) - i128::from(quad.tlo)
}
