//! Views of windows as numbered words.

ghost use Rattle.std.specs.Prelude.{◌≡◌, ℕ, ◌+◌, ◌*◌, ◌/◌, ◌%◌, ◌<◌, length, ℤ, neg_ℤ, ◌≤ℤ◌};
ghost use Rattle.xt_model.specs.Assign.{word_number, edge_number, edge_of, side_of, words_of, quads_of, assigned};
ghost use Rattle.xt_model.specs.Quads.{top_bound, IsInRange};

use crate::edge::Edge;
use crate::net::NetId;
use crate::quad::Quad;
use crate::windows::Windows;

/// A view of windows as words: word 8 net + 4 edge + side holds a bound of that net and edge in fs, with 0
/// for rise and 1 for fall, and sides 0 to 3 for the least time, the greatest time, the least slew and
/// the greatest slew.
pub trait Bounds {
    ghost has: { Self → ℕ → Type 0 };

    ghost bound_of: { Self → ℕ → ℤ };

    /// The bound in a word, from -2^62 to 2^62.
    fn bound(&self, word: usize) -> i64
        requires { has self.now word }
        ensures value { result ≡ bound_of self.now word }
        ensures low { neg_ℤ top_bound ≤ℤ result }
        ensures high { result ≤ℤ top_bound };
}

/// The number of the word of a net, an edge and a side.
fn word_at(net: NetId, edge: Edge, side: usize) -> usize
    requires { side < 4 }
    ensures { result ≡ word_number net.0 edge side }
{
    let edge = match edge {
        Edge::Rise => 0,
        Edge::Fall => 1,
    };
    8 * net.0 as usize + 4 * edge + side
}

/// The window of an edge of a net in a view that has its four words.
pub fn window<V: Bounds>(view: &V, net: NetId, edge: Edge) -> Quad
    requires { (side : ℕ) → side < 4 → V.has view.now (word_number net.0 edge side) }
    ensures value { result ≡ quads_of (V.bound_of view.now) net.0 edge }
    ensures range { IsInRange result }
{
    Quad {
        tlo: view.bound(word_at(net, edge, 0)),
        thi: view.bound(word_at(net, edge, 1)),
        slo: view.bound(word_at(net, edge, 2)),
        shi: view.bound(word_at(net, edge, 3)),
    }
}

/// The edge of a word's number divided by four.
fn edge_at(place: usize) -> Edge
    ensures { result ≡ edge_of (place % 2) }
{
    if place % 2 == 0 {
        Edge::Rise
    } else {
        Edge::Fall
    }
}

/// One bound of a window.
fn side_at(quad: Quad, side: usize) -> i64
    requires range { IsInRange quad }
    requires side { side < 4 }
    ensures value { result ≡ side_of quad side }
    ensures low { neg_ℤ top_bound ≤ℤ result }
    ensures high { result ≤ℤ top_bound }
{
    match side {
        0 => quad.tlo,
        1 => quad.thi,
        2 => quad.slo,
        _ => quad.shi,
    }
}

impl Bounds for Windows {
    ghost has = { λ windows word. word < 8 * length windows };

    ghost bound_of = { λ windows word. words_of (assigned windows) word };

    fn bound(&self, word: usize) -> i64 {
        let pair = self.pair(word / 8);
        side_at(pair.at(edge_at(word / 4)), word % 4)
    }
}
