//! Words that several texts have.

ghost use Rattle.std.specs.Prelude.{◌≡◌};
ghost use Rattle.text_lines.specs.Words.{check_word, edge_word};

use xt_model::Edge;

/// The word for an edge.
pub fn edge_word(edge: Edge) -> &'static [u8]
    ensures { result.now ≡ edge_word edge }
{
    match edge {
        Edge::Rise => b"rise",
        Edge::Fall => b"fall",
    }
}

/// The word for a kind of check, hold or setup.
pub fn check_word(hold: bool) -> &'static [u8]
    ensures { result.now ≡ check_word hold }
{
    if hold { b"hold" } else { b"setup" }
}
