ghost use Rattle.std.specs.Prelude.{◌≡◌, ◌↔◌, ◌≤ℤ◌, IsTrue};
ghost use Rattle.xt_model.specs.Tables.{IsIndex};
ghost use Rattle.table_box.specs.Spans.{LieBelow, ReachUpTo};
ghost use Rattle.table_box.specs.Stretches.{IsStretch};

use crate::lines::{lines_from, lines_up_to};
use crate::place::Place;

/// The numbers from one to another on an axis, in its unit: the places of both ends, and the numbers of the grid lines
/// above the one and below the other, from `first` to before `last`. A single number is both ends. They are inside a
/// cell where both ends lie in it, and no line lies between them.
#[derive(Clone, Copy)]
pub(crate) struct Stretch {
    pub from: i64,
    pub to: i64,
    pub single: bool,
    pub inside: bool,
    pub start: Place,
    pub end: Place,
    pub first: usize,
    pub last: usize,
}

/// Whether two numbers are the same.
fn are_same(a: i64, b: i64) -> bool
    ensures { IsTrue result ↔ (a ≡ b) }
{
    a == b
}

/// How many grid lines lie below `x`, where this many lie at or below it.
fn lines_below(index: &[i64], x: i64, lines: usize) -> usize
    requires index { IsIndex index.now }
    requires lines { ReachUpTo index.now x lines }
    ensures { LieBelow index.now x result }
{
    if lines == 0 {
        return 0;
    }
    if index[lines - 1] == x {
        return lines - 1;
    }
    lines
}

impl Stretch {
    /// The numbers from `from` to `to`. It costs one search, and a look at each grid line between them.
    #[inline(always)]
    pub fn of(index: &[i64], from: i64, to: i64) -> Stretch
        requires index { IsIndex index.now }
        requires ordered { from ≤ℤ to }
        ensures from { result.from ≡ from }
        ensures to { result.to ≡ to }
        ensures on_axis { IsStretch index.now result }
    {
        let first = lines_up_to(index, from);
        let reached = lines_from(index, to, first);
        let last = lines_below(index, to, reached);
        let start = Place::among(index, from, first);
        let end = Place::among(index, to, reached);
        Stretch {
            from,
            to,
            single: are_same(from, to),
            inside: last <= first && start.first == end.first,
            start,
            end,
            first,
            last,
        }
    }
}
