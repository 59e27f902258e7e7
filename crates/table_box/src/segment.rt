ghost use Rattle.std.specs.Prelude.{◌≡◌, ◌≤ℤ◌};
ghost use Rattle.xt_model.specs.Tables.{IsIndex};
ghost use Rattle.table_box.specs.Monotone.{IsSegment};

use crate::lines::{lines_from, lines_up_to};
use crate::place::Place;

/// The numbers from one to another on an axis, in its unit, and the places of both.
#[derive(Clone, Copy)]
pub(crate) struct Segment {
    pub from: i64,
    pub to: i64,
    pub start: Place,
    pub end: Place,
}

impl Segment {
    /// The numbers from `from` to `to`. It costs one search, and a look at each grid line between them.
    #[inline(always)]
    pub fn of(index: &[i64], from: i64, to: i64) -> Segment
        requires index { IsIndex index.now }
        requires ordered { from ≤ℤ to }
        ensures from { result.from ≡ from }
        ensures to { result.to ≡ to }
        ensures on_axis { IsSegment index.now result }
    {
        let first = lines_up_to(index, from);
        let reached = lines_from(index, to, first);
        Segment {
            from,
            to,
            start: Place::among(index, from, first),
            end: Place::among(index, to, reached),
        }
    }
}
