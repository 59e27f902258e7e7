ghost use Rattle.std.specs.Prelude.{◌≡◌, ◌+◌, ◌<◌, ◌≤ℤ◌, pos, length, IsTrue};
ghost use Rattle.std.specs.List.{slice_index_or};
ghost use Rattle.xt_model.specs.Tables.{IsIndex, IsTableNumber};
ghost use Rattle.xt_meaning.specs.Lookup.{clamped, span_at, span_of, whole_span};
ghost use Rattle.table_box.specs.Spans.{ReachUpTo, span_in};

use crate::lines::lines_up_to;

/// Where a number lies on an axis: the numbers of the two grid lines beside it, how far it lies above the
/// first and below the second, and how far they are apart, in the unit of the axis.
#[derive(Clone, Copy)]
pub(crate) struct Place {
    pub first: usize,
    pub second: usize,
    pub above: i64,
    pub below: i64,
    pub width: i64,
}

/// The place of `x` between the grid lines `cell` and `cell + 1`.
fn place_in_cell(index: &[i64], x: i64, cell: usize) -> Place
    requires index { IsIndex index.now }
    requires cell { cell + 1 < length index.now }
    requires low { slice_index_or index.now cell (pos 0) ≤ℤ x }
    requires high { x ≤ℤ slice_index_or index.now (cell + 1) (pos 0) }
    ensures { span_in result ≡ span_at index.now x cell }
{
    let first = index[cell];
    let second = index[cell + 1];
    Place {
        first: cell,
        second: cell + 1,
        above: x - first,
        below: second - x,
        width: second - first,
    }
}

/// The only place of an axis with one grid line.
fn whole() -> Place
    ensures { span_in result ≡ whole_span }
{
    Place {
        first: 0,
        second: 0,
        above: 0,
        below: 1,
        width: 1,
    }
}

/// `x`, or the end of the index that it is past.
fn brought_within(index: &[i64], x: i64) -> i64
    requires { IsIndex index.now }
    ensures value { result ≡ clamped index.now x }
    ensures number { IsTableNumber result }
{
    index[0].max(x.min(index[index.len() - 1]))
}

/// Whether a number lies between two grid lines, where this many lie at or below it: one at least, and not all.
fn is_between_lines(index: &[i64], lines: usize) -> bool
    ensures { IsTrue result → (0 < lines) × (lines < length index.now) }
{
    0 < lines && lines < index.len()
}

impl Place {
    /// The place of `x`, once it is brought within the ends of the index: by binary search.
    pub fn of(index: &[i64], x: i64) -> Place
        requires { IsIndex index.now }
        ensures { span_in result ≡ span_of index.now x }
    {
        Place::among(index, x, lines_up_to(index, x))
    }

    /// The place of `x`, where this many grid lines lie at or below it. Between two lines it stays as it is.
    #[inline(always)]
    pub fn among(index: &[i64], x: i64, lines: usize) -> Place
        requires index { IsIndex index.now }
        requires lines { ReachUpTo index.now x lines }
        ensures { span_in result ≡ span_of index.now x }
    {
        if is_between_lines(index, lines) {
            return place_in_cell(index, x, lines - 1);
        }
        Place::of_clamped(index, x, lines)
    }

    /// The place of `x`, once it is brought within the ends of the index, where this many grid lines lie at or below
    /// it.
    #[inline(never)]
    fn of_clamped(index: &[i64], x: i64, lines: usize) -> Place
        requires index { IsIndex index.now }
        requires lines { ReachUpTo index.now x lines }
        ensures { span_in result ≡ span_of index.now x }
    {
        if index.len() == 1 {
            return whole();
        }
        let cell = lines.saturating_sub(1).min(index.len() - 2);
        place_in_cell(index, brought_within(index, x), cell)
    }

    /// The place of a grid line.
    pub fn on_line(index: &[i64], line: usize) -> Place
        requires index { IsIndex index.now }
        requires line { line < length index.now }
        ensures { span_in result ≡ span_of index.now (slice_index_or index.now line (pos 0)) }
    {
        if index.len() == 1 {
            return whole();
        }
        place_in_cell(index, index[line], line.min(index.len() - 2))
    }
}
