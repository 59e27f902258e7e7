ghost use Rattle.std.specs.Prelude.{◌≡◌, ◌↔◌, ℕ, ◌<◌, ◌≤◌, ◌≤ℤ◌, ◌<ℤ◌, pos, length, IsTrue};
ghost use Rattle.std.specs.List.{slice_index_or};
ghost use Rattle.xt_model.specs.Tables.{IsIndex};
ghost use Rattle.table_box.specs.Spans.{ReachUpTo};

/// Of this many grid lines or fewer, those at or below a number are counted line by line.
const FEW_LINES: usize = 8;

/// Whether a number lies below a grid line.
fn is_below(index: &[i64], x: i64, line: usize) -> bool
    requires { line < length index.now }
    ensures { IsTrue result ↔ (x <ℤ slice_index_or index.now line (pos 0)) }
{
    x < index[line]
}

/// How many grid lines lie at or below `x`, where this many surely do: line by line from there.
pub(crate) fn lines_from(index: &[i64], x: i64, lines: usize) -> usize
    requires index { IsIndex index.now }
    requires within { lines ≤ length index.now }
    requires reached { (j : ℕ) → j < lines → slice_index_or index.now j (pos 0) ≤ℤ x }
    ensures { ReachUpTo index.now x result }
{
    for line in lines..index.len() {
        if is_below(index, x, line) {
            return line;
        }
    }
    index.len()
}

/// How many grid lines lie at or below `x`: line by line where there are few, by binary search where there are more.
pub(crate) fn lines_up_to(index: &[i64], x: i64) -> usize
    requires { IsIndex index.now }
    ensures { ReachUpTo index.now x result }
{
    if index.len() <= FEW_LINES {
        return lines_from(index, x, 0);
    }
    index.partition_point(|line| *line <= x)
}
