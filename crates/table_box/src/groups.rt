//! Which tables of a design are monotone, and which of these have the same axes.

ghost use Rattle.std.specs.Prelude.{◌+◌, ◌<◌, ◌≤◌, length, IfOk};
ghost use Rattle.table_box.specs.Groups.{AreGroups, IsGrouped};

use crate::monotone::is_monotone;
use crate::ranges::have_same_axes;
use std::alloc::{AllocError, Global};
use xt_model::Table;

/// The number of the group of a table, or 0 where it is not monotone: that of the table with this number `head`, where
/// both have the same axes, and else the group that begins with the table itself.
fn group_of(tables: &[Table], number: usize, head: usize) -> usize
    requires number { number < length tables.now }
    requires head { head ≤ number }
    ensures grouped { IsGrouped tables.now number result }
    ensures most { result ≤ number + 1 }
{
    if !is_monotone(&tables[number]) {
        return 0;
    }
    if have_same_axes(&tables[number], &tables[head]) {
        return head + 1;
    }
    number + 1
}

/// For each of several tables the number of its group, or 0 for none. The tables of one group are monotone and have the
/// same axes. Two groups can have the same axes, too: a group ends at the next monotone table with others. Looks at
/// each number of each table a few times.
pub fn table_groups(alloc: Global, tables: &[Table]) -> Result<Vec<usize>, AllocError>
    ensures { IfOk result (λ groups. AreGroups tables.now groups.items) }
{
    let mut groups = Vec::with_capacity(alloc, tables.len())?;
    let mut head = 0;
    for number in 0..tables.len() {
        let group = group_of(tables, number, head);
        if group > 0 {
            head = group - 1;
        }
        groups.push(group)?;
    }
    Ok(groups)
}
