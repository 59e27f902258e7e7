//! The order of the nets by level.

ghost use Rattle.std.specs.Prelude.{◌≡◌, ◌≤◌, length, IfOk, slice_index};
ghost use Rattle.std.specs.List.{range_with_len};
ghost use Rattle.xt_model.specs.Limits.{most_nets};
ghost use Rattle.xt_model.specs.Levels.{IsOrderBy, greatest_of};

use crate::net::Net;
use std::alloc::{AllocError, Global};

/// The level at a net, 0 where there is no such net.
fn level_at(levels: &[u32], net: u32) -> u32
    ensures { result ≡ slice_index levels.now net }
{
    levels.get(net as usize).copied().unwrap_or(0)
}

/// The numbers below `count`, rising.
fn numbers_below(alloc: Global, count: u32) -> Result<Vec<u32>, AllocError>
    ensures { IfOk result (λ numbers. numbers.items ≡ range_with_len 0 count) }
{
    let mut numbers = Vec::new(alloc);
    for number in 0..count {
        numbers.push(number)?;
    }
    Ok(numbers)
}

/// The numbers of the nets by level, and by number within a level.
pub fn order_by_level(alloc: Global, nets: &[Net], levels: &[u32]) -> Result<Vec<u32>, AllocError>
    requires count { length levels.now ≡ length nets.now }
    requires few { length nets.now ≤ most_nets }
    ensures { IfOk result (λ order. IsOrderBy nets.now levels.now order.items) }
{
    let mut order = numbers_below(alloc, nets.len() as u32)?;
    order.sort_by_key(|net| level_at(levels, *net))?;
    Ok(order)
}

/// The greatest of the levels, 0 for none.
pub fn greatest(levels: &[u32]) -> u32
    ensures { result ≡ greatest_of levels.now }
{
    let mut greatest = 0;
    for level in levels {
        if *level > greatest {
            greatest = *level;
        }
    }
    greatest
}
