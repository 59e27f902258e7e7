//! A row of items for each net. Most nets have few, which lie in the row itself.

ghost use Rattle.std.specs.Prelude.{◌≡◌, ◌<◌, ◌++◌, [], ◌∷◌, length, map, set, get_or, IfOk, OnOk};
ghost use Rattle.std.specs.List.{All};

use smallvec::SmallVec;
use std::alloc::{AllocError, Global};

/// The items of a net, of which most nets have at most four.
pub(crate) type Items<T> = SmallVec<T, 4>;

/// Appends an item to the row of this number.
pub(crate) fn push_item<T: Default + Drop>(
    rows: &mut Vec<Items<T>>,
    at: usize,
    item: T,
) -> Result<(), AllocError>
    requires { at < length rows.old.items }
    ensures { OnOk result (map (λ r. r.items) rows.new.items ≡ set (map (λ r. r.items) rows.old.items) at
        (get_or (map (λ r. r.items) rows.old.items) at [] ++ item ∷ [])) }
{
    rows[at].push(item)?;
    Ok(())
}

/// An empty row for each net.
pub(crate) fn empty_rows<T: Default + Drop>(
    alloc: Global,
    nets: u32,
) -> Result<Vec<Items<T>>, AllocError>
    ensures count { IfOk result (λ rows. length rows.items ≡ nets) }
    ensures empty { IfOk result (λ rows. All (λ r. r.items ≡ []) rows.items) }
{
    let mut rows = Vec::with_capacity(alloc, nets as usize)?;
    for i in 0..nets {
        rows.push(SmallVec::new(alloc))?;
    }
    Ok(rows)
}
