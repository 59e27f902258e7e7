//! Tables of named values.

ghost use Rattle.std.specs.Prelude.{◌≡◌, OnOk};
ghost use Rattle.hier_flatten.specs.Tables.{with_first};

use name_numbers::Named;
use std::alloc::AllocError;

/// Gives a name its value, unless it has one.
pub fn put_first<'a, V: Drop>(
    table: &mut Named<'a, V>,
    name: &'a [u8],
    value: V,
) -> Result<(), AllocError>
    ensures { OnOk result (table.new ≡ with_first name.entry.now value table.old) }
{
    if table.get(name).is_none() {
        table.set(name, value)?;
    }
    Ok(())
}
