//! Tables in which the first value of a name counts.

ghost use Rattle.std.specs.Prelude.{◌≡◌, ℕ, List, Some, None, OnOk, OnErr, bytes_eq, if◌then◌else◌};
ghost use Rattle.std.specs.Option.{option_or};
ghost use Rattle.name_numbers.specs.Names.{value_of};

use name_numbers::Named;
use std::alloc::AllocError;

/// Gives a name its value, unless it has one.
pub fn set_first<'a, V: Drop>(
    table: &mut Named<'a, V>,
    name: &'a [u8],
    value: V,
) -> Result<(), AllocError>
    ensures given { OnOk result
        ((other : List ℕ) → value_of other table.new
        ≡ option_or (value_of other table.old) (if bytes_eq other name.entry.now then Some value else None)) }
    ensures unchanged { OnErr result (table.new ≡ table.old) }
{
    if table.get(name).is_none() {
        table.set(name, value)?;
    }
    Ok(())
}
