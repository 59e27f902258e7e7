ghost use Rattle.std.specs.Prelude.{◌≡◌, ℕ, List, Some, None, OnOk, OnErr, bytes_eq, if◌then◌else◌};
ghost use Rattle.std.specs.Option.{option_or};
ghost use Rattle.name_numbers.specs.Names.{value_of};
ghost use Rattle.name_parts.specs.Parts.{whole};

use name_parts::{ByParts, NameParts};
use std::alloc::AllocError;

/// Gives a name its value, unless it has one.
pub fn set_first<'a, V: Drop>(
    table: &mut ByParts<'a, V>,
    name: NameParts<'a>,
    value: V,
) -> Result<(), AllocError>
    ensures given { OnOk result
        ((other : List ℕ) → value_of other table.new
        ≡ option_or (value_of other table.old) (if bytes_eq other (whole name.entry) then Some value else None)) }
    ensures unchanged { OnErr result (table.new ≡ table.old) }
{
    if table.get(name).is_none() {
        table.set(name, value)?;
    }
    Ok(())
}
