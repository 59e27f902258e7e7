//! Values that are written one after another.

ghost use Rattle.std.specs.Prelude.{◌≡◌, ◌++◌, ℕ, List, OnOk};
ghost use Rattle.std.specs.List.{flat_map};

use std::alloc::AllocError;

/// Writes one of several values that come one after another.
pub trait Writer {
    type Value;

    ghost text: { Self → Self.Value → List ℕ };

    /// Appends the text of a value.
    fn write(&self, out: &mut Vec<u8>, value: &Self::Value) -> Result<(), AllocError>
        ensures { OnOk result (out.new.items ≡ out.old.items ++ text self.now value.now) };
}

/// Appends the text of each value.
pub fn write_each<W: Writer>(
    out: &mut Vec<u8>,
    writer: &W,
    values: &[W::Value],
) -> Result<(), AllocError>
    ensures { OnOk result (out.new.items ≡ out.old.items ++ flat_map (W.text writer.now) values.now) }
{
    for value in values {
        writer.write(out, value)?;
    }
    Ok(())
}
