ghost use Rattle.std.specs.Prelude.{◌≤◌, length, IfOk, OnErr};
ghost use Rattle.std.specs.Io.KnownBytes.{ReadConsumes};

use crate::failed::Failed;
use std::fs::File;
use std::io::Read;

/// A kind of stream that bytes are read from.
///
/// An implementation says at which of its streams a read may fail.
pub trait Source: Read {
    ghost fails: { Self → Type 0 };

    /// Reads the next bytes into the front of `buffer`, by one call of `read`.
    fn read_some(&mut self, buffer: &mut [u8]) -> Result<usize, Failed>
        ensures count { IfOk result (λ n. n ≤ length buffer.old) }
        ensures bytes { ReadConsumes (Self.remaining self.old) (Self.remaining self.new) result buffer.new }
        ensures failed { OnErr result (fails self.old) };
}

impl Source for File {
    ghost use Rattle.std.specs.Prelude.{⊤};

    ghost fails = { λ _. ⊤ };

    fn read_some(&mut self, buffer: &mut [u8]) -> Result<usize, Failed> {
        let Ok(count) = self.read(buffer) else {
            return Err(Failed);
        };
        Ok(count)
    }
}
