ghost use Rattle.std.specs.Prelude.{◌≡◌, ◌<◌, ◌≤◌, length, IfOk, IfErr};

use crate::failed::Failed;
use std::fs::File;
use std::io;
use std::io::{Stderr, Stdout, Write};

/// A kind of stream that bytes are written to.
///
/// An implementation says whether it is known of each stream of its kind what it holds, and at which of its streams a
/// write may fail or take nothing.
pub trait Stream: Write {
    ghost use Rattle.std.specs.Prelude.{◌<◌, ◌≤◌, Bool, length, IfOk, OnErr};
    ghost use Rattle.std.specs.Io.KnownBytes.{WriteAppends};
    ghost use Rattle.xt_io.specs.Host.{IsKnown};

    ghost known: { Bool };

    ghost fails: { Self → Type 0 };

    /// Takes the first bytes of a piece, by one call of `write`. It is a failure to take nothing.
    fn write_some(&mut self, piece: &[u8]) -> Result<usize, Failed>
        requires { 0 < length piece.now }
        ensures count { IfOk result (λ n. (0 < n) × (n ≤ length piece.now)) }
        ensures bytes { WriteAppends (Self.contents self.old) (Self.contents self.new) result piece.now }
        ensures failed { OnErr result (fails self.old) };

    ghost held: { (s : Self) → IsKnown known (Self.contents s) };
}

/// The count of bytes that a call of `write` took. To take nothing is a failure.
fn taken(answer: io::Result<usize>) -> Result<usize, Failed>
    ensures some { IfOk result (λ n. (0 < n) × (answer ≡ Ok n)) }
    ensures none { IfErr result (λ _. IfOk answer (λ n. n ≡ 0)) }
{
    match answer {
        Ok(count) if count > 0 => Ok(count),
        _ => Err(Failed),
    }
}

impl Stream for Stdout {
    ghost use Rattle.std.specs.Prelude.{false, ⊤};

    ghost known = { false };

    ghost held = { λ _. tt };

    ghost fails = { λ _. ⊤ };

    fn write_some(&mut self, piece: &[u8]) -> Result<usize, Failed> {
        taken(self.write(piece))
    }
}

impl Stream for Stderr {
    ghost use Rattle.std.specs.Prelude.{false, ⊤};

    ghost known = { false };

    ghost held = { λ _. tt };

    ghost fails = { λ _. ⊤ };

    fn write_some(&mut self, piece: &[u8]) -> Result<usize, Failed> {
        taken(self.write(piece))
    }
}

impl Stream for File {
    ghost use Rattle.std.specs.Prelude.{false, ⊤};

    ghost known = { false };

    ghost held = { λ _. tt };

    ghost fails = { λ _. ⊤ };

    fn write_some(&mut self, piece: &[u8]) -> Result<usize, Failed> {
        taken(self.write(piece))
    }
}

impl Stream for Vec<u8> {
    ghost use Rattle.std.specs.Prelude.{true, refl, ⊤};

    ghost known = { true };

    ghost held = { λ _. refl };

    ghost fails = { λ _. ⊤ };

    fn write_some(&mut self, piece: &[u8]) -> Result<usize, Failed> {
        taken(self.write(piece))
    }
}
