ghost use Rattle.std.specs.Prelude.{◌≡◌, ⊤, ℕ, List, Option, Some, None, IfNone, IfSome};

use crate::source::Source;
use std::fs::File;

/// Opens files by name, each as a stream from its first byte.
///
/// An implementation says what each name holds, where that is known, and which names it may refuse to open.
pub trait Directory {
    type Stream: Source + Drop;

    ghost content: { Self → List ℕ → Option (List ℕ) };

    ghost refuses: { Self → List ℕ → Type 0 };

    /// The file of a name, at its first byte. `None` where it cannot be opened.
    fn open(&self, name: &str) -> Option<Self::Stream>
        ensures content { IfSome result (λ stream. IfSome (content self.now name.now)
            (λ whole. Self.Stream.remaining stream ≡ Some whole)) }
        ensures refused { IfNone result (refuses self.now name.now) };
}

/// The files of the system.
impl Directory for HostRuntime {
    type Stream = File;

    ghost content = { λ _ _. None };

    ghost refuses = { λ _ _. ⊤ };

    fn open(&self, name: &str) -> Option<File> {
        File::open(self, name).ok()
    }
}
