ghost use Rattle.std.specs.Prelude.{◌≡◌, ℕ, ◌<◌, ◌≤◌, List, [], ◌∷◌, length, take, Option, IsSome, IfOk, OnOk, OnErr};
ghost use Rattle.xt_io.specs.Outside.{Rose, KeepsCounts, ChangesOnly, Place, moved_by, AreNext, IsAtEnd, OpenRose};
ghost use Rattle.xt_io.specs.Outside.{AreOpened, OpenChangesOnly};

use crate::failed::Failed;

/// Files that are opened and read by name, one at a time.
///
/// An implementation says what each name holds, where that is known; where its reader is; how many faults
/// each name had, a count that stays at the last value of a `u64` once that is reached; and which names were opened, in
/// order, where it has a record of all of them.
pub trait Files {
    ghost content: { Self → List ℕ → Option (List ℕ) };

    ghost place: { Self → Option Place };

    ghost faults: { Self → List ℕ → ℕ };

    ghost opened: { Self → Option (List (List ℕ)) };

    /// Opens a file at its first byte. After a failure no file is open. Only a failure raises a count of faults, and
    /// no count but that of the name.
    fn open(&mut self, name: &str) -> Result<(), Failed>
        ensures content { (m : List ℕ) → content self.new m ≡ content self.old m }
        ensures recorded { AreOpened (name.now ∷ []) (opened self.old) (opened self.new) }
        ensures counts { (m : List ℕ) → faults self.old m ≤ faults self.new m }
        ensures opened { OnOk result (place self.new ≡ Some (record { name = name.now; read = 0 })) }
        ensures closed { OnErr result (place self.new ≡ None) }
        ensures kept { OnOk result (KeepsCounts (faults self.old) (faults self.new)) }
        ensures failed { OnErr result (Rose (faults self.old name.now) (faults self.new name.now)) }
        ensures others { OnErr result (ChangesOnly name.now (faults self.old) (faults self.new)) };

    /// Reads the next bytes of the open file into the front of `buffer`. `Ok(0)` at a buffer that is not empty is
    /// the end of the file. After a failure the place is as before. Only a failure raises a count of faults, and no
    /// count but that of the open name.
    fn read(&mut self, buffer: &mut [u8]) -> Result<usize, Failed>
        requires { IsSome (place self.old) }
        ensures content { (m : List ℕ) → content self.new m ≡ content self.old m }
        ensures record { opened self.new ≡ opened self.old }
        ensures counts { (m : List ℕ) → faults self.old m ≤ faults self.new m }
        ensures count { IfOk result (λ n. n ≤ length buffer.old) }
        ensures moved { IfOk result (λ n. place self.new ≡ moved_by n (place self.old)) }
        ensures stays { OnErr result (place self.new ≡ place self.old) }
        ensures next { IfOk result (λ n. AreNext (place self.old) (content self.old) (take n buffer.new)) }
        ensures end { result ≡ Ok 0 → 0 < length buffer.old → IsAtEnd (place self.old) (content self.old) }
        ensures kept { OnOk result (KeepsCounts (faults self.old) (faults self.new)) }
        ensures failed { OnErr result (OpenRose (place self.old) (faults self.old) (faults self.new)) }
        ensures others { OnErr result (OpenChangesOnly (place self.old) (faults self.old) (faults self.new)) };
}
