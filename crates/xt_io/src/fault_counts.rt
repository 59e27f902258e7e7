ghost use Rattle.std.specs.Prelude.{◌≡◌, ℕ, ◌<◌, ◌≤◌, Option, IfOk, replicate, vec_len};
ghost use Rattle.std.specs.Option.{ForSome};
ghost use Rattle.xt_io.specs.Memory.{fault_count, RaisesCount};
ghost use Rattle.xt_io.specs.Outside.{Rose, ChangesOnly};

use std::alloc::{AllocError, Global};

/// Counts the faults of each file, and those of all other names together. The last value of a `u64` stays once it is
/// reached.
#[derive(Drop)]
pub struct FaultCounts {
    pub files: Vec<u64>,
    pub others: u64,
}

impl FaultCounts {
    /// No faults yet of this many files.
    pub fn new(alloc: Global, files: usize) -> Result<FaultCounts, AllocError>
        ensures { IfOk result (λ counts. (counts.files.items ≡ replicate files 0) × (counts.others ≡ 0)) }
    {
        Ok(FaultCounts {
            files: vec![in alloc; 0; files]?,
            others: 0,
        })
    }

    /// Counts a fault of a file, or of another name.
    pub fn raise(&mut self, file: Option<usize>)
        requires { ForSome file (λ i. i < vec_len self.old.files) }
        ensures raised { RaisesCount self.old.files.items self.old.others self.new.files.items
            self.new.others file }
        ensures counts { (k : Option ℕ) → fault_count self.old.files.items self.old.others k
            ≤ fault_count self.new.files.items self.new.others k }
        ensures rose { Rose (fault_count self.old.files.items self.old.others file)
            (fault_count self.new.files.items self.new.others file) }
        ensures others { ChangesOnly file (fault_count self.old.files.items self.old.others)
            (fault_count self.new.files.items self.new.others) }
        ensures len { vec_len self.new.files ≡ vec_len self.old.files }
    {
        match file {
            Some(file) => self.files[file] = self.files[file].saturating_add(1),
            None => self.others = self.others.saturating_add(1),
        }
    }
}
