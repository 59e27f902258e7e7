ghost use Rattle.std.specs.Prelude.{◌≡◌, ◌++◌, [], ◌∷◌, map, string_bytes, IsTrue};

use crate::failed::Failed;
use crate::files::Files;
use std::alloc::Global;

/// Files with a record of the calls on them, as far as there is memory for it: the names that were opened, and of each
/// read how many bytes it was for, both in order. Contracts see the names while none of them was left out.
#[derive(Drop)]
pub struct RecordedFiles<F: Files> {
    files: F,
    alloc: Global,
    pub opened: Vec<String>,
    pub lengths: Vec<usize>,
    whole: bool,
}

/// Adds a name to a list of names, where there is memory for it.
fn add_name(alloc: Global, names: &mut Vec<String>, name: &str) -> bool
    ensures { IsTrue result → map string_bytes names.new.items ≡ map string_bytes names.old.items ++ name.now ∷ [] }
{
    match String::from_str(alloc, name) {
        Ok(copy) => names.push(copy).is_ok(),
        Err(_) => false,
    }
}

impl<F: Files> RecordedFiles<F> {
    /// These files, with an empty record.
    pub fn new(alloc: Global, files: F) -> RecordedFiles<F> {
        RecordedFiles {
            files,
            alloc,
            opened: Vec::new(alloc),
            lengths: Vec::new(alloc),
            whole: true,
        }
    }
}

impl<F: Files> Files for RecordedFiles<F> {
    ghost use Rattle.std.specs.Prelude.{map, string_bytes};
    ghost use Rattle.xt_io.specs.Outside.{recorded};

    ghost content = { λ s. F.content s.files };

    ghost place = { λ s. F.place s.files };

    ghost faults = { λ s. F.faults s.files };

    ghost opened = { λ s. recorded s.whole (map string_bytes s.opened.items) };

    fn open(&mut self, name: &str) -> Result<(), Failed> {
        let added = add_name(self.alloc, &mut self.opened, name);
        self.whole = self.whole && added;
        self.files.open(name)
    }

    fn read(&mut self, buffer: &mut [u8]) -> Result<usize, Failed> {
        let _ = self.lengths.push(buffer.len());
        self.files.read(buffer)
    }
}
