ghost use Rattle.std.specs.Prelude.{◌≡◌, ◌<◌, IfOk, IfSome, length, replicate, vec_len, None};
ghost use Rattle.xt_io.specs.Memory.{position_of as first_of, bytes_at as bytes_of};

use crate::calls::Calls;
use crate::failed::Failed;
use crate::fault_counts::FaultCounts;
use crate::files::Files;
use std::alloc::Global;
use std::marker::Model;
use xt_model::NoMemory;

/// Files in memory, whose calls fail by their numbers. Of two files of one name the first counts.
#[derive(Drop)]
pub struct MemoryFiles {
    files: Vec<(String, Vec<u8>)>,
    calls: Calls,
    faults: FaultCounts,
    reader: Option<Reader>,
}

// Which file is open, and how many of its bytes were read.
#[derive(Clone, Copy)]
struct Reader {
    file: usize,
    read: usize,
}

impl Model for MemoryFiles {
    ghost use Rattle.std.specs.Prelude.{◌≡◌, ◌≤◌, Some, IfSome, option_map, length, vec_len};
    ghost use Rattle.xt_io.specs.Memory.{FilesState, position_of, name_at, bytes_at};

    ghost Value = { FilesState };

    ghost view = { λ s. record {
      files = s.files.items;
      fail = s.calls.fail.items;
      calls = s.calls.next;
      faults = s.faults.files.items;
      others = s.faults.others;
      place = option_map (λ r. record { name = name_at s.files.items r.file; read = r.read }) s.reader;
    } };

    // Each file has a count of faults. The open file is the first of its name, and no more of it was read than it has.
    ghost invariant = { λ s. (vec_len s.faults.files ≡ vec_len s.files) × IfSome s.reader (λ r.
        (position_of s.files.items (name_at s.files.items r.file) ≡ Some r.file)
        × (r.read ≤ length (bytes_at s.files.items r.file))) };
}

impl MemoryFiles {
    /// The files, each with its name and its bytes. The calls of `open` and `read` are numbered together from 0; those
    /// fail that `fail` lists, and those that open a name that is not there.
    pub fn new(
        alloc: Global,
        files: Vec<(String, Vec<u8>)>,
        fail: Vec<u64>,
    ) -> Result<MemoryFiles, NoMemory>
        ensures { IfOk result (λ s. s ≡ record {
          files = files.items;
          fail = fail.items;
          calls = 0;
          faults = replicate (vec_len files) 0;
          others = 0;
          place = None;
        }) }
    {
        let Ok(faults) = FaultCounts::new(alloc, files.len()) else {
            return Err(NoMemory);
        };
        Ok(MemoryFiles {
            files,
            calls: Calls { fail, next: 0 },
            faults,
            reader: None,
        })
    }
}

impl Files for MemoryFiles {
    ghost use Rattle.std.specs.Prelude.{◌≡◌, ◌↔◌, ℕ, ◌<◌, ◌≤◌, ◌⊎◌, List, length, take, Some, None, Ok, IsSome};
    ghost use Rattle.std.specs.Prelude.{IsNone, IsErr, IfOk, OnOk, OnErr, IfSome};
    ghost use Rattle.xt_io.specs.Outside.{Rose, KeepsCounts, ChangesOnly, moved_by, AreNext, IsAtEnd, OpenRose};
    ghost use Rattle.xt_io.specs.Outside.{OpenChangesOnly};
    ghost use Rattle.xt_io.specs.Memory.{content_of, faults_of, position_of, IsListed, CountsCall, KeepsFaults};
    ghost use Rattle.xt_io.specs.Memory.{RaisesFaults, FillsBuffer};

    ghost content = { λ s. content_of s.files };

    ghost place = { λ s. s.place };

    ghost faults = { λ s. faults_of s };

    ghost opened = { λ _. None };

    fn open(&mut self, name: &str) -> Result<(), Failed>
        ensures content { (m : List ℕ) → content_of self.new.files m ≡ content_of self.old.files m }
        ensures counts { (m : List ℕ) → faults_of self.old m ≤ faults_of self.new m }
        ensures opened { OnOk result (self.new.place ≡ Some (record { name = name.now; read = 0 })) }
        ensures closed { OnErr result (self.new.place ≡ None) }
        ensures kept { OnOk result (KeepsCounts (faults_of self.old) (faults_of self.new)) }
        ensures failed { OnErr result (Rose (faults_of self.old name.now) (faults_of self.new name.now)) }
        ensures others { OnErr result (ChangesOnly name.now (faults_of self.old) (faults_of self.new)) }

        // Which calls fail, and what else each does.
        ensures fails { IsErr result ↔ (IsListed self.old ⊎ IsNone (position_of self.old.files name.now)) }
        ensures called { CountsCall self.old self.new }
        ensures unraised { OnOk result (KeepsFaults self.old self.new) }
        ensures raised { OnErr result (RaisesFaults self.old self.new name.now) }
    {
        let listed = self.calls.count();
        let found = position_of(&self.files, name);
        self.reader = None;
        match found {
            Some(file) if !listed => {
                self.reader = Some(Reader { file, read: 0 });
                Ok(())
            }
            _ => {
                self.faults.raise(found);
                Err(Failed)
            }
        }
    }

    fn read(&mut self, buffer: &mut [u8]) -> Result<usize, Failed>
        requires { IsSome self.old.place }
        ensures content { (m : List ℕ) → content_of self.new.files m ≡ content_of self.old.files m }
        ensures counts { (m : List ℕ) → faults_of self.old m ≤ faults_of self.new m }
        ensures count { IfOk result (λ n. n ≤ length buffer.old) }
        ensures moved { IfOk result (λ n. self.new.place ≡ moved_by n self.old.place) }
        ensures stays { OnErr result (self.new.place ≡ self.old.place) }
        ensures next { IfOk result (λ n. AreNext self.old.place (content_of self.old.files) (take n buffer.new)) }
        ensures end { result ≡ Ok 0 → 0 < length buffer.old → IsAtEnd self.old.place (content_of self.old.files) }
        ensures kept { OnOk result (KeepsCounts (faults_of self.old) (faults_of self.new)) }
        ensures failed { OnErr result (OpenRose self.old.place (faults_of self.old) (faults_of self.new)) }
        ensures others { OnErr result (OpenChangesOnly self.old.place (faults_of self.old) (faults_of self.new)) }

        // Which calls fail, and what else each does.
        ensures fails { IsErr result ↔ IsListed self.old }
        ensures fills { IfOk result (λ n. FillsBuffer self.old (length buffer.old) n) }
        ensures called { CountsCall self.old self.new }
        ensures unraised { OnOk result (KeepsFaults self.old self.new) }
        ensures raised { OnErr result (IfSome self.old.place (λ p. RaisesFaults self.old self.new p.name)) }
    {
        let Reader { file, read } = self.reader.unwrap();
        if self.calls.count() {
            self.faults.raise(Some(file));
            return Err(Failed);
        }
        let left = &bytes_at(&self.files, file)[read..];
        let count = left.len().min(buffer.len());
        buffer[..count].copy_from_slice(&left[..count]);
        self.reader = Some(Reader {
            file,
            read: read + count,
        });
        Ok(count)
    }
}

// Where the first file of a name stands.
fn position_of(files: &[(String, Vec<u8>)], name: &str) -> Option<usize>
    ensures position { result ≡ first_of files.now name.now }
    ensures there { IfSome result (λ i. i < length files.now) }
{
    files.iter().position(|file| file.0.as_str() == name)
}

// The bytes of the file at an index.
fn bytes_at(files: &[(String, Vec<u8>)], index: usize) -> &[u8]
    requires { index < length files.now }
    ensures { result.now ≡ bytes_of files.now index }
{
    files[index].1.as_slice()
}
