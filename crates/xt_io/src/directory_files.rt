ghost use Rattle.std.specs.Prelude.{◌≡◌, None};

use crate::directory::Directory;
use crate::failed::Failed;
use crate::files::Files;
use crate::open_file::{OpenFile, open_file};
use std::marker::Model;

/// The files of a directory, one of which is open at a time. They have one count of faults for every name. It is a
/// fault to open a name that the directory does not open, and a failed read of a stream. No call takes memory.
#[derive(Drop)]
pub struct DirectoryFiles<D: Directory> {
    directory: D,
    file: Option<OpenFile<D::Stream>>,
    faults: u64,
}

/// The files of the system.
pub type HostFiles = DirectoryFiles<HostRuntime>;

impl<D: Directory> Model for DirectoryFiles<D> {
    ghost use Rattle.std.specs.Prelude.{option_map, IfSome};
    ghost use Rattle.xt_io.specs.Host.{DirectoryState, IsLeft};

    ghost Value = { DirectoryState D D.Stream };

    ghost view = { λ s. record {
      directory = s.directory;
      stream = option_map (λ f. f.stream) s.file;
      place = option_map (λ f. record { name = f.name.bytes; read = f.read }) s.file;
      faults = s.faults;
    } };

    // The open stream has left what was not read yet of its file.
    ghost invariant = { λ s. IfSome s.file (λ f.
        IsLeft (D.content s.directory f.name.bytes) f.read (D.Stream.remaining f.stream)) };
}

impl<D: Directory> DirectoryFiles<D> {
    /// The files of this directory, with none open and no faults yet.
    pub fn new(directory: D) -> DirectoryFiles<D>
        ensures { result ≡ record { directory = directory; stream = None; place = None; faults = 0 } }
    {
        DirectoryFiles {
            directory,
            file: None,
            faults: 0,
        }
    }
}

impl<D: Directory> Files for DirectoryFiles<D> {
    ghost use Rattle.std.specs.Prelude.{◌≡◌, ℕ, ◌<◌, ◌≤◌, List, length, take, Some, None, Ok, IsSome, IfOk, OnOk};
    ghost use Rattle.std.specs.Prelude.{OnErr, IfSome};
    ghost use Rattle.xt_io.specs.Outside.{Rose, moved_by, AreNext, IsAtEnd};
    ghost use Rattle.xt_io.specs.Memory.{one_more};
    ghost use Rattle.xt_io.specs.Host.{MayNotOpen, MayNotRead};

    ghost content = { λ s. D.content s.directory };

    ghost place = { λ s. s.place };

    ghost faults = { λ s _. s.faults };

    ghost opened = { λ _. None };

    fn open(&mut self, name: &str) -> Result<(), Failed>
        ensures directory { self.new.directory ≡ self.old.directory }
        ensures counts { self.old.faults ≤ self.new.faults }
        ensures opened { OnOk result (self.new.place ≡ Some (record { name = name.now; read = 0 })) }
        ensures closed { OnErr result (self.new.place ≡ None) }
        ensures kept { OnOk result (self.new.faults ≡ self.old.faults) }
        ensures failed { OnErr result (Rose self.old.faults self.new.faults) }
        ensures raised { OnErr result (self.new.faults ≡ one_more self.old.faults) }
        ensures cause { OnErr result (MayNotOpen (D.refuses self.old.directory) name.now) }
    {
        self.file = open_file(&self.directory, name);
        if self.file.is_none() {
            self.faults = self.faults.saturating_add(1);
            return Err(Failed);
        }
        Ok(())
    }

    fn read(&mut self, buffer: &mut [u8]) -> Result<usize, Failed>
        requires { IsSome self.old.place }
        ensures directory { self.new.directory ≡ self.old.directory }
        ensures counts { self.old.faults ≤ self.new.faults }
        ensures count { IfOk result (λ n. n ≤ length buffer.old) }
        ensures moved { IfOk result (λ n. self.new.place ≡ moved_by n self.old.place) }
        ensures stays { OnErr result (self.new.place ≡ self.old.place) }
        ensures next { IfOk result (λ n. AreNext self.old.place (D.content self.old.directory) (take n buffer.new)) }
        ensures end { result ≡ Ok 0 → 0 < length buffer.old → IsAtEnd self.old.place (D.content self.old.directory) }
        ensures kept { OnOk result (self.new.faults ≡ self.old.faults) }
        ensures failed { OnErr result (IfSome self.old.place (λ _. Rose self.old.faults self.new.faults)) }
        ensures raised { OnErr result (self.new.faults ≡ one_more self.old.faults) }
        ensures cause { OnErr result (IfSome self.old.stream (λ stream. IfSome self.old.place
            (λ p. MayNotRead D.Stream.fails stream p.read (length buffer.old)))) }
    {
        let mut file = self.file.take().unwrap();
        let answer = file.read(buffer);
        self.file = Some(file);
        if answer.is_err() {
            self.faults = self.faults.saturating_add(1);
        }
        answer
    }
}
