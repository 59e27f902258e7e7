ghost use Rattle.std.specs.Prelude.{◌≡◌, ◌+◌, ◌≤◌, length, IfOk, OnErr, IfNone, IfSome};
ghost use Rattle.std.specs.Io.KnownBytes.{ReadConsumes};
ghost use Rattle.xt_io.specs.Host.{IsLeft, MayNotOpen, MayNotRead};

use crate::directory::Directory;
use crate::failed::Failed;
use crate::source::Source;
use arrayvec::ArrayString;

// The most bytes of a name that Linux opens: its `PATH_MAX` counts the zero byte behind the name.
const MOST_NAME: usize = 4095;

/// An open file: its stream, its name, and how many of its bytes were read.
#[derive(Drop)]
pub struct OpenFile<R: Source> {
    pub stream: R,
    pub name: ArrayString<MOST_NAME>,
    pub read: usize,
}

/// Opens a file of a directory at its first byte. `None` where it cannot be opened. It takes no memory.
pub fn open_file<D: Directory>(directory: &D, name: &str) -> Option<OpenFile<D::Stream>>
    ensures named { IfSome result (λ file. file.name.bytes ≡ name.now) }
    ensures first { IfSome result (λ file. file.read ≡ 0) }
    ensures left { IfSome result (λ file. IsLeft (D.content directory.now name.now) 0
        (D.Stream.remaining file.stream)) }
    ensures cause { IfNone result (MayNotOpen (D.refuses directory.now) name.now) }
{
    let Ok(held) = ArrayString::from(name) else {
        return None;
    };
    let stream = directory.open(name)?;
    Some(OpenFile {
        stream,
        name: held,
        read: 0,
    })
}

impl<R: Source> OpenFile<R> {
    /// Reads the next bytes. It is a fault to ask for more bytes than can be counted. A failed read leaves the count of
    /// bytes as it was.
    pub fn read(&mut self, buffer: &mut [u8]) -> Result<usize, Failed>
        ensures count { IfOk result (λ n. n ≤ length buffer.old) }
        ensures len { length buffer.new ≡ length buffer.old }
        ensures read { IfOk result (λ n. self.new.read ≡ self.old.read + n) }
        ensures failed { OnErr result (self.new.read ≡ self.old.read) }
        ensures name { self.new.name ≡ self.old.name }
        ensures bytes { ReadConsumes (R.remaining self.old.stream) (R.remaining self.new.stream) result buffer.new }
        ensures cause { OnErr result (MayNotRead R.fails self.old.stream self.old.read (length buffer.old)) }
    {
        if buffer.len() > usize::MAX - self.read {
            return Err(Failed);
        }
        let count = self.stream.read_some(buffer)?;
        self.read += count;
        Ok(count)
    }
}
