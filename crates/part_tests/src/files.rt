//! Files and sinks: in memory, over the system, and with faults.

ghost use Rattle.std.specs.Prelude.{◌≤◌};

use std::alloc::{AllocError, Global};
use std::fs::File;
use std::io::{ErrorKind, Read, Write};
use std::test::Fail;
use std::{fs, io, process};
use xt_io::{
    Directory, DirectoryFiles, Failed, Files, HostErr, HostFiles, HostOut, HostStream, MemoryFiles,
    MemorySink, ReadFail, RecordedFiles, Source, Stream, read_whole, write_whole,
};

// Bytes of which no two nearby are alike.
fn sample(alloc: Global, length: usize) -> Result<Vec<u8>, AllocError> {
    let mut bytes = Vec::new(alloc);
    for i in 0..length {
        bytes.push((i % 251) as u8)?;
    }
    Ok(bytes)
}

// Files whose calls of these numbers fail: one of so many bytes, and an empty one of the same name.
fn two_files(alloc: Global, length: usize, fail: &[u64]) -> Result<MemoryFiles, Fail> {
    let mut files = Vec::new(alloc);
    files.push((String::from_str(alloc, "a")?, sample(alloc, length)?))?;
    files.push((String::from_str(alloc, "a")?, Vec::new(alloc)))?;
    let files = MemoryFiles::new(alloc, files, Vec::from_slice(alloc, fail)?)?;
    Ok(files)
}

/// Whether bytes are the sample's first ones, this many.
fn is_sample(alloc: Global, bytes: &[u8], length: usize) -> Result<bool, AllocError> {
    let want = sample(alloc, length)?;
    Ok(bytes == want.as_slice())
}

/// Whether `a` has this many bytes of the sample.
fn reads_sample(alloc: Global, files: &mut MemoryFiles, length: usize) -> Result<bool, Fail> {
    let bytes = read_whole(alloc, files, "a")?;
    Ok(is_sample(alloc, &bytes, length)?)
}

/// Whether a file of this many bytes is read whole, and a name without a file is a fault.
fn is_read_whole(alloc: Global, length: usize) -> Result<bool, Fail> {
    let mut files = two_files(alloc, length, &[])?;
    let is_whole = reads_sample(alloc, &mut files, length)?;
    let other = read_whole(alloc, &mut files, "b").err();
    Ok(is_whole && other == Some(ReadFail::Fault))
}

#[test]
fn reads_whole_files(rt: HostRuntime) -> Result<(), Fail> {
    for length in [0, 5, 65_536, 200_000] {
        assert!(rt; is_read_whole(rt.alloc(), length)?, "{length}");
    }
    Ok(())
}

/// Whether `a` is a fault, and is read whole then.
fn is_read_again(alloc: Global, files: &mut MemoryFiles) -> Result<bool, Fail> {
    let first = read_whole(alloc, files, "a").err();
    let is_whole = reads_sample(alloc, files, 5)?;
    Ok(is_whole && first == Some(ReadFail::Fault))
}

/// The same of a file of five bytes where the call of this number fails.
fn fails_once(alloc: Global, number: u64) -> Result<bool, Fail> {
    let mut files = two_files(alloc, 5, &[number])?;
    is_read_again(alloc, &mut files)
}

// A file of five bytes is opened and read twice, the second time to see its end.
#[test]
fn answers_faults(rt: HostRuntime) -> Result<(), Fail> {
    for number in 0..3 {
        assert!(rt; fails_once(rt.alloc(), number)?, "{number}");
    }
    Ok(())
}

/// Whether this many of 25 bytes are written, and a failure is told where these are not all.
fn writes_sample(alloc: Global, sink: &mut MemorySink, written: usize) -> Result<bool, Fail> {
    let bytes = sample(alloc, 25)?;
    let is_whole = write_whole(sink, &bytes).is_ok();
    Ok(is_whole == (written == 25) && is_sample(alloc, sink.bytes(), written)?)
}

/// The same where the call of this number fails, with the most bytes that a call takes, and the room.
fn are_written(
    alloc: Global,
    most: usize,
    number: u64,
    room: usize,
    written: usize,
) -> Result<bool, Fail>
    requires { 1 ≤ most }
{
    let fail = Vec::from_slice(alloc, &[number])?;
    let mut sink = MemorySink::new(alloc, fail, most, room)?;
    writes_sample(alloc, &mut sink, written)
}

#[test]
fn writes_pieces(rt: HostRuntime) -> Result<(), Fail> {
    for (most, number, room, written) in [
        (1, 25, 100, 25),
        (10, 3, 100, 25),
        (100, 1, 25, 25),
        (1, 3, 100, 3),
        (10, 2, 100, 20),
        (10, 0, 100, 0),
        (10, 9, 7, 7),
    ] {
        let is_wanted = are_written(rt.alloc(), most, number, room, written)?;
        assert!(rt; is_wanted, "{most} {number} {room}");
    }
    Ok(())
}

/// Whether one file is opened, once, and each read asks for a whole buffer.
fn opens_once(alloc: Global) -> Result<bool, Fail> {
    let mut files = RecordedFiles::new(alloc, two_files(alloc, 200_000, &[])?);
    let bytes = read_whole(alloc, &mut files, "a")?;
    Ok(
        bytes.len() == 200_000
            && files.opened.len() == 1
            && files.opened[0].as_str() == "a"
            && files.lengths.as_slice() == [65_536; 5].as_slice(),
    )
}

#[test]
fn makes_no_other_calls(rt: HostRuntime) -> Result<(), Fail> {
    assert!(rt; opens_once(rt.alloc())?);
    Ok(())
}

/// Whether a file of the system of several buffers is read whole.
fn is_read_back(rt: HostRuntime, name: &str) -> Result<bool, Fail> {
    let sample = sample(rt.alloc(), 200_000)?;
    fs::write(&rt, name, sample.as_slice())?;
    let bytes = read_whole(rt.alloc(), &mut HostFiles::new(rt), name)?;
    fs::remove_file(&rt, name)?;
    Ok(bytes.as_slice() == sample.as_slice())
}

/// Whether reading a file of the system is a fault.
fn is_fault(rt: HostRuntime, name: &str) -> bool {
    read_whole(rt.alloc(), &mut HostFiles::new(rt), name).err() == Some(ReadFail::Fault)
}

/// Names that cannot be opened, and a folder.
const UNREADABLE: [&str; 4] = ["/proc/self", "/proc/self/none", "/proc/self/\0", ""];

// A file of several buffers; names that cannot be opened, a folder, and a name of too many bytes.
#[test]
fn reads_real_files(rt: HostRuntime) -> Result<(), Fail> {
    let alloc = rt.alloc();
    let name = format!(in alloc; "/tmp/xt_io-{}", process::id(rt.process()))?;
    assert!(rt; is_read_back(rt, name.as_str())?);
    for name in UNREADABLE {
        assert!(rt; is_fault(rt, name), "{name:?}");
    }
    let long: Vec<u8> = vec![in alloc; b'x'; 4096]?;
    assert!(rt; is_fault(rt, str::from_utf8(&long).unwrap_or("")));
    Ok(())
}

#[test]
fn writes_real_streams(rt: HostRuntime) -> Result<(), Fail> {
    let mut out: HostOut = HostOut::new(rt.stdout());
    assert_eq!(rt; write_whole(&mut out, b"to standard output\n"), Ok(()));
    let mut err: HostErr = HostErr::new(rt.stderr());
    assert_eq!(rt; write_whole(&mut err, b"to standard error\n"), Ok(()));
    let mut full = HostStream::new(File::options().write(true).open(&rt, "/dev/full")?);
    assert_eq!(rt; write_whole(&mut full, b"to a full device"), Err(Failed));
    Ok(())
}

// A stream of so many bytes, of which it gives or takes one at a time. It fails once after `fail` bytes.
#[derive(Drop)]
struct Trickle {
    at: usize,
    length: usize,
    fail: Option<usize>,
    bytes: Vec<u8>,
}

impl Trickle {
    // Whether the next call fails.
    fn fails(&mut self) -> bool {
        let fails = self.fail == Some(self.at);
        if fails {
            self.fail = None;
        }
        fails
    }
}

impl Read for Trickle {
    fn read(&mut self, buffer: &mut [u8]) -> io::Result<usize> {
        if self.fails() {
            return Err(io::Error::from(ErrorKind::Other));
        }
        if self.at >= self.length || buffer.is_empty() {
            return Ok(0);
        }
        buffer[0] = (self.at % 251) as u8;
        self.at += 1;
        Ok(1)
    }
}

impl Write for Trickle {
    fn write(&mut self, piece: &[u8]) -> io::Result<usize> {
        if self.fails() {
            return Err(io::Error::from(ErrorKind::Other));
        }
        if self.at >= self.length || piece.is_empty() {
            return Ok(0);
        }
        self.bytes.push(piece[0])?;
        self.at += 1;
        Ok(1)
    }

    fn flush(&mut self) -> io::Result<()> {
        Ok(())
    }
}

impl Source for Trickle {
    ghost use Rattle.std.specs.Prelude.{⊤};

    ghost fails = { λ _. ⊤ };

    fn read_some(&mut self, buffer: &mut [u8]) -> Result<usize, Failed> {
        let Ok(count) = self.read(buffer) else {
            return Err(Failed);
        };
        Ok(count)
    }
}

impl Stream for Trickle {
    ghost use Rattle.std.specs.Prelude.{false, ⊤};

    ghost known = { false };

    ghost held = { λ _. tt };

    ghost fails = { λ _. ⊤ };

    fn write_some(&mut self, piece: &[u8]) -> Result<usize, Failed> {
        match self.write(piece) {
            Ok(count) if count > 0 => Ok(count),
            _ => Err(Failed),
        }
    }
}

// One file, of the name `a`.
#[derive(Drop)]
struct Trickles {
    alloc: Global,
    length: usize,
    fail: Option<usize>,
}

impl Directory for Trickles {
    type Stream = Trickle;

    ghost use Rattle.std.specs.Prelude.{None, ⊤};

    ghost content = { λ _ _. None };

    ghost refuses = { λ _ _. ⊤ };

    fn open(&self, name: &str) -> Option<Trickle> {
        if name != "a" {
            return None;
        }
        Some(Trickle {
            at: 0,
            length: self.length,
            fail: self.fail,
            bytes: Vec::new(self.alloc),
        })
    }
}

/// What is read of a file of 1,000 bytes that comes a byte at a time.
fn read_trickle(alloc: Global, name: &str, fail: Option<usize>) -> Result<Vec<u8>, ReadFail> {
    let mut files = DirectoryFiles::new(Trickles {
        alloc,
        length: 1000,
        fail,
    });
    read_whole(alloc, &mut files, name)
}

/// The fault of reading it, if there is one; else its bytes are those of the sample.
fn fault_of_trickle(
    alloc: Global,
    name: &str,
    fail: Option<usize>,
) -> Result<Option<ReadFail>, Fail> {
    match read_trickle(alloc, name, fail) {
        Ok(bytes) if is_sample(alloc, &bytes, 1000)? => Ok(None),
        Ok(_) => Err(Fail::from("other bytes")),
        Err(fault) => Ok(Some(fault)),
    }
}

#[test]
fn reads_byte_by_byte(rt: HostRuntime) -> Result<(), Fail> {
    for (name, fail, fault) in [
        ("a", None, None),
        ("a", Some(0), Some(ReadFail::Fault)),
        ("a", Some(400), Some(ReadFail::Fault)),
        ("a", Some(1000), Some(ReadFail::Fault)),
        ("b", None, Some(ReadFail::Fault)),
    ] {
        assert_eq!(rt; fault_of_trickle(rt.alloc(), name, fail)?, fault);
    }
    Ok(())
}

/// Whether this many of 1,000 bytes are written to a stream of this length that takes a byte at a time, and a failure
/// is told where these are not all.
fn are_trickled(
    alloc: Global,
    length: usize,
    fail: Option<usize>,
    written: usize,
) -> Result<bool, Fail> {
    let bytes = sample(alloc, 1000)?;
    let mut sink = HostStream::new(Trickle {
        at: 0,
        length,
        fail,
        bytes: Vec::new(alloc),
    });
    let is_whole = write_whole(&mut sink, &bytes).is_ok();
    let stream = sink.into_stream();
    Ok(is_whole == (written == 1000) && is_sample(alloc, &stream.bytes, written)?)
}

/// Whether a list of bytes takes 1,000 of them.
fn are_listed(alloc: Global) -> Result<bool, Fail> {
    let bytes = sample(alloc, 1000)?;
    let mut sink = HostStream::new(Vec::new(alloc));
    let is_whole = write_whole(&mut sink, &bytes).is_ok();
    Ok(is_whole && sink.into_stream().as_slice() == bytes.as_slice())
}

#[test]
fn writes_byte_by_byte(rt: HostRuntime) -> Result<(), Fail> {
    for (length, fail, written) in [
        (1000, None, 1000),
        (1000, Some(400), 400),
        (400, None, 400),
        (1000, Some(0), 0),
    ] {
        assert!(rt;
            are_trickled(rt.alloc(), length, fail, written)?,
            "{length} {written}"
        );
    }
    assert!(rt; are_listed(rt.alloc())?);
    Ok(())
}

// A file of so many zeros, which holds none of them.
#[derive(Drop)]
struct Zeros {
    length: usize,
    read: Option<usize>,
    faults: u64,
}

impl Files for Zeros {
    ghost use Rattle.std.specs.Prelude.{codes, None, option_map};

    ghost content = { λ _ _. None };

    ghost place = { λ s. option_map (λ r. record { name = codes "zeros"; read = r }) s.read };

    ghost faults = { λ s _. s.faults };

    ghost opened = { λ _. None };

    fn open(&mut self, name: &str) -> Result<(), Failed> {
        if name == "zeros" {
            self.read = Some(0);
            Ok(())
        } else {
            self.read = None;
            self.faults = self.faults.saturating_add(1);
            Err(Failed)
        }
    }

    fn read(&mut self, buffer: &mut [u8]) -> Result<usize, Failed> {
        let read = self.read.unwrap_or(0);
        let count = self.length.saturating_sub(read).min(buffer.len());
        self.read = Some(read + count);
        Ok(count)
    }
}

// No proof says that the memory for as many bytes as a file may have is found.
#[test]
fn refuses_one_byte_too_many(rt: HostRuntime) {
    let mut zeros = Zeros {
        length: 268_435_457,
        read: None,
        faults: 0,
    };
    assert_eq!(rt;
        read_whole(rt.alloc(), &mut zeros, "zeros").err(),
        Some(ReadFail::TooLong)
    );
}
