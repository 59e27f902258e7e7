//! Calls of the program on files in memory.

ghost use Rattle.std.specs.Prelude.{◌<◌};

use crate::block::{REPORT, files};
use std::alloc::{AllocError, Global};
use std::process::Abort;
use std::test::Fail;
use std::thread::Threads;
use xt_io::{MemoryFiles, MemorySink, RecordedFiles};
use xtalk_top::xtalk;

/// Room for what a call writes, in bytes.
pub const ROOM: usize = 1 << 20;

/// What goes wrong outside: the numbers of the calls on the files, on the output and on the error stream that fail, and
/// the most bytes that the output takes at a time.
#[derive(Drop)]
pub struct Outside {
    pub files: Vec<u64>,
    pub out: Vec<u64>,
    pub err: Vec<u64>,
    pub most: usize,
    ghost some: { 0 < most },
}

/// Nothing goes wrong.
pub fn calm(alloc: Global) -> Outside {
    Outside {
        files: Vec::new(alloc),
        out: Vec::new(alloc),
        err: Vec::new(alloc),
        most: ROOM,
    }
}

/// The words that a line has.
pub fn words_of(alloc: Global, line: &str) -> Result<Vec<String>, AllocError> {
    let mut words = Vec::new(alloc);
    for word in line.split_whitespace() {
        words.push(String::from_str(alloc, word)?)?;
    }
    Ok(words)
}

/// Files of these names with these texts.
pub fn files_of(
    alloc: Global,
    texts: &[(&str, &[u8])],
) -> Result<Vec<(String, Vec<u8>)>, AllocError> {
    let mut files = Vec::new(alloc);
    for (name, text) in texts {
        files.push((
            String::from_str(alloc, name)?,
            Vec::from_slice(alloc, text)?,
        ))?;
    }
    Ok(files)
}

/// What a call has: its files, its output and its error stream.
#[derive(Drop)]
pub struct Streams {
    pub files: MemoryFiles,
    pub out: MemorySink,
    pub err: MemorySink,
}

/// Files of these names with these texts, and two streams.
pub fn streams_of(
    alloc: Global,
    texts: &[(&str, &[u8])],
    outside: Outside,
) -> Result<Streams, Fail> {
    let Outside {
        files,
        out,
        err,
        most,
    } = outside;
    let out = MemorySink::new(alloc, out, most, ROOM)?;
    let err = MemorySink::new(alloc, err, ROOM, ROOM)?;
    let files = MemoryFiles::new(alloc, files_of(alloc, texts)?, files)?;
    Ok(Streams { files, out, err })
}

/// What a call with these words says: its status, then its line on the error stream, then its output.
pub fn outcome<R: Threads + Sync>(
    rt: &R,
    alloc: Global,
    words: &str,
    texts: &[(&str, &[u8])],
    outside: Outside,
) -> Result<String, Fail> {
    let words = words_of(alloc, words)?;
    let Streams {
        mut files,
        mut out,
        mut err,
    } = streams_of(alloc, texts, outside)?;
    let status = xtalk(rt, alloc, &words, &mut files, &mut out, &mut err);
    let line = str::from_utf8(err.bytes()).unwrap_or("?");
    let text = str::from_utf8(out.bytes()).unwrap_or("?");
    Ok(format!(in alloc; "{status} {line}{text}")?)
}

/// The files that a call with these words opens, each with a space after it.
pub fn opened<R: Threads + Sync>(
    rt: &R,
    alloc: Global,
    words: &str,
    texts: &[(&str, &[u8])],
) -> Result<String, Fail> {
    let words = words_of(alloc, words)?;
    let Streams {
        files,
        mut out,
        mut err,
    } = streams_of(alloc, texts, calm(alloc))?;
    let mut recorded = RecordedFiles::new(alloc, files);
    xtalk(rt, alloc, &words, &mut recorded, &mut out, &mut err);
    let mut names = String::new(alloc);
    for name in recorded.opened.iter() {
        names.push_str(name.as_str())?;
        names.push_str(" ")?;
    }
    Ok(names)
}

/// What a call with these words on the block says.
pub fn outcome_of_block<R: Threads + Sync>(
    rt: &R,
    alloc: Global,
    words: &str,
    outside: Outside,
) -> Result<String, Fail> {
    let files = files();
    outcome(rt, alloc, words, files.as_slice(), outside)
}

/// Compares the outcome of a call with the one that is wanted; `place` tells it apart.
pub fn compare(rt: &impl Abort, seen: &str, want: &str, place: &str) {
    assert!(rt; seen == want, "{seen} at {place}");
}

/// Compares the outcome of a call with the block's report.
pub fn compare_report(rt: &impl Abort, seen: &str, place: &str) {
    assert!(rt;
        seen.strip_prefix("0 ") == Some(REPORT),
        "{seen} at {place}"
    );
}

/// Compares the outcome of a call with the one line that is wanted.
pub fn compare_line(rt: &impl Abort, seen: &str, want: &str, place: &str) {
    assert!(rt; seen.strip_suffix('\n') == Some(want), "{seen} at {place}");
}

/// The field of this number of a row, whose fields have bars between them; an empty one past the last.
pub fn field(row: &str, number: usize) -> &str {
    let mut before = number;
    for part in row.split('|') {
        if before == 0 {
            return part.trim();
        }
        before -= 1;
    }
    ""
}
