//! A call over files and streams in memory, some of whose calls fail.

ghost use Rattle.std.specs.Prelude.{◌<◌};

use crate::patterns::text_of;
use std::alloc::{AllocError, Global};
use std::process::Abort;
use std::test::Fail;
use std::thread::Threads;
use xt_io::{MemoryFiles, MemorySink};
use xtalk_top::xtalk;

/// The field of this number of a row, whose fields have bars between them; an empty one past the last.
pub fn field(row: &str, number: usize) -> &str {
    let mut before = number;
    for part in row.split('|') {
        if before == 0 {
            return part.trim();
        }
        before -= 1;
    }
    ""
}

/// What a call has: its files, its output and its error stream.
#[derive(Drop)]
pub struct Streams {
    pub files: MemoryFiles,
    pub out: MemorySink,
    pub err: MemorySink,
}

/// The status of a call, and the output and the error stream after it.
#[derive(Drop)]
pub struct Ended {
    pub status: u8,
    pub out: MemorySink,
    pub err: MemorySink,
}

/// What is outside: the name of the first file, the numbers of the calls on the files and on the output that fail, the
/// most bytes that the output takes at a time, how many it has room for, and the text of the file `edits`.
#[derive(Drop)]
pub struct Outside {
    pub name: &'static str,
    pub files: Vec<u64>,
    pub out: Vec<u64>,
    pub most: usize,
    pub room: usize,
    pub edits: String,
    ghost some: { 0 < most },
}

/// The first file is `one.xt`, and no call fails.
pub fn calm(alloc: Global) -> Outside {
    Outside {
        name: "one.xt",
        files: Vec::new(alloc),
        out: Vec::new(alloc),
        most: 1 << 30,
        room: 4096,
        edits: String::new(alloc),
    }
}

/// The words that a line has, between its spaces: `∅` is a word of no letters, `␣` a space in a word.
pub fn words_of(alloc: Global, line: &str) -> Result<Vec<String>, AllocError> {
    let mut words = Vec::new(alloc);
    for word in line.split_whitespace() {
        let word = word.replace(alloc, '∅', "")?;
        words.push(word.as_str().replace(alloc, '␣', " ")?)?;
    }
    Ok(words)
}

/// A file of this name, and the file `edits`.
fn two_files(
    alloc: Global,
    name: &str,
    text: &[u8],
    edits: &[u8],
    fail: Vec<u64>,
) -> Result<MemoryFiles, Fail> {
    let mut held = Vec::new(alloc);
    for (name, bytes) in [(name, text), ("edits", edits)] {
        held.push((
            String::from_str(alloc, name)?,
            Vec::from_slice(alloc, bytes)?,
        ))?;
    }
    Ok(MemoryFiles::new(alloc, held, fail)?)
}

/// The first file with this text, the file `edits`, and two streams.
pub fn streams_of(alloc: Global, text: &[u8], outside: Outside) -> Result<Streams, Fail> {
    let Outside {
        name,
        files,
        out,
        most,
        room,
        edits,
    } = outside;
    let err = MemorySink::new(alloc, Vec::new(alloc), 4096, 4096)?;
    let out = MemorySink::new(alloc, out, most, room)?;
    let files = two_files(alloc, name, text, edits.as_str().as_bytes(), files)?;
    Ok(Streams { files, out, err })
}

/// Runs the words where the first file has this text.
pub fn run<R: Threads + Sync>(
    rt: &R,
    alloc: Global,
    words: &str,
    text: &[u8],
    outside: Outside,
) -> Result<Ended, Fail> {
    let words = words_of(alloc, words)?;
    let Streams {
        mut files,
        mut out,
        mut err,
    } = streams_of(alloc, text, outside)?;
    let status = xtalk(rt, alloc, &words, &mut files, &mut out, &mut err);
    Ok(Ended { status, out, err })
}

/// Whether the words print this text, and nothing else, where `one.xt` has that text.
pub fn prints<R: Threads + Sync>(
    rt: &R,
    alloc: Global,
    words: &str,
    text: &[u8],
    printed: &[u8],
) -> Result<bool, Fail> {
    let ended = run(rt, alloc, words, text, calm(alloc))?;
    Ok(ended.status == 0 && ended.out.bytes() == printed && ended.err.bytes().is_empty())
}

/// Whether the words end with this status and this line, and print nothing, where `one.xt` has that text.
pub fn refuses<R: Threads + Sync>(
    rt: &R,
    alloc: Global,
    words: &str,
    text: &[u8],
    status: u8,
    line: &[u8],
) -> Result<bool, Fail> {
    let ended = run(rt, alloc, words, text, calm(alloc))?;
    Ok(ended.status == status && ended.out.bytes().is_empty() && ended.err.bytes() == line)
}

/// What a call with these words says where `one.xt` has this text up to a line `--`, if there is one, and `edits` what
/// comes after that: its status, then its line on the error stream, then its output, of 64 MiB at most.
fn outcome<R: Threads + Sync>(
    rt: &R,
    alloc: Global,
    words: &str,
    text: &str,
) -> Result<String, Fail> {
    let (text, edits) = text.split_once("--\n").unwrap_or((text, ""));
    let mut outside = calm(alloc);
    outside.room = 1 << 26;
    outside.edits.push_str(edits)?;
    let ended = run(rt, alloc, words, text.as_bytes(), outside)?;
    let line = str::from_utf8(ended.err.bytes()).unwrap_or("?");
    let out = str::from_utf8(ended.out.bytes()).unwrap_or("?");
    let status = ended.status;
    Ok(format!(in alloc; "{status} {line}{out}")?)
}

/// The patterns of the text of `one.xt` and of what a call says of it, for the rows of a table, whose field of number 0
/// is the words.
pub type Table = (&'static str, &'static str, &'static str);

/// What a row of a table says and what it is to say.
fn seen_and_wanted<R: Threads + Sync>(
    rt: &R,
    alloc: Global,
    table: &Table,
    row: &str,
) -> Result<(String, String), Fail> {
    let (text, wanted, _) = table;
    let text = text_of(alloc, text, row)?;
    let seen = outcome(rt, alloc, field(row, 0), text.as_str())?;
    Ok((seen, text_of(alloc, wanted, row)?))
}

/// Compares what each row of the tables says with what it is to say.
pub fn compare<R: Threads + Sync + Abort>(
    rt: &R,
    alloc: Global,
    tables: &[Table],
) -> Result<(), Fail> {
    for table in tables {
        let (_, _, rows) = table;
        for row in rows.lines() {
            let (seen, wanted) = seen_and_wanted(rt, alloc, table, row)?;
            assert!(rt; seen.as_str() == wanted.as_str(), "{row}");
        }
    }
    Ok(())
}

/// Whether each of these lines of words prints this text where `one.xt` has that text.
pub fn each_prints<R: Threads + Sync>(
    rt: &R,
    alloc: Global,
    lines: &str,
    text: &[u8],
    printed: &[u8],
) -> Result<bool, Fail> {
    for words in lines.lines() {
        if !prints(rt, alloc, words, text, printed)? {
            return Ok(false);
        }
    }
    Ok(true)
}
