//! The edge of the program: it brings the words, files and streams together for the top call.
#![tactic(auto)]

mod words;

ghost use Rattle.std.specs.Prelude.{option_map};
ghost use Rattle.xt_io.specs.Host.{fresh_stream};
ghost use Rattle.command_line.specs.Words.{bytes_of};
ghost use Rattle.xtalk_edge.specs.Run.{EndsAs, IsRun};

use std::alloc::Global;
use std::thread::Threads;
pub use words::CommandLine;
use xt_io::{Directory, DirectoryFiles, HostStream, Stream};
use xtalk_top::xtalk;

/// The status when the system does not give the program its words; `xtalk` never answers it.
const NO_WORDS: u8 = 9;

/// How a run ended: its exit status, and its files and streams, each with its count of faults.
#[derive(Drop)]
pub struct Ended<D: Directory, O: Stream, E: Stream> {
    pub status: u8,
    pub files: DirectoryFiles<D>,
    pub out: HostStream<O>,
    pub err: HostStream<E>,
}

/// Runs the program on the words of this command line, over the files of this directory, with the streams for its
/// output and for its refusals. It answers the exit status, and gives the files and the streams back.
pub fn run<R, C, D, O, E>(rt: &R, command_line: C, directory: D, out: O, err: E) -> Ended<D, O, E>
where
    R: Threads + Sync + Alloc<A = Global>,
    C: CommandLine,
    D: Directory + Drop,
    O: Stream + Drop,
    E: Stream + Drop,
    ensures { IsRun (C.given command_line)
        (record {
          content = D.content directory;
          faults = 0;
          out = fresh_stream O.known O.contents out;
          err = fresh_stream E.known E.contents err;
        })
        (record {
          content = D.content result.files.directory;
          faults = result.files.faults;
          out = result.out;
          err = result.err;
        }) result.status }
{
    let mut files = DirectoryFiles::new(directory);
    let mut out = HostStream::new(out);
    let mut err = HostStream::new(err);
    let words = command_line.words();
    let status = status(rt, rt.alloc(), &words, &mut files, &mut out, &mut err);
    Ended {
        status,
        files,
        out,
        err,
    }
}

/// The exit status of a call with these words, or where there are none.
fn status<R: Threads + Sync, D: Directory, O: Stream, E: Stream>(
    rt: &R,
    alloc: Global,
    words: &Option<Vec<String>>,
    files: &mut DirectoryFiles<D>,
    out: &mut HostStream<O>,
    err: &mut HostStream<E>,
) -> u8
    ensures { EndsAs (option_map (λ all. bytes_of all.items) words.now)
        (record {
          content = D.content files.old.directory;
          faults = files.old.faults;
          out = out.old;
          err = err.old;
        })
        (record {
          content = D.content files.new.directory;
          faults = files.new.faults;
          out = out.new;
          err = err.new;
        }) result }
{
    match words {
        Some(words) => xtalk(rt, alloc, words, files, out, err),
        None => NO_WORDS,
    }
}
