//! The edge of the program, over the words and the files of the system.

use crate::call::words_of;
use crate::designs::{ONE, ONE_REPORT};
use crate::refused_texts::CHECKED;
use std::alloc::Global;
use std::io;
use std::io::Read;
use std::test::Fail;
use std::thread::Threads;
use xt_io::{Directory, Failed, Source};
use xtalk_edge::{Ended, run};

// There is no file `none/none`.
#[test]
fn ends_with_the_status_of_its_words(rt: HostRuntime) -> Result<(), Fail> {
    let alloc = rt.alloc();
    let none: Option<Vec<String>> = None;
    let ended = run(&rt, none, rt, Vec::new(alloc), Vec::new(alloc));
    assert_eq!(rt; ended.status, 9);
    for (words, wanted) in [
        ("", 2),
        ("gen --number=7 --nets=1", 0),
        ("solve none/none", 6),
    ] {
        let words = Some(words_of(alloc, words)?);
        let ended = run(&rt, words, rt, Vec::new(alloc), Vec::new(alloc));
        assert_eq!(rt; ended.status, wanted);
    }
    Ok(())
}

/// What is left of a text.
#[derive(Drop)]
struct Rest<'a> {
    text: &'a [u8],
}

impl<'a> Read for Rest<'a> {
    fn read(&mut self, buffer: &mut [u8]) -> io::Result<usize> {
        self.text.read(buffer)
    }
}

impl<'a> Source for Rest<'a> {
    ghost use Rattle.std.specs.Prelude.{⊤};

    ghost fails = { λ _. ⊤ };

    fn read_some(&mut self, buffer: &mut [u8]) -> Result<usize, Failed> {
        let Ok(count) = self.read(buffer) else {
            return Err(Failed);
        };
        Ok(count)
    }
}

/// A directory in which each name is a file with this text.
#[derive(Drop)]
struct OneText<'a> {
    text: &'a [u8],
}

impl<'a> Directory for OneText<'a> {
    ghost use Rattle.std.specs.Prelude.{None, ⊤};

    type Stream = Rest<'a>;

    ghost content = { λ _ _. None };

    ghost refuses = { λ _ _. ⊤ };

    fn open(&self, _name: &str) -> Option<Rest<'a>> {
        Some(Rest { text: self.text })
    }
}

/// Whether a run with these words, over files of this text, ends with the status and leaves this on its two streams.
fn leaves<R: Threads + Sync + Alloc<A = Global>>(
    rt: &R,
    alloc: Global,
    words: &str,
    text: &[u8],
    wanted: (u8, &[u8], &[u8]),
) -> Result<bool, Fail> {
    let words = Some(words_of(alloc, words)?);
    let ended = run(
        rt,
        words,
        OneText { text },
        Vec::new(alloc),
        Vec::new(alloc),
    );
    let Ended {
        status,
        files,
        out,
        err,
    } = ended;
    drop(files);
    let (out, err) = (out.into_stream(), err.into_stream());
    Ok((status, out.as_slice(), err.as_slice()) == wanted)
}

#[test]
fn a_report_and_the_line_of_a_refusal_go_to_their_streams(rt: HostRuntime) -> Result<(), Fail> {
    for (words, text, wanted) in [
        ("solve one.xt", ONE, (0, ONE_REPORT, b"".as_slice())),
        (
            "solve one.xt",
            CHECKED,
            (3, b"".as_slice(), b"one.xt:7: X1\n".as_slice()),
        ),
        (
            "solve",
            ONE,
            (2, b"".as_slice(), b"xtalk: bad command line\n".as_slice()),
        ),
    ] {
        assert!(rt; leaves(&rt, rt.alloc(), words, text, wanted)?, "{words}");
    }
    Ok(())
}
