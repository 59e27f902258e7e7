//! What a call asks of the outside, and how it ends where the outside fails.

ghost use Rattle.std.specs.Prelude.{◌<◌};

use crate::call::{Outside, Streams, calm, run, streams_of, words_of};
use crate::designs::{CROSS, CROSS_REPORT, EMPTY, EMPTY_REPORT, ONE, ONE_REPORT};
use std::alloc::{AllocError, Global};
use std::test::Fail;
use std::thread::Threads;
use xt_io::{MemoryFiles, RecordedFiles};
use xtalk_top::xtalk;

/// A status, the names that were opened, and for each read of how many bytes.
fn recorded_in_words(
    alloc: Global,
    status: u8,
    recorded: &RecordedFiles<MemoryFiles>,
) -> Result<String, AllocError> {
    let mut words = format!(in alloc; "{status}")?;
    for name in recorded.opened.iter() {
        words.push_str(" ")?;
        words.push_str(name.as_str())?;
    }
    for length in recorded.lengths.iter() {
        let length = format!(in alloc; " {length}")?;
        words.push_str(length.as_str())?;
    }
    Ok(words)
}

/// The same of a call.
fn recorded<R: Threads + Sync>(rt: &R, alloc: Global) -> Result<String, Fail> {
    let words = words_of(alloc, "solve one.xt")?;
    let Streams {
        files,
        mut out,
        mut err,
    } = streams_of(alloc, ONE, calm(alloc))?;
    let mut recorded = RecordedFiles::new(alloc, files);
    let status = xtalk(rt, alloc, &words, &mut recorded, &mut out, &mut err);
    Ok(recorded_in_words(alloc, status, &recorded)?)
}

#[test]
fn opens_the_file_once_and_reads_it_to_its_end(rt: HostRuntime) -> Result<(), Fail> {
    let words = recorded(&rt, rt.alloc())?;
    assert_eq!(rt; words.as_str(), "0 one.xt 65536 65536");
    Ok(())
}

/// Whether a call of `solve` on this text ends so.
fn ends<R: Threads + Sync>(
    rt: &R,
    alloc: Global,
    text: &[u8],
    outside: Outside,
    wanted: (u8, &[u8], &[u8]),
) -> Result<bool, Fail> {
    let (status, out, err) = wanted;
    let ended = run(rt, alloc, "solve one.xt", text, outside)?;
    Ok(ended.status == status && ended.out.bytes() == out && ended.err.bytes() == err)
}

/// The call of this number on the files fails.
fn failing_files(alloc: Global, call: u64) -> Result<Outside, AllocError> {
    let mut outside = calm(alloc);
    outside.files.push(call)?;
    Ok(outside)
}

/// The call of this number on the output fails, and each takes this many bytes at most.
fn failing_output(alloc: Global, call: u64, most: usize) -> Result<Outside, AllocError>
    requires { 0 < most }
{
    let mut outside = calm(alloc);
    outside.out.push(call)?;
    outside.most = most;
    Ok(outside)
}

// A second call on the output would fail.
#[test]
fn writes_the_report_by_one_call(rt: HostRuntime) -> Result<(), Fail> {
    let outside = failing_output(rt.alloc(), 1, 1 << 30)?;
    let wanted = (0, ONE_REPORT, b"".as_slice());
    assert!(rt; ends(&rt, rt.alloc(), ONE, outside, wanted)?);
    Ok(())
}

// The file is opened, read, and read to its end.
#[test]
fn ends_at_each_fault_of_the_file(rt: HostRuntime) -> Result<(), Fail> {
    for text in [ONE, EMPTY, CROSS] {
        for call in 0u64..3 {
            let outside = failing_files(rt.alloc(), call)?;
            let wanted = (6, b"".as_slice(), b"read fault: one.xt\n".as_slice());
            assert!(rt; ends(&rt, rt.alloc(), text, outside, wanted)?, "{call}");
        }
    }
    Ok(())
}

// One byte is taken at a time, up to the fault: a call for each byte of the report.
#[test]
fn ends_at_each_fault_of_the_output(rt: HostRuntime) -> Result<(), Fail> {
    for (text, report) in [
        (ONE, ONE_REPORT),
        (EMPTY, EMPTY_REPORT),
        (CROSS, CROSS_REPORT),
    ] {
        for call in 0..report.len() {
            let outside = failing_output(rt.alloc(), call as u64, 1)?;
            let wanted = (7, &report[..call], b"write fault\n".as_slice());
            assert!(rt; ends(&rt, rt.alloc(), text, outside, wanted)?, "{call}");
        }
    }
    Ok(())
}

// Ten bytes are taken by the first call, and the second fails.
#[test]
fn ends_between_two_pieces(rt: HostRuntime) -> Result<(), Fail> {
    let outside = failing_output(rt.alloc(), 1, 10)?;
    let wanted = (7, b"xtalk 1\nne".as_slice(), b"write fault\n".as_slice());
    assert!(rt; ends(&rt, rt.alloc(), EMPTY, outside, wanted)?);
    Ok(())
}
