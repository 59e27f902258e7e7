//! Texts that are refused, and texts at the ends of what is taken.

use crate::call::{calm, prints, refuses, run};
use crate::designs::{CROSS, CROSS_REPORT, ONE};
use crate::refused_texts::{
    BACKWARD, CHECKED, LOOP, NEWER, PADDED, TOO_EARLY, TOO_LATE, TOO_SLOW, TWICE, UNENDED, UNKNOWN,
};
use std::alloc::Global;
use std::test::Fail;
use std::thread::Threads;

#[test]
fn refuses_texts_limits_and_names(rt: HostRuntime) -> Result<(), Fail> {
    let cases: [(&str, &[u8], u8, &str); 12] = [
        ("solve one.xt", CHECKED, 3, "one.xt:7: X1\n"),
        ("solve one.xt", LOOP, 3, "one.xt:14: X3\n"),
        ("solve one.xt", BACKWARD, 3, "one.xt:5: X3\n"),
        ("solve one.xt", NEWER, 3, "one.xt:4: X1\n"),
        ("solve one.xt", UNKNOWN, 3, "one.xt:1: X1\n"),
        ("solve one.xt", PADDED, 3, "one.xt:5: X2\n"),
        ("solve one.xt", UNENDED, 3, "one.xt:7: X1\n"),
        ("solve one.xt", TWICE, 3, "one.xt:5: X3\n"),
        (
            "solve one.xt",
            TOO_LATE,
            5,
            "limit: time a 70368744177665\n",
        ),
        ("solve one.xt", TOO_SLOW, 5, "limit: slew a 1099511627778\n"),
        (
            "solve one.xt",
            TOO_EARLY,
            5,
            "limit: time b -70368744177665\n",
        ),
        ("solve two.xt", ONE, 6, "read fault: two.xt\n"),
    ];
    for (words, text, status, line) in cases {
        assert!(rt;
            refuses(&rt, rt.alloc(), words, text, status, line.as_bytes())?,
            "{line}"
        );
    }
    Ok(())
}

/// Whether a call of `solve` on a file of this name and text ends with this status and this line, and prints nothing.
fn refuses_file<R: Threads + Sync>(
    rt: &R,
    alloc: Global,
    name: &'static str,
    text: &[u8],
    status: u8,
    line: &str,
) -> Result<bool, Fail> {
    let words = format!(in alloc; "solve {name}")?;
    let mut outside = calm(alloc);
    outside.name = name;
    let ended = run(rt, alloc, words.as_str(), text, outside)?;
    let told = ended.err.bytes() == line.as_bytes();
    Ok(told && ended.status == status && ended.out.bytes().is_empty())
}

// One byte more than a file may have.
#[test]
fn refuses_a_file_that_is_too_long(rt: HostRuntime) -> Result<(), Fail> {
    let alloc = rt.alloc();
    let zeros: Vec<u8> = vec![in alloc; 0; 268_435_457]?;
    let line = "limit: file f 268435457\n";
    assert!(rt; refuses_file(&rt, alloc, "f", &zeros, 5, line)?);
    Ok(())
}

/// Whether a text that ends after `lines` lines is refused at the next.
fn ends_at<R: Threads + Sync>(
    rt: &R,
    alloc: Global,
    text: &[u8],
    lines: usize,
) -> Result<bool, Fail> {
    let line = format!(in alloc; "cross.xt:{}: X1\n", lines.saturating_add(1))?;
    refuses_file(rt, alloc, "cross.xt", text, 3, line.as_str())
}

/// Whether the text of the crossed nets is refused after each of its lines but the last, and prints their report after
/// that.
fn each_cut_ends<R: Threads + Sync>(rt: &R, alloc: Global) -> Result<bool, Fail> {
    let mut text = Vec::new(alloc);
    let whole = str::from_utf8(CROSS).unwrap_or("");
    let mut lines: usize = 0;
    for line in whole.lines() {
        if !ends_at(rt, alloc, &text, lines)? {
            return Ok(false);
        }
        lines = lines.saturating_add(1);
        text.extend_from_slice(line.as_bytes())?;
        text.push(b'\n')?;
    }
    prints(rt, alloc, "solve one.xt", &text, CROSS_REPORT)
}

#[test]
fn refuses_a_text_cut_after_any_line(rt: HostRuntime) -> Result<(), Fail> {
    assert!(rt; each_cut_ends(&rt, rt.alloc())?);
    Ok(())
}
