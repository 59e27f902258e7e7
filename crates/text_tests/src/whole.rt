//! Whole texts, and texts that are cut.

use crate::answer::compare;
use crate::texts::{CROSS, EACH_KIND, EMPTY, ONE};
use std::alloc::Global;
use std::process::Abort;
use std::test::Fail;

/// What becomes of texts, in which `⏎` is a line end.
const WHOLE: &str = "\
X1 1 |
X1 1 | ⏎
X1 1 | xtalk-design 1
X1 2 | xtalk-design 1⏎
X1 3 | xtalk-design 1⏎counts 262144 262144 1048576⏎
X1 4 | xtalk-design 1⏎counts 0 0 0⏎period none⏎end
X1 5 | xtalk-design 1⏎counts 0 0 0⏎period none⏎end⏎x
X1 5 | xtalk-design 1⏎counts 0 0 0⏎period none⏎end⏎⏎
read | xtalk-design 2⏎counts 0 0 0⏎period none⏎miller 0 4 9⏎end⏎";

#[test]
fn texts_are_read_or_refused(rt: HostRuntime) -> Result<(), Fail> {
    for text in [EMPTY, ONE, CROSS, EACH_KIND] {
        compare(&rt, rt.alloc(), text, text, "read")?;
    }
    for row in WHOLE.split('\n') {
        let (want, text) = row.split_once('|').unwrap_or((row, ""));
        let text = text.trim().replace(rt.alloc(), '⏎', "\n")?;
        compare(&rt, rt.alloc(), text.as_str(), row, want.trim())?;
    }
    Ok(())
}

/// Compares a front of a text of this many whole lines with what is wanted of it: the line after them.
fn compare_front(rt: &impl Abort, alloc: Global, front: &str, lines: u32) -> Result<(), Fail> {
    let line = lines.saturating_add(1);
    let want = format!(in alloc; "X1 {line}")?;
    compare(rt, alloc, front, front, want.as_str())
}

// Of a line that is begun the rest is wanted, and behind a whole line the next one.
#[test]
fn a_text_that_is_cut_wants_the_next_line(rt: HostRuntime) -> Result<(), Fail> {
    let mut front = String::new(rt.alloc());
    let mut lines: u32 = 0;
    for line in CROSS.lines() {
        compare_front(&rt, rt.alloc(), front.as_str(), lines)?;
        front.push_str(line)?;
        compare_front(&rt, rt.alloc(), front.as_str(), lines)?;
        front.push_str("\n")?;
        lines = lines.saturating_add(1);
    }
    assert_eq!(rt; lines, 26);
    compare(&rt, rt.alloc(), front.as_str(), CROSS, "read")
}
