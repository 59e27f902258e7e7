//! Texts at the limit on reads, and past it.

use crate::answer::compare;
use std::alloc::{AllocError, Global};
use std::test::Fail;

/// Appends a line this many times.
fn push_times(out: &mut String, line: &str, count: u32) -> Result<(), AllocError> {
    for _ in 0..count {
        out.push_str(line)?;
    }
    Ok(())
}

/// Appends what is given for a net without arcs.
fn push_given(out: &mut String, arcs: u32) -> Result<(), AllocError> {
    if arcs == 0 {
        out.push_str("rise quiet\nfall quiet\n")?;
    }
    Ok(())
}

/// A text of two nets, a and b, with this many couplings each, and with this many arcs from a, to a itself and to b.
fn coupled(
    alloc: Global,
    a_couplings: u32,
    a_arcs: u32,
    b_couplings: u32,
    b_arcs: u32,
) -> Result<String, AllocError> {
    let mut text = format!(in alloc;
        "xtalk-design 1\ncounts 1 2 0\nperiod none\ntable 1 1\nslews 0\nloads 0\nrow 0\n\
        net a w 0 {a_couplings} 1 {a_arcs}\nnet b w 0 {b_couplings} 0 {b_arcs}\n"
    )?;
    push_given(&mut text, a_arcs)?;
    push_times(&mut text, "couple 1 0\n", a_couplings)?;
    text.push_str("sink p 0")?;
    push_times(&mut text, " 0", a_couplings)?;
    text.push_str("\n")?;
    push_times(&mut text, "arc 0 0 rise rise 0 0\n", a_arcs)?;
    push_given(&mut text, b_arcs)?;
    push_times(&mut text, "couple 0 0\n", b_couplings)?;
    push_times(&mut text, "arc 0 0 rise rise 0 0\n", b_arcs)?;
    text.push_str("end\n")?;
    Ok(text)
}

/// Couplings and arcs of a and of b, and what becomes of the text. A net with arcs reads itself and its couplings, and
/// for each arc a and a's couplings; all in all at most 134,217,728.
const AT_THE_LIMIT: [(u32, u32, u32, u32, &str); 4] = [
    // 1 + 5,502 + 11,585 · 11,585
    (11_584, 0, 5_502, 11_585, "read"),
    (11_584, 0, 5_503, 11_585, "Reads 134217729"),
    // 11,585 · 11,585. The loop is told at the end, behind 9 lines of heads, 11,584 couplings, a sink, 11,584 arcs, and
    // 2 lines of b.
    (11_584, 11_584, 0, 0, "X3 23181"),
    // 11,585 · 11,586: the loop is not looked for.
    (11_584, 11_585, 0, 0, "Reads 134223810"),
];

#[test]
fn reads_are_counted_before_a_loop_is_looked_for(rt: HostRuntime) -> Result<(), Fail> {
    for (a_couplings, a_arcs, b_couplings, b_arcs, want) in &AT_THE_LIMIT {
        let text = coupled(rt.alloc(), *a_couplings, *a_arcs, *b_couplings, *b_arcs)?;
        compare(&rt, rt.alloc(), text.as_str(), want, want)?;
    }
    Ok(())
}
