//! Good texts, and texts of which a line is another.

use std::alloc::{AllocError, Global};

/// A design without nets.
pub const EMPTY: &str = "\
    xtalk-design 1\n\
    counts 0 0 0\n\
    period none\n\
    end\n";

/// One source.
pub const ONE: &str = "\
    xtalk-design 1\n\
    counts 0 1 0\n\
    period none\n\
    net a i 0 0 0 0\n\
    rise 1000 1000 0 0\n\
    fall quiet\n\
    end\n";

/// Lines of each kind: a clock, and an input that drives a gate with a flop after it, and a port.
pub const EACH_KIND: &str = "\
    xtalk-design 2\n\
    counts 2 3 4\n\
    period 1000\n\
    miller 0 4 12\n\
    table 2 2\n\
    slews 0 7\n\
    loads 0 9\n\
    row 5 6\n\
    row 7 8\n\
    table 1 1\n\
    slews 0\n\
    loads 0\n\
    row 0\n\
    net ck i 0 0 1 0\n\
    net a i 4 1 2 0\n\
    net b w 5 1 1 2\n\
    rise 0 1 2 3\n\
    fall quiet\n\
    sink f/CK 0\n\
    rise -5 6 0 9\n\
    fall quiet\n\
    couple 2 10\n\
    sink b/A 100 200\n\
    sink y 0 0\n\
    couple 1 10\n\
    sink f/D 0 300\n\
    arc 1 0 rise fall 0 1\n\
    arc 1 0 rise rise 0 1\n\
    flop setup f/D 2 0 0 0 1 -\n\
    flop hold f/D 2 0 0 0 - 0\n\
    port setup y 1 1 500 -\n\
    port hold y 1 1 - 100\n\
    end\n";

/// Two nets whose wires are coupled to nets that the other of the two drives.
pub const CROSS: &str = "\
    xtalk-design 1\n\
    counts 2 4 0\n\
    period none\n\
    table 1 1\n\
    slews 0\n\
    loads 0\n\
    row 500\n\
    table 1 1\n\
    slews 0\n\
    loads 0\n\
    row 600\n\
    net s i 0 1 1 0\n\
    net t i 0 1 1 0\n\
    net c w 0 0 0 1\n\
    net d w 0 0 0 1\n\
    rise 1000 1000 600 600\n\
    fall quiet\n\
    couple 3 1000\n\
    sink c/A 0 200000000\n\
    rise 1000 1000 600 600\n\
    fall quiet\n\
    couple 2 1000\n\
    sink d/A 0 200000000\n\
    arc 0 0 rise rise 0 1\n\
    arc 1 0 rise rise 0 1\n\
    end\n";

/// The text with its line of this number, counted from 1, replaced.
pub fn replaced(alloc: Global, text: &str, number: u32, line: &str) -> Result<String, AllocError> {
    let mut out = String::new(alloc);
    let mut at: u32 = 1;
    for old in text.lines() {
        out.push_str(if at == number { line } else { old })?;
        out.push_str("\n")?;
        at = at.saturating_add(1);
    }
    Ok(out)
}
