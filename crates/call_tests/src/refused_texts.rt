//! Linked texts that are refused.

/// A design with a period, whose one check is missing.
pub const CHECKED: &[u8] = b"\
    xtalk-design 1\n\
    counts 0 1 1\n\
    period 1\n\
    net a i 0 0 0 0\n\
    rise 1000 1000 0 0\n\
    fall quiet\n\
    end\n";

/// One source, with the first line of version 2, which has a line for Miller numbers.
pub const NEWER: &[u8] = b"\
    xtalk-design 2\n\
    counts 0 1 0\n\
    period none\n\
    net a i 0 0 0 0\n\
    rise 1000 1000 0 0\n\
    fall quiet\n\
    end\n";

/// One source, with the first line of no version.
pub const UNKNOWN: &[u8] = b"\
    xtalk-design 3\n\
    counts 0 1 0\n\
    period none\n\
    net a i 0 0 0 0\n\
    rise 1000 1000 0 0\n\
    fall quiet\n\
    end\n";

/// One source, with a number that has a leading zero.
pub const PADDED: &[u8] = b"\
    xtalk-design 1\n\
    counts 0 1 0\n\
    period none\n\
    net a i 0 0 0 0\n\
    rise 1000 01000 0 0\n\
    fall quiet\n\
    end\n";

/// One source, without the last line.
pub const UNENDED: &[u8] = b"\
    xtalk-design 1\n\
    counts 0 1 0\n\
    period none\n\
    net a i 0 0 0 0\n\
    rise 1000 1000 0 0\n\
    fall quiet\n";

/// A window at the end of the range of times, and a wire of 1 fs after it.
pub const TOO_LATE: &[u8] = b"\
    xtalk-design 1\n\
    counts 0 1 0\n\
    period none\n\
    net a i 0 0 1 0\n\
    rise 70368744177664 70368744177664 0 0\n\
    fall quiet\n\
    sink a 1000000\n\
    end\n";

/// A slew at the end of its range, that a wire of 1 fs makes 2 fs slower.
pub const TOO_SLOW: &[u8] = b"\
    xtalk-design 1\n\
    counts 0 1 0\n\
    period none\n\
    net a i 0 0 1 0\n\
    rise 0 0 0 1099511627776\n\
    fall quiet\n\
    sink a 1000000\n\
    end\n";

/// A time at the start of the range, and a gate that is 1 fs faster than none.
pub const TOO_EARLY: &[u8] = b"\
    xtalk-design 1\n\
    counts 2 2 0\n\
    period none\n\
    table 1 1\n\
    slews 0\n\
    loads 0\n\
    row -1\n\
    table 1 1\n\
    slews 0\n\
    loads 0\n\
    row 0\n\
    net a i 0 0 1 0\n\
    net b w 0 0 0 1\n\
    rise -70368744177664 0 0 0\n\
    fall quiet\n\
    sink a 0\n\
    arc 0 0 rise rise 0 1\n\
    end\n";

/// Two nets that drive one another.
pub const LOOP: &[u8] = b"\
    xtalk-design 1\n\
    counts 1 2 0\n\
    period none\n\
    table 1 1\n\
    slews 0\n\
    loads 0\n\
    row 0\n\
    net a w 0 0 1 1\n\
    net b w 0 0 1 1\n\
    sink b/A 0\n\
    arc 1 0 rise rise 0 0\n\
    sink a/A 0\n\
    arc 0 0 rise rise 0 0\n\
    end\n";

/// Its earliest time is later than its latest.
pub const BACKWARD: &[u8] = b"\
    xtalk-design 1\n\
    counts 0 1 0\n\
    period none\n\
    net a i 0 0 0 0\n\
    rise 1000 900 0 0\n\
    fall quiet\n\
    end\n";

/// Two nets of one name.
pub const TWICE: &[u8] = b"\
    xtalk-design 1\n\
    counts 0 2 0\n\
    period none\n\
    net a i 0 0 0 0\n\
    net a i 0 0 0 0\n\
    rise quiet\n\
    fall quiet\n\
    rise quiet\n\
    fall quiet\n\
    end\n";
