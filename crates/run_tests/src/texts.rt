//! Designs of the tests, and rows of tables.

/// The field of this number of a row with such marks between its fields; an empty one past the last.
pub fn field(row: &str, mark: char, number: usize) -> &str {
    let mut before = number;
    for part in row.split(mark) {
        if before == 0 {
            return part.trim();
        }
        before -= 1;
    }
    ""
}

/// The text of a design by its name.
pub fn text_of(name: &str) -> &'static [u8] {
    match name {
        "empty" => EMPTY,
        "one" => ONE,
        "chain" => CHAIN,
        "load pair" => LOAD_PAIR,
        "cross" => CROSS,
        "ports" => PORTS,
        "inside" => INSIDE,
        "ten gates" => TEN_GATES,
        _ => &[],
    }
}

/// A design without nets.
pub const EMPTY: &[u8] = b"\
    xtalk-design 1\n\
    counts 0 0 0\n\
    period none\n\
    end\n";

/// One source.
pub const ONE: &[u8] = b"\
    xtalk-design 1\n\
    counts 0 1 0\n\
    period none\n\
    net a i 0 0 0 0\n\
    rise 1000 1000 0 0\n\
    fall quiet\n\
    end\n";

/// Net b rises 500 fs after net a.
pub const CHAIN: &[u8] = b"\
    xtalk-design 1\n\
    counts 2 2 0\n\
    period none\n\
    table 1 1\n\
    slews 0\n\
    loads 0\n\
    row 500\n\
    table 1 1\n\
    slews 0\n\
    loads 0\n\
    row 0\n\
    net a i 0 0 1 0\n\
    net b w 0 0 0 1\n\
    rise 1000 1000 0 0\n\
    fall quiet\n\
    sink b/A 0\n\
    arc 0 0 rise rise 0 1\n\
    end\n";

/// Nets a and b have two fixpoints: in the one they do not slow each other down, in the other they do.
pub const LOAD_PAIR: &[u8] = b"\
    xtalk-design 1\n\
    counts 2 4 0\n\
    period none\n\
    table 1 2\n\
    slews 0\n\
    loads 0 10000\n\
    row 800 2800\n\
    table 1 1\n\
    slews 0\n\
    loads 0\n\
    row 0\n\
    net p i 0 0 1 0\n\
    net q i 0 0 1 0\n\
    net a w 0 1 0 1\n\
    net b w 0 1 0 1\n\
    rise 0 0 0 0\n\
    fall quiet\n\
    sink a/A 0\n\
    rise quiet\n\
    fall 100 100 0 0\n\
    sink b/A 0\n\
    couple 3 1000\n\
    arc 0 0 rise rise 0 1\n\
    couple 2 1000\n\
    arc 1 0 fall fall 0 1\n\
    end\n";

/// The wires of nets s and t are coupled to nets d and c that the other of the two drives.
pub const CROSS: &[u8] = b"\
    xtalk-design 1\n\
    counts 2 4 0\n\
    period none\n\
    table 1 1\n\
    slews 0\n\
    loads 0\n\
    row 500\n\
    table 1 1\n\
    slews 0\n\
    loads 0\n\
    row 600\n\
    net s i 0 1 1 0\n\
    net t i 0 1 1 0\n\
    net c w 0 0 0 1\n\
    net d w 0 0 0 1\n\
    rise 1000 1000 600 600\n\
    fall quiet\n\
    couple 3 1000\n\
    sink c/A 0 200000000\n\
    rise 1000 1000 600 600\n\
    fall quiet\n\
    couple 2 1000\n\
    sink d/A 0 200000000\n\
    arc 0 0 rise rise 0 1\n\
    arc 1 0 rise rise 0 1\n\
    end\n";

/// One net that rises and never falls, with 2 fs of wire to a port that is checked.
const PORTS: &[u8] = b"\
    xtalk-design 1\n\
    counts 0 1 2\n\
    period 10000\n\
    net a i 0 0 1 0\n\
    rise 1000 1200 0 0\n\
    fall quiet\n\
    sink y 2000000\n\
    port setup y 0 0 500 -\n\
    port hold y 0 0 100 100\n\
    end\n";

/// A flip-flop whose table has its greatest value inside the slews of its clock and of its rising data.
const INSIDE: &[u8] = b"\
    xtalk-design 1\n\
    counts 1 2 1\n\
    period 100\n\
    table 3 3\n\
    slews 0 10 20\n\
    loads 0 10 20\n\
    row 1 2 3\n\
    row 4 90 5\n\
    row 6 7 8\n\
    net c i 0 0 1 0\n\
    net d i 0 0 1 0\n\
    rise 3 7 5 15\n\
    fall quiet\n\
    sink f/CK 0\n\
    rise 10 20 5 15\n\
    fall 10 20 12 13\n\
    sink f/D 0\n\
    flop setup f/D 1 0 0 0 0 0\n\
    end\n";

/// Ten gates in a row from source s to net h. Net m falls with each edge of s; net z rises by an arc from an edge that
/// never switches, by one from m, and by one from s itself.
const TEN_GATES: &[u8] = b"\
    xtalk-design 1\n\
    counts 5 11 0\n\
    period none\n\
    table 1 1\n\
    slews 0\n\
    loads 0\n\
    row 0\n\
    table 2 1\n\
    slews 0 100\n\
    loads 0\n\
    row 7\n\
    row 11\n\
    table 1 1\n\
    slews 0\n\
    loads 0\n\
    row 3\n\
    table 1 1\n\
    slews 0\n\
    loads 0\n\
    row 14\n\
    table 1 1\n\
    slews 0\n\
    loads 0\n\
    row 5\n\
    net s i 0 0 2 0\n\
    net m w 0 0 1 2\n\
    net z w 0 0 1 3\n\
    net a w 0 0 1 1\n\
    net b w 0 0 1 1\n\
    net c w 0 0 1 1\n\
    net d w 0 0 1 1\n\
    net e w 0 0 1 1\n\
    net f w 0 0 1 1\n\
    net g w 0 0 1 1\n\
    net h w 0 0 0 1\n\
    rise 0 10 0 100\n\
    fall 100 130 0 100\n\
    sink m/A 2000000\n\
    sink z/C 2000000\n\
    sink z/B 0\n\
    arc 0 0 rise fall 1 0\n\
    arc 0 0 fall fall 1 0\n\
    sink a/A 1000000\n\
    arc 1 0 rise rise 2 0\n\
    arc 1 0 fall rise 2 0\n\
    arc 0 1 fall rise 3 0\n\
    sink b/A 1000000\n\
    arc 2 0 rise fall 4 0\n\
    sink c/A 1000000\n\
    arc 3 0 fall rise 4 0\n\
    sink d/A 1000000\n\
    arc 4 0 rise fall 4 0\n\
    sink e/A 1000000\n\
    arc 5 0 fall rise 4 0\n\
    sink f/A 1000000\n\
    arc 6 0 rise fall 4 0\n\
    sink g/A 1000000\n\
    arc 7 0 fall rise 4 0\n\
    sink h/A 1000000\n\
    arc 8 0 rise fall 4 0\n\
    arc 9 0 fall rise 4 0\n\
    end\n";
