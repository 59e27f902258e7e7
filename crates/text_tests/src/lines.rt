//! Good texts of which a line or two are others.

use crate::answer::compare;
use crate::texts::{EACH_KIND, ONE, replaced};
use std::alloc::{AllocError, Global};
use std::process::Abort;
use std::test::Fail;

/// Lines 1 to 4: the version, the counts, the period and the Miller numbers.
const HEAD: &str = "\
X1 1 | 1 xtalk-design
X1 1 | 1 xtalk-design 2\x20
X1 1 | 1 xtalk-desing 2
X1 1 | 1 xtalk-design 3
X1 4 | 1 xtalk-design 1
X1 2 | 2 counts 2 3
X1 2 | 2 counts 2  3 4
X1 2 | 2 count 2 3 4
X2 2 | 2 counts  3 4
X2 2 | 2 counts 02 3 4
X2 2 | 2 counts 2 +3 4
X2 2 | 2 counts 2 3 -4
X2 2 | 2 counts 4294967296 3 4
X2 2 | 2 counts 2 4294967296 4
X2 2 | 2 counts 2 3 4294967296
X2 2 | 2 counts 262145 03 4
Tables 4294967295 | 2 counts 4294967295 3 4
Nets 4294967295 | 2 counts 2 4294967295 4
Checks 4294967295 | 2 counts 2 3 4294967295
Tables 262145 | 2 counts 262145 262145 1048577
Nets 262145 | 2 counts 262144 262145 1048577
Checks 1048577 | 2 counts 262144 262144 1048577
X1 14 | 2 counts 262144 262144 1048576
X1 10 | 2 counts 1 3 4
X1 16 | 2 counts 2 2 4
X1 32 | 2 counts 2 3 3
X1 33 | 2 counts 2 3 5
X1 3 | 3 period
X1 3 | 3 periods 1000
X2 3 | 3 period 01000
X2 3 | 3 period 0
X2 3 | 3 period -1
X2 3 | 3 period 1099511627777
read | 3 period 1
read | 3 period 1099511627776
X3 29 | 3 period none
X1 4 | 4 table 2 2
X1 4 | 4 miler 0 4 12
X2 4 | 4 miller 0 04 12
X2 4 | 4 miller 0 4 -0
X3 4 | 4 miller 0 4 8
X3 4 | 4 miller 0 4 13
X3 4 | 4 miller -1 4 12
X3 4 | 4 miller 5 4 12
X3 4 | 4 miller 0 4 3
X3 4 | 4 miller 0 4 340282366920938463463374607431768211456
read | 4 miller 0 0 0
read | 4 miller 12 12 12";

/// Lines 5 to 9: a table.
const TABLES: &str = "\
X1 5 | 5 table 2
X1 5 | 5 tables 2 2
X2 5 | 5 table 0 2
X2 5 | 5 table 2 0
X2 5 | 5 table 65 2
X2 5 | 5 table 2 65
X2 5 | 5 table 02 2
X1 6 | 5 table 64 2
X1 7 | 5 table 2 64
X1 6 | 5 table 1 2
X1 7 | 5 table 2 1
X1 6 | 6 slews 0
X1 6 | 6 slews 0 7 8
X1 6 | 6 loads 0 7
X2 6 | 6 slews 0 07
X2 6 | 6 slews -0 7
X2 6 | 6 slews -1099511627777 7
X2 6 | 6 slews 0 1099511627777
X3 6 | 6 slews 7 7
X3 6 | 6 slews 7 0
read | 6 slews -1099511627776 1099511627776
X1 7 | 7 loads 0 9\x20
X1 7 | 7 slews 0 9
X2 7 | 7 loads -1099511627777 9
X2 7 | 7 loads 9 1099511627777
X3 7 | 7 loads 9 9
X3 7 | 7 loads 9 0
read | 7 loads -1099511627776 1099511627776
X1 8 | 8 row 5
X1 8 | 8 rows 5 6
X1 8 | 8
X2 8 | 8 row 5 6e0
X2 8 | 8 row -1099511627777 6
X2 8 | 8 row 5 1099511627777
read | 8 row -1099511627776 1099511627776
X2 10 | 10 table 1 1\r
X1 10 | 10 table\t1 1";

/// Lines 14 to 16: the nets, with the sums of their couplings, coefficients and arcs.
const NETS: &str = "\
X1 15 | 15 net a i 4 1 2
X1 15 | 15 nets a i 4 1 2 0
X1 15 | 15 net a x 4 1 2 0
X1 15 | 15 net a x 04 1 2 0
X2 15 | 15 net a i 04 1 2 0
X2 15 | 15 net a i -1 1 2 0
X2 15 | 15 net a i 70368744177665 1 2 0
X2 15 | 15 net a i 4 4294967296 2 0
X2 15 | 15 net a i 4 1 4294967296 0
X2 15 | 15 net a i 4 1 2 4294967296
X2 15 | 15 net ck i 04 1 2 0
X3 15 | 15 net ck i 4 1 2 0
X3 16 | 16 net ck w 5 1 1 2
X3 15 | 15 net  i 4 1 2 0
X3 15 | 15 net a\x7f i 4 1 2 0
X3 15 | 15 net é i 4 1 2 0
X3 15 | 15 net ck i 4 1048577 2 0
read | 15 net a i 0 1 2 0
read | 15 net a w 4 1 2 0
read | 16 net b i 5 1 1 2
Load 70368744177684 a | 15 net a i 70368744177664 1 2 0
X1 26 | 16 net b w 5 1048575 1 2
Couplings 1048577 | 16 net b w 5 1048576 1 2
Couplings 4294967296 | 16 net b w 5 4294967295 1 2
X1 27 | 16 net b w 5 1 16777214 2
Coefficients 16777217 | 16 net b w 5 1 16777215 2
Coefficients 4294967297 | 16 net b w 5 1 4294967295 2
X1 29 | 16 net b w 5 1 1 4194304
Arcs 4194305 | 16 net b w 5 1 1 4194305
Arcs 4294967295 | 16 net b w 5 1 1 4294967295
Couplings 1048577 | 16 net b w 5 1048576 17 4194305
Coefficients 16777217 | 16 net b w 5 1 16777215 4194305";

/// Lines 17 to 28: what is given for the nets, and their couplings, sinks and arcs.
const BODIES: &str = "\
X1 20 | 20 fall quiet
X1 20 | 20 rise
X1 20 | 20 rise silent
X1 20 | 20 rise -5 6 0
X1 20 | 20 rise -5 6 0 9 9
X2 20 | 20 rise quiet 0 0 0
X2 20 | 20 rise -05 6 0 9
X2 20 | 20 rise -70368744177665 6 0 9
X2 20 | 20 rise -5 -70368744177665 0 9
X2 20 | 20 rise 70368744177665 6 0 9
X2 20 | 20 rise -5 70368744177665 0 9
X2 20 | 20 rise -5 6 -1 9
X2 20 | 20 rise -5 6 0 -1
X2 20 | 20 rise -5 6 1099511627777 9
X2 20 | 20 rise -5 6 0 1099511627777
X3 20 | 20 rise 6 -5 0 9
X3 20 | 20 rise -5 6 9 0
read | 20 rise quiet
read | 20 rise -70368744177664 70368744177664 0 1099511627776
read | 20 rise -70368744177664 -70368744177664 0 0
read | 20 rise 70368744177664 70368744177664 1099511627776 1099511627776
X1 21 | 21 rise quiet
X3 21 | 21 fall 1 0 0 0
read | 21 fall 0 1 2 3
X1 22 | 22 couple 2
X1 22 | 22 couples 02 10
X1 22 | 22 couple 2 10\x20
X1 22 | 22 sink y 0 0
X2 22 | 22 couple 02 10
X2 22 | 22 couple 4294967296 10
X2 22 | 22 couple 2 -1
X2 22 | 22 couple 2 70368744177665
X2 22 | 22 couple 01 10
X3 22 | 22 couple 1 10
X3 22 | 22 couple 3 10
X3 22 | 22 couple 4294967295 10
read | 22 couple 0 0
read | 22 couple 2 35184372088830
Load 70368744177666 a | 22 couple 2 35184372088831
Load 140737488355332 a | 22 couple 2 70368744177664
X1 23 | 23 sink b/A 100
X1 23 | 23 sink b/A 100 200 300
X1 23 | 23 sinks b/A 100 200
X2 23 | 23 sink b/A -1 200
X2 23 | 23 sink b/A 100 -1
X2 23 | 23 sink b/A 5070602400912917605986812821505 200
X2 23 | 23 sink b/A 100 5070602400912917605986812821505
X2 23 | 23 sink b/A 340282366920938463463374607431768211456 0
X2 23 | 23 sink é 0100 200
X3 23 | 23 sink  100 200
X3 23 | 23 sink b/é 100 200
read | 23 sink y 0 0
read | 23 sink y 5070602400912917605986812821504 5070602400912917605986812821504
X1 27 | 27 arc 1 0 rise fall 0
X1 27 | 27 arcs 1 0 rise fall 0 1
X1 27 | 27 arc 01 0 up fall 0 1
X1 27 | 27 arc 1 0 rise down 0 1
X2 27 | 27 arc 01 0 rise fall 0 1
X2 27 | 27 arc 3 0 rise fall 00 1
X2 27 | 27 arc 4294967296 0 rise fall 0 1
X2 27 | 27 arc 1 4294967296 rise fall 0 1
X2 27 | 27 arc 1 0 rise fall 4294967296 1
X2 27 | 27 arc 1 0 rise fall 0 4294967296
X3 27 | 27 arc 4294967295 0 rise fall 0 1
X3 27 | 27 arc 3 0 rise fall 0 1
X3 27 | 27 arc 1 4294967295 rise fall 0 1
X3 27 | 27 arc 1 2 rise fall 0 1
X3 27 | 27 arc 1 0 rise fall 2 1
X3 27 | 27 arc 1 0 rise fall 4294967295 1
X3 27 | 27 arc 1 0 rise fall 0 2
X3 27 | 27 arc 1 0 rise fall 0 4294967295
read | 27 arc 1 1 fall fall 1 0
X3 33 | 27 arc 2 0 rise fall 0 1";

/// Lines 29 to 33: the checks and the end.
const CHECKS: &str = "\
X1 29 | 29 flap setup f/D 2 0 0 0 1 -
X1 29 | 29 flop set f/D 2 0 0 0 1 -
X1 29 | 29 flop setup f/D 2 0 0 0 1
X1 29 | 29 flop setup f/D 2 0 1 -
X1 29 | 29 end
X2 29 | 29 flop setup f/D 02 0 0 0 1 -
X2 29 | 29 flop setup f/D 2 -0 0 0 1 -
X2 29 | 29 flop setup f/D 2 0 4294967296 0 1 -
X2 29 | 29 flop setup f/D 2 0 0 4294967296 1 -
X2 29 | 29 flop setup f/D 2 0 0 0 -1 -
X2 29 | 29 flop setup f/D 2 0 0 0 1 +
X2 29 | 29 flop setup f/D 2 0 0 0 1 4294967296
X2 29 | 29 flop setup f/D 3 00 0 0 1 -
X3 29 | 29 flop setup  2 0 0 0 1 -
X3 29 | 29 flop setup é 2 0 0 0 1 -
X3 29 | 29 flop setup f/D 3 0 0 0 1 -
X3 29 | 29 flop setup f/D 2 1 0 0 1 -
X3 29 | 29 flop setup f/D 2 0 3 0 1 -
X3 29 | 29 flop setup f/D 1 1 0 1 1 -
X3 29 | 29 flop setup f/D 0 1 1 1 1 -
X3 29 | 29 flop setup f/D 2 0 0 0 2 -
X3 29 | 29 flop setup f/D 2 0 0 0 1 4294967295
read | 29 flop setup f/D 1 1 0 0 1 0
read | 29 flop hold f/D 0 0 1 1 - -
X1 31 | 31 ports setup y 1 1 500 -
X1 31 | 31 port late y 1 1 500 -
X1 31 | 31 port setup y 1 1 500
X2 31 | 31 port setup y 01 1 500 -
X2 31 | 31 port setup y 1 4294967296 500 -
X2 31 | 31 port setup y 1 1 1099511627777 -
X2 31 | 31 port setup y 1 1 -1099511627777 -
X2 31 | 31 port setup y 1 1 500 1099511627777
X2 31 | 31 port setup y 1 1 500 -1099511627777
X2 31 | 31 port setup y 3 1 0500 -
X3 31 | 31 port setup  1 1 500 -
X3 31 | 31 port setup y 3 1 500 -
X3 31 | 31 port setup y 1 2 500 -
X3 31 | 31 port setup y 0 1 500 -
read | 31 port hold y 1 1 - -
read | 31 port setup y 1 1 -1099511627776 1099511627776
read | 31 port setup y 1 1 1099511627776 -1099511627776
X1 33 | 33 done
X1 33 | 33 end\x20
X1 34 | 33 end⏎end
X1 34 | 33 end⏎";

/// Lines of the text of one source.
const OF_ONE: &str = "\
X1 4 | 1 xtalk-design 2
X1 1 | 1 xtalk-design 3
Nets 262145 | 2 counts 0 262145 0
X1 5 | 2 counts 0 262144 0
X1 4 | 2 counts 0 0 0
X1 7 | 2 counts 0 1 1
read | 3 period 1
X1 4 | 3 period none⏎miller 0 4 12
read | 4 net a w 0 0 0 0
read | 4 net a i 70368744177664 0 0 0
X1 5 | 4 net a i 0 0 0 1
X2 5 | 5 rise 1000 01000 0 0
X3 5 | 5 rise 1000 900 0 0";

/// The text with a line replaced that begins with its number, counted from 1, and a space; `⏎` in it is a line end.
fn changed(alloc: Global, text: &str, line: &str) -> Result<String, AllocError> {
    let (number, line) = line.split_once(' ').unwrap_or((line, ""));
    let line = line.replace(alloc, '⏎', "\n")?;
    replaced(
        alloc,
        text,
        number.parse::<u32>().unwrap_or(0),
        line.as_str(),
    )
}

/// Compares what becomes of a text with the line of each row in place of the one of its number.
fn compare_each(rt: &impl Abort, alloc: Global, text: &str, rows: &str) -> Result<(), Fail> {
    for row in rows.split('\n') {
        let (want, line) = row.split_once(" | ").unwrap_or((row, ""));
        let changed = changed(alloc, text, line)?;
        compare(rt, alloc, changed.as_str(), row, want)?;
    }
    Ok(())
}

#[test]
fn a_line_is_refused_by_the_first_of_its_tests(rt: HostRuntime) -> Result<(), Fail> {
    let alloc = rt.alloc();
    for rows in [HEAD, TABLES, NETS, BODIES, CHECKS] {
        compare_each(&rt, alloc, EACH_KIND, rows)?;
    }
    compare_each(&rt, alloc, ONE, OF_ONE)
}

/// Two lines of the text of each kind of line, each of which is refused, or passes a limit; and which of that counts.
const TWO: &str = "\
X1 1 | 1 xtalk-design 3 | 2 counts 262145 3 4
Tables 262145 | 2 counts 262145 3 4 | 3 period
X1 29 | 3 period none | 29 flop set f/D 2 0 0 0 1 -
X2 29 | 3 period none | 29 flop setup f/D 02 0 0 0 1 -
X1 14 | 14 net ck i 0 0 1 | 16 net b w 5 1048576 1 2
Couplings 1048577 | 16 net b w 5 1048576 1 2 | 20 rise
Arcs 4194305 | 16 net b w 5 1 1 4194305 | 17 fall quiet
X1 21 | 21 fall | 22 couple 2 35184372088831
Load 70368744177666 a | 22 couple 2 35184372088831 | 23 sink
X2 23 | 15 net a i 4 2 2 0 | 22 couple 2 35184372088831⏎couple 2 -1
Load 70368744177668 a | 15 net a i 4 2 2 0 | 22 couple 2 35184372088831⏎couple 2 1
X1 33 | 27 arc 2 0 rise fall 0 1 | 33 done
X3 33 | 27 arc 2 0 rise fall 0 1 | 33 end⏎end";

#[test]
fn the_first_refusal_counts(rt: HostRuntime) -> Result<(), Fail> {
    for row in TWO.split('\n') {
        let (want, lines) = row.split_once(" | ").unwrap_or((row, ""));
        let (line, other) = lines.split_once(" | ").unwrap_or((lines, ""));
        let first = changed(rt.alloc(), EACH_KIND, line)?;
        let both = changed(rt.alloc(), first.as_str(), other)?;
        compare(&rt, rt.alloc(), both.as_str(), row, want)?;
    }
    Ok(())
}
