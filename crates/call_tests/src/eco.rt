//! The command `eco`: designs after edits, and edits that are refused, worked out by hand.

use crate::call::{Table, compare};
use std::test::Fail;

/// Two nets that slow each other down or not, and edits.
const PAIR: &str = "\
xtalk-design 1
counts 2 4 0
period none
table 1 2
slews 0
loads 0 10000
row 800 2800
table 1 1
slews 0
loads 0
row 0
net p i 0 0 1 0
net q i 0 0 1 0
net a w 0 1 0 1
net b w 0 1 0 1
rise 0 0 0 0
fall quiet
sink a/A 0
rise quiet
fall 100 100 0 0
sink b/A 0
couple 3 1000
arc 0 0 rise rise 0 1
couple 2 1000
arc 1 0 fall fall 0 1
end
--
⟦1⟧";

const PAIR_REPORT: &str = "\
0 xtalk 1
nets 4 couplings ⟦2⟧
period none
⟦3⟧net p rise least 0.000 0.000 0.000 0.000 greatest 0.000 0.000 0.000 0.000
net p fall quiet
net q rise quiet
net q fall least 0.100 0.100 0.000 0.000 greatest 0.100 0.100 0.000 0.000
net a rise least ⟦4⟧ 0.000 0.000 greatest ⟦5⟧ 0.000 0.000
net a fall quiet
net b rise quiet
net b fall least ⟦6⟧ 0.000 0.000 greatest ⟦7⟧ 0.000 0.000
⟦8⟧end
";

/// The words; the edits; couplings, pairs, levels and bound; the line of the Miller numbers; the least and the greatest
/// times of a and of b; the couplings that matter. A load of 5 aF delays by 1 fs.
const PAIRS: &str = "\
eco one.xt edits | end⏎ | 2 pairs 1 levels 2 bound 10 | | \
    1.000 1.000 | 1.000 1.200 | 1.100 1.100 | 1.100 1.300 | \
    guilty a rise b 1.000 fast no slow possible⏎guilty b fall a 1.000 fast no slow possible⏎
eco one.xt edits | shield a b⏎end⏎ | 0 pairs 0 levels 2 bound 2 | | \
    1.000 1.000 | 1.000 1.000 | 1.100 1.100 | 1.100 1.100 |
eco --workers=3 one.xt edits | shield b a⏎end⏎ | 0 pairs 0 levels 2 bound 2 | | \
    1.000 1.000 | 1.000 1.000 | 1.100 1.100 | 1.100 1.100 |
eco one.xt edits | apart a b 500⏎end⏎ | 2 pairs 1 levels 2 bound 10 | | \
    1.000 1.000 | 1.000 1.100 | 1.100 1.100 | 1.100 1.200 | \
    guilty a rise b 0.500 fast no slow possible⏎guilty b fall a 0.500 fast no slow possible⏎
eco one.xt edits | apart a b 500⏎near a b 500⏎end⏎ | 2 pairs 1 levels 2 bound 10 | | \
    1.000 1.000 | 1.000 1.200 | 1.100 1.100 | 1.100 1.300 | \
    guilty a rise b 1.000 fast no slow possible⏎guilty b fall a 1.000 fast no slow possible⏎
eco one.xt edits --workers 64 | apart b a 1099511627776⏎end⏎ | 2 pairs 1 levels 2 bound 10 | | \
    1.000 1.000 | 1.000 1.000 | 1.100 1.100 | 1.100 1.100 |
eco one.xt edits | ⟨1024:apart a b 1⏎⟩end⏎ | 2 pairs 1 levels 2 bound 10 | | \
    1.000 1.000 | 1.000 1.000 | 1.100 1.100 | 1.100 1.100 |
eco one.xt edits --miller 0,8,8 | shield a b⏎end⏎ | 0 pairs 0 levels 2 bound 2 | miller 0 8 8⏎ | \
    1.000 1.000 | 1.000 1.000 | 1.100 1.100 | 1.100 1.100 |
eco one.xt --miller=0,8,8 edits | apart a b 500⏎end⏎ | 2 pairs 1 levels 2 bound 10 | miller 0 8 8⏎ | \
    1.100 1.100 | 1.100 1.100 | 1.200 1.200 | 1.200 1.200 |
eco one.xt edits --miller 0,0,8 | apart a b 500⏎end⏎ | 2 pairs 1 levels 2 bound 10 | miller 0 0 8⏎ | \
    0.900 0.900 | 0.900 1.100 | 1.000 1.000 | 1.000 1.200 | \
    guilty a rise b 0.500 fast no slow possible⏎guilty b fall a 0.500 fast no slow possible⏎
eco one.xt edits --miller 0,0,8 | apart a b 500⏎near a b 400⏎end⏎ | 2 pairs 1 levels 2 bound 10 | \
    miller 0 0 8⏎ | 0.820 0.820 | 0.820 1.180 | 0.920 0.920 | 0.920 1.280 | \
    guilty a rise b 0.900 fast no slow possible⏎guilty b fall a 0.900 fast no slow possible⏎
";

/// Edits of the pair, and the line of their refusal.
const REFUSED: &str = "\
eco one.xt edits | near a b 1⏎end⏎ | 3 edits:1: E4
eco one.xt edits | shield a p⏎end⏎ | 3 edits:1: E3
eco one.xt edits | | 3 edits:1: E1
eco one.xt edits | end | 3 edits:1: E1
eco one.xt edits | end⏎⏎ | 3 edits:2: E1
eco one.xt edits | end⏎end⏎ | 3 edits:2: E1
eco one.xt edits | shield a b | 3 edits:1: E1
eco one.xt edits | shield a b⏎ | 3 edits:2: E1
eco one.xt edits | shield a b⏎end | 3 edits:2: E1
eco one.xt edits | shield a b⏎ end⏎ | 3 edits:2: E1
eco one.xt edits | end ⏎end⏎ | 3 edits:1: E1
eco one.xt edits | ⏎end⏎ | 3 edits:1: E1
eco one.xt edits | Shield a b⏎end⏎ | 3 edits:1: E1
eco one.xt edits | shield a⏎end⏎ | 3 edits:1: E1
eco one.xt edits | shield a b 1⏎end⏎ | 3 edits:1: E1
eco one.xt edits | shield  a b⏎end⏎ | 3 edits:1: E1
eco one.xt edits | apart a b⏎end⏎ | 3 edits:1: E1
eco one.xt edits | near a b 1 1⏎end⏎ | 3 edits:1: E1
eco one.xt edits | ⟨1025:apart a b 1⏎⟩end⏎ | 3 edits:1025: E1
eco one.xt edits | apart a no 0⏎end⏎ | 3 edits:1: E2
eco one.xt edits | apart a b 01⏎end⏎ | 3 edits:1: E2
eco one.xt edits | apart a b +1⏎end⏎ | 3 edits:1: E2
eco one.xt edits | apart a b -1⏎end⏎ | 3 edits:1: E2
eco one.xt edits | apart a b ⏎end⏎ | 3 edits:1: E2
eco one.xt edits | apart a b 1\r⏎end⏎ | 3 edits:1: E2
eco one.xt edits | near a b 1099511627777⏎end⏎ | 3 edits:1: E2
eco one.xt edits | near a b 340282366920938463463374607431768211457⏎end⏎ | 3 edits:1: E2
eco one.xt edits | shield no b⏎end⏎ | 3 edits:1: E3
eco one.xt edits | shield a no⏎end⏎ | 3 edits:1: E3
eco one.xt edits | shield  b⏎end⏎ | 3 edits:1: E3
eco one.xt edits | shield a a⏎end⏎ | 3 edits:1: E3
eco one.xt edits | shield a b⏎shield a b⏎end⏎ | 3 edits:2: E3
eco one.xt edits | apart a b 1000⏎near a b 1⏎end⏎ | 3 edits:2: E4
eco one.xt edits | near a b 1⏎no⏎ | 3 edits:1: E4
eco one.xt edits | apart a b 1⏎no⏎end⏎ | 3 edits:2: E1
eco one.xt no | end⏎ | 6 read fault: no
eco no edits | no | 6 read fault: no
eco edits no | end⏎ | 3 edits:1: X1
";

/// Two nets that never switch, so that any wire is within the limits of times.
const QUIET: &str = "\
xtalk-design 1
counts 0 2 0
period none
net a i ⟦2⟧ 1 1 0
net b i ⟦3⟧ 0 0
rise quiet
fall quiet
couple 1 ⟦4⟧
sink a/S ⟦5⟧ ⟦6⟧
rise quiet
fall quiet
⟦7⟧end
--
⟦1⟧⏎no⏎";

/// The words; an edit; the load of a; that of b and how many couplings it lists; the coupling of a; the base and the
/// coefficient of a's sink; b's couplings; the line. What can be done is refused at the line after it.
const NUMBERS: &str = "\
eco one.xt edits | shield a b | 0 | 0 0 | 1000 | 1 | 5070602400912917605986812821504 | | 3 edits:1: E4
eco one.xt edits | shield a b | 0 | 0 0 | 1000 | 0 | 5070602400912917605986812821504 | | 3 edits:2: E1
eco one.xt edits | shield a b | 0 | 0 0 | 0 | 1 | 5070602400912917605986812821504 | | 3 edits:1: E4
eco one.xt edits | apart a b 1 | 0 | 0 0 | 0 | 1 | 5070602400912917605986812821504 | | 3 edits:2: E1
eco one.xt edits | apart a b 1 | 0 | 0 0 | 1000 | 5070602400912917605986812821504 | 3 | | 3 edits:1: E4
eco one.xt edits | apart a b 999 | 0 | 0 0 | 1000 | 5070602400912917605986812821501 | 3 | | 3 edits:2: E1
eco one.xt edits | near a b 334 | 5000 | 0 0 | 1000 | 0 | 3 | | 3 edits:1: E4
eco one.xt edits | near a b 333 | 5000 | 0 0 | 1000 | 0 | 3 | | 3 edits:2: E1
eco one.xt edits | near b a 5001 | 5000 | 0 0 | 1000 | 0 | 0 | | 3 edits:1: E4
eco one.xt edits | near b a 5000 | 5000 | 0 0 | 1000 | 0 | 0 | | 3 edits:2: E1
eco one.xt edits | near a b 1 | 5000 | 0 1 | 1000 | 0 | 3 | couple 0 1000⏎ | 3 edits:1: E4
eco one.xt edits | near a b 1 | 5000 | 1 1 | 1000 | 0 | 3 | couple 0 1000⏎ | 3 edits:2: E1
eco one.xt edits | near a b 1 | 5000 | 9 1 | 1000 | 0 | 3 | couple 0 0⏎ | 3 edits:1: E4
eco one.xt edits | near a b 5 | 5000 | 9 2 | 1000 | 0 | 3 | couple 0 7⏎couple 0 7⏎ | 3 edits:1: E4
eco one.xt edits | near a b 4 | 5000 | 9 2 | 1000 | 0 | 3 | couple 0 7⏎couple 0 7⏎ | 3 edits:2: E1
eco one.xt edits | near a b 1000 | 5000 | 0 0 | 1000 | 5070602400912917605986812821504 | \
    2535301200456458802993406410753 | | 3 edits:1: E4
eco one.xt edits | near a b 1000 | 5000 | 0 0 | 1000 | 5070602400912917605986812821504 | \
    2535301200456458802993406410752 | | 3 edits:2: E1
eco one.xt edits | near a b 1099511627776 | 2199023255552 | 0 0 | 1 | 5070602400912917605986812821504 | \
    5070602400912917605986812821504 | | 3 edits:1: E4
eco one.xt edits | near a b 1 | 70368744175664 | 0 0 | 1000 | 0 | 3 | | 5 limit: load a 70368744177665
eco one.xt edits | near a b 1 | 70368744175663 | 0 0 | 1000 | 0 | 3 | | 3 edits:2: E1
eco one.xt edits | near a b 1 | 5000 | 70368744175664 1 | 1000 | 0 | 3 | couple 0 1000⏎ | \
    5 limit: load b 70368744177665
eco one.xt edits | near a b 1 | 70368744175664 | 70368744175664 1 | 1000 | 0 | 3 | couple 0 1000⏎ | \
    5 limit: load a 70368744177665
eco one.xt edits | near b a 2 | 70368744175664 | 70368744175664 1 | 1000 | 0 | 3 | couple 0 1000⏎ | \
    5 limit: load b 70368744177666
eco one.xt edits | near a b 1 | 70368744175664 | 0 1 | 1000 | 0 | 3 | couple 0 1000⏎ | 3 edits:1: E4
eco one.xt edits | shield a b | 70368744175664 | 0 0 | 1000 | 0 | 3 | | 3 edits:2: E1
";

/// A net that arrives at its sink as late as it may, or later, where everything overlaps.
const LATE: &str = "\
xtalk-design 1
counts 0 2 0
period none
net a i 5000 1 1 0
net b i 0 0 0 0
rise 0 ⟦2⟧ 0 0
fall quiet
couple 1 1000
sink a/S 1000000 1000000000
rise quiet
fall quiet
end
--
⟦1⟧";

/// The words; edits; the latest time of a at its driver; the line. The wire is 2,001 fs at most, and 2,002 once the
/// nets are nearer by 1 aF.
const LIMITS: &str = "\
eco one.xt edits | no⏎ | 70368744175664 | 5 limit: time a 70368744177665
eco one.xt edits | no⏎ | 70368744175663 | 3 edits:1: E1
eco one.xt edits | near a b 1⏎no⏎ | 70368744175663 | 5 limit: time a 70368744177665
eco one.xt edits | near a b 1⏎apart a b 1⏎end⏎ | 70368744175663 | 5 limit: time a 70368744177665
eco one.xt edits | apart a b 1⏎near a b 1⏎no⏎ | 70368744175663 | 3 edits:3: E1
eco one.xt edits --miller 4,4,4 | near a b 1⏎no⏎ | 70368744175663 | 3 edits:2: E1
eco one.xt edits | | 70368744175664 | 5 limit: time a 70368744177665
";

/// Two gates, each of which is early because the other is, and edits.
const CROSS: &str = "\
xtalk-design 1
counts 2 4 0
period none
table 1 1
slews 0
loads 0
row 500
table 1 1
slews 0
loads 0
row 600
net s i 0 1 1 0
net t i 0 1 1 0
net c w 0 0 0 1
net d w 0 0 0 1
rise 1000 1000 600 600
fall quiet
couple 3 1000
sink c/A 0 200000000
rise 1000 1000 600 600
fall quiet
couple 2 1000
sink d/A 0 200000000
arc 0 0 rise rise 0 1
arc 1 0 rise rise 0 1
end
--
⟦1⟧";

const CROSS_REPORT: &str = "\
0 xtalk 1
nets 4 couplings ⟦2⟧
period none
net s rise least 1.000 1.000 0.600 0.600 greatest 1.000 1.000 0.600 0.600
net s fall quiet
net t rise least 1.000 1.000 0.600 0.600 greatest 1.000 1.000 0.600 0.600
net t fall quiet
net c rise least 1.700 1.700 0.600 0.600 greatest ⟦3⟧ 1.700 0.600 0.600
net c fall quiet
net d rise least 1.700 1.700 0.600 0.600 greatest ⟦4⟧ 1.700 0.600 0.600
net d fall quiet
⟦5⟧end
";

/// The words; the edits; couplings, pairs, levels and bound; how early c and d are; the couplings that matter. The wire
/// of s takes 100 fs and as much again by its coupling after `apart s d 500`; c is then early enough to meet t, and by
/// 1 fs it no longer is after `apart s d 505`.
const CROSSES: &str = "\
eco one.xt edits | apart s d 500⏎end⏎ | 2 pairs 2 levels 2 bound 18 | 1.600 | 1.500 | \
    guilty s rise d 0.500 fast possible slow no⏎guilty t rise c 1.000 fast possible slow no⏎
eco one.xt edits | apart d s 501⏎end⏎ | 2 pairs 2 levels 2 bound 18 | 1.600 | 1.500 | \
    guilty s rise d 0.499 fast possible slow no⏎guilty t rise c 1.000 fast possible slow no⏎
eco one.xt edits | apart s d 505⏎end⏎ | 2 pairs 2 levels 2 bound 18 | 1.700 | 1.700 |
eco one.xt edits | apart s d 505⏎near d s 505⏎end⏎ | 2 pairs 2 levels 2 bound 18 | 1.500 | 1.500 | \
    guilty s rise d 1.000 fast possible slow no⏎guilty t rise c 1.000 fast possible slow no⏎
eco one.xt edits | shield s d⏎end⏎ | 1 pairs 1 levels 2 bound 10 | 1.700 | 1.700 |
eco one.xt edits | apart t c 500⏎apart s d 500⏎end⏎ | 2 pairs 2 levels 2 bound 18 | 1.600 | 1.600 | \
    guilty s rise d 0.500 fast possible slow no⏎guilty t rise c 0.500 fast possible slow no⏎
";

/// All tables.
const TABLES: [Table; 5] = [
    (PAIR, PAIR_REPORT, PAIRS),
    (CROSS, CROSS_REPORT, CROSSES),
    (PAIR, "⟦2⟧⏎", REFUSED),
    (QUIET, "⟦8⟧⏎", NUMBERS),
    (LATE, "⟦3⟧⏎", LIMITS),
];

#[test]
fn edits_are_made_or_refused(rt: HostRuntime) -> Result<(), Fail> {
    compare(&rt, rt.alloc(), &TABLES)
}
