//! Designs solved by their own Miller numbers and by those of the words, with and without a period.

use crate::call::Table;

/// The text of the crossed nets in version 2, with the Miller numbers of a row.
const CROSS: &str = "\
xtalk-design 2
counts 2 4 0
period none
miller ⟦1⟧
table 1 1
slews 0
loads 0
row 500
table 1 1
slews 0
loads 0
row 600
net s i 0 1 1 0
net t i 0 1 1 0
net c w 0 0 0 1
net d w 0 0 0 1
rise 1000 1000 600 600
fall quiet
couple 3 1000
sink c/A 0 200000000
rise 1000 1000 600 600
fall quiet
couple 2 1000
sink d/A 0 200000000
arc 0 0 rise rise 0 1
arc 1 0 rise rise 0 1
end
";

/// Their report: two gates that rise at 1.7 ps at the latest, and in the least windows no earlier.
const CROSS_REPORT: &str = "\
0 xtalk 1
nets 4 couplings 2 pairs 2 levels 2 bound 18
period none
⟦2⟧\
net s rise least 1.000 1.000 0.600 0.600 greatest 1.000 1.000 0.600 0.600
net s fall quiet
net t rise least 1.000 1.000 0.600 0.600 greatest 1.000 1.000 0.600 0.600
net t fall quiet
net c rise least 1.700 1.700 0.600 0.600 greatest ⟦3⟧ 1.700 0.600 0.600
net c fall quiet
net d rise least 1.700 1.700 0.600 0.600 greatest ⟦3⟧ 1.700 0.600 0.600
net d fall quiet
⟦4⟧\
end
";

/// Words, and the Miller numbers of the text; and of the report its Miller numbers, from when on the gates rise in the
/// greatest windows, and the couplings to the sources, where they matter.
///
/// Half a slew is 300 fs, so the sources are under way until 1.3 ps. At 2 quarters a gate that is met can rise at 1.6
/// ps, and is under way from 1.3 ps on, so that it is met; at 3 quarters at 1.65 ps, and is under way too late.
const CROSSED: &str = "\
solve one.xt | 2 4 6 | miller 2 4 6⏎ | 1.600 | \
    guilty s rise d 1.000 fast possible slow no⏎guilty t rise c 1.000 fast possible slow no⏎
solve one.xt | 3 4 6 | miller 3 4 6⏎ | 1.700 |
solve --miller=3,4,6 one.xt | 2 4 6 | miller 3 4 6⏎ | 1.700 |
solve one.xt --miller 0,4,8 | 2 4 6 | | 1.500 | \
    guilty s rise d 1.000 fast possible slow no⏎guilty t rise c 1.000 fast possible slow no⏎
replay one.xt --miller=3,4,6 --order=5 --workers=3 | 2 4 6 | miller 3 4 6⏎ | 1.700 |
";

/// The text of the coupled gates with the period of a row.
const PAIR: &str = "\
xtalk-design 1
counts 2 4 0
period ⟦1⟧
table 1 2
slews 0
loads 0 10000
row 800 2800
table 1 1
slews 0
loads 0
row 0
net p i 0 0 1 0
net q i 0 0 1 0
net a w 0 1 0 1
net b w 0 1 0 1
rise 0 0 0 0
fall quiet
sink a/A 0
rise quiet
fall 100 100 0 0
sink b/A 0
couple 3 1000
arc 0 0 rise rise 0 1
couple 2 1000
arc 1 0 fall fall 0 1
end
";

/// Their report.
const PAIR_REPORT: &str = "\
0 xtalk 1
nets 4 couplings 2 pairs 1 levels 2 bound 10
period ⟦2⟧
⟦3⟧\
net p rise least 0.000 0.000 0.000 0.000 greatest 0.000 0.000 0.000 0.000
net p fall quiet
net q rise quiet
net q fall least 0.100 0.100 0.000 0.000 greatest 0.100 0.100 0.000 0.000
net a rise least 1.000 ⟦4⟧ 0.000 0.000 greatest 1.000 ⟦6⟧ 0.000 0.000
net a fall quiet
net b rise quiet
net b fall least 1.100 ⟦5⟧ 0.000 0.000 greatest 1.100 ⟦7⟧ 0.000 0.000
⟦8⟧\
end
";

/// The words and the period of the coupled gates; and of the report the period and the Miller numbers, until when a
/// rises and b falls in the least windows and in the greatest, and the lines of the mark by which each slows the other
/// down.
///
/// A whole factor more is 200 fs. Without a period a and b meet only where both may come late. They are 100 fs apart:
/// they meet each period of 100 fs, and in a period of 1 ps only where both may come late.
const PAIRS: &str = "\
solve one.xt --miller 0,4,8 | none | none | | 1.000 | 1.100 | 1.200 | 1.300 | \
    guilty a rise b 1.000 fast no slow possible⏎guilty b fall a 1.000 fast no slow possible⏎
solve one.xt --miller 0,4,12 | none | none | miller 0 4 12⏎ | 1.000 | 1.100 | 1.400 | 1.500 | \
    guilty a rise b 1.000 fast no slow possible⏎guilty b fall a 1.000 fast no slow possible⏎
solve one.xt --miller 4,4,4 | none | none | miller 4 4 4⏎ | 1.000 | 1.100 | 1.000 | 1.100 |
solve one.xt --miller 0,4,8 | 100 | 0.100 | | 1.200 | 1.300 | 1.200 | 1.300 | \
    guilty a rise b 1.000 fast no slow sure⏎guilty b fall a 1.000 fast no slow sure⏎
solve one.xt --miller 0,4,8 | 1000 | 1.000 | | 1.000 | 1.100 | 1.200 | 1.300 | \
    guilty a rise b 1.000 fast no slow possible⏎guilty b fall a 1.000 fast no slow possible⏎
solve one.xt --miller 4,4,4 | 100 | 0.100 | miller 4 4 4⏎ | 1.000 | 1.100 | 1.000 | 1.100 | \
    guilty a rise b 1.000 fast no slow sure⏎guilty b fall a 1.000 fast no slow sure⏎
";

/// Numbers above 12, and classical ones in version 2, which are those of no text, whatever the words give.
const NUMBERS: &str = "\
solve one.xt --miller=0,4,12 | 0 4 13
solve one.xt --miller=0,4,12 | 0 4 8
";

/// All tables.
pub const MILLER: [Table; 3] = [
    (CROSS, CROSS_REPORT, CROSSED),
    (PAIR, PAIR_REPORT, PAIRS),
    (CROSS, "3 one.xt:4: X3⏎", NUMBERS),
];
