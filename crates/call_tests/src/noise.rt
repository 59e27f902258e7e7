//! The kind `noise` of a report: peaks that were worked out by hand.

use crate::call::Table;
use crate::designs::{LOAD_PAIR, ONE};
use crate::solving::Printed;

const LOAD_PAIR_NOISE: &[u8] = b"\
    xtalk 1\n\
    nets 4 couplings 2 pairs 1 levels 2 bound 10\n\
    period none\n\
    noise a fall ppm 1000000 at 1.100\n\
    noise b rise ppm 1000000 at 1.000\n\
    end\n";

/// A source that nothing couples to.
const ONE_NOISE: &[u8] = b"\
    xtalk 1\n\
    nets 1 couplings 0 pairs 0 levels 1 bound 1\n\
    period none\n\
    end\n";

/// Words, the design of `one.xt`, and its peaks.
pub const PEAKS: [Printed; 2] = [
    ("solve one.xt --kind noise", LOAD_PAIR, LOAD_PAIR_NOISE),
    ("solve one.xt --kind noise", ONE, ONE_NOISE),
];

/// The text of a quiet net v and of three sources that couple to it.
const TEXT: &str = "\
xtalk-design 1
counts 0 4 0
period ⟦1⟧
net v i ⟦3⟧ 3 0 0
net a i 0 0 0 0
net b i 0 0 0 0
net c i 0 0 0 0
rise quiet
fall quiet
couple 1 ⟦4⟧
couple 2 ⟦6⟧
couple 3 ⟦8⟧
rise ⟦5⟧
fall ⟦10⟧
rise ⟦7⟧
fall quiet
rise ⟦9⟧
fall quiet
end
";

/// The report of its peak.
const REPORT: &str = "\
0 xtalk 1
nets 4 couplings 3 pairs 3 levels 1 bound 13
period ⟦2⟧
noise v ⟦11⟧
end
";

/// The words; the period and how it is printed; the load of v; of each source the capacitance and the window of its
/// rise; the window of the first one's fall; the line.
const MOMENTS: &str = "\
solve one.xt --kind=noise | \
    none | none | 100 | 300 | 0 10 0 0 | 400 | 10 20 0 0 | 0 | quiet | quiet | rise ppm 875000 at 0.010
solve one.xt --kind=noise | \
    none | none | 100 | 300 | 0 10 0 0 | 400 | 11 20 0 0 | 0 | quiet | quiet | rise ppm 500000 at 0.011
solve one.xt --kind=noise | \
    none | none | 0 | 500 | 5 6 0 0 | 500 | -20 -10 0 0 | 0 | quiet | quiet | rise ppm 500000 at -0.020
solve one.xt --kind=noise | \
    none | none | 0 | 1 | 100 100 0 3 | 2 | 104 104 0 3 | 0 | quiet | quiet | rise ppm 1000000 at 0.102
solve one.xt --kind=noise | \
    none | none | 1000 | 500 | 0 10 0 0 | 500 | 10 20 0 0 | 500 | 30 40 0 0 | quiet | rise ppm 400000 at 0.010
solve one.xt --kind=noise | \
    100 | 0.100 | 70 | 10 | 95 105 0 0 | 20 | 203 203 0 0 | 0 | quiet | quiet | rise ppm 300000 at 0.003
solve one.xt --kind=noise | \
    100 | 0.100 | 0 | 7 | 1 100 0 0 | 0 | quiet | 0 | quiet | quiet | rise ppm 1000000 at 0.000
solve one.xt --kind=noise | \
    100 | 0.100 | 0 | 7 | 1 99 0 0 | 0 | quiet | 0 | quiet | quiet | rise ppm 1000000 at 0.001
solve one.xt --kind=noise | \
    100 | 0.100 | 0 | 7 | 0 250 0 0 | 5 | 140 141 0 0 | 0 | quiet | quiet | rise ppm 1000000 at 0.040
solve one.xt --kind=noise | \
    100 | 0.100 | 0 | 5 | 90 99 0 0 | 5 | 200 200 0 0 | 0 | quiet | quiet | rise ppm 500000 at 0.000
solve one.xt --kind=noise | \
    100 | 0.100 | 5 | 5 | -5 -5 0 0 | 5 | 195 195 0 0 | 0 | quiet | quiet | rise ppm 666666 at 0.095
solve one.xt --kind=noise | \
    none | none | 2 | 1 | quiet | 0 | quiet | 0 | quiet | 3 4 0 0 | fall ppm 333333 at 0.003
solve one.xt --kind=noise | \
    none | none | 0 | 17592186044416 | 0 0 0 0 | 17592186044416 | 0 0 0 0 | 0 | quiet | \
    quiet | rise ppm 1000000 at 0.000
";

/// The worst moments.
pub const WORST: Table = (TEXT, REPORT, MOMENTS);
