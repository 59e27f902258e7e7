//! Designs with checks: slacks, idle checks, and the paths of the worst ones. All reports are worked out by hand.

use crate::solving::Printed;

/// One net that rises at 1.000 to 1.200 ps and never falls, with 0.002 ps of wire to a port; a period of 10 ps.
const PORTS: &[u8] = b"\
    xtalk-design 1\n\
    counts 0 1 2\n\
    period 10000\n\
    net a i 0 0 1 0\n\
    rise 1000 1200 0 0\n\
    fall quiet\n\
    sink y 2000000\n\
    port setup y 0 0 500 -\n\
    port hold y 0 0 100 100\n\
    end\n";

/// 10.000 - 0.500 - (1.200 + 0.002), and (1.000 + 0.002) + 0.100 ps.
const PORTS_REPORT: &[u8] = b"\
    xtalk 1\n\
    nets 1 couplings 0 pairs 0 levels 1 bound 1\n\
    period 10.000\n\
    net a rise least 1.000 1.200 0.000 0.000 greatest 1.000 1.200 0.000 0.000\n\
    net a fall quiet\n\
    check y rise setup 8.298 8.298\n\
    check y rise hold 1.102 1.102\n\
    check y fall hold idle\n\
    path setup y rise 8.298\n\
    from a rise 1.200\n\
    to wire 0.002\n\
    path hold y rise 1.102\n\
    from a rise 1.000\n\
    to wire 0.002\n\
    end\n";

/// A chain of gates between a source d and a flop f. g2 drives g4 by way of g3 and alone, in which case it takes
/// longer; g5 drives both inputs of g6, one by 5 fs of wire and 10 fs of gate, the other by none and 15 fs: a tie.
/// The delays are those of the tables: 10, 20, 30 and 15 fs; setup takes 25 fs and hold 15 fs.
const GATES: &[u8] = b"\
    xtalk-design 1\n\
    counts 6 13 2\n\
    period 150\n\
    table 1 1\n\
    slews 0\n\
    loads 0\n\
    row 0\n\
    table 1 1\n\
    slews 0\n\
    loads 0\n\
    row 10\n\
    table 1 1\n\
    slews 0\n\
    loads 0\n\
    row 20\n\
    table 1 1\n\
    slews 0\n\
    loads 0\n\
    row 30\n\
    table 1 1\n\
    slews 0\n\
    loads 0\n\
    row 15\n\
    table 1 1\n\
    slews 0\n\
    loads 0\n\
    row 25\n\
    net ck i 0 0 1 0\n\
    net d i 0 0 1 0\n\
    net g1 w 0 0 1 1\n\
    net g2 w 0 0 2 1\n\
    net g3 w 0 0 1 1\n\
    net g4 w 0 0 1 2\n\
    net g5 w 0 0 2 1\n\
    net g6 w 0 0 1 2\n\
    net g7 w 0 0 1 1\n\
    net g8 w 0 0 1 1\n\
    net g9 w 0 0 1 1\n\
    net g10 w 0 0 1 1\n\
    net g11 w 0 0 1 1\n\
    rise 0 0 0 0\n\
    fall quiet\n\
    sink f/CK 0\n\
    rise 4 6 0 0\n\
    fall quiet\n\
    sink g1/A 1000000\n\
    sink g2/A 0\n\
    arc 1 0 rise fall 1 0\n\
    sink g3/A 0\n\
    sink g4/B 0\n\
    arc 2 0 fall rise 2 0\n\
    sink g4/A 2000000\n\
    arc 3 0 rise rise 1 0\n\
    sink g5/A 0\n\
    arc 4 0 rise fall 1 0\n\
    arc 3 1 rise fall 3 0\n\
    sink g6/A 5000000\n\
    sink g6/B 0\n\
    arc 5 0 fall rise 2 0\n\
    sink g7/A 0\n\
    arc 6 0 rise fall 1 0\n\
    arc 6 1 rise fall 4 0\n\
    sink g8/A 0\n\
    arc 7 0 fall fall 1 0\n\
    sink g9/A 0\n\
    arc 8 0 fall rise 2 0\n\
    sink g10/A 0\n\
    arc 9 0 rise fall 3 0\n\
    sink g11/A 0\n\
    arc 10 0 fall rise 1 0\n\
    sink f/D 3000000\n\
    arc 11 0 rise rise 1 0\n\
    flop setup f/D 12 0 0 0 5 5\n\
    flop hold f/D 12 0 0 0 4 -\n\
    end\n";

/// Latest: 6 + (1 + 10) + 20 + 30 + 20 + (5 + 10) + 10 + 20 + 30 + 10 + 10 + 3 is 185 fs, and 150 - 25 - 185 is -60.
/// Earliest: 4 + (1 + 10) + 20 + 10 + (2 + 10) + 20 + (5 + 10) + 10 + 20 + 30 + 10 + 10 + 3 is 175 fs, and 175 - 15 is
/// 160. g11 never falls.
const GATES_REPORT: &[u8] = b"\
    xtalk 1\n\
    nets 13 couplings 0 pairs 0 levels 12 bound 12\n\
    period 0.150\n\
    check f/D rise setup -0.060 -0.060\n\
    check f/D fall setup idle\n\
    check f/D rise hold 0.160 0.160\n\
    path setup f/D rise -0.060\n\
    from d rise 0.006\n\
    step g1 fall wire 0.001 delay 0.010\n\
    step g2 rise wire 0.000 delay 0.020\n\
    step g4 fall wire 0.000 delay 0.030\n\
    step g5 rise wire 0.000 delay 0.020\n\
    step g6 fall wire 0.005 delay 0.010\n\
    step g7 fall wire 0.000 delay 0.010\n\
    step g8 rise wire 0.000 delay 0.020\n\
    step g9 fall wire 0.000 delay 0.030\n\
    step g10 rise wire 0.000 delay 0.010\n\
    step g11 rise wire 0.000 delay 0.010\n\
    to wire 0.003\n\
    path hold f/D rise 0.160\n\
    from d rise 0.004\n\
    step g1 fall wire 0.001 delay 0.010\n\
    step g2 rise wire 0.000 delay 0.020\n\
    step g3 rise wire 0.000 delay 0.010\n\
    step g4 fall wire 0.002 delay 0.010\n\
    step g5 rise wire 0.000 delay 0.020\n\
    step g6 fall wire 0.005 delay 0.010\n\
    step g7 fall wire 0.000 delay 0.010\n\
    step g8 rise wire 0.000 delay 0.020\n\
    step g9 fall wire 0.000 delay 0.030\n\
    step g10 rise wire 0.000 delay 0.010\n\
    step g11 rise wire 0.000 delay 0.010\n\
    to wire 0.003\n\
    end\n";

/// Data d at 100 to 300 fs after 5 fs of wire, a clock c that rises at 10 to 30 fs and falls much later, and a net e
/// that never rises. The table has its greatest value in the middle.
const PEAK: &[u8] = b"\
    xtalk-design 1\n\
    counts 1 3 6\n\
    period 1000\n\
    table 3 3\n\
    slews 0 10 20\n\
    loads 0 10 20\n\
    row 1 2 3\n\
    row 4 90 5\n\
    row 6 7 8\n\
    net d i 0 0 1 0\n\
    net c i 0 0 1 0\n\
    net e i 0 0 1 0\n\
    rise 100 300 0 9\n\
    fall 100 300 0 9\n\
    sink d 5000000\n\
    rise 10 30 0 20\n\
    fall 510 930 0 20\n\
    sink c 0\n\
    rise quiet\n\
    fall 0 0 0 0\n\
    sink e 0\n\
    flop setup e/D 0 0 2 0 0 0\n\
    flop setup f/D 0 0 1 0 0 0\n\
    flop setup g/D 0 0 1 0 0 -\n\
    flop hold e/D 2 0 1 0 0 -\n\
    flop hold f/D 0 0 1 0 - 0\n\
    flop hold g/D 0 0 1 0 0 0\n\
    end\n";

/// At the sinks the slews of the clock are 0 to 20 fs and those of d 11 to 20: after 5 fs of wire they grow by 11, and
/// 9 + 11 is 20. The greatest value there is that by a clock's slew of 10 and a slew of 11, at no corner of them:
/// floor(90 - 8.5) is 81. Setup: 1000 + 10 - 81 - 305 is 624. Hold: 105 - 30 - 81 is -6. The first of equals is told.
/// What e clocks, and what its rise brings, is idle.
const PEAK_REPORT: &[u8] = b"\
    xtalk 1\n\
    nets 3 couplings 0 pairs 0 levels 1 bound 1\n\
    period 1.000\n\
    check e/D rise setup idle\n\
    check e/D fall setup idle\n\
    check f/D rise setup 0.624 0.624\n\
    check f/D fall setup 0.624 0.624\n\
    check g/D rise setup 0.624 0.624\n\
    check e/D rise hold idle\n\
    check f/D fall hold -0.006 -0.006\n\
    check g/D rise hold -0.006 -0.006\n\
    check g/D fall hold -0.006 -0.006\n\
    path setup f/D rise 0.624\n\
    from d rise 0.300\n\
    to wire 0.005\n\
    path hold f/D fall -0.006\n\
    from d fall 0.100\n\
    to wire 0.005\n\
    end\n";

/// Two coupled gates, a that rises and b that falls, each with a port after it; a's by 3 fs of wire, and 1 fs more for
/// a whole Miller factor.
const PAIR: &[u8] = b"\
    xtalk-design 1\n\
    counts 2 4 4\n\
    period 10000\n\
    table 1 2\n\
    slews 0\n\
    loads 0 10000\n\
    row 800 2800\n\
    table 1 1\n\
    slews 0\n\
    loads 0\n\
    row 0\n\
    net p i 0 0 1 0\n\
    net q i 0 0 1 0\n\
    net a w 0 1 1 1\n\
    net b w 0 1 1 1\n\
    rise 0 0 0 0\n\
    fall quiet\n\
    sink a/A 0\n\
    rise quiet\n\
    fall 100 100 0 0\n\
    sink b/A 0\n\
    couple 3 1000\n\
    sink y 3000000 1000000\n\
    arc 0 0 rise rise 0 1\n\
    couple 2 1000\n\
    sink z 0 0\n\
    arc 1 0 fall fall 0 1\n\
    port setup y 2 0 500 500\n\
    port hold y 2 0 0 0\n\
    port setup z 3 0 500 500\n\
    port hold z 3 0 0 0\n\
    end\n";

/// a rises at 1.000 ps if b does not disturb it, and until 1.200 if it does; b falls 0.100 ps later. After the wire y
/// rises until 1.000 + 0.004, or 1.200 + 0.005.
const PAIR_REPORT: &[u8] = b"\
    xtalk 1\n\
    nets 4 couplings 2 pairs 1 levels 2 bound 10\n\
    period 10.000\n\
    net p rise least 0.000 0.000 0.000 0.000 greatest 0.000 0.000 0.000 0.000\n\
    net p fall quiet\n\
    net q rise quiet\n\
    net q fall least 0.100 0.100 0.000 0.000 greatest 0.100 0.100 0.000 0.000\n\
    net a rise least 1.000 1.000 0.000 0.000 greatest 1.000 1.200 0.000 0.000\n\
    net a fall quiet\n\
    net b rise quiet\n\
    net b fall least 1.100 1.100 0.000 0.000 greatest 1.100 1.300 0.000 0.000\n\
    guilty a rise b 1.000 fast no slow possible\n\
    guilty b fall a 1.000 fast no slow possible\n\
    check y rise setup 8.295 8.496\n\
    check y fall setup idle\n\
    check y rise hold 1.004 1.004\n\
    check y fall hold idle\n\
    check z rise setup idle\n\
    check z fall setup 8.200 8.400\n\
    check z rise hold idle\n\
    check z fall hold 1.100 1.100\n\
    path setup z fall 8.200\n\
    from q fall 0.100\n\
    step b fall wire 0.000 delay 1.200\n\
    to wire 0.000\n\
    path hold y rise 1.004\n\
    from p rise 0.000\n\
    step a rise wire 0.000 delay 1.000\n\
    to wire 0.004\n\
    end\n";

/// Lines of words, the design of `one.xt`, and its report.
pub const CHECKS: [Printed; 4] = [
    (
        "solve one.xt\nreplay one.xt --order=5 --workers=2",
        PORTS,
        PORTS_REPORT,
    ),
    ("solve one.xt --kind=checks", GATES, GATES_REPORT),
    ("solve one.xt --kind=checks", PEAK, PEAK_REPORT),
    (
        "solve one.xt --workers=3\nreplay one.xt --order=9 --workers=7",
        PAIR,
        PAIR_REPORT,
    ),
];
