//! Designs as linked texts, with their reports.

/// One source.
pub const ONE: &[u8] = b"\
    xtalk-design 1\n\
    counts 0 1 0\n\
    period none\n\
    net a i 0 0 0 0\n\
    rise 1000 1000 0 0\n\
    fall quiet\n\
    end\n";

pub const ONE_REPORT: &[u8] = b"\
    xtalk 1\n\
    nets 1 couplings 0 pairs 0 levels 1 bound 1\n\
    period none\n\
    net a rise least 1.000 1.000 0.000 0.000 greatest 1.000 1.000 0.000 0.000\n\
    net a fall quiet\n\
    end\n";

/// A design without nets.
pub const EMPTY: &[u8] = b"\
    xtalk-design 1\n\
    counts 0 0 0\n\
    period none\n\
    end\n";

pub const EMPTY_REPORT: &[u8] = b"\
    xtalk 1\n\
    nets 0 couplings 0 pairs 0 levels 0 bound 0\n\
    period none\n\
    end\n";

/// The wires of nets s and t are coupled to nets d and c that the other of the two drives.
pub const CROSS: &[u8] = b"\
    xtalk-design 1\n\
    counts 2 4 0\n\
    period none\n\
    table 1 1\n\
    slews 0\n\
    loads 0\n\
    row 500\n\
    table 1 1\n\
    slews 0\n\
    loads 0\n\
    row 600\n\
    net s i 0 1 1 0\n\
    net t i 0 1 1 0\n\
    net c w 0 0 0 1\n\
    net d w 0 0 0 1\n\
    rise 1000 1000 600 600\n\
    fall quiet\n\
    couple 3 1000\n\
    sink c/A 0 200000000\n\
    rise 1000 1000 600 600\n\
    fall quiet\n\
    couple 2 1000\n\
    sink d/A 0 200000000\n\
    arc 0 0 rise rise 0 1\n\
    arc 1 0 rise rise 0 1\n\
    end\n";

pub const CROSS_REPORT: &[u8] = b"\
    xtalk 1\n\
    nets 4 couplings 2 pairs 2 levels 2 bound 18\n\
    period none\n\
    net s rise least 1.000 1.000 0.600 0.600 greatest 1.000 1.000 0.600 0.600\n\
    net s fall quiet\n\
    net t rise least 1.000 1.000 0.600 0.600 greatest 1.000 1.000 0.600 0.600\n\
    net t fall quiet\n\
    net c rise least 1.700 1.700 0.600 0.600 greatest 1.500 1.700 0.600 0.600\n\
    net c fall quiet\n\
    net d rise least 1.700 1.700 0.600 0.600 greatest 1.500 1.700 0.600 0.600\n\
    net d fall quiet\n\
    guilty s rise d 1.000 fast possible slow no\n\
    guilty t rise c 1.000 fast possible slow no\n\
    end\n";

/// Nets a and b have two fixpoints: in the one they do not slow each other down, in the other they do.
pub const LOAD_PAIR: &[u8] = b"\
    xtalk-design 1\n\
    counts 2 4 0\n\
    period none\n\
    table 1 2\n\
    slews 0\n\
    loads 0 10000\n\
    row 800 2800\n\
    table 1 1\n\
    slews 0\n\
    loads 0\n\
    row 0\n\
    net p i 0 0 1 0\n\
    net q i 0 0 1 0\n\
    net a w 0 1 0 1\n\
    net b w 0 1 0 1\n\
    rise 0 0 0 0\n\
    fall quiet\n\
    sink a/A 0\n\
    rise quiet\n\
    fall 100 100 0 0\n\
    sink b/A 0\n\
    couple 3 1000\n\
    arc 0 0 rise rise 0 1\n\
    couple 2 1000\n\
    arc 1 0 fall fall 0 1\n\
    end\n";

pub const LOAD_PAIR_REPORT: &[u8] = b"\
    xtalk 1\n\
    nets 4 couplings 2 pairs 1 levels 2 bound 10\n\
    period none\n\
    net p rise least 0.000 0.000 0.000 0.000 greatest 0.000 0.000 0.000 0.000\n\
    net p fall quiet\n\
    net q rise quiet\n\
    net q fall least 0.100 0.100 0.000 0.000 greatest 0.100 0.100 0.000 0.000\n\
    net a rise least 1.000 1.000 0.000 0.000 greatest 1.000 1.200 0.000 0.000\n\
    net a fall quiet\n\
    net b rise quiet\n\
    net b fall least 1.100 1.100 0.000 0.000 greatest 1.100 1.300 0.000 0.000\n\
    guilty a rise b 1.000 fast no slow possible\n\
    guilty b fall a 1.000 fast no slow possible\n\
    end\n";

/// The same nets with one input so late that the couplings change nothing, though the envelope has them change it.
pub const APART: &[u8] = b"\
    xtalk-design 1\n\
    counts 2 4 0\n\
    period none\n\
    table 1 2\n\
    slews 0\n\
    loads 0 10000\n\
    row 800 2800\n\
    table 1 1\n\
    slews 0\n\
    loads 0\n\
    row 0\n\
    net p i 0 0 1 0\n\
    net q i 0 0 1 0\n\
    net a w 0 1 0 1\n\
    net b w 0 1 0 1\n\
    rise 0 0 0 0\n\
    fall quiet\n\
    sink a/A 0\n\
    rise quiet\n\
    fall 5000 5000 0 0\n\
    sink b/A 0\n\
    couple 3 1000\n\
    arc 0 0 rise rise 0 1\n\
    couple 2 1000\n\
    arc 1 0 fall fall 0 1\n\
    end\n";

pub const APART_REPORT: &[u8] = b"\
    xtalk 1\n\
    nets 4 couplings 2 pairs 1 levels 2 bound 10\n\
    period none\n\
    net p rise least 0.000 0.000 0.000 0.000 greatest 0.000 0.000 0.000 0.000\n\
    net p fall quiet\n\
    net q rise quiet\n\
    net q fall least 5.000 5.000 0.000 0.000 greatest 5.000 5.000 0.000 0.000\n\
    net a rise least 1.000 1.000 0.000 0.000 greatest 1.000 1.000 0.000 0.000\n\
    net a fall quiet\n\
    net b rise quiet\n\
    net b fall least 6.000 6.000 0.000 0.000 greatest 6.000 6.000 0.000 0.000\n\
    end\n";

/// A window at the end of the range of times.
pub const LATE: &[u8] = b"\
    xtalk-design 1\n\
    counts 0 1 0\n\
    period none\n\
    net a i 0 0 1 0\n\
    rise 70368744177664 70368744177664 0 0\n\
    fall quiet\n\
    sink a 0\n\
    end\n";

pub const LATE_REPORT: &[u8] = b"\
    xtalk 1\n\
    nets 1 couplings 0 pairs 0 levels 1 bound 1\n\
    period none\n\
    net a rise least 70368744177.664 70368744177.664 0.000 0.000 greatest 70368744177.664 70368744177.664 0.000 0.000\n\
    net a fall quiet\n\
    end\n";

/// Nine nets whose two fixpoints differ.
pub const DIFFER: &[u8] = b"\
    xtalk-design 1\n\
    counts 5 9 0\n\
    period none\n\
    table 1 1\n\
    slews 0\n\
    loads 0\n\
    row 500\n\
    table 1 1\n\
    slews 0\n\
    loads 0\n\
    row 600\n\
    table 1 1\n\
    slews 0\n\
    loads 0\n\
    row 300\n\
    table 1 1\n\
    slews 0\n\
    loads 0\n\
    row 100\n\
    table 1 1\n\
    slews 0\n\
    loads 0\n\
    row 700\n\
    net y w 0 1 0 6\n\
    net p i 0 1 1 0\n\
    net q i 0 1 1 0\n\
    net r i 0 2 1 0\n\
    net u i 0 1 0 0\n\
    net a w 0 2 1 2\n\
    net b w 0 2 1 2\n\
    net c w 0 1 1 2\n\
    net d w 0 1 1 4\n\
    couple 4 100\n\
    arc 7 0 rise fall 2 3\n\
    arc 7 0 fall rise 2 3\n\
    arc 8 0 rise rise 3 1\n\
    arc 8 0 rise fall 3 1\n\
    arc 8 0 fall rise 3 1\n\
    arc 8 0 fall fall 3 1\n\
    rise 1000 1000 600 600\n\
    fall 4000 4200 400 400\n\
    couple 6 1000\n\
    sink a/A 0 200000000\n\
    rise 3000 3000 400 500\n\
    fall 1000 1000 600 600\n\
    couple 5 1000\n\
    sink b/A 0 200000000\n\
    rise quiet\n\
    fall 1150 1180 101 101\n\
    couple 5 400\n\
    couple 6 400\n\
    sink c/A 50000000 60000000 60000000\n\
    rise quiet\n\
    fall quiet\n\
    couple 0 100\n\
    couple 2 1000\n\
    couple 3 400\n\
    sink d/A 30000000 40000000 90000000\n\
    arc 1 0 rise fall 0 1\n\
    arc 1 0 fall rise 0 1\n\
    couple 1 1000\n\
    couple 3 400\n\
    sink d/B 20000000 100000000 50000000\n\
    arc 2 0 rise fall 0 1\n\
    arc 2 0 fall rise 0 1\n\
    couple 8 800\n\
    sink y/A 1999999 35000000\n\
    arc 3 0 fall rise 3 4\n\
    arc 3 0 fall fall 3 4\n\
    couple 7 800\n\
    sink y/B 0 45000000\n\
    arc 5 0 rise rise 2 3\n\
    arc 5 0 fall fall 2 3\n\
    arc 6 0 rise rise 2 3\n\
    arc 6 0 fall fall 2 3\n\
    end\n";

/// As a plain program finds it, written from the definitions alone.
pub const DIFFER_REPORT: &[u8] = b"\
    xtalk 1\n\
    nets 9 couplings 12 pairs 6 levels 4 bound 100\n\
    period none\n\
    net y rise least 1.756 5.505 0.100 0.600 greatest 1.661 5.550 0.100 0.600\n\
    net y fall least 1.756 5.505 0.100 0.600 greatest 1.661 5.550 0.100 0.600\n\
    net p rise least 1.000 1.000 0.600 0.600 greatest 1.000 1.000 0.600 0.600\n\
    net p fall least 4.000 4.200 0.400 0.400 greatest 4.000 4.200 0.400 0.400\n\
    net q rise least 3.000 3.000 0.400 0.500 greatest 3.000 3.000 0.400 0.500\n\
    net q fall least 1.000 1.000 0.600 0.600 greatest 1.000 1.000 0.600 0.600\n\
    net r rise quiet\n\
    net r fall least 1.150 1.180 0.101 0.101 greatest 1.150 1.180 0.101 0.101\n\
    net u rise quiet\n\
    net u fall quiet\n\
    net a rise least 4.500 4.900 0.600 0.600 greatest 4.500 4.900 0.600 0.600\n\
    net a fall least 1.700 1.700 0.600 0.600 greatest 1.500 1.700 0.600 0.600\n\
    net b rise least 1.700 1.700 0.600 0.600 greatest 1.500 1.700 0.600 0.600\n\
    net b fall least 3.700 3.700 0.600 0.600 greatest 3.700 3.700 0.600 0.600\n\
    net c rise least 1.420 1.450 0.700 0.700 greatest 1.360 1.510 0.700 0.700\n\
    net c fall least 1.420 1.450 0.700 0.700 greatest 1.360 1.510 0.700 0.700\n\
    net d rise least 2.170 5.360 0.100 0.100 greatest 1.870 5.360 0.100 0.100\n\
    net d fall least 2.160 4.170 0.100 0.100 greatest 1.830 4.170 0.100 0.100\n\
    unconstrained u\n\
    guilty p rise b 1.000 fast possible slow no\n\
    guilty p fall b 1.000 fast sure slow no\n\
    guilty q fall a 1.000 fast possible slow no\n\
    guilty r fall a 0.400 fast possible slow no\n\
    guilty r fall b 0.400 fast no slow possible\n\
    guilty a fall q 1.000 fast possible slow no\n\
    guilty a fall r 0.400 fast possible slow no\n\
    guilty b rise p 1.000 fast possible slow no\n\
    guilty b rise r 0.400 fast no slow possible\n\
    guilty b fall p 1.000 fast sure slow no\n\
    guilty c rise d 0.800 fast possible slow possible\n\
    guilty c fall d 0.800 fast possible slow possible\n\
    guilty d rise c 0.800 fast possible slow possible\n\
    guilty d fall c 0.800 fast possible slow possible\n\
    end\n";
