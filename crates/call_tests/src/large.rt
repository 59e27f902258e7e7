//! Large designs: a long chain of nets, many checks, many coupled gates in threads, as many nets as there may be, and a
//! design and its report as files of the system.

use crate::call::{Table, compare};
use crate::patterns::text_of;
use std::alloc::{AllocError, Global};
use std::fs::File;
use std::test::Fail;
use std::thread::Threads;
use std::{fs, process};
use xtalk_edge::{Ended, run as run_edge};

/// The first lines of a chain of nets after the first, to those of its two tables: a delay of 1 fs and a slew of 0.
/// The first net rises at 0 and never falls; each later one rises 1 fs after the one before it.
const CHAIN: &str = "\
xtalk-design 1
counts 2 ⟦2⟧ 0
period none
table 1 1
slews 0
loads 0
row 1
table 1 1
slews 0
loads 0
row 0
net n0 i 0 0 1 0
⟨⟦1⟧:net n#1+1# w 0 0 1 1⏎⟩\
net n⟦3⟧ w 0 0 0 1
rise 0 0 0 0
fall quiet
sink s0 0
⟨⟦1⟧:sink s#1+1# 0⏎arc ## 0 rise rise 0 1⏎⟩\
arc ⟦1⟧ 0 rise rise 0 1
end
";

/// The report of a chain: a net is as many fs late as there are nets before it, whatever runs look at.
const CHAIN_REPORT: &str = "\
0 xtalk 1
nets ⟦2⟧ couplings 0 pairs 0 levels ⟦2⟧ bound ⟦2⟧
period none
⟨⟦3⟧:net n## rise least #ps# #ps# 0.000 0.000 greatest #ps# #ps# 0.000 0.000⏎net n## fall quiet⏎⟩\
net n⟦3⟧ rise least ⟦4⟧ ⟦4⟧ 0.000 0.000 greatest ⟦4⟧ ⟦4⟧ 0.000 0.000
net n⟦3⟧ fall quiet
end
";

/// Words; how many nets lie between the first and the last of a chain, how many it has, how many before the last; and
/// when the last rises.
const CHAINS: &str = "\
solve one.xt | 0 | 2 | 1 | 0.001
solve one.xt | 1 | 3 | 2 | 0.002
solve one.xt | 199998 | 200000 | 199999 | 199.999
";

/// A chain of one net.
const ALONE: &str = "\
xtalk-design 1
counts 2 1 0
period none
table 1 1
slews 0
loads 0
row 1
table 1 1
slews 0
loads 0
row 0
net n0 i 0 0 0 0
rise 0 0 0 0
fall quiet
end
";

/// Its report.
const ALONE_REPORT: &str = "\
0 xtalk 1
nets 1 couplings 0 pairs 0 levels 1 bound 1
period none
net n0 rise least 0.000 0.000 0.000 0.000 greatest 0.000 0.000 0.000 0.000
net n0 fall quiet
end
";

/// One net with a port of many sinks, each with a check that asks for 0.500 ps before the period's end.
const PORTS: &str = "\
xtalk-design 1
counts 0 1 ⟦1⟧
period 10000
net a i 0 0 ⟦1⟧ 0
rise 1000 1200 0 0
fall quiet
⟨⟦1⟧:sink y## 0⏎⟩⟨⟦1⟧:port setup y## 0 ## 500 -⏎⟩\
end
";

/// Its report: each slack is 10.000 - 0.500 - 1.200 ps, and the first check is the worst.
const PORTS_REPORT: &str = "\
0 xtalk 1
nets 1 couplings 0 pairs 0 levels 1 bound 1
period 10.000
net a rise least 1.000 1.200 0.000 0.000 greatest 1.000 1.200 0.000 0.000
net a fall quiet
⟨⟦1⟧:check y## rise setup 8.300 8.300⏎⟩\
path setup y0 rise 8.300
from a rise 1.200
to wire 0.000
end
";

/// Words, and how many checks there are.
const CHECKS: &str = "\
solve one.xt | 1
solve one.xt | 5000
";

/// Coupled gates as in LOAD_PAIR, many of them side by side: of each pair the sources p and q, and the gates a and b,
/// which are coupled to each other.
const PAIRS: &str = "\
xtalk-design 1
counts 2 5000 0
period none
table 1 2
slews 0
loads 0 10000
row 800 2800
table 1 1
slews 0
loads 0
row 0
⟨1250:net p## i 0 0 1 0⏎net q## i 0 0 1 0⏎net a## w 0 1 0 1⏎net b## w 0 1 0 1⏎⟩\
⟨1250:rise 0 0 0 0⏎fall quiet⏎sink a##/A 0⏎rise quiet⏎fall 100 100 0 0⏎sink b##/A 0⏎\
couple #4+3# 1000⏎arc #4+0# 0 rise rise 0 1⏎couple #4+2# 1000⏎arc #4+1# 0 fall fall 0 1⏎⟩\
end
";

/// Their report: that of each pair, and a bound of 2 levels and 4 times 1,250 pairs, and 1 more.
const PAIRS_REPORT: &str = "\
0 xtalk 1
nets 5000 couplings 2500 pairs 1250 levels 2 bound 10002
period none
⟨1250:\
net p## rise least 0.000 0.000 0.000 0.000 greatest 0.000 0.000 0.000 0.000⏎\
net p## fall quiet⏎\
net q## rise quiet⏎\
net q## fall least 0.100 0.100 0.000 0.000 greatest 0.100 0.100 0.000 0.000⏎\
net a## rise least 1.000 1.000 0.000 0.000 greatest 1.000 1.200 0.000 0.000⏎\
net a## fall quiet⏎\
net b## rise quiet⏎\
net b## fall least 1.100 1.100 0.000 0.000 greatest 1.100 1.300 0.000 0.000⏎⟩\
⟨1250:\
guilty a## rise b## 1.000 fast no slow possible⏎\
guilty b## fall a## 1.000 fast no slow possible⏎⟩\
end
";

/// Words: workers in threads of their own, and others that take turns.
const WORKERS: &str = "\
solve one.xt
solve one.xt --workers 2
solve one.xt --workers 7
solve one.xt --workers 64
replay one.xt --order 7 --workers 3
";

/// Nets that never switch: the beginning of their names, how many there are.
const QUIET: &str = "\
xtalk-design 1
counts 0 ⟦2⟧ 0
period none
⟨⟦2⟧:net ⟦1⟧## w 0 0 0 0⏎⟩⟨⟦2⟧:rise quiet⏎fall quiet⏎⟩\
end
";

/// The report of as many nets as there may be.
const QUIET_REPORT: &str = "\
0 xtalk 1
nets ⟦2⟧ couplings 0 pairs 0 levels 1 bound 1
period none
⟨⟦2⟧:net ⟦1⟧## rise quiet⏎net ⟦1⟧## fall quiet⏎⟩\
end
";

/// One net that never switches, whose name has this many letters.
const NAMED: &str = "\
xtalk-design 1
counts 0 1 0
period none
net ⟨⟦1⟧:n⟩ w 0 0 0 0
rise quiet
fall quiet
end
";

/// Its report.
const NAMED_REPORT: &str = "\
0 xtalk 1
nets 1 couplings 0 pairs 0 levels 1 bound 1
period none
net ⟨⟦1⟧:n⟩ rise quiet
net ⟨⟦1⟧:n⟩ fall quiet
end
";

/// All tables. The last of 200,000 nets of a chain rises at 199.999 ps; a name may have 2,049 bytes, and a design
/// 262,144 nets.
const LARGE: [Table; 8] = [
    (ALONE, ALONE_REPORT, "solve one.xt"),
    (CHAIN, CHAIN_REPORT, CHAINS),
    (PORTS, PORTS_REPORT, CHECKS),
    (PAIRS, PAIRS_REPORT, WORKERS),
    (QUIET, QUIET_REPORT, "solve one.xt | n | 262144"),
    (QUIET, "5 limit: nets 262145⏎", "solve one.xt | n | 262145"),
    (NAMED, NAMED_REPORT, "solve one.xt | 2049"),
    (NAMED, "3 one.xt:4: X3⏎", "solve one.xt | 2050"),
];

#[test]
fn large_designs_have_their_reports(rt: HostRuntime) -> Result<(), Fail> {
    compare(&rt, rt.alloc(), &LARGE)
}

/// The path of a file of the system whose name has 200 bytes, and these first.
fn long_path(alloc: Global, number: u32, first: &str) -> Result<String, AllocError> {
    let mut path = format!(in alloc; "/tmp/{first}-{number}-")?;
    let at = path.len();
    for _ in at..205 {
        path.push('x')?;
    }
    Ok(path)
}

/// Whether the program solves the file of this path into the file of that path, which has this report then.
fn solves_file<R: Threads + Sync + Alloc<A = Global>>(
    threads: &R,
    rt: HostRuntime,
    path: &str,
    into: &str,
    report: &str,
) -> Result<bool, Fail> {
    let alloc = rt.alloc();
    let mut words = Vec::new(alloc);
    words.push(String::from_str(alloc, "solve")?)?;
    words.push(String::from_str(alloc, path)?)?;
    let out = File::create(&rt, into)?;
    let Ended {
        status,
        files,
        out,
        err,
    } = run_edge(threads, Some(words), rt, out, Vec::new(alloc));
    drop(files);
    drop(out);
    let printed = fs::read(&rt, into)?;
    Ok(status == 0 && printed.as_slice() == report.as_bytes() && err.into_stream().is_empty())
}

/// Whether a chain of 20,000 nets is solved from a file of the system into another.
fn solves_files<R: Threads + Sync + Alloc<A = Global>>(
    threads: &R,
    rt: HostRuntime,
) -> Result<bool, Fail> {
    let alloc = rt.alloc();
    let number = process::id(rt.process());
    let (path, into) = (
        long_path(alloc, number, "xtalk")?,
        long_path(alloc, number, "report")?,
    );
    let row = "| 19998 | 20000 | 19999 | 19.999";
    let (text, report) = (
        text_of(alloc, CHAIN, row)?,
        text_of(alloc, CHAIN_REPORT, row)?,
    );
    fs::write(&rt, path.as_str(), text.as_bytes())?;
    let report = report.as_str().strip_prefix("0 ").unwrap_or("?");
    let is_solved = solves_file(threads, rt, path.as_str(), into.as_str(), report)?;
    fs::remove_file(&rt, path.as_str())?;
    fs::remove_file(&rt, into.as_str())?;
    Ok(is_solved)
}

// A text of 1.2 MB and a report of 2 MB, in files with names of 200 bytes.
#[test]
fn solves_a_file_of_the_system_into_another(rt: HostRuntime) -> Result<(), Fail> {
    assert!(rt; solves_files(&rt, rt)?);
    Ok(())
}
