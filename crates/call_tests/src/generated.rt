//! The summaries of generated designs. The expected ones are those of `bench/gen.py`, a plain program from the
//! definition alone.

use crate::call::{calm, prints, run};
use std::alloc::Global;
use std::test::Fail;
use std::thread::Threads;

/// Words, and the summary that they ask for, with an empty line between it and the next ones.
const SUMMARIES: &str = "\
gen --number 7 --nets 1
xtalk gen 1
nets 1 couplings 0 pairs 0 levels 1 bound 1
live 2 wider 0 guilty 0
least 24.000
greatest 24.000
end

gen --number 7 --nets 2
xtalk gen 1
nets 2 couplings 2 pairs 1 levels 2 bound 10
live 4 wider 0 guilty 4
least 55.988
greatest 55.988
end

gen --number 7 --nets 9
xtalk gen 1
nets 9 couplings 18 pairs 8 levels 6 bound 198
live 18 wider 0 guilty 36
least 803.280
greatest 803.280
end

gen --number 7 --nets 10
xtalk gen 1
nets 10 couplings 20 pairs 10 levels 6 bound 246
live 20 wider 0 guilty 40
least 917.380
greatest 917.380
end

gen --number 7 --nets 11
xtalk gen 1
nets 11 couplings 20 pairs 9 levels 7 bound 259
live 22 wider 0 guilty 40
least 1176.694
greatest 1176.694
end

gen --number 18446744073709551615 --nets 2
xtalk gen 1
nets 2 couplings 2 pairs 1 levels 2 bound 10
live 4 wider 0 guilty 4
least 20.962
greatest 20.962
end

gen --number 18446744073709551615 --nets 9
xtalk gen 1
nets 9 couplings 16 pairs 7 levels 6 bound 174
live 18 wider 0 guilty 28
least 662.776
greatest 662.776
end

gen --number 18446744073709551615 --nets 10
xtalk gen 1
nets 10 couplings 16 pairs 8 levels 6 bound 198
live 20 wider 0 guilty 24
least 773.236
greatest 773.236
end

gen --number 18446744073709551615 --nets 11
xtalk gen 1
nets 11 couplings 22 pairs 11 levels 7 bound 315
live 22 wider 0 guilty 36
least 1040.824
greatest 1040.824
end

gen --number 7 --nets 1000
xtalk gen 1
nets 1000 couplings 2000 pairs 1000 levels 14 bound 56014
live 2000 wider 212 guilty 3728
least 252735.504
greatest 252803.084
end

gen --number 7 --nets 1001
xtalk gen 1
nets 1001 couplings 2000 pairs 1000 levels 14 bound 56014
live 2002 wider 292 guilty 3720
least 252154.086
greatest 252353.156
end

gen --number 0 --nets 1000
xtalk gen 1
nets 1000 couplings 2000 pairs 1000 levels 13 bound 52013
live 2000 wider 152 guilty 3772
least 255125.148
greatest 255205.386
end

gen --number 0 --nets 1001
xtalk gen 1
nets 1001 couplings 2002 pairs 1000 levels 13 bound 52013
live 2002 wider 134 guilty 3772
least 258456.898
greatest 258575.148
end
";

/// Words, each in another order, for the summary of the one net of number 7.
const ORDERS: &str = "\
gen --nets=01 --workers 8 --number 7
xtalk gen 1
nets 1 couplings 0 pairs 0 levels 1 bound 1
live 2 wider 0 guilty 0
least 24.000
greatest 24.000
end

gen --workers=1 --number=00007 --nets 1
xtalk gen 1
nets 1 couplings 0 pairs 0 levels 1 bound 1
live 2 wider 0 guilty 0
least 24.000
greatest 24.000
end

gen --number 7 --nets=1 --workers=64
xtalk gen 1
nets 1 couplings 0 pairs 0 levels 1 bound 1
live 2 wider 0 guilty 0
least 24.000
greatest 24.000
end
";

/// Whether the words of the first line print the summary after it.
fn summarises<R: Threads + Sync>(rt: &R, alloc: Global, row: &str) -> Result<bool, Fail> {
    let (words, summary) = row.split_once('\n').unwrap_or((row, ""));
    let summary = summary.trim();
    let summary = format!(in alloc; "{summary}\n")?;
    prints(rt, alloc, words, b"", summary.as_bytes())
}

#[test]
fn summarises_designs_of_a_number(rt: HostRuntime) -> Result<(), Fail> {
    for rows in [SUMMARIES, ORDERS] {
        for row in rows.split("\n\n") {
            assert!(rt; summarises(&rt, rt.alloc(), row)?, "{row}");
        }
    }
    Ok(())
}

/// Whether two lines of words print the same.
fn print_alike<R: Threads + Sync>(
    rt: &R,
    alloc: Global,
    line: &str,
    other: &str,
) -> Result<bool, Fail> {
    let ended = run(rt, alloc, line, b"", calm(alloc))?;
    Ok(ended.status == 0 && prints(rt, alloc, other, b"", ended.out.bytes())?)
}

#[test]
fn eight_workers_print_what_one_does(rt: HostRuntime) -> Result<(), Fail> {
    let line = "gen --number 7 --nets 20000";
    assert!(rt;
        print_alike(
            &rt,
            rt.alloc(),
            line,
            "gen --number 7 --nets 20000 --workers 8"
        )?
    );
    Ok(())
}
