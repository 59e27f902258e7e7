//! The words of each command: what they ask for, and which are outside the grammar.

use crate::call::{each_prints, field, refuses, words_of};
use crate::designs::{ONE, ONE_REPORT};
use report_text::ReportKind;
use std::alloc::{AllocError, Global};
use std::test::Fail;
use xt_model::Miller;
use xtalk_top::{BlockFiles, Engine, Job, parse_words};

/// The Miller numbers that words give, or `-`.
fn miller_in_words(alloc: Global, miller: &Option<Miller>) -> Result<String, AllocError> {
    match miller {
        Some(miller) => {
            let (low, mid, high) = (miller.low(), miller.mid(), miller.high());
            format!(in alloc; "{low},{mid},{high}")
        }
        None => format!(in alloc; "-"),
    }
}

fn kind_in_words(kind: ReportKind) -> &'static str {
    match kind {
        ReportKind::All => "all",
        ReportKind::Checks => "checks",
        ReportKind::Noise => "noise",
    }
}

fn files_in_words(alloc: Global, files: &BlockFiles) -> Result<String, AllocError> {
    let (lib, netlist) = (files.lib.as_str(), files.netlist.as_str());
    let (spef, sdc) = (files.spef.as_str(), files.sdc.as_str());
    format!(in alloc; "{lib} {netlist} {spef} {sdc}")
}

/// The engine, where it is not that of rounds.
fn engine_in_words(engine: Engine) -> &'static str {
    match engine {
        Engine::Rounds => "",
        Engine::Marks => " marks",
    }
}

/// What a job is to do: the files of a text and of edits, or those of a block; the order of `replay`; how many workers;
/// which report; Miller numbers; the engine.
fn in_words(alloc: Global, job: &Job) -> Result<String, AllocError> {
    match job {
        Job::Solve(job) => {
            let miller = miller_in_words(alloc, &job.miller)?;
            let (file, kind) = (job.file.as_str(), kind_in_words(job.kind));
            let (workers, miller) = (job.workers, miller.as_str());
            let engine = engine_in_words(job.engine);
            format!(in alloc; "solve {file} {workers} {kind} {miller}{engine}")
        }
        Job::Replay(job) => {
            let miller = miller_in_words(alloc, &job.miller)?;
            let (file, order) = (job.file.as_str(), job.order);
            let (workers, miller) = (job.workers, miller.as_str());
            format!(in alloc; "replay {file} {order} {workers} {miller}")
        }
        Job::Report(job) => {
            let files = files_in_words(alloc, &job.files)?;
            let miller = miller_in_words(alloc, &job.miller)?;
            let (files, kind) = (files.as_str(), kind_in_words(job.kind));
            let (workers, miller) = (job.workers, miller.as_str());
            let engine = engine_in_words(job.engine);
            format!(in alloc; "report {files} {workers} {kind} {miller}{engine}")
        }
        Job::Link(job) => {
            let files = files_in_words(alloc, &job.files)?;
            let miller = miller_in_words(alloc, &job.miller)?;
            let (files, miller) = (files.as_str(), miller.as_str());
            format!(in alloc; "link {files} {miller}")
        }
        Job::Eco(job) => {
            let miller = miller_in_words(alloc, &job.miller)?;
            let (file, edits) = (job.file.as_str(), job.edits.as_str());
            let (workers, miller) = (job.workers, miller.as_str());
            format!(in alloc; "eco {file} {edits} {workers} {miller}")
        }
        Job::Gen(_) => format!(in alloc; "gen"),
    }
}

/// Jobs, and words that ask for them.
const JOBS: &str = "\
solve f 1 all - | solve f
solve f 2 all - | solve f --workers=002
solve f 1 all - | solve f --workers=1 --kind=all
solve f 64 checks - | solve --kind checks f --workers 64
solve f 3 checks - | solve --workers 3 --kind=checks f
solve f 1 noise - | solve f --kind noise
solve f 7 all - | solve --workers=00000000000000000007 f
eco f e 1 - | eco f e
eco f e 64 - | eco --workers=064 f e
eco e f 3 0,4,12 | eco e --miller 0,4,12 f --workers 3
eco f f 1 4,4,4 | eco f f --miller=4,04,4
replay f 5 3 - | replay f --order 5 --workers 3
replay f 0 64 - | replay --workers=064 --order=0 f
replay f 18446744073709551615 1 - | replay --order=18446744073709551615 f --workers=1
solve f 1 all 0,4,12 | solve --miller 0,4,12 f
solve f 1 all 0,0,0 | solve --miller 0,0,0 f
solve f 1 all 4,5,6 | solve --miller 04,5,00000000000000000006 f
report a b c d 1 all - | report a b c d
report a b c d 8 all - | report --workers=8 a b c d
report a b c d 1 checks - | report a b --kind checks c d
report a b c d 2 noise 4,4,4 | report a b c --kind=noise --miller 4,4,4 d --workers 2
report a b c d 1 all 4,4,4 | report a --miller=4,04,004 b c d
link a b c d 0,4,12 | link a b --miller 0,4,12 c d
solve f 1 all - marks | solve --engine marks f
solve f 2 noise - | solve f --engine=rounds --workers 2 --kind noise
report a b c d 3 all - marks | report a --engine=marks b c --workers 3 d
";

/// What the words of a line ask for.
fn job_of(alloc: Global, line: &str) -> Result<String, Fail> {
    let words = words_of(alloc, line)?;
    let job = parse_words(alloc, &words)?;
    Ok(in_words(alloc, &job)?)
}

#[test]
fn words_ask_for_jobs(rt: HostRuntime) -> Result<(), Fail> {
    for row in JOBS.lines() {
        let job = job_of(rt.alloc(), field(row, 1))?;
        assert!(rt; job.as_str() == field(row, 0), "{job} at {row}");
    }
    Ok(())
}

/// Words around the file's name.
const AROUND: &str = "\
solve one.xt --workers=002
solve --workers 2 one.xt --kind=all
solve --kind all --workers=64 one.xt
";

#[test]
fn takes_options_around_the_file(rt: HostRuntime) -> Result<(), Fail> {
    assert!(rt; each_prints(&rt, rt.alloc(), AROUND, ONE, ONE_REPORT)?);
    Ok(())
}

/// Words outside the grammar, in the first line none: among them Miller numbers that are not three, do not rise, or
/// pass their limit.
const OUTSIDE: &str = "
solve
solve ∅
solve -x
solve - one.xt
solve -- one.xt
solve --help
solve one.xt --version
Solve one.xt
report one.xt
report a b c
report a b c d e
report a b c ∅ d
report a b c d --order=0
report a b c d --miller=0,4,13
link a b c
link a b c d e
link a b c d --workers=1
link a b c d --kind=all
link a b c d --kind noise
solve one.xt one.xt
solve one.xt --workers
solve one.xt --workers=
solve one.xt --workers 0
solve one.xt --workers 65
solve one.xt --workers +2
solve one.xt --workers -2
solve one.xt --workers=-2
solve one.xt --workers=000000000000000000001
solve one.xt --workers 2 --workers 2
solve --workers=2 one.xt --workers 2
solve one.xt --workers --kind=all
solve one.xt --kind ∅
solve one.xt --kind=check
solve one.xt --kind=Noise
solve one.xt --kind all --kind noise
solve one.xt --kin=all
solve one.xt --engine
solve one.xt --engine ∅
solve one.xt --engine=Marks
solve one.xt --engine mark
solve one.xt --engine marks --engine=rounds
link a b c d --engine marks
replay one.xt --order=5 --workers=3 --engine=marks
solve one.xt --miller 4,0,8
solve one.xt --miller 0,9,8
solve one.xt --miller 0,4,13
solve one.xt --miller 0,4
solve one.xt --miller 0,4,8,9
solve one.xt --miller ,4,8
solve one.xt --miller 0,4,
solve one.xt --miller 0,␣4,8
solve one.xt --miller 0,4,+8
solve one.xt --miller 0,4,000000000000000000008
solve one.xt --miller ∅
replay one.xt
replay one.xt --order 5
replay one.xt --workers 3
replay --order 5 --workers 3
replay one.xt one.xt --order=5 --workers=3
replay one.xt --workers=3 --order
replay one.xt --order=5 --workers=0
replay one.xt --order=5 --workers=65
replay one.xt --order=5 --workers=3 --order=5
replay one.xt --order=18446744073709551616 --workers=3
replay one.xt --order=5 --workers=3 --kind=all
replay one.xt --order=5 --workers=3 --kind noise
replay one.xt --order=5 --workers=3 --miller=4,0,8
eco one.xt
eco one.xt edits edits
eco one.xt ∅
eco ∅ edits
eco one.xt -
eco one.xt edits --kind all
eco one.xt edits --order 5
eco one.xt edits --engine marks
eco one.xt edits --workers 0
eco one.xt edits --workers 65
eco one.xt edits --miller 0,4
eco one.xt edits --miller=4,4,4 --miller=4,4,4
Eco one.xt edits
gen
gen --number 7
gen --nets 1
gen --number 7 --nets 0
gen --number 7 --nets 100001
gen --number 18446744073709551616 --nets 1
gen --number 7 --nets 1 --workers 65
gen --number 7 --nets 1 f
gen --number 7 --nets 1 --nets 1
gen --number 7 --nets 1 --kind all
gen --number 7 --nets 1 --kind noise
";

#[test]
fn refuses_words_outside_the_grammar(rt: HostRuntime) -> Result<(), Fail> {
    for words in OUTSIDE.lines() {
        let line = b"xtalk: bad command line\n";
        assert!(rt; refuses(&rt, rt.alloc(), words, ONE, 2, line)?, "{words}");
    }
    Ok(())
}
