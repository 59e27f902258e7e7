//! The program `xtalk`: its report goes to standard output, and the line of a refusal to standard error.
#![tactic(auto)]

use std::process::ExitCode;
use xtalk_edge::run;

fn main(rt: HostRuntime) -> ExitCode {
    let ended = run(&rt, rt, rt, rt.stdout(), rt.stderr());
    ExitCode::from(ended.status)
}
