//! The commands, and the jobs that they ask for.

ghost use Rattle.std.specs.Prelude.{◌≡◌, ◌⊎◌, IfOk, None, Some, option_map};
ghost use Rattle.clap.specs.Words.{first_value, found_of};
ghost use Rattle.command_grammar.specs.Forms.{form_of};
ghost use Rattle.command_line.specs.Words;
ghost use Rattle.command_line.specs.Words.{Reads, bytes_of, job_of};

use crate::file_name::FileName;
use crate::values::{
    Engine, engine_or_rounds, kind_or_all, miller_if_said, net_count, number, worker_count,
    workers_or_one,
};
use clap::ArgMatches;
use command_grammar::{CommandRule, WordsFault, read};
use report_kind::ReportKind;
use std::alloc::Global;
use xt_model::Miller;

/// What the words ask for.
#[derive(Debug, Drop)]
pub enum Job {
    /// The report of the design that the four files of a block make.
    Report(ReportJob),
    /// The report of the design in a linked text.
    Solve(SolveJob),
    /// The same report, by runs of many workers in an order that a number picks.
    Replay(ReplayJob),
    /// The report of the design in a linked text after edits of its layout.
    Eco(EcoJob),
    /// The linked text of the design that the four files of a block make.
    Link(LinkJob),
    /// The summary of a generated design.
    Gen(GenJob),
}

/// The files of a block: a Liberty library, a structural Verilog netlist, SPEF parasitics and SDC constraints.
#[derive(Debug, Drop)]
pub struct BlockFiles {
    pub lib: FileName,
    pub netlist: FileName,
    pub spef: FileName,
    pub sdc: FileName,
}

/// A block to link and to solve: by how many workers, which report of it, by which Miller numbers in place of the
/// classical ones, and by which engine.
#[derive(Debug, Drop)]
pub struct ReportJob {
    pub files: BlockFiles,
    pub workers: u32,
    pub kind: ReportKind,
    pub miller: Option<Miller>,
    pub engine: Engine,
}

/// A block to link, and by which Miller numbers in place of the classical ones.
#[derive(Debug, Drop)]
pub struct LinkJob {
    pub files: BlockFiles,
    pub miller: Option<Miller>,
}

/// A linked text to solve: by how many workers, which report of it, by which Miller numbers in place of its own, and by
/// which engine.
#[derive(Debug, Drop)]
pub struct SolveJob {
    pub file: FileName,
    pub workers: u32,
    pub kind: ReportKind,
    pub miller: Option<Miller>,
    pub engine: Engine,
}

/// A linked text to solve: by how many workers, from 1 to 64, from which number their order is picked, and by which
/// Miller numbers in place of its own.
#[derive(Debug, Drop)]
pub struct ReplayJob {
    pub file: FileName,
    pub order: u64,
    pub workers: u32,
    pub miller: Option<Miller>,
}

/// A linked text, and a text of edits that are made one after another: by how many workers the design is solved that is
/// left, and by which Miller numbers in place of its own.
#[derive(Debug, Drop)]
pub struct EcoJob {
    pub file: FileName,
    pub edits: FileName,
    pub workers: u32,
    pub miller: Option<Miller>,
}

/// A design to generate and to solve: of which number, of how many nets, from 1 to 100,000, and by how many workers.
#[derive(Debug, Drop)]
pub struct GenJob {
    pub number: u64,
    pub nets: u32,
    pub workers: u32,
}

/// What the options of `report` and `solve` say: by how many workers, which report, by which Miller numbers in place of
/// the design's own, and by which engine.
#[derive(Clone, Copy)]
struct SolveOptions {
    workers: u32,
    kind: ReportKind,
    miller: Option<Miller>,
    engine: Engine,
}

/// The command that the first word names.
#[derive(Clone, Copy)]
enum CommandName {
    Report,
    Solve,
    Replay,
    Eco,
    Link,
    Gen,
}

// ---- the table

const BLOCK: &'static [&'static str] = &["lib", "netlist", "spef", "sdc"];

const REPORT: CommandRule = CommandRule {
    positionals: BLOCK,
    options: &["workers", "kind", "miller", "engine"],
};

const SOLVE: CommandRule = CommandRule {
    positionals: &["file"],
    options: &["workers", "kind", "miller", "engine"],
};

const REPLAY: CommandRule = CommandRule {
    positionals: &["file"],
    options: &["order", "workers", "miller"],
};

const ECO: CommandRule = CommandRule {
    positionals: &["file", "edits"],
    options: &["workers", "miller"],
};

const LINK: CommandRule = CommandRule {
    positionals: BLOCK,
    options: &["miller"],
};

const GEN: CommandRule = CommandRule {
    positionals: &[],
    options: &["number", "nets", "workers"],
};

// The command of this name.
fn command_named(word: &str) -> Option<CommandName>
    ensures { result ≡ Words.command_named word.now }
{
    match word {
        "report" => Some(CommandName::Report),
        "solve" => Some(CommandName::Solve),
        "replay" => Some(CommandName::Replay),
        "eco" => Some(CommandName::Eco),
        "link" => Some(CommandName::Link),
        "gen" => Some(CommandName::Gen),
        _ => None,
    }
}

// What may follow the word of the command.
fn rule_of(command: CommandName) -> CommandRule
    ensures { form_of result ≡ Words.form_of_command command }
{
    match command {
        CommandName::Report => REPORT,
        CommandName::Solve => SOLVE,
        CommandName::Replay => REPLAY,
        CommandName::Eco => ECO,
        CommandName::Link => LINK,
        CommandName::Gen => GEN,
    }
}

// ---- jobs

// The name of a file, where the words have one.
fn file_name(alloc: Global, word: Option<&str>) -> Result<FileName, WordsFault>
    ensures { Reads (option_map (λ w. w.now) word.entry) result }
{
    let Some(word) = word else {
        return Err(WordsFault::Bad);
    };
    match String::from_str(alloc, word) {
        Ok(name) => Ok(FileName::new(name)),
        Err(_) => Err(WordsFault::NoMemory),
    }
}

// The files of a block, where the words have all four.
fn block_files(alloc: Global, given: &ArgMatches) -> Result<BlockFiles, WordsFault>
    ensures { Reads (Words.block_files (first_value (found_of given.now))) result }
{
    Ok(BlockFiles {
        lib: file_name(alloc, given.get_str("lib"))?,
        netlist: file_name(alloc, given.get_str("netlist"))?,
        spef: file_name(alloc, given.get_str("spef"))?,
        sdc: file_name(alloc, given.get_str("sdc"))?,
    })
}

// What the options of `report` and `solve` say.
fn solve_options(given: &ArgMatches) -> Option<SolveOptions>
    ensures { result ≡ Words.solve_options (first_value (found_of given.now)) }
{
    Some(SolveOptions {
        workers: workers_or_one(given.get_str("workers"))?,
        kind: kind_or_all(given.get_str("kind"))?,
        miller: miller_if_said(given.get_str("miller"))?,
        engine: engine_or_rounds(given.get_str("engine"))?,
    })
}

fn report_job(alloc: Global, given: &ArgMatches) -> Result<Job, WordsFault>
    ensures { Reads (Words.report_job (first_value (found_of given.now))) result }
{
    let Some(options) = solve_options(given) else {
        return Err(WordsFault::Bad);
    };
    Ok(Job::Report(ReportJob {
        files: block_files(alloc, given)?,
        workers: options.workers,
        kind: options.kind,
        miller: options.miller,
        engine: options.engine,
    }))
}

fn link_job(alloc: Global, given: &ArgMatches) -> Result<Job, WordsFault>
    ensures { Reads (Words.link_job (first_value (found_of given.now))) result }
{
    let Some(miller) = miller_if_said(given.get_str("miller")) else {
        return Err(WordsFault::Bad);
    };
    Ok(Job::Link(LinkJob {
        files: block_files(alloc, given)?,
        miller,
    }))
}

fn solve_job(alloc: Global, given: &ArgMatches) -> Result<Job, WordsFault>
    ensures { Reads (Words.solve_job (first_value (found_of given.now))) result }
{
    let Some(options) = solve_options(given) else {
        return Err(WordsFault::Bad);
    };
    Ok(Job::Solve(SolveJob {
        file: file_name(alloc, given.get_str("file"))?,
        workers: options.workers,
        kind: options.kind,
        miller: options.miller,
        engine: options.engine,
    }))
}

// From which number the order of `replay` is picked, by how many workers, and by which Miller numbers.
fn replay_options(given: &ArgMatches) -> Option<(u64, u32, Option<Miller>)>
    ensures { result ≡ Words.replay_options (first_value (found_of given.now)) }
{
    let order = number(given.get_str("order")?)?;
    let workers = worker_count(given.get_str("workers")?)?;
    let miller = miller_if_said(given.get_str("miller"))?;
    Some((order, workers, miller))
}

fn replay_job(alloc: Global, given: &ArgMatches) -> Result<Job, WordsFault>
    ensures { Reads (Words.replay_job (first_value (found_of given.now))) result }
{
    let Some((order, workers, miller)) = replay_options(given) else {
        return Err(WordsFault::Bad);
    };
    Ok(Job::Replay(ReplayJob {
        file: file_name(alloc, given.get_str("file"))?,
        order,
        workers,
        miller,
    }))
}

fn eco_job(alloc: Global, given: &ArgMatches) -> Result<Job, WordsFault>
    ensures { Reads (Words.eco_job (first_value (found_of given.now))) result }
{
    let Some(workers) = workers_or_one(given.get_str("workers")) else {
        return Err(WordsFault::Bad);
    };
    let Some(miller) = miller_if_said(given.get_str("miller")) else {
        return Err(WordsFault::Bad);
    };
    Ok(Job::Eco(EcoJob {
        file: file_name(alloc, given.get_str("file"))?,
        edits: file_name(alloc, given.get_str("edits"))?,
        workers,
        miller,
    }))
}

fn gen_job(given: &ArgMatches) -> Option<GenJob>
    ensures { result ≡ Words.gen_job (first_value (found_of given.now)) }
{
    Some(GenJob {
        number: number(given.get_str("number")?)?,
        nets: net_count(given.get_str("nets")?)?,
        workers: workers_or_one(given.get_str("workers"))?,
    })
}

// The job of a command whose words are these, or why there is none.
fn job_for(alloc: Global, command: CommandName, given: &ArgMatches) -> Result<Job, WordsFault>
    ensures { Reads (Words.job_for command (first_value (found_of given.now))) result }
{
    match command {
        CommandName::Report => report_job(alloc, given),
        CommandName::Solve => solve_job(alloc, given),
        CommandName::Replay => replay_job(alloc, given),
        CommandName::Eco => eco_job(alloc, given),
        CommandName::Link => link_job(alloc, given),
        CommandName::Gen => match gen_job(given) {
            Some(job) => Ok(Job::Gen(job)),
            None => Err(WordsFault::Bad),
        },
    }
}

/// Reads the words after the program's name.
pub fn parse_words(alloc: Global, words: &[String]) -> Result<Job, WordsFault>
    ensures parsed { IfOk result (λ job. job_of (bytes_of words.now) ≡ Some job) }
    ensures bad { result ≡ Err WordsFault.Bad → job_of (bytes_of words.now) ≡ None }
    ensures refused { job_of (bytes_of words.now) ≡ None
        → (result ≡ Err WordsFault.Bad) ⊎ (result ≡ Err WordsFault.NoMemory) }
{
    let [first, ..] = words else {
        return Err(WordsFault::Bad);
    };
    let Some(command) = command_named(first.as_str()) else {
        return Err(WordsFault::Bad);
    };
    match read(alloc, &rule_of(command), words) {
        Ok(given) => job_for(alloc, command, &given),
        Err(fault) => Err(fault),
    }
}
