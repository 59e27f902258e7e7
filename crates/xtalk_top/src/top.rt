ghost use Rattle.std.specs.Prelude.{◌≡◌, ◌≢◌, ◌⊎◌, IfErr};
ghost use Rattle.xt_io.specs.Outside.{Rose, KeepsCounts, appended};
ghost use Rattle.command_line.specs.Words.{Text, HasCount, bytes_of, job_of};
ghost use Rattle.call_meaning.specs.Outcome.{Outcome, prints, refuses, unread};
ghost use Rattle.call_meaning.specs.Call.{JobMeans, Means, AreKnown, Answers, IsCall, IsFailure, HasFault, IsCutOff};
ghost use Rattle.call_meaning.specs.Call.{HadNoFault, Shows};
ghost use Rattle.call_meaning.specs.FailureWords.{WritesLine, line_of, status_of};
ghost use Rattle.call_meaning.specs.Opened.{FailsAfter, HasValue, OpensFirst, files_named, files_of};
ghost use Rattle.call_meaning.specs.declared.refusal.Refusal.{Refusal};
ghost use Rattle.call_meaning.specs.declared.refusal.Failure.{Failure};
ghost use Rattle.call_meaning.specs.declared.refusal.Failure.TheVariants.{NoText, Unwritten};
ghost use Rattle.call_meaning.specs.declared.refusal.Stop.TheVariants.{Refused};

use crate::eco::eco;
use crate::generated::summary_of_generated;
use crate::link::text_of_block;
use crate::replay::replay;
use crate::report::report_of_block;
use crate::solve::solve;
use call_meaning::{Failure, Refusal, Stop};
use chaos_core::{Gate, OpenGate};
use command_line::{Job, WordsFault, parse_words};
use failure_lines::refuse;
use std::alloc::Global;
use std::thread::Threads;
use xt_io::{Files, Sink, write_whole};

/// Does what the words after the program's name say: reads the files that they name, writes one text to `out`, and
/// gives the exit status. A failure writes its one line to `err`, as far as `err` takes it, and but for a write
/// fault leaves `out` as it was.
pub fn xtalk<R: Threads + Sync, F: Files, O: Sink, E: Sink>(
    rt: &R,
    alloc: Global,
    words: &[String],
    files: &mut F,
    out: &mut O,
    err: &mut E,
) -> u8
    // 0: the text that the words and the files mean was written, and nothing else.
    ensures printed { result ≡ 0 → (text : Text) × Means (bytes_of words.now) (F.content files.old) (prints text)
        × (O.written out.new ≡ appended (O.written out.old) text) × (err.new ≡ err.old) }

    // Any other status has one failure as its cause, and the line of that failure on err. No file was opened after one
    // that is refused or could not be read.
    ensures failed { result ≢ 0 → (failure : Failure) × (result ≡ status_of failure)
        × IsFailure (Means (bytes_of words.now) (F.content files.old))
        (HasFault (F.faults files.old) (F.faults files.new))
        (IsCutOff (O.written out.old) (O.written out.new) (O.faults out.old) (O.faults out.new)) failure
        × WritesLine (E.written err.old) (E.written err.new) (E.faults err.old) (E.faults err.new) (line_of failure)
        × FailsAfter (files_named (job_of (bytes_of words.now))) (F.opened files.old) (F.opened files.new) failure }

    // All else stays as it was: out, but for a text (0) and for a first part of one, after which a write came to a
    // fault (7); its count of faults, but for 7; the counts of all files, but for a read fault (6).
    ensures kept { (result ≢ 0 → result ≢ 7 → out.new ≡ out.old)
        × (result ≢ 7 → O.faults out.new ≡ O.faults out.old)
        × (result ≢ 6 → KeepsCounts (F.faults files.old) (F.faults files.new)) }

    // A refusal that the words and the files mean comes, unless memory runs out or a read fault came before it.
    ensures refused { (why : Refusal) → Means (bytes_of words.now) (F.content files.old) (refuses why)
        → AreKnown (bytes_of words.now) (F.content files.old)
        → (result ≡ status_of (NoText (Refused why))) ⊎ ((result ≡ 8) ⊎ ((result ≡ 6)
        × (file : Text) × Means (bytes_of words.now) (F.content files.old) (unread file)
        × HasFault (F.faults files.old) (F.faults files.new) file)) }

    // Where they mean no refusal, and neither a file nor out had a fault, the text comes, unless memory runs out.
    ensures complete { ((why : Refusal) → Means (bytes_of words.now) (F.content files.old) (refuses why) → ⊥)
        → ((file : Text) → Means (bytes_of words.now) (F.content files.old) (unread file)
        → HasFault (F.faults files.old) (F.faults files.new) file → ⊥)
        → (Rose (O.faults out.old) (O.faults out.new) → ⊥) → (result ≡ 0) ⊎ (result ≡ 8) }

    // Where the contents are known, no other text and no other refusal is meant than the one that came.
    ensures only { AreKnown (bytes_of words.now) (F.content files.old) → HadNoFault result
        → (outcome : Outcome) → Means (bytes_of words.now) (F.content files.old) outcome
        → ((file : Text) → outcome ≢ unread file)
        → Shows result (λ text. O.written out.new ≡ appended (O.written out.old) text)
        (WritesLine (E.written err.old) (E.written err.new) (E.faults err.old) (E.faults err.new)) outcome }

    // A first part of the files that the words name was opened, each once, in their order; all of them for 0 and 7.
    ensures opened { OpensFirst (files_named (job_of (bytes_of words.now))) ((result ≡ 0) ⊎ (result ≡ 7))
        (F.opened files.old) (F.opened files.new) }

    // All files hold what they held, where that is known.
    ensures content { (m : Text) → F.content files.new m ≡ F.content files.old m }
{
    xtalk_gated(rt, alloc, &OpenGate, words, files, out, err)
}

/// The same with a gate that each of several workers of a run passes in every round before it draws, and by marks also
/// one alone. One worker alone passes none in a run without marks, nor do those of `replay`. Both runs of several
/// workers without marks are made at the same time, and their workers and rounds have the same numbers. What is written
/// does not depend on the gate.
pub fn xtalk_gated<R: Threads + Sync, F: Files, O: Sink, E: Sink, G: Gate>(
    rt: &R,
    alloc: Global,
    gate: &G,
    words: &[String],
    files: &mut F,
    out: &mut O,
    err: &mut E,
) -> u8
    ensures call { IsCall O.written O.faults E.written E.faults (Means (bytes_of words.now) (F.content files.old))
        (AreKnown (bytes_of words.now) (F.content files.old))
        (FailsAfter (files_named (job_of (bytes_of words.now))) (F.opened files.old) (F.opened files.new))
        (F.faults files.old) (F.faults files.new) out.old out.new err.old err.new result }
    ensures opened { OpensFirst (files_named (job_of (bytes_of words.now))) ((result ≡ 0) ⊎ (result ≡ 7))
        (F.opened files.old) (F.opened files.new) }
    ensures content { (m : Text) → F.content files.new m ≡ F.content files.old m }
{
    match text_of(rt, alloc, gate, words, files) {
        Ok(text) => write_text(out, err, &text),
        Err(stop) => refuse(err, Failure::NoText(stop)),
    }
}

// Writes a text to `out`, and gives the exit status. A fault of `out` has its line on `err`.
fn write_text<O: Sink, E: Sink>(out: &mut O, err: &mut E, text: &[u8]) -> u8
    ensures whole { result ≡ 0 → (O.written out.new ≡ appended (O.written out.old) text.now)
        × (O.faults out.new ≡ O.faults out.old) × (err.new ≡ err.old) }
    ensures cut_off { result ≢ 0 → (result ≡ 7)
        × IsCutOff (O.written out.old) (O.written out.new) (O.faults out.old) (O.faults out.new) text.now
        × WritesLine (E.written err.old) (E.written err.new) (E.faults err.old) (E.faults err.new)
        (line_of Unwritten) }
{
    match write_whole(out, text) {
        Ok(()) => 0,
        Err(_) => refuse(err, Failure::Unwritten),
    }
}

// The text that the words and the files mean.
fn text_of<R: Threads + Sync, F: Files, G: Gate>(
    rt: &R,
    alloc: Global,
    gate: &G,
    words: &[String],
    files: &mut F,
) -> Result<Vec<u8>, Stop>
    ensures means { let Meant = Means (bytes_of words.now) (F.content files.old) in
        Answers result (λ text. Meant (prints text.items)) Meant (F.faults files.old) (F.faults files.new) }
    ensures opened { OpensFirst (files_named (job_of (bytes_of words.now))) (HasValue result)
        (F.opened files.old) (F.opened files.new) }
    ensures stopped { IfErr result (λ stop. FailsAfter (files_named (job_of (bytes_of words.now)))
        (F.opened files.old) (F.opened files.new) (NoText stop)) }
    ensures content { (m : Text) → F.content files.new m ≡ F.content files.old m }
{
    match parse_words(alloc, words) {
        Ok(job) => job_text(rt, alloc, gate, files, job),
        Err(WordsFault::Bad) => Err(Stop::Refused(Refusal::Words)),
        Err(WordsFault::NoMemory) => Err(Stop::NoMemory),
    }
}

// The text that a job and the files mean.
fn job_text<R: Threads + Sync, F: Files, G: Gate>(
    rt: &R,
    alloc: Global,
    gate: &G,
    files: &mut F,
    job: Job,
) -> Result<Vec<u8>, Stop>
    requires count { HasCount job }
    ensures means { let Meant = JobMeans job (F.content files.old) in
        Answers result (λ text. Meant (prints text.items)) Meant (F.faults files.old) (F.faults files.new) }
    ensures opened { OpensFirst (files_of job) (HasValue result) (F.opened files.old) (F.opened files.new) }
    ensures stopped { IfErr result (λ stop. FailsAfter (files_of job)
        (F.opened files.old) (F.opened files.new) (NoText stop)) }
    ensures content { (m : Text) → F.content files.new m ≡ F.content files.old m }
{
    match job {
        Job::Report(job) => report_of_block(rt, alloc, gate, files, job),
        Job::Solve(job) => solve(rt, alloc, gate, files, job),
        Job::Replay(job) => replay(rt, alloc, gate, files, job),
        Job::Eco(job) => eco(rt, alloc, gate, files, job),
        Job::Link(job) => text_of_block(alloc, files, job),
        Job::Gen(job) => summary_of_generated(rt, alloc, gate, job),
    }
}
