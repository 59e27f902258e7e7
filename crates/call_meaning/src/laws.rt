//! Laws of calls, each as the clause of a function that does nothing.

ghost use Rattle.std.specs.Prelude.{◌≡◌, List};
ghost use Rattle.command_line.specs.Words.{Text};
ghost use Rattle.call_meaning.specs.Outcome.{Contents, Outcome, prints, refuses};
ghost use Rattle.call_meaning.specs.Call.{AreKnown, Means};
ghost use Rattle.call_meaning.specs.Laws.{AskAlike, CallsAgree};
ghost use Rattle.call_meaning.specs.declared.refusal.Refusal.{Refusal};

use xt_io::Sink;

/// Words and files whose contents are known mean one text or one refusal at most.
pub fn one_outcome_is_meant()
    ensures one_text { (words : List Text) (content : Contents) (a b : Text) → AreKnown words content
        → Means words content (prints a) → Means words content (prints b) → a ≡ b }
    ensures one_refusal { (words : List Text) (content : Contents) (a b : Refusal) → AreKnown words content
        → Means words content (refuses a) → Means words content (refuses b) → a ≡ b }
    ensures not_both { (words : List Text) (content : Contents) (a : Text) (b : Refusal) → AreKnown words content
        → Means words content (prints a) → Means words content (refuses b) → ⊥ }
{}

/// What words mean depends neither on how many workers they ask for, nor on the order in which these take turns, nor on
/// the engine.
pub fn workers_change_nothing()
    ensures { (words others : List Text) (content : Contents) (outcome : Outcome) → AskAlike words others
        → Means words content outcome → Means others content outcome }
{}

/// Two calls with words that ask alike, over files with the same contents, append one text, each to its output, or end
/// with one status and one line on their error streams, unless a file or an output had a fault or memory was wanted.
pub fn calls_agree<O: Sink, E: Sink, P: Sink, D: Sink>()
    ensures { CallsAgree
        (record { texts = O.written; text_faults = O.faults; lines = E.written; line_faults = E.faults })
        (record { texts = P.written; text_faults = P.faults; lines = D.written; line_faults = D.faults }) }
{}
