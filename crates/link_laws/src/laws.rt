//! The law of commands one after another, as the clauses of a function that does nothing.

ghost use Rattle.std.specs.Prelude.{◌⊎◌};
ghost use Rattle.command_line.specs.Words.{Text};
ghost use Rattle.call_meaning.specs.Call.{AreKnown, Means};
ghost use Rattle.call_meaning.specs.Outcome.{Contents, Outcome, prints};
ghost use Rattle.link_laws.specs.Laws.{HasNoText, IsHandedOn, IsReached, TwoWays};

/// `solve` of a text that `link` printed means what `report` means of the same four files, for the same kind of a
/// report, each text and each refusal, where a file may have as many bytes: by the Miller numbers of `solve` where its
/// words give any, else by those of `link`, and whatever the workers and engines. Files whose contents are not known
/// may make several designs, so for `solve` to mean what `report` does they have to be known. What `link` means in
/// place of a text, `report` means too; and what `report` means in place of a text, `link` means as well, or it means a
/// text of which `solve` means that.
pub fn solve_after_link_is_report()
    ensures reported { (w : TwoWays) (before after : Contents) (text : Text) (outcome : Outcome)
        → IsHandedOn w before after text → IsReached outcome
        → Means w.solve after outcome → Means w.report before outcome }
    ensures solved { (w : TwoWays) (before after : Contents) (text : Text) (outcome : Outcome)
        → IsHandedOn w before after text → IsReached outcome → AreKnown w.link before
        → Means w.report before outcome → Means w.solve after outcome }
    ensures stopped { (w : TwoWays) (content : Contents) (outcome : Outcome) → HasNoText outcome
        → Means w.link content outcome → Means w.report content outcome }
    ensures linked { (w : TwoWays) (before : Contents) (outcome : Outcome) → Means w.report before outcome
        → (HasNoText outcome × Means w.link before outcome)
        ⊎ ((text : Text) × Means w.link before (prints text)
        × ((after : Contents) → IsHandedOn w before after text → Means w.solve after outcome)) }
{}
