//! Laws of the meaning of a text.

ghost use Rattle.std.specs.Prelude.{◌≡◌, ◌↔◌, ◌+◌, ◌++◌, ℕ, List, Result, Ok};
ghost use Rattle.xt_model.specs.Parts.{Parts};
ghost use Rattle.xt_model.specs.Sound.{IsSound};
ghost use Rattle.text_lines.specs.Lines.{text_of};
ghost use Rattle.linked_text.specs.declared.fault.Fault.{Fault};
ghost use Rattle.linked_text.specs.Linked.{linked};
ghost use Rattle.linked_text.specs.Answers.{IsTextOf};
ghost use Rattle.linked_text.specs.Meaning.{Means, line_number, newlines};

/// A text means a design, line by line, exactly where it is the text of that design, which is sound and has levels.
pub fn texts_are_of_designs()
    ensures { (bytes : List ℕ) (d : Parts) → Means bytes (Ok d) ↔ IsTextOf bytes d }
{}

/// A text means at most one design or refusal.
pub fn texts_mean_one()
    ensures { (bytes : List ℕ) (o p : Result Parts Fault)
        → Means bytes o → Means bytes p → o ≡ p }
{}

/// Different sound designs have different texts.
pub fn sound_texts_differ()
    ensures { (d e : Parts) → IsSound d → IsSound e → text_of (linked d) ≡ text_of (linked e) → d ≡ e }
{}

/// The number of the line that `rest` begins with is 1 more than the newlines in front of it.
pub fn lines_are_counted()
    ensures { (front rest : List ℕ) → line_number (front ++ rest) (newlines rest) ≡ 1 + newlines front }
{}
