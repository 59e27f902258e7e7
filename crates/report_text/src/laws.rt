//! Laws of reports and summaries, each as the clause of a function that does nothing.

ghost use Rattle.std.specs.Prelude.{◌≡◌, ℕ, List};
ghost use Rattle.xt_model.specs.declared.quad.Pair.{Pair};
ghost use Rattle.xt_model.specs.declared.net.Net.{Net};
ghost use Rattle.xt_model.specs.Levels.{IsDepth};
ghost use Rattle.xt_model.specs.Parts.{Parts};
ghost use Rattle.report_kind.specs.declared.kind.ReportKind.{ReportKind};
ghost use Rattle.report_text.specs.declared.checked.Checked.{Checked};
ghost use Rattle.report_text.specs.Worst.{IsChecked};
ghost use Rattle.report_text.specs.Report.{IsReport, IsReportOf};
ghost use Rattle.report_text.specs.Summary.{IsSummary};

/// Nets have one depth at most.
pub fn a_depth_is_unique()
    ensures { (nets : List Net) (a b : ℕ) → IsDepth nets a → IsDepth nets b → a ≡ b }
{}

/// A design has one list of slacks, and of each kind one worst check with one path or none, in given windows.
pub fn what_is_checked_is_unique()
    ensures { (d : Parts) (low high : List Pair) (a b : Checked)
        → IsChecked d low high a → IsChecked d low high b → a ≡ b }
{}

/// A design has one report of each kind at most: in given windows, and in its least and its greatest fixpoint.
pub fn a_report_is_unique()
    ensures in_windows { (kind : ReportKind) (d : Parts) (low high : List Pair) (a b : List ℕ)
        → IsReportOf kind d low high a → IsReportOf kind d low high b → a ≡ b }
    ensures in_fixpoints { (kind : ReportKind) (d : Parts) (a b : List ℕ)
        → IsReport kind d a → IsReport kind d b → a ≡ b }
{}

/// A design has one summary at most.
pub fn a_summary_is_unique()
    ensures { (d : Parts) (a b : List ℕ) → IsSummary d a → IsSummary d b → a ≡ b }
{}
