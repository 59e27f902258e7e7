//! Laws of checks, each as the clause of a function that does nothing.

ghost use Rattle.std.specs.Prelude.{◌≡◌, ℕ, Bool, List};
ghost use Rattle.xt_model.specs.Parts.{Parts};
ghost use Rattle.slack_report.specs.declared.slack.Slack.{Slack};
ghost use Rattle.slack_report.specs.Kinds.{HasNone, IsWorst};

/// Of checks one at most is the worst of a kind, and none where all of the kind are idle.
pub fn a_worst_check_is_unique()
    ensures place { (d : Parts) (hold : Bool) (all : List Slack) (i j : ℕ) (s t : Slack)
        → IsWorst d hold all i s → IsWorst d hold all j t → i ≡ j }
    ensures check { (d : Parts) (hold : Bool) (all : List Slack) (i j : ℕ) (s t : Slack)
        → IsWorst d hold all i s → IsWorst d hold all j t → s ≡ t }
    ensures none { (d : Parts) (hold : Bool) (all : List Slack) (i : ℕ) (s : Slack)
        → HasNone d hold all → IsWorst d hold all i s → ⊥ }
{}
