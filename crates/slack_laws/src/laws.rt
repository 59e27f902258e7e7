//! Laws of checks, couplings and transitions, each as the clauses of a function that does nothing.

ghost use Rattle.slack_laws.specs.Laws.{ConsistentKeepChecks, ConsistentKeepKinds};
ghost use Rattle.slack_laws.specs.Laws.{ConsistentLeaveSlack, ConsistentLeaveSlacks};
ghost use Rattle.slack_laws.specs.Meetings.{MeetingsAreMarked};
ghost use Rattle.slack_laws.specs.Noise.{SwitchingHasPeaks};

/// Where words can hold the envelope, transitions that explain one another leave no less at a check than its slack in
/// the greatest windows. So where no slack there is below 0, or the worst of a kind is not, they keep all checks, or
/// all of that kind.
pub fn consistent_keep_checks()
    ensures slack { ConsistentLeaveSlack }
    ensures slacks { ConsistentLeaveSlacks }
    ensures kept { ConsistentKeepChecks }
    ensures kinds { ConsistentKeepKinds }
{}

/// Of two coupled nets at which transitions that explain one another are under way together, an entry of the guilty
/// couplings tells.
pub fn marks_of_meetings()
    ensures { MeetingsAreMarked }
{}

/// Of what couplings of a net transitions that explain one another switch at one moment, no more capacitance than the
/// peak in the greatest windows.
pub fn switching_has_peaks()
    ensures { SwitchingHasPeaks }
{}
