//! Laws of runs and of consistent transitions, each as the clause of a function that does nothing.

ghost use Rattle.run_laws.specs.Chains.{ChainsAreShort};
ghost use Rattle.run_laws.specs.Laws.{ConsistentLieWithinEnvelope, ConsistentLieWithinGreatest};
ghost use Rattle.run_laws.specs.Laws.{OperatorKeepsConsistent};

/// Transitions that explain one another lie within the envelope.
pub fn consistent_lie_within_envelope()
    ensures { ConsistentLieWithinEnvelope }
{}

/// Where windows hold transitions that explain one another, so do those that the operator makes of them.
pub fn operator_keeps_consistent()
    ensures { OperatorKeepsConsistent }
{}

/// Where words can hold the envelope, transitions that explain one another lie within the greatest windows.
pub fn consistent_lie_within_greatest()
    ensures { ConsistentLieWithinGreatest }
{}

/// A run of rounds that each begin where the operator still changes something has at most one block of as many rounds
/// as there are levels for each overlap answer of a pair of coupled nets, and one more.
pub fn chains_are_short()
    ensures { ChainsAreShort }
{}
