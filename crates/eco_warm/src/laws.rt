//! Laws of edits, each as the clause of a function that does nothing.

ghost use Rattle.eco_warm.specs.Laws.{EditsKeepEnvelopes, EditsOrderOperators};

/// Where the middle Miller number is one whole capacitor, the operator after an edit to ground lies within the one
/// before it, on every assignment, and that after an edit from ground contains it.
pub fn edits_order_operators()
    ensures { EditsOrderOperators }
{}

/// The envelope before an edit is that after it but for the two nets and those that read them: the windows of every
/// other net are what the operator makes of them where everything overlaps, and keep the limits.
pub fn edits_keep_envelopes()
    ensures { EditsKeepEnvelopes }
{}
