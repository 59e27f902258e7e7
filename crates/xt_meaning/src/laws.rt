//! Laws of the operator, each as the clause of a function that does nothing.

ghost use Rattle.xt_meaning.specs.Laws.{ClosedIsExtreme, EarlierBoundRespects, EitherBoundRespects, EnvelopeContains};
ghost use Rattle.xt_meaning.specs.Laws.{EnvelopeExists, EnvelopeFitsNarrowing, EnvelopeIsBarrier, EnvelopeIsUnique};
ghost use Rattle.xt_meaning.specs.Laws.{ExtremeIsUnique, FixpointsLieBetween, LiveWindowsHaveRoom};
ghost use Rattle.xt_meaning.specs.Laws.{OperatorIsMonotone, OperatorReadsLittle, OperatorRespects};
ghost use Rattle.xt_meaning.specs.Laws.{OperatorStaysInRange, QuietFitsWidening, RangesGrow, RespectingLiesWithin};
ghost use Rattle.xt_meaning.specs.Laws.{StepsKeepFitting, StepsKeepOn, WidestContains, WidestIsMonotone};
ghost use Rattle.xt_meaning.specs.Laws.{WordsRespectTogether};

/// Of wider windows the operator makes wider windows.
pub fn operator_is_monotone()
    ensures { OperatorIsMonotone }
{}

/// What overlaps in windows overlaps in wider ones, and there loads and wire delays have wider ranges.
pub fn ranges_grow()
    ensures { RangesGrow }
{}

/// The windows of a net depend only on those windows that the operator looks at for it.
pub fn operator_reads_little()
    ensures { OperatorReadsLittle }
{}

/// The operator makes no wider windows than it does where everything overlaps.
pub fn widest_contains()
    ensures { WidestContains }
{}

/// Where everything overlaps the operator is monotone too.
pub fn widest_is_monotone()
    ensures { WidestIsMonotone }
{}

/// A fixpoint that crosses no barrier is the least one in widening, and the greatest one in narrowing.
pub fn closed_is_extreme()
    ensures { ClosedIsExtreme }
{}

/// Every fixpoint contains the least one and lies within the greatest one.
pub fn fixpoints_lie_between()
    ensures { FixpointsLieBetween }
{}

/// A design has one least fixpoint and one greatest.
pub fn extreme_is_unique()
    ensures { ExtremeIsUnique }
{}

/// A step that is no further than what the operator makes crosses no barrier, and can go on.
pub fn steps_keep_on()
    ensures { StepsKeepOn }
{}

/// Words that each cross no barrier make windows that are no further than any barrier.
pub fn words_respect_together()
    ensures { WordsRespectTogether }
{}

/// The least and the greatest of two bounds that cross no barrier cross none.
pub fn either_bound_respects()
    ensures { EitherBoundRespects }
{}

/// Where a bound crosses no barrier, no bound that is no further crosses one.
pub fn earlier_bound_respects()
    ensures { EarlierBoundRespects }
{}

/// Where each word that the operator looks at for a net crosses no barrier, no word that it makes does.
pub fn operator_respects()
    ensures { OperatorRespects }
{}

/// With an envelope that keeps the limits, a run that widens can start where nothing switches.
pub fn quiet_fits_widening()
    ensures { QuietFitsWidening }
{}

/// A run that narrows can start at an envelope that keeps the limits.
pub fn envelope_fits_narrowing()
    ensures { EnvelopeFitsNarrowing }
{}

/// Windows that lie within what the operator makes of them lie within the envelope.
pub fn envelope_contains()
    ensures { EnvelopeContains }
{}

/// A design has no two envelopes.
pub fn envelope_is_unique()
    ensures { EnvelopeIsUnique }
{}

/// In widening the envelope is a barrier.
pub fn envelope_is_barrier()
    ensures { EnvelopeIsBarrier }
{}

/// In widening, windows that cross no barrier lie within the envelope.
pub fn respecting_lies_within()
    ensures { RespectingLiesWithin }
{}

/// Each live window within an envelope that keeps the limits has its times and slews in their ranges.
pub fn live_windows_have_room()
    ensures { LiveWindowsHaveRoom }
{}

/// Where the nets have levels there is an envelope.
pub fn envelope_exists()
    ensures { EnvelopeExists }
{}

/// After a step from a fitting start the windows are a fitting start.
pub fn steps_keep_fitting()
    ensures { StepsKeepFitting }
{}

/// Words can hold what the operator makes of windows within an envelope that keeps the limits.
pub fn operator_stays_in_range()
    ensures { OperatorStaysInRange }
{}
