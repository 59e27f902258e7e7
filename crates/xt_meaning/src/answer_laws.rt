//! Laws of overlap answers, each as the clause of a function that does nothing.

ghost use Rattle.xt_meaning.specs.AnswerLaws.{AnswersAreSymmetric, AnswersBoundWindows, WholeFactorsAreExact};
ghost use Rattle.xt_meaning.specs.AnswerLaws.{AnswersDecide, AnswersHaveOneList};
ghost use Rattle.xt_meaning.specs.AnswerLaws.{AnswersHaveWindows, AnswersWiden, CoupledAnswersMatter, SumsHaveRoom};

/// The answer of two windows is whether they overlap, also modulo a clock period.
pub fn answers_decide()
    ensures { AnswersDecide }
{}

/// The overlap answers of windows do not depend on which of two nets is the victim.
pub fn answers_are_symmetric()
    ensures { AnswersAreSymmetric }
{}

/// The operator looks at answers for coupled nets alone.
pub fn coupled_answers_matter()
    ensures { CoupledAnswersMatter }
{}

/// Under answers with more overlaps, of wider windows the operator makes wider windows.
pub fn answers_widen()
    ensures { AnswersWiden }
{}

/// Where the nets have levels, there are windows that the operator gives back under given answers.
pub fn answers_have_windows()
    ensures { AnswersHaveWindows }
{}

/// And there is one list of them.
pub fn answers_have_one_list()
    ensures { AnswersHaveOneList }
{}

/// That list contains what lies within what the operator makes of it, and lies within what contains it.
pub fn answers_bound_windows()
    ensures { AnswersBoundWindows }
{}

/// At factors of whole capacitors no rounding is left but that of the delay.
pub fn whole_factors_are_exact()
    ensures { WholeFactorsAreExact }
{}

/// The sums of a wire and of a load leave room in 128 bits, at whatever factors.
pub fn sums_have_room()
    ensures { SumsHaveRoom }
{}
