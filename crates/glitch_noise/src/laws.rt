//! Laws of shares and peaks, each as the clause of a function that does nothing.

ghost use Rattle.glitch_noise.specs.Laws.{AnswerDecides, PeaksAreUnique};

/// The test of a window and a moment decides whether a transition of the window can be under way then.
pub fn an_answer_decides()
    ensures { AnswerDecides }
{}

/// A design has one list of peaks in given windows.
pub fn peaks_are_unique()
    ensures { PeaksAreUnique }
{}
