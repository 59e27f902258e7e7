//! Laws of runs by words, each as the clause of a function that does nothing.

ghost use Rattle.xt_meaning.specs.WordLaws.{FurtherIsLeast, NoFurtherIsByWords, NumbersAreBounds, NumbersAreWindows};
ghost use Rattle.xt_meaning.specs.WordLaws.{OnwardIsMonotone, OnwardReadsLittle, ReadListIsWhole, RoundsUseRoom};
ghost use Rattle.xt_meaning.specs.WordLaws.{WordsAreWindows, WordsKeepOn};

/// Windows and their words are one.
pub fn words_are_windows()
    ensures { WordsAreWindows }
{}

/// Windows are no further than others exactly where their words are.
pub fn no_further_is_by_words()
    ensures { NoFurtherIsByWords }
{}

/// Numbers from 0 to 2^63 denote the bounds from -2^62 to 2^62, in their order.
pub fn numbers_are_bounds()
    ensures { NumbersAreBounds }
{}

/// The numbers of windows denote their bounds, eight for each net.
pub fn numbers_are_windows()
    ensures { NumbersAreWindows }
{}

/// The further of two numbers is the nearest that both are at or before.
pub fn further_is_least()
    ensures { FurtherIsLeast }
{}

/// At a word the operator is monotone in the words that it looks at for that net.
pub fn onward_is_monotone()
    ensures { OnwardIsMonotone }
{}

/// And it depends on those words alone.
pub fn onward_reads_little()
    ensures { OnwardReadsLittle }
{}

/// Words that move on no further than the operator does cross no barrier, and can go on.
pub fn words_keep_on()
    ensures { WordsKeepOn }
{}

/// The read list of a net has what the operator looks at for it, and is the only such list.
pub fn read_list_is_whole()
    ensures { ReadListIsWhole }
{}

/// Each round of a run leaves less room than there was, until it is at a fixpoint.
pub fn rounds_use_room()
    ensures { RoundsUseRoom }
{}
