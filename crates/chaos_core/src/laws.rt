//! Laws of the machine, each the clause of a function that does nothing.

ghost use Rattle.chaos_core.specs.Machine.{SchedulesKeep};
ghost use Rattle.chaos_core.specs.Rounds.{RoundsCarry};

/// From a good state every schedule leads to a good state, with words at or past those before: no word crosses a
/// barrier, each loaded number is at or before its word, and no value to publish is further than what the operator
/// makes of the words.
pub fn schedules_keep()
    ensures { SchedulesKeep }
{}

/// A round of any number of workers, under any picks, carries the words at least as far as the operator does.
pub fn rounds_carry()
    ensures { RoundsCarry }
{}
