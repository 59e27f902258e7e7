//! Laws of generated designs, each as the clause of a function that does nothing.

ghost use Rattle.design_gen.specs.Laws.{GeneratedIsSound, GeneratedMakesNoLoop};

/// The parts of every generated design are sound, and keep the limits.
pub fn generated_is_sound()
    ensures { GeneratedIsSound }
{}

/// The arcs of a generated design make no loop.
pub fn generated_makes_no_loop()
    ensures { GeneratedMakesNoLoop }
{}
