use xt_model::{Design, Direction, Windows};

/// What a run is over: a design, the way of the run, and the windows at which it starts. Clauses name it; no
/// value of it is made.
#[derive(Debug, Drop)]
pub struct Setting {
    pub design: Design,
    pub way: Direction,
    pub start: Windows,
}
