/// The way of a run: it widens windows from below, or narrows them from above.
#[derive(Clone, Copy, Debug, PartialEq, Eq)]
pub enum Direction {
    Widen,
    Narrow,
}
