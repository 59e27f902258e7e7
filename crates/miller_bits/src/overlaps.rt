/// Which windows count as overlapping: those that do, or every two, as for the envelope.
#[derive(Clone, Copy, Debug, PartialEq, Eq)]
pub enum Overlaps {
    OfWindows,
    All,
}
