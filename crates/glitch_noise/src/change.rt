//! A change of a sum.

/// A sum in aF changes at this moment in fs, by this much.
#[derive(Clone, Copy, Debug, PartialEq, Eq)]
pub(crate) struct Change {
    pub at: i64,
    pub by: i64,
}
