use thiserror::Error;

/// The outside failed: a file could not be opened or read, or a sink took nothing.
#[derive(Clone, Copy, Debug, PartialEq, Eq, Error)]
#[error("the outside failed")]
pub struct Failed;
