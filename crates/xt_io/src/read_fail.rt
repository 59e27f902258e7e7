use crate::reading::MOST_BYTES;
use thiserror::Error;

/// Why a file could not be read whole.
#[derive(Clone, Copy, Debug, PartialEq, Eq, Error)]
pub enum ReadFail {
    /// The file could not be opened, or a read of it failed.
    #[error("the file could not be read")]
    Fault,
    /// The file has more than `MOST_BYTES` bytes.
    #[error("the file has more than {} bytes", MOST_BYTES)]
    TooLong,
    /// There is no memory for the bytes.
    #[error("out of memory")]
    NoMemory,
}
