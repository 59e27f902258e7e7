use thiserror::Error;

/// Why a text has no fixed-point value. The first that holds is the answer.
#[derive(Clone, Copy, Debug, PartialEq, Eq, Error)]
pub enum NumberFault {
    /// The text is no number.
    #[error("not a number")]
    Form,
    /// There are more than 30 digits before the exponent, counted from the first that is not zero.
    #[error("more than 30 digits")]
    Digits,
    /// The rounded value is beyond 2^40 or below -2^40.
    #[error("beyond 2^40")]
    Range,
}
