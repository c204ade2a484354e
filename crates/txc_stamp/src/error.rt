use crate::stamp::LAST_STAMP;
use thiserror::Error;

/// Errors of making a stamp, a span or a reach. A number that is too large is reported before an empty range
/// is, and the first of two that are too large.
#[derive(Clone, Copy, Debug, PartialEq, Eq, Error)]
pub enum StampError {
    /// The stamp exceeds [`crate::LAST_STAMP`], or the end exceeds the stamp after it.
    #[error("{0} is beyond the last stamp, {LAST_STAMP}")]
    TooLarge(u32),
    /// The range is empty: its end is at most its first stamp, or its last known stamp is below the first.
    #[error("the range of stamps is empty")]
    Empty,
}
