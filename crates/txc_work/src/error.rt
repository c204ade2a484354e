use thiserror::Error;

/// Errors of a batch.
#[derive(Clone, Copy, Debug, PartialEq, Eq, Error)]
pub enum BatchError {
    /// The job of this number has no result.
    #[error("job {0} has no result")]
    Missing(u32),
    /// Two jobs have this number, or two results.
    #[error("there is more than one job {0}")]
    Twice(u32),
    /// Memory cannot be allocated; no job was run.
    #[error("out of memory")]
    Memory,
}
