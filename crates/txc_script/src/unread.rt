//! Errors of reading words.
use crate::line_fault::CommandFault;
use std::alloc::AllocError;

/// Errors of reading a word of its kind.
#[derive(Debug, Drop)]
pub enum WordError {
    /// The word is of another kind. For a key or tags it has the place where these go wrong.
    Bad(Option<usize>),
    /// Memory cannot be allocated.
    Memory,
}

/// Errors of executing a line.
#[derive(Debug, Drop)]
pub enum LineError<F> {
    /// The words have this fault.
    Wrong(CommandFault<F>),
    /// Memory cannot be allocated.
    Memory,
}

impl<F> From<AllocError> for LineError<F> {
    ghost use Rattle.std.specs.Prelude.{◌≡◌};
    ghost use Rattle.txc_script.specs.declared.unread.LineError.TheVariants as reasons;

    ghost from_gives = { λ _ reason. reason ≡ reasons.Memory };

    fn from(_error: AllocError) -> LineError<F> {
        LineError::Memory
    }
}
