use std::alloc::{AllocError, AllocFailed};
use thiserror::Error;
use txc_stamp::Stamp;

/// Errors of answering a query.
#[derive(Clone, Copy, Debug, PartialEq, Eq, Error)]
pub enum ValidityError {
    /// The stamp is outside the kept stamps. The fields are the first of these, the horizon, and the last, the
    /// newest.
    #[error("the stamp is outside the kept stamps, {0} to {1}")]
    OutsideKept(Stamp, Stamp),
    /// Memory for the answer cannot be allocated.
    #[error("out of memory")]
    Memory,
}

impl From<AllocError> for ValidityError {
    ghost use Rattle.std.specs.Prelude.{◌≡◌};
    ghost use Rattle.txc_validity.specs.declared.error.ValidityError.TheVariants.{Memory};

    ghost from_gives = { λ _ it. it ≡ Memory };

    fn from(_: AllocError) -> ValidityError {
        ValidityError::Memory
    }
}

impl<T: Drop> From<AllocFailed<T>> for ValidityError {
    ghost use Rattle.std.specs.Prelude.{◌≡◌};
    ghost use Rattle.txc_validity.specs.declared.error.ValidityError.TheVariants.{Memory};

    ghost from_gives = { λ _ it. it ≡ Memory };

    fn from(_: AllocFailed<T>) -> ValidityError {
        ValidityError::Memory
    }
}
