//! Errors of generations.
use std::alloc::AllocError;
use thiserror::Error;
use txc_db::DbError;
use txc_db_carry::CarryError;
use txc_site_workers::OpenError;

/// Errors that end a site although its workers asked for another generation.
#[derive(Drop, Debug, Error)]
pub enum GenerationError {
    /// The site of a generation cannot be made, and no thread of it was started; or memory for the threads
    /// cannot be allocated, and their results are lost.
    #[error("{0}")]
    Workers(OpenError),
    /// All threads of a generation had ended, and its database returned no front of its whole history: memory
    /// cannot be allocated, or it shows less than when the generation began. The results of the threads are
    /// lost.
    #[error("{0}")]
    Ended(DbError),
    /// The state cannot be carried over to the next generation.
    #[error("{0}")]
    Carry(CarryError),
    /// Memory for the next generation cannot be allocated. No thread of it was started.
    #[error("out of memory")]
    Memory,
}

impl From<OpenError> for GenerationError {
    ghost use Rattle.std.specs.Prelude.{◌≡◌};
    ghost use Rattle.txc_site.specs.declared.error.GenerationError.TheVariants.{Workers};

    ghost from_gives = { λ cause it. it ≡ Workers cause };

    fn from(cause: OpenError) -> GenerationError {
        GenerationError::Workers(cause)
    }
}

impl From<DbError> for GenerationError {
    ghost use Rattle.std.specs.Prelude.{◌≡◌};
    ghost use Rattle.txc_site.specs.declared.error.GenerationError.TheVariants.{Ended};

    ghost from_gives = { λ cause it. it ≡ Ended cause };

    fn from(cause: DbError) -> GenerationError {
        GenerationError::Ended(cause)
    }
}

impl From<AllocError> for GenerationError {
    ghost use Rattle.std.specs.Prelude.{◌≡◌};
    ghost use Rattle.txc_site.specs.declared.error.GenerationError.TheVariants.{Memory};

    ghost from_gives = { λ _ it. it ≡ Memory };

    fn from(_: AllocError) -> GenerationError {
        GenerationError::Memory
    }
}
