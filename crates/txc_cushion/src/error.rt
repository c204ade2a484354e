ghost use Rattle.std.specs.Fmt.{WritesOnOk};
ghost use Rattle.txc_cushion.specs.Codes.{add_code};

use crate::limits::MAX_PINS;
use std::alloc::AllocError;
use std::fmt;
use thiserror::Error;
use txc_stamp::Stamp;

/// Errors of adding a pin. After an error nothing has changed.
#[derive(Clone, Copy, Debug, PartialEq, Eq, Error)]
pub enum AddError {
    /// The pincushion has [`crate::MAX_PINS`] pins.
    #[error("the pincushion has {MAX_PINS} pins, and no more can be added")]
    Full,
    /// This stamp has a pin already.
    #[error("stamp {0} is pinned already")]
    Known(Stamp),
    /// Memory cannot be allocated.
    #[error("out of memory")]
    Memory,
}

impl AddError {
    /// Writes its code, and the numbers that go with it.
    pub fn write_code<W: fmt::Write>(&self, f: &mut fmt::Formatter<W>) -> fmt::Result
        ensures { WritesOnOk W.write_str_gives f.old result (add_code self.now) f.new }
    {
        match self {
            AddError::Full => write!(f, "C2"),
            AddError::Known(stamp) => write!(f, "C3 {stamp}"),
            AddError::Memory => write!(f, "memory"),
        }
    }
}

impl From<AllocError> for AddError {
    ghost use Rattle.std.specs.Prelude.{◌≡◌};
    ghost use Rattle.txc_cushion.specs.declared.error.AddError.TheVariants.{Memory};

    ghost from_gives = { λ _ it. it ≡ Memory };

    fn from(_: AllocError) -> AddError {
        AddError::Memory
    }
}

/// The first returned stamp that has no pin, or whose pin has no user left. Nothing has changed.
#[derive(Clone, Copy, Debug, PartialEq, Eq, Error)]
#[error("stamp {stamp} has no pin with a user left")]
pub struct UnknownPin {
    pub stamp: Stamp,
}
