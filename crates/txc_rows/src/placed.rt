ghost use Rattle.std.specs.Prelude.{◌≡◌, IfOk};

use crate::version::Versioned;
use std::alloc::{AllocError, Global};

/// A version with its place in the order in which all versions were put.
#[derive(Drop)]
pub(crate) struct Placed {
    pub place: u32,
    pub version: Versioned,
}

impl Placed {
    pub(crate) fn copy(&self, alloc: Global) -> Result<Placed, AllocError>
        ensures { IfOk result (λ x. x ≡ self.now) }
    {
        Ok(Placed {
            place: self.place,
            version: self.version.copy(alloc)?,
        })
    }
}
