ghost use Rattle.std.specs.Prelude.{◌≡◌, IfOk};
ghost use Rattle.txc_rows.specs.Versions.{is_visible};

use crate::row::Row;
use std::alloc::{AllocError, Global};
use txc_stamp::Stamp;

/// A row with the stamps at which it is in the state: from `born` to the stamp before `died`, or without end if
/// that is `None`.
#[derive(Debug, Drop)]
pub struct Versioned {
    pub row: Row,
    pub born: Stamp,
    pub died: Option<Stamp>,
}

impl Versioned {
    /// Returns `true` if the row is in the state at the stamp.
    pub fn is_visible(&self, at: Stamp) -> bool
        ensures { result ≡ is_visible at self.now }
    {
        let lives = match self.died {
            Some(died) => at < died,
            None => true,
        };
        self.born <= at && lives
    }

    /// Returns an equal version. Fails only if memory cannot be allocated.
    pub(crate) fn copy(&self, alloc: Global) -> Result<Versioned, AllocError>
        ensures { IfOk result (λ v. v ≡ self.now) }
    {
        Ok(Versioned {
            row: self.row.copy(alloc)?,
            born: self.born,
            died: self.died,
        })
    }
}
