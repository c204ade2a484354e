//! Ghost records: records of a ghost history, before they are appended.

ghost use Rattle.std.specs.Prelude.{◌≡◌};

use std::marker::{Model, PhantomData};

/// The function that makes a ghost record of a value, as the value is when the record is made.
pub trait GhostRecords<X, T> {
    ghost record_of: { X → T };
}

/// A ghost record, made before the step that it describes, and appended once the step is done. It is
/// zero-sized.
pub struct GhostRecord<T> {
    marker: PhantomData<*const T>,
    pub ghost value: { T },
}

impl<T> Model for GhostRecord<T> {
    ghost use base.Fml.{ftrue};

    ghost also_owns = { λ d. ftrue };
}

impl<T> Drop for GhostRecord<T> {
    fn drop(self) {
        let GhostRecord { marker: _ } = self;
    }
}

impl<T> GhostRecord<T> {
    /// Makes the ghost record of the value as it is now. It has no code.
    pub fn of<X, M: GhostRecords<X, T>>(about: &X) -> GhostRecord<T>
        ensures { result.value ≡ M.record_of about.now }
    {
        GhostRecord {
            marker: PhantomData,
        }
    }
}
