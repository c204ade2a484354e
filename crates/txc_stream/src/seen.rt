//! Observed records of a history.

ghost use Rattle.std.specs.Prelude.{◌≡◌, ℕ, ◌<◌, ◌⊎◌, List, length, slice_get};
ghost use Rattle.std.specs.Coded.{coded_list};
ghost use Rattle.txc_stream.specs.Names.{Name, coded_name};
ghost use Rattle.txc_stream.specs.Seen.{begins, IsCellAt, IsCellAfter, with_known};
ghost use mathlib.Core.List.{IsPrefix};

use once_cell::race::Note;
use std::marker::{Model, PhantomData};

/// The first records of a history, as observed. It is zero-sized: its knowledge exists for the verifier only.
pub(crate) struct Seen<T> {
    pub(crate) marker: PhantomData<*const T>,
    pub(crate) ghost name: { Name } by { coded_name },
    pub(crate) ghost list: { List T } by { coded_list T.code },
}

impl<T> Model for Seen<T> {
    ghost also_owns = { λ s. begins T.row s.list s.name };
}

impl<T> Drop for Seen<T> {
    fn drop(self) {
        let Seen { marker: _ } = self;
    }
}

// Every thread may have it: knowledge of a history is the same for all.
unsafe impl<T> Send for Seen<T> {}

unsafe impl<T> Sync for Seen<T> {}

impl<T> Seen<T> {
    /// Returns a copy.
    pub(crate) fn again(&self) -> Seen<T>
        ensures { result ≡ self.now }
    {
        Seen {
            marker: PhantomData,
        }
    }

    /// Of two observed lists of one history, one is a prefix of the other. It has no code.
    pub(crate) fn agree(&self, other: &Seen<T>)
        requires { self.now.name ≡ other.now.name }
        ensures { IsPrefix self.now.list other.now.list ⊎ IsPrefix other.now.list self.now.list }
    {}

    /// Lets a note know the record at a place of a stored history. It has no code.
    pub(crate) fn tell(&self, at: usize, note: &mut Note<T>)
        requires { (at < length self.now.list) × IsCellAt self.now.name at note.old.cell }
        ensures { (note.new.cell ≡ note.old.cell) × (note.new.known ≡ slice_get self.now.list at) }
    {}

    /// Adds one more record of a stored history, if the note knows one. It has no code.
    pub(crate) fn add(&mut self, note: &Note<T>)
        requires { IsCellAfter self.old.name (length self.old.list) note.now.cell }
        ensures { (self.new.name ≡ self.old.name) × (self.new.list ≡ with_known self.old.list note.now.known) }
    {}
}
