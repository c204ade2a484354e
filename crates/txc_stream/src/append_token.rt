//! The token that lengthens a ghost history.

ghost use Rattle.std.specs.Prelude.{◌≡◌, ℕ, ◌+◌, ◌^◌, ◌<◌, ◌++◌, ◌∷◌, [], List, length};
ghost use Rattle.std.specs.Coded.{coded_list};
ghost use Rattle.txc_stream.specs.Names.{unstored};
ghost use Rattle.txc_stream.specs.Seen.{written};
ghost use mathlib.Core.List.{IsPrefix};

use crate::ghost_record::GhostRecord;
use crate::row::Front;
use crate::seen::Seen;
use std::marker::{Model, PhantomData};

/// The only token to append to a ghost history, with the list of its records. It is zero-sized.
pub struct AppendToken<T> {
    marker: PhantomData<*const T>,
    pub ghost number: { ℕ },
    pub ghost list: { List T } by { coded_list T.code },
}

impl<T> Model for AppendToken<T> {
    ghost also_owns = { λ p. written T.row p.number p.list };
}

impl<T> Drop for AppendToken<T> {
    fn drop(self) {
        let AppendToken { marker: _ } = self;
    }
}

// It can go to another thread: what it owns names no thread.
unsafe impl<T> Send for AppendToken<T> {}

impl<T> AppendToken<T> {
    /// Makes the token of a new history, which has no records.
    pub fn new() -> AppendToken<T>
        ensures { result.list ≡ [] }
    {
        AppendToken {
            marker: PhantomData,
        }
    }

    /// Returns a front that shows nothing of the history yet.
    pub fn start(&mut self) -> Front<T>
        requires { self.old.list ≡ [] }
        ensures same { self.new ≡ self.old }
        ensures name { result.name ≡ unstored self.old.number }
        ensures list { result.list ≡ [] }
    {
        Front::of_none(self.seen())
    }

    /// Appends the record to the history and to the front, which shows the whole history before and after. It
    /// cannot fail, and does not allocate.
    pub fn append(&mut self, front: &mut Front<T>, draft: GhostRecord<T>)
        requires name { front.old.name ≡ unstored self.old.number }
        requires whole { front.old.list ≡ self.old.list }
        requires room { length self.old.list + 1 < 2 ^ 64 }
        ensures after { self.new ≡ record self.old { list = self.old.list ++ draft.value ∷ [] } }
        ensures shown { front.new ≡ record front.old { list = self.new.list } }
    {
        self.write(&draft);
        front.show_one_more(self.seen());
    }

    /// A front's list is a prefix of the history. This is a lemma: it does nothing when it runs.
    pub fn covers(&mut self, front: &Front<T>)
        requires { front.now.name ≡ unstored self.old.number }
        ensures same { self.new ≡ self.old }
        ensures prefix { IsPrefix front.now.list self.old.list }
    {
        self.covers_seen(&front.seen);
    }

    // Appends one record. It has no code.
    fn write(&mut self, draft: &GhostRecord<T>)
        ensures { self.new ≡ record self.old { list = self.old.list ++ draft.now.value ∷ [] } }
    {}

    // The whole history, as observed records.
    fn seen(&mut self) -> Seen<T>
        ensures { (self.new ≡ self.old) × (result.name ≡ unstored self.old.number) × (result.list ≡ self.old.list) }
    {
        Seen {
            marker: PhantomData,
        }
    }

    // Observed records are a prefix of the history. It has no code.
    fn covers_seen(&mut self, seen: &Seen<T>)
        requires { seen.now.name ≡ unstored self.old.number }
        ensures { (self.new ≡ self.old) × IsPrefix seen.now.list self.old.list }
    {}
}
