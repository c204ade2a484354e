//! A cursor through a history, record by record.

ghost use Rattle.std.specs.Prelude.{◌≡◌, ◌+◌, ◌⊎◌, ◌==◌, true, false};
ghost use Rattle.std.specs.Arc.{arc_value};
ghost use Rattle.txc_stream.specs.Names.{stored};
ghost use Rattle.txc_stream.specs.Published.{HasFoundNext};

use crate::published::{Published, Publishes};
use crate::row::Front;
use crate::segment::{LiveSegments, SEGMENT_LEN, Segment};
use std::marker::Model;
use std::sync::{Arc, Mutex, Wait};

/// Cursor through a history: it finds the note of one record after the other. It holds the segment in which it
/// is.
///
/// Contracts see the records that it has seen: those that it has taken and, if it has found one more, that one.
#[derive(Drop)]
pub struct Cursor<T, N, P: Publishes<T, N>> {
    shelf: Arc<Mutex<LiveSegments<T, N, P>>>,
    segment: Arc<Segment<T, N, P>>,
    read: Front<Option<Published<T, N, P>>>,
    front: Front<T>,
    found: bool,
}

impl<T, N, P: Publishes<T, N>> Model for Cursor<T, N, P> {
    ghost use Rattle.std.specs.Arc.{arc_value};
    ghost use Rattle.txc_stream.specs.Published.{WalkerValue, walker_code, IsWalker};

    ghost Value = { WalkerValue T };

    ghost coded = { walker_code T.code };

    ghost view = { λ w. record { list = w.front.list; found = w.found } };

    ghost invariant = { λ w. IsWalker P.history (arc_value w.segment).cells w.read w.front w.found };
}

fn is_next(seen: usize, len: usize) -> bool
    ensures { result ≡ (len == seen + 1) }
{
    seen < len && len - seen == 1
}

impl<T, N, P: Publishes<T, N>> Cursor<T, N, P> {
    /// Makes a cursor that has taken the records of the front.
    pub(crate) fn new(
        shelf: Arc<Mutex<LiveSegments<T, N, P>>>,
        segment: Arc<Segment<T, N, P>>,
        read: Front<Option<Published<T, N, P>>>,
        front: Front<T>,
    ) -> Cursor<T, N, P>
        requires history { front.name ≡ P.history }
        requires cells { read.name ≡ stored (arc_value segment).cells }
        ensures { result ≡ record { list = front.list; found = false } }
    {
        Cursor {
            shelf,
            segment,
            read,
            front,
            found: false,
        }
    }

    /// Returns `true` if it has found a record that it has not taken.
    pub fn is_found(&self) -> bool
        ensures { result ≡ self.now.found }
    {
        self.found
    }

    /// Returns the note of the newest record that it has found. It must have found one that it has not taken.
    pub fn note(&self) -> &N
        requires { self.now.found ≡ true }
        ensures { P.notes self.now.list result.now }
    {
        let at = self.read.len() - 1;
        match self.segment.cells.get(&self.read, at) {
            Some(posted) => &posted.note,
            None => unreachable!(),
        }
    }

    /// Takes the record that it has found.
    pub fn take(&mut self)
        requires { self.old.found ≡ true }
        ensures { self.new ≡ record self.old { found = false } }
    {
        self.found = false;
    }

    /// Returns a front that shows the records that it has seen.
    pub fn front(&self) -> &Front<T>
        ensures history { result.now.name ≡ P.history }
        ensures list { result.now.list ≡ self.now.list }
    {
        &self.front
    }
}

impl<T: Drop, N: Drop, P: Publishes<T, N>> Cursor<T, N, P> {
    // Reads the next cell of its segment.
    fn read_cell(&mut self) -> bool
        requires { self.old.found ≡ false }
        ensures found { result ≡ self.new.found }
        ensures next { (self.new ≡ self.old) ⊎ HasFoundNext self.old self.new }
    {
        let Some(cell) = self.segment.cells.next(&mut self.read) else {
            return false;
        };
        let Some(posted) = cell else {
            return false;
        };
        if !is_next(self.front.len(), posted.front.len()) {
            return false;
        }
        self.front.agree(&posted.front);
        self.front = posted.front.again();
        self.found = true;
        true
    }

    // Continues in the next segment, if that exists yet.
    fn enter_next(&mut self, rt: &impl Wait) -> bool
        requires { self.old.found ≡ false }
        ensures { self.new ≡ self.old }
    {
        let Some(from) = self.segment.from.checked_add(SEGMENT_LEN) else {
            return false;
        };
        let Some(next) = self.shelf.lock(rt).beginning_at(from) else {
            return false;
        };
        self.read = next.cells.start();
        self.segment = next;
        true
    }

    /// Looks for the record after the taken ones, and returns `true` if it has found one. It waits for a lock
    /// only at the end of its segment, and does not allocate. No contract states that `false` means that none
    /// was posted, since one may be posted at any time.
    pub fn look(&mut self, rt: &impl Wait) -> bool
        ensures found { result ≡ self.new.found }
        ensures next { (self.new ≡ self.old) ⊎ HasFoundNext self.old self.new }
    {
        if self.found {
            return true;
        }
        if self.read.len() >= SEGMENT_LEN && !self.enter_next(rt) {
            return false;
        }
        self.read_cell()
    }
}
