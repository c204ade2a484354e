ghost use Rattle.std.specs.Prelude.{◌≡◌, ℕ, ◌+◌, ◌^◌, ◌<◌, ◌≤◌, ◌++◌, ◌∷◌, ◌⊎◌, [], length, Some, IfOk, OnOk, IfErr, IfSome, MatchOption, slice_get, ◌↔◌, IsSome, IsNone, IsTrue};
ghost use Rattle.txc_stream.specs.Names.{stored, HasRow};
ghost use Rattle.txc_stream.specs.FrontValue.{HasCells, shown_by_seen};
ghost use Rattle.txc_stream.specs.Seen.{IsCellAfter};
ghost use mathlib.Core.List.{IsPrefix};

use crate::seen::Seen;
use once_cell::race::{Note, OnceBox};
use std::alloc::{AllocError, Global};
use std::fmt;
use std::marker::{Model, PhantomData};
use thiserror::Error;

/// The most records that a row can have room for.
pub const MAX_CAPACITY: usize = 1_048_576;

/// A row of cells, each of which is set at most once: the storage of an event log. Contracts see it as the list
/// of the cells' names.
pub struct EventRow<T> {
    cells: Vec<OnceBox<T>>,
}

impl<T> Model for EventRow<T> {
    ghost use Rattle.std.specs.Prelude.{List, ℕ, length};
    ghost use Rattle.txc_stream.specs.FrontValue.{names_of, IsCapacity};

    ghost Value = { List ℕ };

    ghost view = { λ r. names_of r.cells.items };

    ghost invariant = { λ r. IsCapacity (length r.cells.items) };
}

impl<T: Drop> Drop for EventRow<T> {
    fn drop(self) {
        let EventRow { cells } = self;
        drop(cells);
    }
}

/// An observed prefix of a history.
///
/// Contracts see it as a record: `name`, the identity of its history, and `list`, the records seen. The
/// identity of a stored history is the list of the names of all cells of its row. A front has neither a
/// lifetime nor a handle, so the owner of a row can own its fronts too. It is as large as a number, however
/// many records it shows.
#[derive(Drop)]
pub struct Front<T> {
    pub(crate) seen: Seen<T>,
    len: usize,
}

impl<T> Model for Front<T> {
    ghost use Rattle.txc_stream.specs.FrontValue.{Shown, shown_code, shown_by_seen, IsSeen};

    ghost Value = { Shown T };

    ghost coded = { shown_code T.code };

    ghost view = { λ f. shown_by_seen f.seen };

    ghost invariant = { λ f. IsSeen f.seen f.len };
}

/// Errors of appending a record. Each returns the record.
#[derive(Drop, Error)]
pub enum AppendError<T> {
    /// The front shows as many records as the row has cells.
    #[error("the log has no room for another record")]
    Full(Box<T>),
    /// The cell after the front already holds a record, which the front does not show yet.
    #[error("the next cell of the log has another record")]
    Taken(Refused<T>),
}

/// A record that was not appended, since its cell was set. It comes with a note of the record in that cell, so
/// that no caller can make one up.
#[derive(Drop)]
pub struct Refused<T> {
    /// The record that was not appended.
    pub value: Box<T>,
    seen: Note<T>,
    pub ghost stands: { IsSome seen.known },
}

// The records are left out, so that they need no `Debug`.
impl<T> fmt::Debug for AppendError<T> {
    fn fmt<W: fmt::Write>(&self, f: &mut fmt::Formatter<W>) -> fmt::Result {
        match self {
            AppendError::Full(_) => f.write_str("Full(..)"),
            AppendError::Taken(_) => f.write_str("Taken(..)"),
        }
    }
}

impl<T> EventRow<T> {
    /// Makes a row with room for `capacity` records, all cells unset. Fails only if memory cannot be allocated.
    pub fn new(alloc: Global, capacity: usize) -> Result<EventRow<T>, AllocError>
        requires least { 1 ≤ capacity }
        requires most { capacity ≤ MAX_CAPACITY }
        ensures { IfOk result (λ row. length row ≡ capacity) }
    {
        let mut cells = Vec::with_capacity(alloc, capacity)?;
        for _ in 0..capacity {
            cells.push_reserved(OnceBox::new(alloc));
        }
        Ok(EventRow { cells })
    }

    /// Returns how many records the row has room for in all, at least one.
    pub fn capacity(&self) -> usize
        ensures cells { result ≡ length self.now }
        ensures least { 1 ≤ result }
        ensures most { result ≤ MAX_CAPACITY }
    {
        self.cells.len()
    }

    // Nothing of the row is observed yet.
    fn unseen(&self) -> Seen<T>
        ensures { (result.name ≡ stored self.now) × (result.list ≡ []) }
    {
        Seen {
            marker: PhantomData,
        }
    }

    /// Returns a front that shows nothing yet.
    pub fn start(&self) -> Front<T>
        ensures name { result.name ≡ stored self.now }
        ensures list { result.list ≡ [] }
    {
        let _capacity = self.cells.len();
        Front {
            seen: self.unseen(),
            len: 0,
        }
    }

    /// Returns the record at a place that the front shows, counted from 0.
    pub fn get<'a>(&'a self, front: &Front<T>, at: usize) -> &'a T
        requires row { front.now.name ≡ stored self.now }
        requires shown { at < length front.now.list }
        ensures { slice_get front.now.list at ≡ Some result.now }
    {
        let _len = front.len();
        let cells = &self.cells;
        let cell = &cells[at];
        let mut note = cell.note();
        front.seen.tell(at, &mut note);
        match cell.get_as(&mut note) {
            Some(record) => record,
            None => unreachable!(),
        }
    }

    /// Lengthens the front by the next record, if its cell is set by now, and returns that record. No contract
    /// states that `None` means an unset cell, since another thread may set it at any time.
    pub fn next<'a>(&'a self, front: &mut Front<T>) -> Option<&'a T>
        requires { front.old.name ≡ stored self.now }
        ensures name { front.new.name ≡ front.old.name }
        ensures list { MatchOption result
            (front.new.list ≡ front.old.list)
            (λ added. front.new.list ≡ front.old.list ++ added.now ∷ []) }
        ensures end { length front.old.list ≡ length self.now → IsNone result }
    {
        let at = front.len();
        let cells = &self.cells;
        if at >= cells.len() {
            return None;
        }
        let cell = &cells[at];
        let mut seen = cell.note();
        let record = cell.get_as(&mut seen)?;
        front.show(&seen);
        Some(record)
    }

    /// Of two fronts of this row, one is a prefix of the other. This is a lemma: it does nothing when it runs.
    pub fn agree(&self, one: &Front<T>, other: &Front<T>)
        requires one { one.now.name ≡ stored self.now }
        requires other { other.now.name ≡ stored self.now }
        ensures { IsPrefix one.now.list other.now.list ⊎ IsPrefix other.now.list one.now.list }
    {
        one.agree(other);
    }
}

impl<T: Drop> EventRow<T> {
    ghost use Rattle.txc_stream.specs.AppendRefusal.{handed_back, IsFull, StandsNext};

    /// Sets the cell after the front to the record, and lengthens the front by it. Fails, and changes nothing,
    /// only if the row is full or the cell is already set.
    pub fn append(&self, front: &mut Front<T>, value: Box<T>) -> Result<(), AppendError<T>>
        requires { front.old.name ≡ stored self.now }
        ensures name { front.new.name ≡ front.old.name }
        ensures after { OnOk result (front.new.list ≡ front.old.list ++ value.value ∷ []) }
        ensures unchanged { IfErr result (λ e. front.new.list ≡ front.old.list) }
        ensures handed_back { IfErr result (λ e. handed_back e ≡ value.value) }
        ensures full { IsFull result ↔ (length front.old.list ≡ length self.now) }

        // With `Taken`, a record was observed in the cell after the front.
        ensures taken { IfErr result (StandsNext self.now (length front.old.list)) }
    {
        let at = front.len();
        let cells = &self.cells;
        if at >= cells.len() {
            return Err(AppendError::Full(value));
        }
        let cell = &cells[at];
        let mut stored = cell.note();
        match cell.set_as(value, &mut stored) {
            Ok(()) => {
                front.show(&stored);
                Ok(())
            }
            Err(value) => {
                let seen = stored;
                Err(AppendError::Taken(Refused { value, seen }))
            }
        }
    }
}

impl<T> Front<T> {
    /// Returns the number of records that it shows.
    pub fn len(&self) -> usize
        ensures shown { result ≡ length self.now.list }
        ensures room { HasCells self.now.name result }
    {
        self.len
    }

    /// Returns `true` if it shows no record.
    pub fn is_empty(&self) -> bool
        ensures { IsTrue result ↔ (self.now.list ≡ []) }
    {
        self.len() == 0
    }

    /// Returns a second front that shows the same records.
    pub fn again(&self) -> Front<T>
        ensures { result ≡ self.now }
    {
        Front {
            seen: self.seen.again(),
            len: self.len,
        }
    }

    /// Of two fronts of one history, one is a prefix of the other. This is a lemma: it does nothing when it
    /// runs.
    pub fn agree(&self, other: &Front<T>)
        requires { self.now.name ≡ other.now.name }
        ensures { IsPrefix self.now.list other.now.list ⊎ IsPrefix other.now.list self.now.list }
    {
        self.seen.agree(&other.seen);
    }

    /// Takes over the records that only the other front shows, so that this one shows the longer list.
    pub fn longer(&mut self, other: &Front<T>)
        requires { other.now.name ≡ self.old.name }
        ensures name { self.new.name ≡ self.old.name }
        ensures one { (self.new.list ≡ self.old.list) ⊎ (self.new.list ≡ other.now.list) }
        ensures this { IsPrefix self.old.list self.new.list }
        ensures that { IsPrefix other.now.list self.new.list }
    {
        self.seen.agree(&other.seen);
        if self.len < other.len {
            self.seen = other.seen.again();
            self.len = other.len;
        }
    }

    // Shows one more record, the one that the note knows.
    fn show(&mut self, note: &Note<T>)
        requires cell { IsCellAfter self.old.name (length self.old.list) note.now.cell }
        requires known { IsSome note.now.known }
        ensures name { self.new.name ≡ self.old.name }
        ensures list { IfSome note.now.known (λ added. self.new.list ≡ self.old.list ++ added ∷ []) }
    {
        self.seen.add(note);
        self.len += 1;
    }

    // Makes a front that shows nothing of a ghost history.
    pub(crate) fn of_none(seen: Seen<T>) -> Front<T>
        requires name { ¬ (HasRow seen.name) }
        requires none { seen.list ≡ [] }
        ensures { result ≡ shown_by_seen seen }
    {
        Front { seen, len: 0 }
    }

    // Shows the observed records, one more than before, of a ghost history.
    pub(crate) fn show_one_more(&mut self, seen: Seen<T>)
        requires name { seen.name ≡ self.old.name }
        requires unstored { ¬ (HasRow seen.name) }
        requires more { length seen.list ≡ length self.old.list + 1 }
        requires room { length seen.list < 2 ^ 64 }
        ensures { self.new ≡ shown_by_seen seen }
    {
        self.seen = seen;
        self.len += 1;
    }
}
