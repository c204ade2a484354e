//! A ghost history, with notes of its last records.

ghost use Rattle.std.specs.Prelude.{◌≡◌, ◌+◌, ◌^◌, ◌<◌, ◌≤◌, ◌++◌, ◌∷◌, [], length, max, IfSome, OnOk, slice_get};
ghost use Rattle.txc_stream.specs.Names.{unstored};
ghost use Rattle.txc_stream.specs.Windows.{front_of_window};

use crate::append_token::AppendToken;
use crate::ghost_record::GhostRecord;
use crate::row::Front;
use std::alloc::{AllocError, Global};
use std::collections::VecDeque;
use std::marker::{Model, PhantomData};

/// The relation between a record and its note, for contracts. An implementation has no function.
pub trait Witnessed<T, N> {
    ghost notes: { T → N → Type 0 };
}

/// A ghost history, with a note of each of its last records.
///
/// Contracts see the history's identity, its records, how many of the first have no note any more, and for how
/// many more notes there is room.
#[derive(Drop)]
pub struct Window<T, N, M: Witnessed<T, N>> {
    pen: AppendToken<T>,
    front: Front<T>,
    first: usize,
    notes: VecDeque<N>,
    of: PhantomData<M>,
}

impl<T, N, M: Witnessed<T, N>> Model for Window<T, N, M> {
    ghost use Rattle.std.specs.Prelude.{◌-◌};
    ghost use Rattle.std.specs.VecDeque.{deque_len, deque_capacity};
    ghost use Rattle.txc_stream.specs.Windows.{WindowValue, window_code, IsWindow};

    ghost Value = { WindowValue T };

    ghost coded = { window_code T.code };

    ghost view = { λ w. record {
      name = w.front.name;
      list = w.front.list;
      first = w.first;
      room = deque_capacity w.notes - deque_len w.notes;
    } };

    ghost invariant = { λ w. IsWindow M.notes w.pen.number w.pen.list w.front w.first w.notes.items };
}

impl<T, N, M: Witnessed<T, N>> Window<T, N, M> {
    /// Makes a window over the history of `pen`, which has no records yet.
    pub fn new(alloc: Global, mut pen: AppendToken<T>) -> Window<T, N, M>
        requires { pen.list ≡ [] }
        ensures name { result.name ≡ unstored pen.number }
        ensures list { result.list ≡ [] }
        ensures first { result.first ≡ 0 }
    {
        let front = pen.start();
        Window {
            pen,
            front,
            first: 0,
            notes: VecDeque::new(alloc),
            of: PhantomData,
        }
    }

    /// Makes a window over the history of `pen`, which begins with the record `draft`. It has no note of it.
    pub fn begun(alloc: Global, mut pen: AppendToken<T>, draft: GhostRecord<T>) -> Window<T, N, M>
        requires { pen.list ≡ [] }
        ensures name { result.name ≡ unstored pen.number }
        ensures list { result.list ≡ draft.value ∷ [] }
        ensures first { result.first ≡ 1 }
    {
        let mut front = pen.start();
        pen.append(&mut front, draft);
        Window {
            pen,
            front,
            first: 1,
            notes: VecDeque::new(alloc),
            of: PhantomData,
        }
    }

    /// Returns a front that shows the whole history.
    pub fn front(&self) -> &Front<T>
        ensures { result.now ≡ front_of_window self.now }
    {
        &self.front
    }

    /// Returns how many of the first records have no note any more.
    pub fn first(&self) -> usize
        ensures first { result ≡ self.now.first }
        ensures within { result ≤ length self.now.list }
    {
        self.first
    }

    /// Returns the note of the record at a place, counted from 0.
    pub fn get(&self, at: usize) -> &N
        requires kept { self.now.first ≤ at }
        requires shown { at < length self.now.list }
        ensures { IfSome (slice_get self.now.list at) (λ x. M.notes x result.now) }
    {
        &self.notes[at - self.first]
    }

    /// Makes room for one more note. Fails only if memory cannot be allocated; nothing else changes.
    pub fn reserve(&mut self) -> Result<(), AllocError>
        ensures same { self.new ≡ record self.old { room = self.new.room } }
        ensures room { OnOk result (0 < self.new.room) }
    {
        self.notes.reserve(1)?;
        Ok(())
    }

    /// Appends the drafted record, with its note. It cannot fail.
    pub fn append(&mut self, note: N, draft: GhostRecord<T>)
        requires noted { M.notes draft.value note }
        requires room { 0 < self.old.room }
        requires counted { length self.old.list + 1 < 2 ^ 64 }
        ensures { self.new ≡ record self.old {
          list = self.old.list ++ draft.value ∷ [];
          room = self.new.room;
        } }
    {
        self.notes.push_back_reserved(note);
        self.pen.append(&mut self.front, draft);
    }
}

impl<T, N: Drop, M: Witnessed<T, N>> Window<T, N, M> {
    // Drops the first note.
    fn forget_first(&mut self)
        requires { self.old.first < length self.old.list }
        ensures { self.new ≡ record self.old { first = self.old.first + 1; room = self.new.room } }
    {
        let _len = self.front.len();
        drop(self.notes.pop_front());
        self.first += 1;
    }

    /// Drops the notes of the records before a place, and keeps the others. Does not allocate.
    #[tactic(auto, using(crate::proofs::Noting::forget_more))]
    pub fn forget(&mut self, before: usize)
        requires { before ≤ length self.old.list }
        ensures { self.new ≡ record self.old { first = max self.old.first before; room = self.new.room } }
    {
        while self.first < before {
            self.forget_first();
        }
    }
}
