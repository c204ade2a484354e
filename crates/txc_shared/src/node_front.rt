//! An observed prefix of a node's history.
ghost use Rattle.std.specs.Prelude.{◌≡◌, ◌+◌, ◌^◌, ◌<◌, ◌≤◌, ◌⊎◌, ◌++◌, ◌∷◌, [], length, Some, slice_get, IfOk, MatchOption, IsTrue, ◌↔◌, true, false};
ghost use Rattle.std.specs.Arc.{arc_value};
ghost use mathlib.Core.List.{IsPrefix};
ghost use Rattle.txc_stream.specs.Names.{stored, unstored, HasRow};
ghost use Rattle.txc_stream.specs.FrontValue.{HasCells};
ghost use Rattle.txc_shared.specs.Nodes.{IsHistoryFull, HasRecordRoom};

use std::alloc::{AllocError, Global};
use std::marker::Model;
use std::sync::Arc;
use txc_node::Record;
use txc_stream::{AppendToken, EventRow, Front, GhostRecord};

/// A prefix of the history of a node, as observed.
///
/// Contracts see the history's identity and the records seen. If the history is stored, the front has a handle
/// of the log, so that its owner can read it.
#[derive(Drop)]
pub struct NodeFront {
    row: Option<Arc<EventRow<Record>>>,
    front: Front<Record>,
}

impl Model for NodeFront {
    ghost use Rattle.std.specs.Prelude.{◌≡◌, MatchOption};
    ghost use Rattle.std.specs.Arc.{arc_value};
    ghost use Rattle.txc_stream.specs.Names.{stored, HasRow};
    ghost use Rattle.txc_shared.specs.Nodes.{NodeFrontValue};

    ghost Value = { NodeFrontValue };

    ghost view = { λ f. record { name = f.front.name; records = f.front.list } };

    ghost invariant = { λ f. MatchOption f.row
        (¬ (HasRow f.front.name))
        (λ row. f.front.name ≡ stored (arc_value row)) };
}

impl NodeFront {
    /// Makes a front that shows nothing yet of the log. Fails only if memory cannot be allocated.
    pub(crate) fn stored(alloc: Global, row: EventRow<Record>) -> Result<NodeFront, AllocError>
        ensures { IfOk result (λ front. front ≡ record { name = stored row; records = [] }) }
    {
        let front = row.start();
        let row = Some(Arc::new(alloc, row)?);
        Ok(NodeFront { row, front })
    }

    /// Makes a front of a history that is not stored.
    pub(crate) fn unstored(front: Front<Record>) -> NodeFront
        requires { ¬ (HasRow front.name) }
        ensures { result ≡ record { name = front.name; records = front.list } }
    {
        NodeFront { row: None, front }
    }

    /// Makes a front of the same history that shows what the plain front shows. It does not allocate, and fails
    /// only if the log has too many handles.
    pub(crate) fn showing(&self, front: Front<Record>) -> Result<NodeFront, AllocError>
        requires { front.name ≡ self.now.name }
        ensures { IfOk result (λ other. other ≡ record { name = self.now.name; records = front.list }) }
    {
        let row = match &self.row {
            Some(row) => Some(Arc::try_clone(row)?),
            None => None,
        };
        Ok(NodeFront { row, front })
    }

    /// Returns the log of the records, if they are stored. A caller that appends to it breaks the node; tests
    /// do so.
    pub fn row(&self) -> Option<&EventRow<Record>>
        ensures { MatchOption result
            (¬ (HasRow self.now.name))
            (λ row. self.now.name ≡ stored row.now) }
    {
        match &self.row {
            Some(row) => Some(row),
            None => None,
        }
    }

    /// Returns `true` if its records are stored.
    pub fn is_stored(&self) -> bool
        ensures { IsTrue result ↔ HasRow self.now.name }
    {
        self.row.is_some()
    }

    /// Returns the plain front, which reads the log.
    pub fn front(&self) -> &Front<Record>
        ensures name { result.now.name ≡ self.now.name }
        ensures records { result.now.list ≡ self.now.records }
    {
        &self.front
    }

    /// Returns one of the records that it shows, counted from 0, or `None` if they are not stored.
    pub fn get(&self, at: usize) -> Option<&Record>
        requires { at < length self.now.records }
        ensures { MatchOption result
            (¬ (HasRow self.now.name))
            (λ step. slice_get self.now.records at ≡ Some step.now) }
    {
        match &self.row {
            Some(row) => Some(row.get(&self.front, at)),
            None => None,
        }
    }

    /// Returns how many records it shows.
    pub fn len(&self) -> usize
        ensures shown { result ≡ length self.now.records }
        ensures room { HasCells self.now.name result }
    {
        self.front.len()
    }

    /// Returns `true` if it shows no record.
    pub fn is_empty(&self) -> bool
        ensures { IsTrue result ↔ (self.now.records ≡ []) }
    {
        self.front.is_empty()
    }

    /// Returns `true` if it shows as many records as its log has cells. One that is not stored is never full.
    pub fn is_full(&self) -> bool
        ensures full { result ≡ true → IsHistoryFull self.now.name self.now.records }
        ensures room { result ≡ false → HasRecordRoom self.now.name self.now.records }
    {
        match &self.row {
            Some(row) => self.front.len() == row.capacity(),
            None => false,
        }
    }

    /// Takes over the records that only the other front shows, so that this one shows the longer history. Does
    /// not allocate.
    pub fn longer(&mut self, other: &NodeFront)
        requires { other.now.name ≡ self.old.name }
        ensures name { self.new.name ≡ self.old.name }
        ensures one { (self.new.records ≡ self.old.records) ⊎ (self.new.records ≡ other.now.records) }
        ensures this { IsPrefix self.old.records self.new.records }
        ensures that { IsPrefix other.now.records self.new.records }
    {
        self.front.longer(&other.front);
    }

    /// Of two fronts of one history, the records of one are a prefix of the other's. This is a lemma: it does
    /// nothing when it runs.
    pub fn agree(&self, other: &NodeFront)
        requires { self.now.name ≡ other.now.name }
        ensures { IsPrefix self.now.records other.now.records ⊎ IsPrefix other.now.records self.now.records }
    {
        self.front.agree(&other.front);
    }

    /// Appends a stored record. Returns `false`, and changes nothing, if another one is in its cell.
    pub(crate) fn append(&mut self, next: Box<Record>) -> bool
        requires stored { HasRow self.old.name }
        requires room { HasRecordRoom self.old.name self.old.records }
        ensures after { result ≡ true
            → self.new ≡ record self.old { records = self.old.records ++ next.value ∷ [] } }
        ensures unchanged { result ≡ false → self.new ≡ self.old }
    {
        let Some(row) = &self.row else {
            unreachable!();
        };
        match row.append(&mut self.front, next) {
            Ok(()) => true,
            Err(_) => false,
        }
    }

    /// Appends a record with the append token that has written all records of the front.
    pub(crate) fn write(&mut self, pen: &mut AppendToken<Record>, draft: GhostRecord<Record>)
        requires name { self.old.name ≡ unstored pen.old.number }
        requires whole { self.old.records ≡ pen.old.list }
        requires room { length self.old.records + 1 < 2 ^ 64 }
        ensures after { self.new ≡ record self.old { records = self.old.records ++ draft.value ∷ [] } }
        ensures written { pen.new ≡ record pen.old { list = self.new.records } }
    {
        pen.append(&mut self.front, draft);
    }
}
