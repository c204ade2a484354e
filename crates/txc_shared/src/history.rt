//! The history of a node, and its writer.
ghost use Rattle.std.specs.Prelude.{◌≡◌, ◌++◌, ◌∷◌, [], IfOk, IsTrue, ◌↔◌, true, false};
ghost use Rattle.txc_stream.specs.Names.{stored, unstored, HasRow};
ghost use Rattle.txc_shared.specs.Nodes.{NodeFrontValue};
ghost use Rattle.txc_shared.specs.LockedNode.{record_in, Suits, CanGrow};

use crate::node_front::NodeFront;
use crate::prepared::Prepared;
use std::alloc::{AllocError, Global};
use std::marker::Model;
use txc_node::Record;
use txc_stream::{AppendToken, EventRow, Front};

/// The history of a node: a front that shows the whole of it, and, if it is ghost, its append token.
#[derive(Drop)]
pub(crate) struct History {
    front: NodeFront,
    // Shows nothing, as a new pass does.
    start: Front<Record>,
    pen: Option<AppendToken<Record>>,
}

impl Model for History {
    ghost use Rattle.std.specs.Prelude.{◌≡◌, []};
    ghost use Rattle.txc_shared.specs.Nodes.{NodeFrontValue};
    ghost use Rattle.txc_shared.specs.Writers.{HasWriter};

    ghost Value = { NodeFrontValue };

    ghost view = { λ h. h.front };

    ghost invariant = { λ h. (h.start.name ≡ h.front.name) × (h.start.list ≡ []) × HasWriter h.pen h.front };
}

impl History {
    /// Makes the history of a log of which nothing was observed. Fails only if memory cannot be allocated.
    pub(crate) fn stored(alloc: Global, row: EventRow<Record>) -> Result<History, AllocError>
        ensures { IfOk result (λ h. h ≡ record { name = stored row; records = [] }) }
    {
        let start = row.start();
        let front = NodeFront::stored(alloc, row)?;
        Ok(History {
            front,
            start,
            pen: None,
        })
    }

    /// Makes a ghost history without records.
    pub(crate) fn unstored(mut pen: AppendToken<Record>) -> History
        requires { pen.list ≡ [] }
        ensures { result ≡ record { name = unstored pen.number; records = [] } }
    {
        let start = pen.start();
        let front = NodeFront::unstored(start.again());
        History {
            front,
            start,
            pen: Some(pen),
        }
    }

    /// Returns a front that shows the whole of it.
    pub(crate) fn front(&self) -> &NodeFront
        ensures { result.now ≡ self.now }
    {
        &self.front
    }

    /// Returns a front that shows nothing yet. It does not allocate, and fails only if the log has too many
    /// handles.
    pub(crate) fn start(&self) -> Result<NodeFront, AllocError>
        ensures { IfOk result (λ front. front ≡ record { name = self.now.name; records = [] }) }
    {
        self.front.showing(self.start.again())
    }

    /// Appends a record. Returns `false`, and changes nothing, if another one is in its cell.
    pub(crate) fn append(&mut self, next: Prepared) -> bool
        requires suits { Suits self.old.name next }
        requires room { CanGrow self.old.name self.old.records }
        ensures after { result ≡ true
            → self.new ≡ record self.old { records = self.old.records ++ record_in next ∷ [] } }
        ensures unchanged { result ≡ false → self.new ≡ self.old }
        ensures taken { result ≡ false → HasRow self.old.name }
    {
        match next {
            Prepared::Stored(next) => self.front.append(next),
            Prepared::Unstored(draft) => {
                let Some(pen) = &mut self.pen else {
                    unreachable!();
                };
                self.front.write(pen, draft);
                true
            }
        }
    }
}
