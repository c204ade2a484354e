//! The records of a node, and the next turn of each pass.
ghost use Rattle.std.specs.Prelude.{◌≡◌, ◌+◌, ◌++◌, ◌∷◌, ◌<◌, ◌≤◌, [], ℕ, length, IfOk, OnOk, OnErr, IfErr, IsTrue, ◌↔◌, true, false};
ghost use Rattle.txc_stream.specs.Names.{HasRow};
ghost use Rattle.txc_node.specs.Steps.{step_reply};
ghost use Rattle.txc_node.specs.declared.hit.HitValue.{HitValue};
ghost use Rattle.txc_node.specs.declared.reply.Reply.{Reply};
ghost use Rattle.txc_shared.specs.Histories.{records_of, next_record};
ghost use Rattle.txc_shared.specs.Nodes.{NodeFrontValue};
ghost use Rattle.txc_node.specs.declared.op.Op.TheVariants.{Insert, Lookup, Event};
ghost use Rattle.txc_shared.specs.LockedNode.{record_in, Suits, AwaitsReply, IsRoomRefused, CanGrow};

use crate::error::NodeError;
use crate::history::History;
use crate::node_front::NodeFront;
use crate::planned::{
    AsEvent, AsInsertion, AsLookup, AsPlanned, Askable, Insertable, Planned, Takeable,
};
use crate::prepared::Prepared;
use std::alloc::{AllocError, Global};
use std::marker::Model;
use txc_node::{Entry, NodeCore, Op, Record, Reply};
use txc_stamp::Stamp;
use txc_stream::GhostRecord;
use txc_tags::{Key, TagSet};

/// The most passes of a node.
pub const MAX_PASSES: usize = 4_096;

/// The history of a node, and how many of its records each pass made.
#[derive(Drop)]
pub(crate) struct Log {
    history: History,
    turns: Vec<usize>,
}

impl Model for Log {
    ghost use Rattle.std.specs.Prelude.{◌≡◌, ℕ, length, get_or};
    ghost use Rattle.txc_shared.specs.Histories.{records_of};
    ghost use Rattle.txc_shared.specs.Nodes.{LogValue};

    ghost Value = { LogValue };

    ghost view = { λ l. record {
      name = l.history.name;
      records = l.history.records;
      passes = length l.turns.items;
    } };

    ghost invariant = { λ l. (p : ℕ) → get_or l.turns.items p 0 ≡ records_of p l.history.records };
}

impl Log {
    /// Makes a log without passes; the history has no records.
    pub(crate) fn new(alloc: Global, history: History) -> Log
        requires { history.records ≡ [] }
        ensures { result ≡ record { name = history.name; records = []; passes = 0 } }
    {
        Log {
            history,
            turns: Vec::new(alloc),
        }
    }

    /// Returns a front that shows its records.
    pub(crate) fn front(&self) -> &NodeFront
        ensures { result.now ≡ record { name = self.now.name; records = self.now.records } }
    {
        self.history.front()
    }

    /// Returns the front of a new pass, which shows no record. Fails only if the log has too many handles.
    pub(crate) fn start(&self) -> Result<NodeFront, AllocError>
        ensures { IfOk result (λ front. front ≡ record { name = self.now.name; records = [] }) }
    {
        self.history.start()
    }

    /// Returns how many passes there are.
    pub(crate) fn passes(&self) -> usize
        ensures { result ≡ self.now.passes }
    {
        self.turns.len()
    }

    /// Adds a pass, and returns its number. Fails, and changes nothing, only if memory cannot be allocated.
    pub(crate) fn add_pass(&mut self) -> Result<usize, AllocError>
        ensures pass { IfOk result (λ pass. pass ≡ self.old.passes) }
        ensures after { OnOk result (self.new ≡ record self.old { passes = self.old.passes + 1 }) }
        ensures unchanged { OnErr result (self.new ≡ self.old) }
    {
        let pass = self.turns.len();
        self.turns.push(0)?;
        Ok(pass)
    }

    /// Returns how many of its records a pass made.
    pub(crate) fn turn(&self, pass: usize) -> usize
        requires { pass < self.now.passes }
        ensures { result ≡ records_of pass self.now.records }
    {
        let _len = self.history.front().len();
        self.turns[pass]
    }

    /// Fails as full if there is no room for a record, or as out of memory if there are as many records as a
    /// `usize` can count.
    pub(crate) fn check_room(&self) -> Result<(), NodeError>
        ensures only_if { OnOk result (CanGrow self.now.name self.now.records) }
        ensures refused { IfErr result (IsRoomRefused self.now.name self.now.records) }
    {
        let front = self.history.front();
        if front.is_full() {
            return Err(NodeError::HistoryFull);
        }
        if front.len() == usize::MAX {
            return Err(NodeError::Memory);
        }
        Ok(())
    }

    // Makes the next record of a pass, for a stored history. Its reply is set later.
    fn boxed(&self, alloc: Global, pass: usize, op: Op) -> Result<Box<Record>, AllocError>
        requires { pass < self.now.passes }
        ensures { IfOk result (λ next. (reply : Reply HitValue)
            → record next.value { reply = reply } ≡ next_record pass self.now.records op reply) }
    {
        let next = Record {
            pass,
            turn: self.turn(pass),
            op,
            reply: Reply::Miss,
        };
        Ok(Box::new(alloc, next)?)
    }

    // Makes the ghost record of a pass's next step. It has no code.
    fn draft(&self, pass: usize, op: &Op, core: &NodeCore) -> GhostRecord<Record>
        requires { pass < self.now.passes }
        ensures { result.value ≡ next_record pass self.now.records op.now (step_reply core.now op.now) }
    {
        let planned = Planned {
            pass,
            turn: self.turn(pass),
            op,
            core,
        };
        GhostRecord::of::<Planned<'_>, AsPlanned>(&planned)
    }

    /// Prepares the next record of a pass, whose step the cache will make. Allocates, and so can fail, only if
    /// records are stored.
    pub(crate) fn prepare(
        &self,
        alloc: Global,
        pass: usize,
        op: Op,
        core: &NodeCore,
    ) -> Result<Prepared, AllocError>
        requires { pass < self.now.passes }
        ensures suits { IfOk result (Suits self.now.name) }
        ensures awaits { IfOk result
            (AwaitsReply (next_record pass self.now.records op (step_reply core.now op))) }
        ensures refused { OnErr result (HasRow self.now.name) }
    {
        if self.front().is_stored() {
            Ok(Prepared::Stored(self.boxed(alloc, pass, op)?))
        } else {
            Ok(Prepared::Unstored(self.draft(pass, &op, core)))
        }
    }

    // Makes the ghost record of a lookup. It has no code.
    fn draft_lookup(
        &self,
        pass: usize,
        key: &Key,
        lo: Stamp,
        hi: Stamp,
        core: &NodeCore,
    ) -> GhostRecord<Record>
        requires { pass < self.now.passes }
        ensures { result.value
            ≡ next_record pass self.now.records (Lookup key.now lo hi) (step_reply core.now (Lookup key.now lo hi)) }
    {
        let askable = Askable {
            pass,
            turn: self.turn(pass),
            key,
            lo,
            hi,
            core,
        };
        GhostRecord::of::<Askable<'_>, AsLookup>(&askable)
    }

    /// Prepares the record of a lookup that the cache will make. Allocates, and so can fail, only if records
    /// are stored.
    pub(crate) fn prepare_lookup(
        &self,
        alloc: Global,
        pass: usize,
        key: &Key,
        lo: Stamp,
        hi: Stamp,
        core: &NodeCore,
    ) -> Result<Prepared, AllocError>
        requires { pass < self.now.passes }
        ensures suits { IfOk result (Suits self.now.name) }
        ensures awaits { IfOk result (AwaitsReply
            (next_record pass self.now.records (Lookup key.now lo hi) (step_reply core.now (Lookup key.now lo hi)))) }
    {
        if self.front().is_stored() {
            let key = key.copy();
            Ok(Prepared::Stored(self.boxed(alloc, pass, Op::Lookup { key, lo, hi })?))
        } else {
            Ok(Prepared::Unstored(self.draft_lookup(pass, key, lo, hi, core)))
        }
    }

    // Makes the ghost record of an insertion. It has no code.
    fn draft_insertion(&self, pass: usize, entry: &Entry, core: &NodeCore) -> GhostRecord<Record>
        requires { pass < self.now.passes }
        ensures { result.value
            ≡ next_record pass self.now.records (Insert entry.now) (step_reply core.now (Insert entry.now)) }
    {
        let insertable = Insertable {
            pass,
            turn: self.turn(pass),
            entry,
            core,
        };
        GhostRecord::of::<Insertable<'_>, AsInsertion>(&insertable)
    }

    /// Prepares the record of an insertion that the cache will make. Allocates, and so can fail, only if
    /// records are stored.
    pub(crate) fn prepare_insertion(
        &self,
        alloc: Global,
        pass: usize,
        entry: &Entry,
        core: &NodeCore,
    ) -> Result<Prepared, AllocError>
        requires { pass < self.now.passes }
        ensures suits { IfOk result (Suits self.now.name) }
        ensures awaits { IfOk result (AwaitsReply
            (next_record pass self.now.records (Insert entry.now) (step_reply core.now (Insert entry.now)))) }
    {
        if self.front().is_stored() {
            let op = Op::Insert(entry.copy(alloc)?);
            Ok(Prepared::Stored(self.boxed(alloc, pass, op)?))
        } else {
            Ok(Prepared::Unstored(self.draft_insertion(pass, entry, core)))
        }
    }

    // Makes the ghost record of an event. It has no code.
    fn draft_event(
        &self,
        pass: usize,
        stamp: Stamp,
        tags: &TagSet,
        core: &NodeCore,
    ) -> GhostRecord<Record>
        requires { pass < self.now.passes }
        ensures { result.value
            ≡ next_record pass self.now.records (Event stamp tags.now) (step_reply core.now (Event stamp tags.now)) }
    {
        let takeable = Takeable {
            pass,
            turn: self.turn(pass),
            stamp,
            tags,
            core,
        };
        GhostRecord::of::<Takeable<'_>, AsEvent>(&takeable)
    }

    /// Prepares the record of an event that the cache will take. Allocates, and so can fail, only if records
    /// are stored.
    pub(crate) fn prepare_event(
        &self,
        alloc: Global,
        pass: usize,
        stamp: Stamp,
        tags: &TagSet,
        core: &NodeCore,
    ) -> Result<Prepared, AllocError>
        requires { pass < self.now.passes }
        ensures suits { IfOk result (Suits self.now.name) }
        ensures awaits { IfOk result (AwaitsReply
            (next_record pass self.now.records (Event stamp tags.now) (step_reply core.now (Event stamp tags.now)))) }
    {
        if self.front().is_stored() {
            let tags = tags.copy(alloc)?;
            Ok(Prepared::Stored(self.boxed(alloc, pass, Op::Event { stamp, tags })?))
        } else {
            Ok(Prepared::Unstored(self.draft_event(pass, stamp, tags, core)))
        }
    }

    /// Appends a record of one of its passes. Returns `false`, and changes nothing, if another one is in its
    /// cell.
    #[inline(always)]
    pub(crate) fn append(&mut self, pass: usize, next: Prepared) -> bool
        requires suits { Suits self.old.name next }
        requires room { CanGrow self.old.name self.old.records }
        requires own { pass < self.old.passes }
        requires by { (record_in next).pass ≡ pass }
        ensures after { result ≡ true
            → self.new ≡ record self.old { records = self.old.records ++ record_in next ∷ [] } }
        ensures unchanged { result ≡ false → self.new ≡ self.old }
        ensures taken { result ≡ false → HasRow self.old.name }
    {
        let turn = self.turns[pass];
        if !self.history.append(next) {
            return false;
        }
        self.turns[pass] = turn + 1;
        true
    }
}
