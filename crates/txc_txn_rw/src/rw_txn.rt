//! Read-write transactions over the locked database.
ghost use Rattle.std.specs.Prelude.{◌≡◌, ◌⊎◌, ◌++◌, ◌∷◌, ◌<◌, ◌≤◌, [], Err, List, IfErr, IfOk, IsNone, IsOk, IsSome, OnErr, OnOk, Some, length};
ghost use Rattle.txc_rows.specs.declared.query.Change.{Change};
ghost use Rattle.txc_rows.specs.States.{answer};
ghost use Rattle.txc_db.specs.Calls.{IsHoldRefused};
ghost use Rattle.txc_db.specs.History.{state_at};
ghost use Rattle.txc_db.specs.DatabaseReply.{IsEventIn, IsQuietIn, IsSharedCommitRefused, MayRefuse};
ghost use Rattle.txc_app.specs.Eval.{eval};
ghost use Rattle.txc_call_registry.specs.Objects.{activity_of, AllIdle};
ghost use Rattle.txc_call.specs.declared.error.CallError.TheVariants.{NoFunction};
ghost use Rattle.txc_txn_rw.specs.declared.rw_core.TheConstants.{MAX_CHANGES};
ghost use Rattle.txc_txn_rw.specs.Answers.{state_of, AgreeOn, AreRightIn};
ghost use Rattle.txc_txn_rw.specs.RwCore.{tags_read, IsBegun, IsWriteRefused};
ghost use Rattle.txc_txn_rw.specs.Transitions.{HasRunAtBase, IsQueryLeft, IsQueryRefusal};
ghost use Rattle.txc_txn_rw.specs.Outcomes.{IsCommitted};

use crate::calling::{call_at, query_at};
use crate::given::Given;
use crate::rw_core::RwCore;
use std::alloc::Global;
use std::marker::Model;
use std::sync::Wait;
use txc_app::App;
use txc_call_registry::{Cacheable, Registry};
use txc_db::{Answered, CommitError, Database, DbError, Held, HistoryFront, Naming};
use txc_node::Value;
use txc_rows::{Change, Query, Row};
use txc_stamp::Stamp;
use txc_tags::{Key, Table};
use txc_txn_ports::TxnError;

/// Result of a committed transaction.
#[derive(Drop)]
pub struct Committed {
    /// The newest stamp after the commit.
    pub stamp: Stamp,
    /// The results that the transaction has read, in order.
    pub answers: Vec<Given>,
    /// The history up to the stamp.
    pub front: HistoryFront,
}

/// A read-write transaction. It reads at its base, the newest stamp when it began, and buffers its changes
/// until it commits. It uses no node.
///
/// It is linear and holds its base: [`RwTxn::commit`] or [`RwTxn::abort`] must consume it, which release the
/// hold and return the registry of its functions.
pub struct RwTxn<'a, J: Naming, A: App, C: Cacheable> {
    database: &'a Database<J>,
    registry: Registry<A, C>,
    core: RwCore,
    held: Held<J>,
}

impl<'a, J: Naming, A: App, C: Cacheable> Model for RwTxn<'a, J, A, C> {
    ghost use Rattle.txc_call_registry.specs.Objects.{AllIdle};
    ghost use Rattle.txc_txn_rw.specs.RwTxn.{RwTxnValue, IsRwResting};

    ghost Value = { RwTxnValue };

    ghost view = { λ t. record { core = t.core; history = t.held; objects = t.registry } };

    ghost invariant = { λ t. AllIdle t.registry × IsRwResting A.next t.held t.core };
}

impl<'a, J: Naming, A: App, C: Cacheable> RwTxn<'a, J, A, C> {
    /// Begins a transaction at the newest stamp, which is held until it ends. An error returns the registry.
    #[tactic(auto, using(crate::proofs::Holding::holds_at_first))]
    pub fn begin(
        rt: &impl Wait,
        alloc: Global,
        database: &'a Database<J>,
        registry: Registry<A, C>,
    ) -> Result<RwTxn<'a, J, A, C>, (DbError, Registry<A, C>)>
        requires { AllIdle registry }
        ensures begun { IfOk result (λ txn. IsBegun (length txn.history) txn.core) }
        ensures objects { IfOk result (λ txn. txn.objects ≡ registry) }
        ensures refused { IfErr result (λ e. MayRefuse J.database_history IsHoldRefused e.0) }
        ensures handed_back { IfErr result (λ e. e.1 ≡ registry) }
    {
        let held = match database.hold(rt, alloc) {
            Ok(held) => held,
            Err(error) => return Err((error, registry)),
        };
        Ok(RwTxn {
            database,
            registry,
            core: RwCore::begin(alloc, held.stamp()),
            held,
        })
    }

    /// In every transaction each result is the value of its call or the answer of its query at the base, and in
    /// each other state in which the answered queries have the same answers; and every object is idle. This is
    /// a lemma: it does nothing when it runs.
    pub fn is_right(&self)
        ensures idle { AllIdle self.now.objects }
        ensures base { self.now.core.base ≤ length self.now.history }
        ensures answers { AreRightIn A.next (state_at self.now.history self.now.core.base)
            self.now.core.answers }
        ensures rests { (changes : List Change)
            → AgreeOn self.now.core.queried (state_at self.now.history self.now.core.base) (state_of changes)
            → AreRightIn A.next (state_of changes) self.now.core.answers }
    {
        let _base = self.core.base();
    }

    /// Returns the stamp at which it reads.
    pub fn base(&self) -> Stamp
        ensures { result ≡ self.now.core.base }
    {
        self.core.base()
    }

    /// Returns the results that it has read, in order.
    pub fn answers(&self) -> &[Given]
        ensures { result.now ≡ self.now.core.answers }
    {
        self.core.answers()
    }

    /// Returns the value of the call at the base. After an error the results and the changes are as before; the
    /// queries answered by then count as read.
    pub fn call(&mut self, rt: &impl Wait, alloc: Global, key: Key) -> Result<Value, TxnError>
        ensures answer { IfOk result (λ value.
            eval A.next key (state_at self.old.history self.old.core.base) ≡ Some value) }
        ensures after { IfOk result (λ value.
            self.new.core.answers ≡ self.old.core.answers ++ Given.Value key value ∷ []) }
        ensures unchanged { OnErr result (self.new.core.answers ≡ self.old.core.answers) }
        ensures run { IsSome (activity_of self.old.objects key.function)
            → HasRunAtBase A.next J.database_history self.old key self.new result }
        ensures missing { IsNone (activity_of self.old.objects key.function)
            → result ≡ Err (TxnError.Call (NoFunction key.function)) }
        ensures missing_left { IsNone (activity_of self.old.objects key.function) → self.new ≡ self.old }
        ensures same { self.new ≡ record self.old {
          core = record self.old.core {
            queried = self.new.core.queried;
            answers = self.new.core.answers;
            call = self.new.core.call;
          };
        } }
        ensures idle { AllIdle self.new.objects }
    {
        call_at(
            rt,
            alloc,
            self.database,
            self.held.front(),
            &mut self.registry,
            &mut self.core,
            key,
        )
    }

    /// Returns the rows of the query at the base. After an error the transaction is as before, except that a
    /// query whose answer could not be copied for want of memory counts as read.
    pub fn query(
        &mut self,
        rt: &impl Wait,
        alloc: Global,
        query: Query,
    ) -> Result<Vec<Row>, TxnError>
        ensures answer { IfOk result (λ rows.
            rows.items ≡ answer query (state_at self.old.history self.old.core.base)) }
        ensures after { IfOk result (λ rows. self.new.core ≡ record self.old.core {
          queried = self.old.core.queried ++ query ∷ [];
          answers = self.old.core.answers ++ Given.Rows query rows.items ∷ [];
        }) }
        ensures refused { IfErr result (IsQueryRefusal J.database_history self.old.core.base query) }
        ensures left { IfErr result (IsQueryLeft self.old.core query self.new.core) }
        ensures same { self.new ≡ record self.old { core = self.new.core } }
    {
        query_at(
            rt,
            alloc,
            self.database,
            self.held.front(),
            &mut self.core,
            query,
        )
    }

    /// Buffers a put of the row at its table and id. The transaction's own reads do not see it. Fails if there
    /// are [`MAX_CHANGES`] changes already, or memory cannot be allocated.
    pub fn put(&mut self, row: Row) -> Result<(), TxnError>
        ensures after { OnOk result (self.new ≡ record self.old {
          core = record self.old.core {
            changes = self.old.core.changes ++ Change.Put row ∷ [];
          };
        }) }
        ensures only_if { IsOk result → length self.old.core.changes < MAX_CHANGES }
        ensures refused { IfErr result (IsWriteRefused (length self.old.core.changes)) }
        ensures unchanged { OnErr result (self.new ≡ self.old) }
    {
        self.core.write(Change::Put(row))
    }

    /// Buffers the removal of the row at the table and id. Fails if there are [`MAX_CHANGES`] changes already,
    /// or memory cannot be allocated.
    pub fn remove(&mut self, table: Table, id: u32) -> Result<(), TxnError>
        ensures after { OnOk result (self.new ≡ record self.old {
          core = record self.old.core {
            changes = self.old.core.changes ++ Change.Remove table id ∷ [];
          };
        }) }
        ensures only_if { IsOk result → length self.old.core.changes < MAX_CHANGES }
        ensures refused { IfErr result (IsWriteRefused (length self.old.core.changes)) }
        ensures unchanged { OnErr result (self.new ≡ self.old) }
    {
        self.core.write(Change::Remove(table, id))
    }

    /// Commits the changes if no event after the base matches what was read, and releases the hold of the base.
    /// An error is that of the database, and returns the transaction, open and still holding its base.
    pub fn commit(
        self,
        rt: &impl Wait,
        alloc: Global,
    ) -> Result<(Committed, Registry<A, C>), (RwTxn<'a, J, A, C>, CommitError)>
        ensures named { IfOk result (λ done. done.0.front.events ≡ J.database_history) }
        ensures answer { IfOk result (λ done.
            IsCommitted A.next done.0.front.history self.entry.core done.0.stamp) }
        ensures at_base { IfOk result (λ done.
            AreRightIn A.next (state_at done.0.front.history self.entry.core.base) self.entry.core.answers) }
        ensures apart { IfOk result (λ done. let c = self.entry.core in
            IsQuietIn done.0.front.history c.base (tags_read c) c.changes done.0.stamp
            ⊎ IsEventIn done.0.front.history c.base (tags_read c) c.changes done.0.stamp) }
        ensures answers { IfOk result (λ done. done.0.answers.items ≡ self.entry.core.answers) }
        ensures registry { IfOk result (λ done. done.1 ≡ self.entry.objects) }
        ensures idle { IfOk result (λ done. AllIdle done.1) }
        ensures refused { IfErr result (λ e. MayRefuse J.database_history (λ d. let c = self.entry.core in
            IsSharedCommitRefused d c.base (tags_read c) c.changes) e.1) }
        ensures handed_back { IfErr result (λ e. e.0 ≡ self.entry) }
    {
        let base = self.core.base();
        let tags = self.core.tags();
        let changes = self.core.changes();
        let done = match self.database.commit(rt, alloc, base, tags, changes) {
            Ok(done) => done,
            Err(cause) => return Err((self, cause)),
        };
        let RwTxn {
            database,
            registry,
            core,
            held,
        } = self;
        let Answered {
            answer: stamp,
            front,
        } = done;
        held.front().agree(&front);
        let answers = core.finish();
        let _refused = database.release(rt, held);
        let committed = Committed {
            stamp,
            answers,
            front,
        };
        Ok((committed, registry))
    }

    /// Aborts the transaction, releases the hold of its base, and returns the registry. Does not allocate.
    pub fn abort(self, rt: &impl Wait) -> Registry<A, C>
        ensures answer { result ≡ self.entry.objects }
        ensures idle { AllIdle result }
    {
        let RwTxn {
            database,
            registry,
            core,
            held,
        } = self;
        let _answers = core.finish();
        let _refused = database.release(rt, held);
        registry
    }
}
