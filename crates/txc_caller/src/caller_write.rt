//! A caller's read-write transaction.
ghost use Rattle.std.specs.Prelude.{◌≡◌, ◌⊎◌, ◌≤◌, ◌++◌, ◌∷◌, ◌↔◌, [], false, List, Err, IfErr, IfOk, IsSome, IsTrue, MatchOption, None, Ok, OnErr, OnOk, Some};
ghost use Rattle.txc_tags.specs.Keys.{Call};
ghost use Rattle.txc_tags.specs.declared.key.TheConstants.{LAST_FUNCTION};
ghost use Rattle.txc_rows.specs.States.{answer};
ghost use Rattle.txc_db.specs.History.{state_at};
ghost use Rattle.txc_db.specs.DatabaseReply.{IsEventIn, IsQuietIn};
ghost use Rattle.txc_call_registry.specs.Objects.{numbers_of, AllIdle};
ghost use Rattle.txc_txn_rw.specs.Answers.{AreRightIn};
ghost use Rattle.txc_txn_rw.specs.RwCore.{tags_read, IsRwIdle};
ghost use Rattle.txc_txn_rw.specs.Outcomes.{IsCommitted};
ghost use Rattle.txc_txn_rw.specs.Transitions.{IsQueryLeft};
ghost use Rattle.txc_caller.specs.Ports.{HasGrownDatabase};
ghost use Rattle.txc_caller.specs.CallerTxn.{CallerValue, KeepsCaller};
ghost use Rattle.txc_caller.specs.ComputedFunctions.{computed_calls, told_answer, top_call, top_or, AsksNext, IsToldAfterAsk, ObjectsFollow};
ghost use Rattle.txc_caller.specs.CallerWrite.{base_states, held_base, queried_for, HasAbortedWrite, HasCommittedWrite, IsActRefused, IsOwnReadRefused, IsWriteCommitRefused, IsWriteLeft, IsWriteOf, IsWritingStep};
ghost use Rattle.txc_caller.specs.declared.step.CallerError.TheVariants.{NoFunction};
ghost use Rattle.txc_caller.specs.declared.step.Step.TheVariants as steps;

use crate::call_ports::CallPorts;
use crate::caller::Caller;
use crate::step::{CallerError, Step, WriteError, Written};
use crate::writing::{act, read};
use std::alloc::Global;
use std::marker::{Model, PhantomData};
use txc_app::{Answer, App, Ask, Bytes};
use txc_call_ghosts::GhostObjects;
use txc_rows::{Change, Query, Row};
use txc_stamp::Stamp;
use txc_tags::{Key, Table};
use txc_txn_ports::TxnError;
use txc_txn_rw::{Given, RwCore};

/// A read-write transaction whose functions its caller computes. It reads the state of one stamp, its base,
/// uses no node, and buffers its changes until it commits. It commits if nothing that it has read has changed
/// since.
///
/// It is a value of its own: each act is lent the caller, the same one that it began with.
/// [`CallerWrite::commit`] or [`CallerWrite::abort`] ends it and removes the hold of its base, if it has one;
/// if it is dropped, that hold stays.
pub struct CallerWrite<A: App> {
    core: RwCore,
    told: GhostObjects,
    is_held: bool,
    of: PhantomData<A>,
}

// Not derived, since a derived one would be proved again in each crate above.
impl<A: App> Drop for CallerWrite<A> {
    fn drop(self) {
        let CallerWrite {
            core: _,
            told: _,
            is_held: _,
            of: _,
        } = self;
    }
}

impl<A: App> Model for CallerWrite<A> {
    ghost use Rattle.txc_caller.specs.CallerWrite.{CallerWriting, IsCallerWrite};

    ghost Value = { CallerWriting };

    ghost view = { λ w. record { core = w.core; objects = w.told.objects; is_held = w.is_held } };

    ghost invariant = { λ w. IsCallerWrite A.next
        (record { core = w.core; objects = w.told.objects; is_held = w.is_held }) };
}

impl<A: App> CallerWrite<A> {
    ghost use Rattle.txc_app.specs.declared.ask.Ask.TheVariants as asks;
    ghost use Rattle.txc_call.specs.CallSteps.{is_done};
    ghost use Rattle.txc_caller.specs.CallerWrite.{ChangeLeaves, IsBegunWrite};

    /// Returns a transaction over the state of that stamp.
    pub(crate) fn over(alloc: Global, base: Stamp, is_held: bool) -> CallerWrite<A>
        ensures { IsBegunWrite base is_held result }
    {
        CallerWrite {
            core: RwCore::begin(alloc, base),
            told: GhostObjects::new(),
            is_held,
            of: PhantomData,
        }
    }

    // Makes a step of the function being computed.
    fn act(&mut self, alloc: Global, caller: &mut Caller<A>, ask: Ask) -> Result<Step, CallerError>
        requires of_caller { IsWriteOf A.next caller.old self.old }
        requires asks { AsksNext A.next self.old.objects self.old.core.call ask }
        requires there { (k : Call) → ask ≡ asks.Call k → k.function ≤ LAST_FUNCTION }
        ensures none { top_call self.old.core.call ≡ None → (result ≡ Err NoFunction) × (self.new ≡ self.old) }
        ensures step { (k : Call) → top_call self.old.core.call ≡ Some k
            → IsWritingStep self.old.core self.new.core k result }
        ensures told { IsToldAfterAsk A.next (base_states caller.old self.old.core) self.old.core.call ask
            self.new.core.call result }
        ensures objects { ObjectsFollow self.old.objects self.old.core.call ask self.new.objects result }
        ensures functions { numbers_of self.new.objects ≡ numbers_of self.old.objects }
        ensures queried { OnOk result (self.new.core.queried ≡ self.old.core.queried ++ queried_for ask) }
        ensures unqueried { OnErr result (self.new.core.queried ≡ self.old.core.queried) }
        ensures undone { is_done ask ≡ false → self.new.core.answers ≡ self.old.core.answers }
        ensures refused { IfErr result (IsActRefused A.next.limits caller.old.ports.database self.old.core
            self.old.objects ask) }
        ensures same { self.new ≡ record self.old {
          core = record self.old.core {
            queried = self.new.core.queried;
            answers = self.new.core.answers;
            call = self.new.core.call;
          };
          objects = self.new.objects;
        } }
        ensures of_caller { IsWriteOf A.next caller.new self.new }
        ensures caller { caller.new ≡ caller.old }
    {
        if !self.is_computing() {
            return Err(CallerError::NoFunction);
        }
        act(
            alloc,
            &mut caller.ports,
            &mut self.core,
            &mut self.told,
            ask,
        )
    }

    /// Requests the value of a call: the outermost one if no function is being computed, otherwise for the
    /// function being computed. No node is used, so the caller must compute the function of this call next. An
    /// outermost call does not allocate.
    pub fn call(
        &mut self,
        alloc: Global,
        caller: &mut Caller<A>,
        key: Key,
    ) -> Result<Step, CallerError>
        requires of_caller { IsWriteOf A.next caller.old self.old }
        requires asks { AsksNext A.next self.old.objects self.old.core.call (asks.Call key) }
        ensures begins { top_call self.old.core.call ≡ None → result ≡ Ok steps.Compute }
        ensures step { IsWritingStep self.old.core self.new.core (top_or self.old.core.call key) result }
        ensures told { IsToldAfterAsk A.next (base_states caller.old self.old.core) self.old.core.call (asks.Call key)
            self.new.core.call result }
        ensures objects { ObjectsFollow self.old.objects self.old.core.call (asks.Call key) self.new.objects result }
        ensures functions { numbers_of self.new.objects ≡ numbers_of self.old.objects }
        ensures refused { IfErr result (IsActRefused A.next.limits caller.old.ports.database self.old.core
            self.old.objects (asks.Call key)) }
        ensures same { self.new ≡ record self.old {
          core = record self.old.core { call = self.new.core.call };
          objects = self.new.objects;
        } }
        ensures of_caller { IsWriteOf A.next caller.new self.new }
        ensures caller { caller.new ≡ caller.old }
    {
        let _function = key.function();
        if self.is_computing() {
            return self.act(alloc, caller, Ask::Call(key));
        }
        self.core.start_by_hand(key);
        Ok(Step::Compute)
    }

    /// Requests the rows of a query for the function being computed. They are those of its base, without the
    /// transaction's own changes, and the query counts as read. Fails if no function is being computed.
    pub fn query(
        &mut self,
        alloc: Global,
        caller: &mut Caller<A>,
        query: Query,
    ) -> Result<Step, CallerError>
        requires of_caller { IsWriteOf A.next caller.old self.old }
        requires asks { AsksNext A.next self.old.objects self.old.core.call (asks.Query query) }
        ensures none { top_call self.old.core.call ≡ None → (result ≡ Err NoFunction) × (self.new ≡ self.old) }
        ensures step { (k : Call) → top_call self.old.core.call ≡ Some k
            → IsWritingStep self.old.core self.new.core k result }
        ensures told { IsToldAfterAsk A.next (base_states caller.old self.old.core) self.old.core.call (asks.Query query)
            self.new.core.call result }
        ensures objects { ObjectsFollow self.old.objects self.old.core.call (asks.Query query) self.new.objects result }
        ensures functions { numbers_of self.new.objects ≡ numbers_of self.old.objects }
        ensures refused { IfErr result (IsActRefused A.next.limits caller.old.ports.database self.old.core
            self.old.objects (asks.Query query)) }
        ensures queried { OnOk result (self.new.core.queried ≡ self.old.core.queried ++ query ∷ []) }
        ensures unqueried { OnErr result (self.new.core.queried ≡ self.old.core.queried) }
        ensures same { self.new ≡ record self.old {
          core = record self.old.core { queried = self.new.core.queried; call = self.new.core.call };
          objects = self.new.objects;
        } }
        ensures of_caller { IsWriteOf A.next caller.new self.new }
        ensures caller { caller.new ≡ caller.old }
    {
        self.act(alloc, caller, Ask::Query(query))
    }

    /// Ends the function being computed with this value, which the function around it gets as its answer, if
    /// there is one. Fails if no function is being computed.
    pub fn finish(
        &mut self,
        alloc: Global,
        caller: &mut Caller<A>,
        bytes: Vec<u8>,
    ) -> Result<Step, CallerError>
        requires of_caller { IsWriteOf A.next caller.old self.old }
        requires asks { AsksNext A.next self.old.objects self.old.core.call (asks.Done bytes.items) }
        ensures none { top_call self.old.core.call ≡ None → (result ≡ Err NoFunction) × (self.new ≡ self.old) }
        ensures step { (k : Call) → top_call self.old.core.call ≡ Some k
            → IsWritingStep self.old.core self.new.core k result }
        ensures told { IsToldAfterAsk A.next (base_states caller.old self.old.core) self.old.core.call
            (asks.Done bytes.items) self.new.core.call result }
        ensures objects { ObjectsFollow self.old.objects self.old.core.call (asks.Done bytes.items)
            self.new.objects result }
        ensures functions { numbers_of self.new.objects ≡ numbers_of self.old.objects }
        ensures refused { IfErr result (IsActRefused A.next.limits caller.old.ports.database self.old.core
            self.old.objects (asks.Done bytes.items)) }
        ensures same { self.new ≡ record self.old {
          core = record self.old.core { answers = self.new.core.answers; call = self.new.core.call };
          objects = self.new.objects;
        } }
        ensures of_caller { IsWriteOf A.next caller.new self.new }
        ensures caller { caller.new ≡ caller.old }
    {
        self.act(alloc, caller, Ask::Done(Bytes::new(bytes)))
    }

    /// Reads the rows of a query of the transaction itself, at its base. They do not include its own changes,
    /// and the query counts as read. No call may be open. Fails if the database cannot answer the query, or
    /// memory cannot be allocated.
    pub fn read(
        &mut self,
        alloc: Global,
        caller: &mut Caller<A>,
        query: Query,
    ) -> Result<Vec<Row>, TxnError>
        requires of_caller { IsWriteOf A.next caller.old self.old }
        requires closed { top_call self.old.core.call ≡ None }
        ensures answer { IfOk result (λ rows.
            rows.items ≡ answer query (state_at caller.old.ports.database.history self.old.core.base)) }
        ensures after { IfOk result (λ rows. self.new.core ≡ record self.old.core {
          queried = self.old.core.queried ++ query ∷ [];
          answers = self.old.core.answers ++ Given.Rows query rows.items ∷ [];
        }) }
        ensures refused { IfErr result (IsOwnReadRefused caller.old.ports.database self.old.core.base query) }
        ensures left { IfErr result (IsQueryLeft self.old.core query self.new.core) }
        ensures same { self.new ≡ record self.old { core = self.new.core } }
        ensures of_caller { IsWriteOf A.next caller.new self.new }
        ensures caller { caller.new ≡ caller.old }
    {
        read(alloc, &mut caller.ports, &mut self.core, query)
    }

    /// Cancels the whole open call, if there is one, and returns `true` if there was. It uses no port, so it is
    /// lent no caller.
    pub fn give_up(&mut self) -> bool
        ensures answer { IsTrue result ↔ IsSome (top_call self.old.core.call) }
        ensures idle { IsRwIdle self.new.core }
        ensures same { self.new ≡ record self.old {
          core = record self.old.core { call = self.new.core.call };
          objects = self.new.objects;
        } }
        ensures objects { AllIdle self.new.objects }
        ensures functions { numbers_of self.new.objects ≡ numbers_of self.old.objects }
        ensures of_caller { (c : CallerValue) → IsWriteOf A.next c self.old → IsWriteOf A.next c self.new }
    {
        let was_open = self.is_computing();
        self.core.give_up_by_hand();
        self.told = self.told.idled();
        was_open
    }

    /// Returns `true` if a function is being computed, that is, if a call is open.
    pub fn is_computing(&self) -> bool
        ensures { IsTrue result ↔ IsSome (top_call self.now.core.call) }
    {
        self.core.machine().need().is_some()
    }

    /// Returns the call whose function is being computed, or `None` if no call is open.
    pub fn computed(&self) -> Option<&Key>
        ensures { MatchOption result (computed_calls self.now.core.call ≡ [])
            (λ key. (around : List Call) × (computed_calls self.now.core.call ≡ key.now ∷ around)) }
    {
        self.core.machine().computing()
    }

    /// Returns the answer with which the function being computed continues, or `None` if it must begin, or if
    /// no call is open.
    pub fn answer(&self) -> Option<&Answer>
        ensures { MatchOption result (told_answer self.now.core.call ≡ None)
            (λ answer. told_answer self.now.core.call ≡ Some answer.now) }
    {
        self.core.held_answer()
    }

    /// Returns the stamp that it reads.
    pub fn base(&self) -> Stamp
        ensures { result ≡ self.now.core.base }
    {
        self.core.base()
    }

    /// Returns the values of its outermost calls and the rows that it read itself, in order.
    pub fn answers(&self) -> &[Given]
        ensures { result.now ≡ self.now.core.answers }
    {
        self.core.answers()
    }

    /// Buffers a put of the row at its table and id. The transaction's own reads do not see it. Fails if there
    /// are [`txc_txn_rw::MAX_CHANGES`] changes already, or memory cannot be allocated.
    pub fn put(&mut self, row: Row) -> Result<(), TxnError>
        ensures { ChangeLeaves (Change.Put row) self.old self.new result }
    {
        self.core.write(Change::Put(row))
    }

    /// Buffers the removal of the row at the table and id. Fails as [`CallerWrite::put`] does.
    pub fn remove(&mut self, table: Table, id: u32) -> Result<(), TxnError>
        ensures { ChangeLeaves (Change.Remove table id) self.old self.new result }
    {
        self.core.write(Change::Remove(table, id))
    }

    /// Commits the changes if no event after its base matches what it has read, and removes the hold of its
    /// base. The node then takes the events. Each result is correct just before the commit's event, or, if it
    /// changes nothing, at the newest stamp. An error returns the transaction, open, with its hold.
    pub fn commit(
        self,
        alloc: Global,
        caller: &mut Caller<A>,
    ) -> Result<Written, (WriteError, CallerWrite<A>)>
        requires of_caller { IsWriteOf A.next caller.old self }
        ensures answer { IfOk result (λ done.
            IsCommitted A.next caller.new.ports.database.history self.core done.stamp) }
        ensures at_base { IfOk result (λ done.
            AreRightIn A.next (state_at caller.new.ports.database.history self.core.base) self.core.answers) }
        ensures apart { IfOk result (λ done. let c = self.core in
            let history = caller.new.ports.database.history in
            IsQuietIn history c.base (tags_read c) c.changes done.stamp
            ⊎ IsEventIn history c.base (tags_read c) c.changes done.stamp) }
        ensures answers { IfOk result (λ done. done.answers.items ≡ self.core.answers) }
        ensures committed { IfOk result (λ done. HasCommittedWrite caller.old self done.stamp caller.new) }
        ensures refused { IfErr result (λ back. IsWriteCommitRefused caller.old self back.0) }
        ensures handed_back { IfErr result (λ back. back.1 ≡ self) }
        ensures left { IfErr result (λ back. IsWriteLeft caller.old back.0 caller.new) }
        ensures caller { KeepsCaller caller.old caller.new }
        ensures grown { HasGrownDatabase caller.old.ports.database caller.new.ports.database }
    {
        if self.is_computing() {
            return Err((WriteError::MidCall, self));
        }
        let base = self.core.base();
        let tags = self.core.tags();
        let changes = self.core.changes();
        let stamp = match caller.ports.commit(alloc, base, tags, changes) {
            Ok(stamp) => stamp,
            Err(error) => return Err((WriteError::Database(error), self)),
        };
        caller.ports.let_go(self.held_base());
        let CallerWrite {
            core,
            told: _,
            is_held: _,
            of: _,
        } = self;
        Ok(Written {
            stamp,
            answers: core.finish(),
        })
    }

    /// Aborts the transaction, also in the middle of a call, and removes the hold of its base. Does not
    /// allocate.
    pub fn abort(self, caller: &mut Caller<A>)
        ensures ended { HasAbortedWrite self caller.old caller.new }
        ensures caller { KeepsCaller caller.old caller.new }
        ensures grown { HasGrownDatabase caller.old.ports.database caller.new.ports.database }
    {
        caller.ports.let_go(self.held_base());
    }

    // Returns the hold that must be removed once it ends.
    fn held_base(&self) -> Option<Stamp>
        ensures { result ≡ held_base self.now }
    {
        if self.is_held {
            Some(self.core.base())
        } else {
            None
        }
    }
}
