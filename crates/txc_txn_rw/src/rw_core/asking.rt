//! Running a call to its next query.
ghost use Rattle.std.specs.Prelude.{◌≡◌, ◌≤◌, [], Err, IfErr, None, OnErr, OnOk, Some, IsNone, IsSome};
ghost use Rattle.txc_rows.specs.States.{State};
ghost use Rattle.txc_db.specs.History.{History};
ghost use Rattle.txc_app.specs.Eval.{Next};
ghost use Rattle.txc_call_registry.specs.Objects.{activity_of, numbers_of, Objects};
ghost use Rattle.txc_call.specs.declared.error.CallError.TheVariants.{NoFunction};
ghost use Rattle.txc_call.specs.declared.need.Need.{Need};
ghost use Rattle.txc_call.specs.declared.need.Outcome.{Outcome};
ghost use Rattle.txc_call.specs.CallSteps.{NeedsFunction};
ghost use Rattle.txc_call.specs.CallMachine.{started, InCall, IsCalling};

use crate::given::Given;
use crate::reading::Reading;
use crate::rw_core::RwCore;
use crate::uncached::go_on_uncached;
use std::alloc::Global;
use txc_app::App;
use txc_call::{Need, Outcome};
use txc_call_registry::{Cacheable, Registry};
use txc_node::Value;
use txc_rows::Query;
use txc_tags::Key;
use txc_txn_ports::{Turn, TxnError};

impl RwCore {
    ghost use Rattle.txc_txn_rw.specs.RwCore.{answers_after, IsDone, IsRw, IsRwIdle, IsRwTurn, RwHolds};
    ghost use Rattle.txc_txn_ports.specs.Turns.{IsAsk};
    ghost use Rattle.txc_txn_rw.specs.Transitions.{standing_of, RwCallTransition, RwStandingTransition};

    /// Requests a query at the base. It allocates now, so that counting the answer as read does not. Fails only
    /// if memory cannot be allocated.
    pub fn ask(&mut self, alloc: Global, query: &Query) -> Result<(), TxnError>
        requires { self.old.reading ≡ None }
        ensures after { OnOk result (self.new ≡ record self.old { reading = Some query.now }) }
        ensures unchanged { OnErr result (self.new ≡ self.old) }
        ensures refused { IfErr result (λ error. error ≡ TxnError.Memory) }
    {
        let mut tags = self.tags.copy(alloc)?;
        tags.add(query.tag())?;
        self.queried.reserve(1)?;
        self.reading = Some(Reading {
            query: *query,
            tags,
        });
        Ok(())
    }

    // Stores the value of the call, which is done, and returns a copy of it.
    pub(crate) fn keep_value(&mut self, alloc: Global) -> Result<Value, TxnError>
        requires done { (o : Outcome) × (self.old.call.need ≡ Some (Need.Value o)) }
        requires none { self.old.reading ≡ None }
        ensures fits { (next : Next) (objects : Objects) → IsCalling next objects self.old.call
            → InCall 1 self.old.call
            → IsRw next objects self.new }
        ensures holds { (next : Next) (objects : Objects) (L : History) → IsCalling next objects self.old.call
            → InCall 1 self.old.call → RwHolds next L objects self.old → RwHolds next L objects self.new }
        ensures idle { IsRwIdle self.new }
        ensures answers { (next : Next) (objects : Objects) → IsCalling next objects self.old.call
            → self.new.answers ≡ answers_after self.old.answers self.old.call.top (Turn.Ended result) }
        ensures transition { (objects : Objects)
            → RwStandingTransition (standing_of self.old.call objects) self.new objects (Turn.Ended result) }
        ensures same { self.new
            ≡ record self.old { answers = self.new.answers; call = record self.old.call { need = None } } }
    {
        let Some(outcome) = self.machine.finish() else {
            unreachable!()
        };
        let Outcome {
            key,
            value,
            reach: _,
            tags: _,
        } = outcome;
        let Ok(copy) = value.copy(alloc) else {
            return Err(TxnError::Memory);
        };
        let Ok(()) = self.answers.push(Given::Value(key, value)) else {
            return Err(TxnError::Memory);
        };
        Ok(copy)
    }

    // Continues the call until it needs a query or is done.
    pub(crate) fn go_on<A: App, C: Cacheable>(
        &mut self,
        alloc: Global,
        registry: &mut Registry<A, C>,
    ) -> Turn<Query, Value>
        requires calling { IsCalling A.next registry.old self.old.call }
        requires some { IsSome self.old.call.need }
        requires settled { ¬ (NeedsFunction self.old.call.need) }
        requires at_one { InCall 1 self.old.call }
        requires none { self.old.reading ≡ None }
        ensures fits { IsRw A.next registry.new self.new }
        ensures holds { (L : History) → RwHolds A.next L registry.old self.old
            → RwHolds A.next L registry.new self.new }
        ensures turn { IsRwTurn self.new result }
        ensures answers { self.new.answers ≡ answers_after self.old.answers self.old.call.top result }
        ensures goes_on { IsAsk result → self.new.call.top ≡ self.old.call.top }
        ensures counted { IsAsk result
            → (¬ (IsDone self.old.call.need)) × (self.old.call.asked ≤ self.new.call.asked) }
        ensures transition { (s : State) → RwCallTransition A.next s (standing_of self.old.call registry.old) []
            self.new registry.new result }
        ensures functions { numbers_of registry.new ≡ numbers_of registry.old }
        ensures same { self.new ≡ record self.old {
          answers = self.new.answers;
          call = self.new.call;
          reading = self.new.reading;
        } }
    {
        match go_on_uncached(&mut self.machine, registry, alloc) {
            Ok(Some(query)) => self.ask_of_call(alloc, registry, query),
            Ok(None) => Turn::Ended(self.keep_value(alloc)),
            Err(error) => Turn::Ended(Err(error.into())),
        }
    }

    // Requests the query that the call needs.
    fn ask_of_call<A: App, C: Cacheable>(
        &mut self,
        alloc: Global,
        registry: &mut Registry<A, C>,
        query: Query,
    ) -> Turn<Query, Value>
        requires calling { IsCalling A.next registry.old self.old.call }
        requires need { self.old.call.need ≡ Some (Need.Query query) }
        requires at_one { InCall 1 self.old.call }
        requires none { self.old.reading ≡ None }
        ensures fits { IsRw A.next registry.new self.new }
        ensures holds { (L : History) → RwHolds A.next L registry.old self.old
            → RwHolds A.next L registry.new self.new }
        ensures turn { IsRwTurn self.new result }
        ensures no_value { self.old.answers ≡ answers_after self.old.answers self.old.call.top result }
        ensures after { IsAsk result → self.new ≡ record self.old { reading = Some query } }
        ensures transition { RwStandingTransition (standing_of self.old.call registry.old) self.new registry.new result }
        ensures functions { numbers_of registry.new ≡ numbers_of registry.old }
        ensures same { self.new ≡ record self.old { call = self.new.call; reading = self.new.reading } }
    {
        let Ok(()) = self.ask(alloc, &query) else {
            self.machine.cancel(registry);
            return Turn::Ended(Err(TxnError::Memory));
        };
        Turn::Ask(query)
    }

    /// Starts a call. It makes its first query, has its value, or fails: before all else if there is no such
    /// function.
    pub fn start<A: App, C: Cacheable>(
        &mut self,
        alloc: Global,
        registry: &mut Registry<A, C>,
        key: Key,
    ) -> Turn<Query, Value>
        requires fits { IsRw A.next registry.old self.old }
        requires idle { self.old.reading ≡ None }
        ensures fits { IsRw A.next registry.new self.new }
        ensures holds { (L : History) → RwHolds A.next L registry.old self.old
            → RwHolds A.next L registry.new self.new }
        ensures turn { IsRwTurn self.new result }
        ensures answers { self.new.answers ≡ answers_after self.old.answers key result }
        ensures begins { IsAsk result → self.new.call.top ≡ key }
        ensures transition { IsSome (activity_of registry.old key.function)
            → (s : State) → RwCallTransition A.next s (standing_of (started key) registry.old) []
            self.new registry.new result }
        ensures missing { IsNone (activity_of registry.old key.function)
            → result ≡ Turn.Ended (Err (TxnError.Call (NoFunction key.function))) }
        ensures missing_left { IsNone (activity_of registry.old key.function) → self.new ≡ self.old }
        ensures missing_same { IsNone (activity_of registry.old key.function)
            → registry.new ≡ registry.old }
        ensures functions { numbers_of registry.new ≡ numbers_of registry.old }
        ensures same { self.new ≡ record self.old {
          answers = self.new.answers;
          call = self.new.call;
          reading = self.new.reading;
        } }
    {
        match self.machine.start(registry, key) {
            Ok(()) => self.go_on(alloc, registry),
            Err(error) => Turn::Ended(Err(error.into())),
        }
    }
}
