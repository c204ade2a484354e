//! A core's steps after the answer to its query.
ghost use Rattle.std.specs.Prelude.{◌≡◌, ◌≢◌, ◌<◌, [], ◌∷◌, Ok, Err, IfOk, None, Some};
ghost use Rattle.txc_rows.specs.States.{State, answer};
ghost use Rattle.txc_validity.specs.declared.answer.Found.{Found};
ghost use Rattle.txc_db.specs.declared.error.DbError.{DbError};
ghost use Rattle.txc_db.specs.History.{History};
ghost use Rattle.txc_rows.specs.declared.query.Query.{Query};
ghost use Rattle.txc_app.specs.Eval.{Next};
ghost use Rattle.txc_call_registry.specs.Objects.{numbers_of, Objects};
ghost use Rattle.txc_call.specs.declared.need.Need.{Need};
ghost use Rattle.txc_txn_rw.specs.RwCore.{only_one};
ghost use Rattle.txc_txn_ports.specs.Refusals.{refused_request};

use crate::given::Given;
use crate::reading::Reading;
use crate::rw_core::RwCore;
use std::alloc::{AllocError, Global};
use std::mem;
use txc_app::{App, Rows};
use txc_call::Reply;
use txc_call_registry::{Cacheable, Registry};
use txc_db::DbError;
use txc_node::Value;
use txc_rows::{Query, Row};
use txc_stamp::Reach;
use txc_txn_ports::{Turn, TxnError};
use txc_validity::Found;

// Returns equal rows.
fn copy_rows(alloc: Global, rows: &[Row]) -> Result<Vec<Row>, AllocError>
    ensures { IfOk result (λ copy. copy.items ≡ rows.now) }
{
    let mut copy = Vec::with_capacity(alloc, rows.len())?;
    for row in rows {
        copy.push(row.copy(alloc)?)?;
    }
    Ok(copy)
}

// Returns the answer with the stamp 1 as its reach: for a call, 1 stands for the single state that the
// transaction reads.
pub(crate) fn at_one(found: Found) -> Found
    ensures rows { result.rows ≡ found.rows }
    ensures tags { result.tags ≡ found.tags }
    ensures reach { result.reach ≡ only_one }
{
    let Ok(reach) = Reach::new(1, 1, false) else {
        unreachable!()
    };
    Found {
        rows: found.rows,
        reach,
        tags: found.tags,
    }
}

impl RwCore {
    ghost use Rattle.txc_txn_rw.specs.RwCore.{answers_after, queried_after, IsRightReply, IsRw, IsRwTurn, RwHolds};
    ghost use Rattle.txc_txn_ports.specs.Turns.{IsAsk};
    ghost use Rattle.txc_txn_rw.specs.Transitions.{standing_of, RowsTransition, RwCallTransition};

    /// Continues with the database's answer to the query that its call requested. An error of the database ends
    /// the call. However the call ends, an answered query counts as read.
    pub fn reply<A: App, C: Cacheable>(
        &mut self,
        alloc: Global,
        registry: &mut Registry<A, C>,
        reply: Result<Found, DbError>,
    ) -> Turn<Query, Value>
        requires fits { IsRw A.next registry.old self.old }
        requires asks { (query : Query) × IsRwTurn self.old (Turn.Ask query) }
        ensures fits { IsRw A.next registry.new self.new }
        ensures holds { (L : History) → IsRightReply L self.old reply → RwHolds A.next L registry.old self.old
            → RwHolds A.next L registry.new self.new }
        ensures turn { IsRwTurn self.new result }
        ensures answers { self.new.answers ≡ answers_after self.old.answers self.old.call.top result }
        ensures queried { self.new.queried ≡ queried_after self.old.queried self.old.reading reply }
        ensures goes_on { IsAsk result → self.new.call.top ≡ self.old.call.top }
        ensures counted { IsAsk result → self.old.call.asked < self.new.call.asked }
        ensures transition { (s : State) (query : Query) (found : Found)
            → self.old.call.need ≡ Some (Need.Query query) → reply ≡ Ok found
            → found.rows.items ≡ answer query s
            → RwCallTransition A.next s (standing_of self.old.call registry.old) (query ∷ [])
            self.new registry.new result }
        ensures functions { numbers_of registry.new ≡ numbers_of registry.old }
        ensures refused { (error : DbError) → reply ≡ Err error
            → result ≡ Turn.Ended (Err (refused_request error)) }
        ensures same { self.new ≡ record self.old {
          queried = self.new.queried;
          answers = self.new.answers;
          call = self.new.call;
          reading = self.new.reading;
        } }
    {
        let Some(Reading { query, tags }) = mem::replace(&mut self.reading, None) else {
            unreachable!()
        };
        let found = match reply {
            Ok(found) => found,
            Err(error) => {
                self.machine.cancel(registry);
                return Turn::Ended(Err(error.into()));
            }
        };
        self.tags = tags;
        self.queried.push_reserved(query);
        match self
            .machine
            .reply(registry, alloc, Reply::Found(at_one(found)))
        {
            Ok(()) => self.go_on(alloc, registry),
            Err(error) => Turn::Ended(Err(error.into())),
        }
    }

    /// Takes the database's answer to a query of the transaction itself, and returns the rows. An answered
    /// query counts as read, even if memory for the rows cannot be allocated.
    pub fn answer(
        &mut self,
        alloc: Global,
        reply: Result<Found, DbError>,
    ) -> Result<Vec<Row>, TxnError>
        requires asks { self.old.reading ≢ None }
        ensures holds { (next : Next) (objects : Objects) (L : History) → IsRightReply L self.old reply
            → RwHolds next L objects self.old → RwHolds next L objects self.new }
        ensures transition { (query : Query) → self.old.reading ≡ Some query
            → RowsTransition self.old query reply self.new result }
    {
        let Some(Reading { query, tags: read }) = mem::replace(&mut self.reading, None) else {
            unreachable!()
        };
        let found = match reply {
            Ok(found) => found,
            Err(error) => return Err(error.into()),
        };
        self.tags = read;
        let asked = &query;
        self.queried.push_reserved(*asked);
        let Ok(copy) = copy_rows(alloc, &found.rows) else {
            return Err(TxnError::Memory);
        };
        let given = Given::Rows(query, Rows::new(found.rows));
        let Ok(()) = self.answers.push(given) else {
            return Err(TxnError::Memory);
        };
        Ok(copy)
    }
}
