//! A core's steps after each reply.
ghost use Rattle.std.specs.Prelude.{◌≡◌};
ghost use Rattle.std.specs.Option.{ForSome};
ghost use mathlib.Core.List.{IsPrefix};
ghost use Rattle.txc_txn_ports.specs.Fronts.{front_of_reply};

use crate::pinning::{PinStep, Pinning};
use crate::txn_core::TxnCore;
use std::alloc::Global;
use std::mem;
use txc_app::App;
use txc_call::Reply;
use txc_call_registry::{Cacheable, Registry};
use txc_cushion::{AddError, pin_of};
use txc_db::{Answered, DbError, Pinned};
use txc_node::{HitValue, Value};
use txc_txn_ports::{PortReply, PortRequest, Turn, TxnError};
use txc_validity::Found;

impl TxnCore {
    ghost use Rattle.txc_txn.specs.TxnCore.{value_of, IsAnswered, IsCore, IsOneOf};
    ghost use Rattle.txc_txn.specs.RunningTxn.{HasAnswered};

    // Takes over the history in the reply.
    pub(crate) fn see(&mut self, reply: &PortReply)
        requires { ForSome (front_of_reply reply.now) (λ front. front.events ≡ self.old.seen.events) }
        ensures events { self.new.seen.events ≡ self.old.seen.events }
        ensures longer { IsPrefix self.old.seen.history self.new.seen.history }
        ensures shown { ForSome (front_of_reply reply.now) (λ front. IsPrefix front.history self.new.seen.history) }
        ensures one { IsOneOf self.old.seen (front_of_reply reply.now) self.new.seen }
        ensures same { value_of self.new ≡ record (value_of self.old) { seen = self.new.seen } }
    {
        if let Some(front) = reply.front() {
            self.seen.longer(front);
        }
    }

    // Continues after the present was pinned, or was not.
    pub(crate) fn answer_pin<A: App, C: Cacheable>(
        &mut self,
        registry: &mut Registry<A, C>,
        pinned: Result<Pinned, DbError>,
    ) -> Turn<PortRequest, Value>
        requires fits { IsCore A.next registry.old (value_of self.old) }
        requires reply { IsAnswered (value_of self.old) (PortReply.Pin pinned) }
        ensures { HasAnswered A.next (value_of self.old) registry.old (PortReply.Pin pinned)
            (value_of self.new) registry.new result }
    {
        let pinned = match pinned {
            Ok(pinned) => pinned,
            Err(error) => return self.give_up(registry, error.into()),
        };
        let Some(Pinning { step: _, first }) = mem::replace(&mut self.pinning, None) else {
            unreachable!()
        };
        self.pinning = Some(Pinning {
            step: PinStep::Adding(pin_of(&pinned)),
            first,
        });
        Turn::Ask(PortRequest::AddPin(pinned))
    }

    // Continues after the pin was added, or was not.
    pub(crate) fn answer_add<A: App, C: Cacheable>(
        &mut self,
        alloc: Global,
        registry: &mut Registry<A, C>,
        pinned: &Pinned,
        added: Result<(), AddError>,
    ) -> Turn<PortRequest, Value>
        requires fits { IsCore A.next registry.old (value_of self.old) }
        requires reply { IsAnswered (value_of self.old) (PortReply.AddPin pinned.now added) }
        ensures { HasAnswered A.next (value_of self.old) registry.old (PortReply.AddPin pinned.now added)
            (value_of self.new) registry.new result }
    {
        let Some(Pinning { step: _, first }) = mem::replace(&mut self.pinning, None) else {
            unreachable!()
        };
        if let Err(error) = added {
            self.pinning = Some(Pinning {
                step: PinStep::Dropping(pinned.stamp, error.into()),
                first,
            });
            return Turn::Ask(PortRequest::Unpin(pinned.stamp));
        }
        self.join_pin(pinned);
        match first {
            Some(key) => self.start_call(alloc, registry, key),
            None => self.request(alloc, registry),
        }
    }

    // Continues after the hold of a pin that was not added was removed, or did not exist: the call fails for
    // that reason.
    pub(crate) fn answer_unpin<A: App, C: Cacheable>(
        &mut self,
        registry: &mut Registry<A, C>,
        _unpinned: Result<(), DbError>,
    ) -> Turn<PortRequest, Value>
        requires fits { IsCore A.next registry.old (value_of self.old) }
        requires reply { IsAnswered (value_of self.old) (PortReply.Unpin _unpinned) }
        ensures { HasAnswered A.next (value_of self.old) registry.old (PortReply.Unpin _unpinned)
            (value_of self.new) registry.new result }
    {
        let Some(
            Pinning {
                step: PinStep::Dropping(_, error),
                first: _,
            },
        ) = &self.pinning
        else {
            unreachable!()
        };
        let error = *error;
        self.give_up(registry, error)
    }

    // Continues after a lookup. A hit counts only if a member is in its reach.
    pub(crate) fn answer_lookup<A: App, C: Cacheable>(
        &mut self,
        alloc: Global,
        registry: &mut Registry<A, C>,
        hit: Option<Answered<HitValue>>,
    ) -> Turn<PortRequest, Value>
        requires fits { IsCore A.next registry.old (value_of self.old) }
        requires reply { IsAnswered (value_of self.old) (PortReply.Lookup hit) }
        ensures { HasAnswered A.next (value_of self.old) registry.old (PortReply.Lookup hit)
            (value_of self.new) registry.new result }
    {
        let Some(hit) = hit else {
            return self.go_on(alloc, registry, Reply::Miss);
        };
        let Answered { answer, front: _ } = hit;
        match self.narrow(answer.reach) {
            Ok(()) => self.go_on(alloc, registry, Reply::Hit(answer)),
            Err(_) => self.go_on(alloc, registry, Reply::Miss),
        }
    }

    // Continues after the database answered a query at the newest member, or failed.
    pub(crate) fn answer_query<A: App, C: Cacheable>(
        &mut self,
        alloc: Global,
        registry: &mut Registry<A, C>,
        found: Result<Answered<Found>, DbError>,
    ) -> Turn<PortRequest, Value>
        requires fits { IsCore A.next registry.old (value_of self.old) }
        requires reply { IsAnswered (value_of self.old) (PortReply.Query found) }
        ensures { HasAnswered A.next (value_of self.old) registry.old (PortReply.Query found)
            (value_of self.new) registry.new result }
    {
        let found = match found {
            Ok(found) => found,
            Err(error) => return self.give_up(registry, error.into()),
        };
        let Answered { answer, front: _ } = found;
        let Ok(()) = self.narrow(answer.reach) else {
            unreachable!()
        };
        self.go_on(alloc, registry, Reply::Found(answer))
    }

    // Continues with a reply.
    pub(crate) fn answer<A: App, C: Cacheable>(
        &mut self,
        alloc: Global,
        registry: &mut Registry<A, C>,
        reply: PortReply,
    ) -> Turn<PortRequest, Value>
        requires fits { IsCore A.next registry.old (value_of self.old) }
        requires reply { IsAnswered (value_of self.old) reply }
        ensures { HasAnswered A.next (value_of self.old) registry.old reply
            (value_of self.new) registry.new result }
    {
        match reply {
            PortReply::Pin(pinned) => self.answer_pin(registry, pinned),
            PortReply::AddPin(pinned, added) => self.answer_add(alloc, registry, &pinned, added),
            PortReply::Unpin(unpinned) => self.answer_unpin(registry, unpinned),
            PortReply::Lookup(hit) => self.answer_lookup(alloc, registry, hit),
            PortReply::Query(found) => self.answer_query(alloc, registry, found),
            PortReply::Insert(_) => self.go_on(alloc, registry, Reply::Inserted),
        }
    }
}
