//! The steps after each reply of a core whose caller runs the functions of its calls.
ghost use Rattle.std.specs.Prelude.{◌≡◌};

use crate::pinning::{PinStep, Pinning};
use crate::txn_core::TxnCore;
use std::alloc::Global;
use std::mem;
use txc_call::Reply;
use txc_cushion::{AddError, pin_of};
use txc_db::{Answered, DbError, Pinned};
use txc_node::{HitValue, Value};
use txc_txn_ports::{PortReply, PortRequest, Turn};
use txc_validity::Found;

impl TxnCore {
    ghost use Rattle.txc_app.specs.Eval.{Next};
    ghost use Rattle.txc_call_registry.specs.Objects.{Objects};
    ghost use Rattle.txc_txn.specs.TxnCore.{value_of, IsAnswered, IsCore};
    ghost use Rattle.txc_txn.specs.ByHand.{HasHeard};

    // Continues after the present was pinned, or was not.
    fn hear_pin(&mut self, pinned: Result<Pinned, DbError>) -> Turn<PortRequest, Value>
        requires reply { IsAnswered (value_of self.old) (PortReply.Pin pinned) }
        ensures { HasHeard (value_of self.old) (PortReply.Pin pinned) (value_of self.new) (Some result) }
    {
        let pinned = match pinned {
            Ok(pinned) => pinned,
            Err(error) => return self.drop_call(error.into()),
        };
        let Some(Pinning { step: _, first }) = mem::replace(&mut self.pinning, None) else {
            unreachable!()
        };
        self.pinning = Some(Pinning {
            step: PinStep::Adding(pin_of(&pinned)),
            first,
        });
        Turn::Ask(PortRequest::AddPin(pinned))
    }

    // Continues after the pin was added, or was not.
    fn hear_add(
        &mut self,
        alloc: Global,
        pinned: &Pinned,
        added: Result<(), AddError>,
    ) -> Option<Turn<PortRequest, Value>>
        requires fits { (next : Next) × (objects : Objects) × IsCore next objects (value_of self.old) }
        requires reply { IsAnswered (value_of self.old) (PortReply.AddPin pinned.now added) }
        ensures { HasHeard (value_of self.old) (PortReply.AddPin pinned.now added) (value_of self.new) result }
    {
        let Some(Pinning { step: _, first }) = mem::replace(&mut self.pinning, None) else {
            unreachable!()
        };
        if let Err(error) = added {
            self.pinning = Some(Pinning {
                step: PinStep::Dropping(pinned.stamp, error.into()),
                first,
            });
            return Some(Turn::Ask(PortRequest::Unpin(pinned.stamp)));
        }
        self.join_pin(pinned);
        match first {
            Some(key) => Some(self.begin_by_hand(key)),
            None => self.asks(alloc),
        }
    }

    // Continues after the hold of a pin that was not added was removed, or did not exist: the call fails for
    // that reason.
    fn hear_unpin(&mut self, _unpinned: Result<(), DbError>) -> Turn<PortRequest, Value>
        requires reply { IsAnswered (value_of self.old) (PortReply.Unpin _unpinned) }
        ensures { HasHeard (value_of self.old) (PortReply.Unpin _unpinned) (value_of self.new) (Some result) }
    {
        let Some(
            Pinning {
                step: PinStep::Dropping(_, error),
                first: _,
            },
        ) = &self.pinning
        else {
            unreachable!()
        };
        let error = *error;
        self.drop_call(error)
    }

    // Continues after a lookup. A hit counts only if a member is in its reach.
    fn hear_lookup(
        &mut self,
        alloc: Global,
        hit: Option<Answered<HitValue>>,
    ) -> Option<Turn<PortRequest, Value>>
        requires fits { (next : Next) × (objects : Objects) × IsCore next objects (value_of self.old) }
        requires reply { IsAnswered (value_of self.old) (PortReply.Lookup hit) }
        ensures { HasHeard (value_of self.old) (PortReply.Lookup hit) (value_of self.new) result }
    {
        let Some(hit) = hit else {
            return self.take(alloc, Reply::Miss);
        };
        let Answered { answer, front: _ } = hit;
        match self.narrow(answer.reach) {
            Ok(()) => self.take(alloc, Reply::Hit(answer)),
            Err(_) => self.take(alloc, Reply::Miss),
        }
    }

    // Continues after the database answered a query at the newest member, or failed.
    fn hear_query(
        &mut self,
        alloc: Global,
        found: Result<Answered<Found>, DbError>,
    ) -> Option<Turn<PortRequest, Value>>
        requires fits { (next : Next) × (objects : Objects) × IsCore next objects (value_of self.old) }
        requires reply { IsAnswered (value_of self.old) (PortReply.Query found) }
        ensures { HasHeard (value_of self.old) (PortReply.Query found) (value_of self.new) result }
    {
        let found = match found {
            Ok(found) => found,
            Err(error) => return Some(self.drop_call(error.into())),
        };
        let Answered { answer, front: _ } = found;
        let Ok(()) = self.narrow(answer.reach) else {
            unreachable!()
        };
        self.take(alloc, Reply::Found(answer))
    }

    // Continues with a reply, whose history was taken over.
    pub(crate) fn heard(
        &mut self,
        alloc: Global,
        reply: PortReply,
    ) -> Option<Turn<PortRequest, Value>>
        requires fits { (next : Next) × (objects : Objects) × IsCore next objects (value_of self.old) }
        requires reply { IsAnswered (value_of self.old) reply }
        ensures { HasHeard (value_of self.old) reply (value_of self.new) result }
    {
        match reply {
            PortReply::Pin(pinned) => Some(self.hear_pin(pinned)),
            PortReply::AddPin(pinned, added) => self.hear_add(alloc, &pinned, added),
            PortReply::Unpin(unpinned) => Some(self.hear_unpin(unpinned)),
            PortReply::Lookup(hit) => self.hear_lookup(alloc, hit),
            PortReply::Query(found) => self.hear_query(alloc, found),
            PortReply::Insert(_) => self.take(alloc, Reply::Inserted),
        }
    }
}
