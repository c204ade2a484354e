//! Requests in a transaction of a site.
ghost use Rattle.txc_app.specs.declared.ask.Ask.TheVariants as asks;
ghost use Rattle.txc_c_types.specs.CacheViews.{named_call};
ghost use Rattle.txc_c.specs.Exports.{SiteAsksNext};
ghost use Rattle.txc_c.specs.Receipts.{query_of};
ghost use Rattle.txc_c.specs.SiteReply.{buffer};
ghost use Rattle.txc_c.specs.Calls.{SiteCallTransition, SiteFinishTransition, SiteGiveUpTransition, SiteQueryTransition, SiteStepTransition};

use crate::opened::{acts_leave_others, place_of};
use crate::receipts::TxcQuery;
use crate::site::Site;
use std::alloc::Global;
use txc_app::{Ask, Bytes};
use txc_c_types::{BAD_ARGUMENT, DONE, MISS, NO_MEMORY, NOT_OPEN, TxcKey};
use txc_rows::Query;

impl Site {
    // Makes a step in the transaction of that number.
    fn step(&mut self, alloc: Global, txn: u64, ask: Ask, value: &mut [u8], len: &mut usize) -> u32
        requires { SiteAsksNext ask txn self.old }
        ensures { SiteStepTransition ask (buffer value.old len.old) (buffer value.new len.new) txn self.old result self.new }
    {
        acts_leave_others();
        let Some(it) = self.opened.get_mut(place_of(txn)) else {
            return NOT_OPEN;
        };
        if it.number != txn {
            return NOT_OPEN;
        }
        it.txn.ask(alloc, &mut self.caller, ask, value, len)
    }

    /// Requests the value of a call.
    pub(crate) fn call(
        &mut self,
        alloc: Global,
        txn: u64,
        key: &TxcKey,
        value: &mut [u8],
        len: &mut usize,
    ) -> u32
        requires { SiteAsksNext (asks.Call (named_call key.now)) txn self.old }
        ensures { SiteCallTransition key.now (buffer value.old len.old) (buffer value.new len.new) txn self.old result self.new }
    {
        let Some(key) = key.key() else {
            return BAD_ARGUMENT;
        };
        self.step(alloc, txn, Ask::Call(key), value, len)
    }

    /// Requests the rows of a query: for the function being computed, or for a read-write transaction itself.
    pub(crate) fn query(
        &mut self,
        alloc: Global,
        txn: u64,
        query: &TxcQuery,
        count: &mut usize,
    ) -> u32
        requires { SiteAsksNext (asks.Query (query_of query.now)) txn self.old }
        ensures { SiteQueryTransition query.now count.old count.new txn self.old result self.new }
    {
        acts_leave_others();
        let Some(query) = query.query() else {
            return BAD_ARGUMENT;
        };
        let Some(it) = self.opened.get_mut(place_of(txn)) else {
            return NOT_OPEN;
        };
        if it.number != txn {
            return NOT_OPEN;
        }
        it.txn.query(alloc, &mut self.caller, query, count)
    }

    /// Ends the function being computed with a copy of these bytes as its value.
    pub(crate) fn finish(
        &mut self,
        alloc: Global,
        txn: u64,
        bytes: &[u8],
        value: &mut [u8],
        len: &mut usize,
    ) -> u32
        requires { SiteAsksNext (asks.Done bytes.now) txn self.old }
        ensures { SiteFinishTransition bytes.now (buffer value.old len.old) (buffer value.new len.new) txn self.old result self.new }
    {
        let Ok(copy) = bytes.to_vec(alloc) else {
            return NO_MEMORY;
        };
        self.step(alloc, txn, Ask::Done(Bytes::new(copy)), value, len)
    }

    /// Cancels the whole open call of the transaction.
    pub(crate) fn give_up(&mut self, txn: u64) -> u32
        ensures { SiteGiveUpTransition txn self.old result self.new }
    {
        acts_leave_others();
        let Some(it) = self.opened.get_mut(place_of(txn)) else {
            return NOT_OPEN;
        };
        if it.number != txn {
            return NOT_OPEN;
        }
        if it.txn.give_up() { DONE } else { MISS }
    }
}
