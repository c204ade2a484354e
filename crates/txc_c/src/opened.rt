//! The open transactions of a site, each with its number.
ghost use Rattle.std.specs.Prelude.{◌≡◌, ◌↔◌, ◌%◌, ◌<◌, IsSome, IsTrue, MatchOption, None, Some};
ghost use Rattle.slab.specs.Slab.{HasRoomFor};
ghost use Rattle.txc_caller.specs.CallerTxn.{CallerValue};
ghost use Rattle.txc_caller.specs.ComputedFunctions.{told_answer, top_call};
ghost use Rattle.txc_c.specs.Calls.{stamp_read_next, HasGivenCallUp, OpenChanges};
ghost use Rattle.txc_c.specs.Opened.{calling_of, IsOpenOf, IsAskStep, OpenAsksNext, OpenStays};
ghost use Rattle.txc_c.specs.Sites.{HasPutAtPlace};

mod asking;

use crate::numbers::change_number;
use crate::opaque::Opaque;
use slab::Slab;
use std::alloc::Global;
use txc_app::{Answer, Ask};
use txc_c_types::NOT_OPEN;
use txc_caller::{Caller, CallerError, CallerTxn, CallerWrite, Step};
use txc_db::states_stay;
use txc_rows::Change;
use txc_stamp::Stamp;

/// The most open transactions of a site.
pub const MAX_OPEN: u64 = 65_536;

/// The most transactions that can begin at a site: 2^48 - 1.
pub const MOST_BEGUN: u64 = 281_474_976_710_655;

/// A read-only transaction, or a read-write one.
#[derive(Drop)]
pub(crate) enum Open {
    Reading(CallerTxn<Opaque>),
    Writing(CallerWrite<Opaque>),
}

/// An open transaction, and its number.
#[derive(Drop)]
pub(crate) struct Opened {
    pub(crate) number: u64,
    pub(crate) txn: Open,
}

/// Returns the place at which the transaction of that number is, if it is open.
pub(crate) fn place_of(number: u64) -> usize
    ensures { result ≡ number % MAX_OPEN }
{
    (number % MAX_OPEN) as usize
}

/// Stores a transaction at its place, and returns its number.
pub(crate) fn add(opened: &mut Slab<Opened>, begun: &mut u64, txn: Open) -> u64
    requires room { HasRoomFor opened.old 1 }
    requires place { opened.old.vacant_key < MAX_OPEN }
    requires number { begun.old < MOST_BEGUN }
    ensures { HasPutAtPlace txn opened.old begun.old opened.new begun.new result }
{
    *begun += 1;
    let number = opened.vacant_key() as u64 + MAX_OPEN * *begun;
    let _place = opened.insert_reserved(Opened { number, txn });
    number
}

/// An act of one transaction leaves the others open and correct. It does nothing when it runs.
pub(crate) fn acts_leave_others()
    ensures { OpenStays }
{
    states_stay();
}

impl Open {
    /// Makes a step: of the function being computed, or the call that the transaction requests.
    pub(crate) fn step(
        &mut self,
        alloc: Global,
        caller: &mut Caller<Opaque>,
        ask: Ask,
    ) -> Result<Step, CallerError>
        requires of_caller { IsOpenOf caller.old self.old }
        requires asks { OpenAsksNext ask self.old }
        ensures step { IsAskStep ask caller.old self.old result caller.new self.new }
        ensures of_caller { IsOpenOf caller.new self.new }
    {
        match self {
            Open::Reading(txn) => match ask {
                Ask::Call(key) => txn.call(alloc, caller, key),
                Ask::Query(query) => txn.query(alloc, caller, query),
                Ask::Done(bytes) => txn.finish(alloc, caller, bytes.into_vec()),
            },
            Open::Writing(write) => match ask {
                Ask::Call(key) => write.call(alloc, caller, key),
                Ask::Query(query) => write.query(alloc, caller, query),
                Ask::Done(bytes) => write.finish(alloc, caller, bytes.into_vec()),
            },
        }
    }

    /// Cancels the whole open call, and returns `true` if there was one.
    pub(crate) fn give_up(&mut self) -> bool
        ensures answer { IsTrue result ↔ IsSome (top_call (calling_of self.old)) }
        ensures given_up { HasGivenCallUp self.old self.new }
        ensures of_caller { (c : CallerValue) → IsOpenOf c self.old → IsOpenOf c self.new }
    {
        match self {
            Open::Reading(txn) => txn.give_up(),
            Open::Writing(write) => write.give_up(),
        }
    }

    /// Buffers a change until the transaction commits, if it is a read-write one.
    pub(crate) fn change(&mut self, change: Change) -> u32
        ensures changed { OpenChanges change self.old result self.new }
        ensures of_caller { (c : CallerValue) → IsOpenOf c self.old → IsOpenOf c self.new }
    {
        match self {
            Open::Writing(write) => match change {
                Change::Put(row) => change_number(write.put(row)),
                Change::Remove(table, id) => change_number(write.remove(table, id)),
            },
            Open::Reading(_) => NOT_OPEN,
        }
    }

    /// Returns `true` if a function is being computed.
    pub(crate) fn is_computing(&self) -> bool
        ensures { IsTrue result ↔ IsSome (top_call (calling_of self.now)) }
    {
        match self {
            Open::Reading(txn) => txn.is_computing(),
            Open::Writing(write) => write.is_computing(),
        }
    }

    /// Returns the answer with which the function being computed continues, or `None` if it must begin, or if
    /// none is being computed.
    pub(crate) fn told(&self) -> Option<&Answer>
        ensures { MatchOption result (told_answer (calling_of self.now) ≡ None)
            (λ answer. told_answer (calling_of self.now) ≡ Some answer.now) }
    {
        match self {
            Open::Reading(txn) => txn.answer(),
            Open::Writing(write) => write.answer(),
        }
    }

    /// Returns the stamp of the state that its next query reads, or `None` if that query pins the present
    /// first.
    pub(crate) fn read_stamp(&self) -> Option<Stamp>
        ensures { result ≡ stamp_read_next self.now }
    {
        match self {
            Open::Reading(txn) => txn.read_stamp(),
            Open::Writing(write) => Some(write.base()),
        }
    }
}
