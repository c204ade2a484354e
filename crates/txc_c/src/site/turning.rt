//! Beginning and ending transactions of a site.
ghost use Rattle.std.specs.Prelude.{◌≡◌, is_some, IfErr, IfSome, OnOk};
ghost use Rattle.slab.specs.Slab.{HasRoomFor};
ghost use Rattle.txc_c.specs.Sites.{HasMadeRoom, IsNoRoom, IsPlaced, IsPutBack, IsTakenOut};
ghost use Rattle.txc_c.specs.BeginAndEnd.{is_site_stamp, SiteAbortTransition, SiteBeginTransition, SiteBeginWriteAtTransition, SiteBeginWriteTransition, SiteCommitTransition, SiteCommitWriteTransition};

use crate::numbers::{database_number, write_number};
use crate::opened::{MAX_OPEN, Open, Opened, acts_leave_others, add, place_of};
use crate::receipts::TxcReceipt;
use crate::site::Site;
use std::alloc::Global;
use txc_c_types::{BAD_ARGUMENT, DONE, MID_CALL, NO_MEMORY, NOT_OPEN, REFUSED};
use txc_stamp::{MOST_STAMP, Stamp};
use txc_txn_ports::Bounds;

// Returns a stamp of a site, or `None` if the number is above its limit.
fn site_stamp(number: u32) -> Option<Stamp>
    ensures there { is_some result ≡ is_site_stamp number }
    ensures stamp { IfSome result (λ stamp. stamp ≡ number) }
{
    if number > MOST_STAMP {
        return None;
    }
    Some(Stamp::after(number as usize))
}

impl Site {
    // Makes room for one more transaction, or returns the number of the error.
    fn make_room(&mut self) -> Result<(), u32>
        ensures made { OnOk result (HasMadeRoom self.old self.new) }
        ensures refused { IfErr result (λ number. IsNoRoom self.old number self.new) }
    {
        if !self.has_place() {
            return Err(REFUSED);
        }
        // This never happens: a slab's next key is at most the number of transactions that were ever open at
        // once. No clause of `slab` states so.
        if self.opened.vacant_key() as u64 >= MAX_OPEN {
            return Err(NO_MEMORY);
        }
        if self.opened.reserve(1).is_err() {
            return Err(NO_MEMORY);
        }
        Ok(())
    }

    /// Begins a read-only transaction, and writes its number.
    pub(crate) fn begin(
        &mut self,
        alloc: Global,
        now: u64,
        staleness: u64,
        at_least: u32,
        txn: &mut u64,
    ) -> u32
        ensures { SiteBeginTransition now staleness at_least txn.old txn.new self.old result self.new }
    {
        let Some(at_least) = site_stamp(at_least) else {
            return BAD_ARGUMENT;
        };
        acts_leave_others();
        if let Err(number) = self.make_room() {
            return number;
        }
        let _has_all = self.caller.take_events(alloc);
        let bounds = Bounds {
            now,
            staleness,
            at_least,
        };
        let Ok(begun) = self.caller.begin(alloc, bounds) else {
            return NO_MEMORY;
        };
        *txn = add(&mut self.opened, &mut self.begun, Open::Reading(begun));
        DONE
    }

    /// Begins a read-write transaction at the newest state, and writes its number.
    pub(crate) fn begin_write(&mut self, alloc: Global, txn: &mut u64) -> u32
        ensures { SiteBeginWriteTransition txn.old txn.new self.old result self.new }
    {
        acts_leave_others();
        if let Err(number) = self.make_room() {
            return number;
        }
        match self.caller.begin_write(alloc) {
            Ok(write) => {
                *txn = add(&mut self.opened, &mut self.begun, Open::Writing(write));
                DONE
            }
            Err(error) => database_number(error),
        }
    }

    /// Begins a read-write transaction at the state of that stamp, and writes its number.
    pub(crate) fn begin_write_at(&mut self, alloc: Global, stamp: u32, txn: &mut u64) -> u32
        ensures { SiteBeginWriteAtTransition stamp txn.old txn.new self.old result self.new }
    {
        let Some(base) = site_stamp(stamp) else {
            return BAD_ARGUMENT;
        };
        acts_leave_others();
        if let Err(number) = self.make_room() {
            return number;
        }
        match self.caller.begin_write_at(alloc, base) {
            Ok(write) => {
                *txn = add(&mut self.opened, &mut self.begun, Open::Writing(write));
                DONE
            }
            Err(error) => database_number(error),
        }
    }

    // Takes the transaction of that number out, with its number, if it is open.
    fn take_out(&mut self, txn: u64) -> Option<Opened>
        ensures { IsTakenOut txn self.old self.new result }
    {
        self.opened(txn)?;
        self.opened.try_remove(place_of(txn))
    }

    // Puts the transaction back that was taken out last.
    fn put_back(&mut self, it: Opened)
        requires room { HasRoomFor self.old.opened 1 }
        requires placed { IsPlaced self.old.caller self.old.begun self.old.opened.vacant_key it }
        ensures { IsPutBack it self.old self.new }
    {
        let _place = self.opened.insert_reserved(it);
    }

    /// Ends the read-only transaction, and writes its receipt.
    pub(crate) fn commit(&mut self, txn: u64, receipt: &mut TxcReceipt) -> u32
        ensures { SiteCommitTransition receipt.old receipt.new txn self.old result self.new }
    {
        acts_leave_others();
        match self.opened(txn) {
            Some(Open::Reading(reading)) => {
                if reading.is_computing() {
                    return MID_CALL;
                }
            }
            _ => return NOT_OPEN,
        }
        let Some(
            Opened {
                number: _,
                txn: Open::Reading(reading),
            },
        ) = self.take_out(txn)
        else {
            unreachable!()
        };
        let Ok(given) = reading.commit(&mut self.caller) else {
            unreachable!()
        };
        *receipt = TxcReceipt::of(given.pin, given.answers.len());
        DONE
    }

    /// Commits the changes of the read-write transaction, and writes the newest stamp.
    pub(crate) fn commit_write(&mut self, alloc: Global, txn: u64, stamp: &mut u32) -> u32
        ensures { SiteCommitWriteTransition stamp.old stamp.new txn self.old result self.new }
    {
        acts_leave_others();
        match self.opened(txn) {
            Some(Open::Writing(_)) => (),
            _ => return NOT_OPEN,
        }
        let Some(
            Opened {
                number,
                txn: Open::Writing(write),
            },
        ) = self.take_out(txn)
        else {
            unreachable!()
        };
        match write.commit(alloc, &mut self.caller) {
            Ok(done) => {
                *stamp = done.stamp.number();
                DONE
            }
            Err((error, write)) => {
                let txn = Open::Writing(write);
                self.put_back(Opened { number, txn });
                write_number(error)
            }
        }
    }

    /// Aborts the transaction.
    pub(crate) fn abort(&mut self, txn: u64) -> u32
        ensures { SiteAbortTransition txn self.old result self.new }
    {
        acts_leave_others();
        let Some(Opened { number: _, txn }) = self.take_out(txn) else {
            return NOT_OPEN;
        };
        match txn {
            Open::Reading(reading) => reading.abort(&mut self.caller),
            Open::Writing(write) => write.abort(&mut self.caller),
        }
        DONE
    }
}
