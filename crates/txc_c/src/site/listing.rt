//! The open transactions of a site, and their results.
ghost use Rattle.txc_c.specs.Calls.{LastOf, MemberOf, ReadStampOf, RowOf};
ghost use Rattle.txc_c.specs.OpenTransactions.{CountTold, IsLeastOpen, OldestTold};
ghost use Rattle.txc_c.specs.Sites.{open_at};
ghost use Rattle.txc_c.specs.SiteReply.{buffer};

use crate::opened::Open;
use crate::receipts::TxcRow;
use crate::site::Site;
use crate::site_reply::{rows_found, write_last};
use txc_c_types::{DONE, MISS, NOT_OPEN, write_value};

impl Site {
    /// Writes one of the rows that the transaction read last.
    pub(crate) fn row_at(
        &self,
        txn: u64,
        at: usize,
        row: &mut TxcRow,
        body: &mut [u8],
        len: &mut usize,
    ) -> u32
        ensures { RowOf at row.old row.new (buffer body.old len.old) (buffer body.new len.new)
            (open_at self.now txn) result }
    {
        let Some(it) = self.opened(txn) else {
            return NOT_OPEN;
        };
        match rows_found(it).get(at) {
            Some(found) => {
                *row = TxcRow::of(found);
                write_value(DONE, found.body(), body, len)
            }
            None => MISS,
        }
    }

    /// Writes the transaction's last result again.
    pub(crate) fn answer(&self, txn: u64, value: &mut [u8], len: &mut usize) -> u32
        ensures { LastOf (buffer value.old len.old) (buffer value.new len.new) (open_at self.now txn) result }
    {
        match self.opened(txn) {
            Some(it) => write_last(it, value, len),
            None => NOT_OPEN,
        }
    }

    /// Writes the stamp of the state that the transaction's next query reads.
    pub(crate) fn read_stamp(&self, txn: u64, stamp: &mut u32) -> u32
        ensures { ReadStampOf stamp.old stamp.new (open_at self.now txn) result }
    {
        let Some(it) = self.opened(txn) else {
            return NOT_OPEN;
        };
        match it.read_stamp() {
            Some(next) => {
                *stamp = next.number();
                DONE
            }
            None => MISS,
        }
    }

    /// Writes one of the pins at which every result of a read-only transaction is correct.
    pub(crate) fn member_at(&self, txn: u64, at: usize, stamp: &mut u32, moment: &mut u64) -> u32
        ensures { MemberOf at (stamp.old, moment.old) (stamp.new, moment.new) (open_at self.now txn) result }
    {
        let Some(Open::Reading(reading)) = self.opened(txn) else {
            return NOT_OPEN;
        };
        match reading.members().get(at) {
            Some(pin) => {
                *stamp = pin.stamp.number();
                *moment = pin.moment;
                DONE
            }
            None => MISS,
        }
    }

    /// Writes how many transactions are open.
    pub(crate) fn open_transactions(&self, count: &mut usize) -> u32
        ensures { CountTold count.new self.now result }
    {
        *count = self.opened.len();
        DONE
    }

    // Returns the least number of an open transaction.
    fn oldest(&self) -> Option<u64>
        ensures { IsLeastOpen self.now result }
    {
        let mut least = None;
        for (_, it) in self.opened.iter() {
            least = match least {
                Some(number) if number <= it.number => Some(number),
                _ => Some(it.number),
            };
        }
        least
    }

    /// Writes the number of the open transaction that began first.
    pub(crate) fn oldest_open(&self, txn: &mut u64) -> u32
        ensures { OldestTold txn.old txn.new self.now result }
    {
        match self.oldest() {
            Some(number) => {
                *txn = number;
                DONE
            }
            None => MISS,
        }
    }
}
