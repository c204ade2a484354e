//! Changes of a site's read-write transaction.
ghost use Rattle.txc_c.specs.Calls.{SiteChangeTransition, SitePutTransition, SiteRemoveTransition};

use crate::opened::{acts_leave_others, place_of};
use crate::site::Site;
use std::alloc::Global;
use txc_c_types::{BAD_ARGUMENT, NO_MEMORY, NOT_OPEN};
use txc_rows::{Change, Row};
use txc_tags::Table;

impl Site {
    // Buffers a change in the transaction of that number.
    fn change(&mut self, txn: u64, change: Change) -> u32
        ensures { SiteChangeTransition change txn self.old result self.new }
    {
        acts_leave_others();
        let Some(it) = self.opened.get_mut(place_of(txn)) else {
            return NOT_OPEN;
        };
        if it.number != txn {
            return NOT_OPEN;
        }
        it.txn.change(change)
    }

    /// Buffers a put of a row with a copy of the body, which may be any bytes.
    pub(crate) fn put(
        &mut self,
        alloc: Global,
        txn: u64,
        table: u8,
        id: u32,
        group: u32,
        body: &[u8],
    ) -> u32
        ensures { SitePutTransition (record { table = table; id = id; group = group; body = body.now })
            txn self.old result self.new }
    {
        let Some(table) = Table::new(table) else {
            return BAD_ARGUMENT;
        };
        let Ok(copy) = body.to_vec(alloc) else {
            return NO_MEMORY;
        };
        let Ok(row) = Row::of_bytes(table, id, group, copy) else {
            return BAD_ARGUMENT;
        };
        self.change(txn, Change::Put(row))
    }

    /// Buffers the removal of the row at the table and id.
    pub(crate) fn remove(&mut self, txn: u64, table: u8, id: u32) -> u32
        ensures { SiteRemoveTransition table id txn self.old result self.new }
    {
        let Some(table) = Table::new(table) else {
            return BAD_ARGUMENT;
        };
        self.change(txn, Change::Remove(table, id))
    }
}
