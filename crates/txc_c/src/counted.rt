//! A node with counts of its replies.
ghost use Rattle.std.specs.Prelude.{◌≡◌, ◌≢◌, ◌≤◌, [], Some, None, length, IfOk, IfSome};
ghost use Rattle.txc_tags.specs.declared.key.TheConstants.{LAST_FUNCTION};
ghost use Rattle.txc_node.specs.declared.value.TheConstants.{MOST_VALUE_LEN};
ghost use Rattle.txc_node.specs.declared.node.TheConstants.{MAX_RECENT, MOST_CAPACITY};
ghost use Rattle.txc_node.specs.declared.op.Op.TheVariants as steps;
ghost use Rattle.txc_node.specs.declared.reply.Reply.TheVariants as replies;
ghost use Rattle.txc_node.specs.Counts.{counts_of, AreCountsOf};
ghost use Rattle.txc_node.specs.Hit.{seen};
ghost use Rattle.txc_node.specs.Steps.{entry_refusal, reply_to, seen_reply};
ghost use Rattle.txc_c.specs.CountedNode.{totals_of_node, IsOpened, LeavesCounted, TotalsAfter};
ghost use Rattle.txc_c_types.specs.CacheViews.{crossing_reach, written_in};
ghost use Rattle.txc_c.specs.Numbers.{hit_number, inserted_number, reply_number};
ghost use Rattle.txc_c.specs.NodeReply.{reach_told, len_told, bytes_told, StoredTold, closed_told, swept_told, trimmed_told};

use crate::totals::TxcTotals;
use std::alloc::{AllocError, Global};
use std::marker::Model;
use txc_c_types::{
    DONE, EMPTY_RANGE, KEPT, MISS, NO_MEMORY, OUT_OF_ORDER, TxcReach, TxcStored, write_value,
};
use txc_node::{Counts, Entry, FunctionCounts, Hit, Inserted, NodeCore, Reply};
use txc_stamp::Stamp;
use txc_tags::{Key, TagSet};

/// Counts of replies that are not errors, up to 2^64 - 1 of them.
#[derive(Drop)]
pub struct Tally {
    counts: Counts,
    replies: u64,
}

impl Model for Tally {
    ghost use Rattle.std.specs.Prelude.{◌≡◌};
    ghost use Rattle.txc_node.specs.Counts.{Totals};

    ghost Value = { Totals };

    ghost view = { λ t. t.counts };

    ghost invariant = { λ t. t.counts.replies ≡ t.replies };
}

impl Tally {
    fn new() -> Tally
        ensures { AreCountsOf [] result }
    {
        Tally {
            counts: Counts::new(),
            replies: 0,
        }
    }

    /// Counts the reply to a step of that function, or of none.
    fn note(&mut self, function: Option<u8>, reply: &Reply<Hit<'_>>)
        requires { IfSome function (λ f. f ≤ LAST_FUNCTION) }
        ensures { TotalsAfter function (seen_reply reply.now) self.old self.new }
    {
        if reply.is_refusal() || self.replies == u64::MAX {
            return;
        }
        self.replies += 1;
        self.counts.count(function, reply);
    }

    fn of(&self, function: u8) -> FunctionCounts
        requires { function ≤ LAST_FUNCTION }
        ensures { result ≡ counts_of self.now.functions function }
    {
        self.counts.of(function)
    }

    fn trimmed(&self) -> u128
        ensures { result ≡ self.now.trimmed }
    {
        self.counts.trimmed()
    }
}

/// A node, with counts of its replies.
#[derive(Drop)]
pub struct CountedNode {
    node: NodeCore,
    tally: Tally,
}

impl Model for CountedNode {
    ghost use Rattle.txc_c.specs.CountedNode.{Counted};

    ghost Value = { Counted };

    ghost view = { λ n. record { cache = n.node; totals = n.tally } };
}

/// Writes the reach and the length of a hit, and its value if there is room for it.
fn write_hit(hit: &Hit<'_>, reach: &mut TxcReach, value: &mut [u8], len: &mut usize) -> u32
    ensures number { result ≡ hit_number (length value.old) (seen hit.now) }
    ensures reach { reach.new ≡ crossing_reach (seen hit.now).reach }
    ensures len { len.new ≡ length (seen hit.now).value }
    ensures bytes { value.new ≡ written_in (seen hit.now).value value.old }
{
    *reach = TxcReach::of(hit.reach());
    write_value(DONE, hit.value.bytes(), value, len)
}

/// Writes the result of an insertion that stored its entry.
fn write_stored(inserted: &Inserted, stored: &mut TxcStored) -> u32
    ensures number { result ≡ inserted_number inserted.now }
    ensures told { StoredTold (Some (replies.Inserted inserted.now)) stored.old stored.new }
{
    match inserted {
        Inserted::Stored { reach, evicted } => {
            *stored = TxcStored::of(*reach, evicted);
            DONE
        }
        Inserted::Kept(_) => KEPT,
    }
}

impl CountedNode {
    pub(crate) fn new(
        alloc: Global,
        capacity: usize,
        recent: usize,
    ) -> Result<CountedNode, AllocError>
        requires capacity { (1 ≤ capacity) × (capacity ≤ MOST_CAPACITY) }
        requires recent { (1 ≤ recent) × (recent ≤ MAX_RECENT) }
        ensures { IfOk result (λ n. IsOpened capacity recent n) }
    {
        Ok(CountedNode {
            node: NodeCore::new(alloc, capacity, recent)?,
            tally: Tally::new(),
        })
    }

    /// Returns the stamp of the last event that it took.
    pub(crate) fn processed(&self) -> Stamp
        ensures { result ≡ self.now.cache.processed }
    {
        self.node.processed()
    }

    /// Returns the counts of a function.
    pub(crate) fn counts(&self, function: u8) -> FunctionCounts
        requires { function ≤ LAST_FUNCTION }
        ensures { result ≡ counts_of self.now.totals.functions function }
    {
        self.tally.of(function)
    }

    /// Returns the number and size of its entries, and how many entries trims have dropped.
    pub(crate) fn totals(&self) -> TxcTotals
        ensures { result ≡ totals_of_node self.now }
    {
        TxcTotals::of(self.node.len(), self.node.bytes(), self.tally.trimmed())
    }

    /// Does [`NodeCore::lookup`], and writes its hit.
    pub(crate) fn lookup(
        &mut self,
        key: &Key,
        lo: Stamp,
        hi: Stamp,
        reach: &mut TxcReach,
        value: &mut [u8],
        len: &mut usize,
    ) -> u32
        ensures number { result
            ≡ reply_number (length value.old) (reply_to MOST_VALUE_LEN self.old.cache (steps.Lookup key.now lo hi)) }
        ensures after { LeavesCounted self.old (steps.Lookup key.now lo hi) self.new }
        ensures reach { reach.new
            ≡ reach_told (Some (reply_to MOST_VALUE_LEN self.old.cache (steps.Lookup key.now lo hi))) reach.old }
        ensures len { len.new
            ≡ len_told (Some (reply_to MOST_VALUE_LEN self.old.cache (steps.Lookup key.now lo hi))) len.old }
        ensures bytes { value.new
            ≡ bytes_told (Some (reply_to MOST_VALUE_LEN self.old.cache (steps.Lookup key.now lo hi))) value.old }
    {
        let function = Some(key.function());
        match self.node.lookup(key, lo, hi) {
            Err(_) => EMPTY_RANGE,
            Ok(None) => {
                self.tally.note(function, &Reply::Miss);
                MISS
            }
            Ok(Some(hit)) => {
                let number = write_hit(&hit, reach, value, len);
                self.tally.note(function, &Reply::Hit(hit));
                number
            }
        }
    }

    /// Does [`NodeCore::insert`], and writes the result. Fails only if memory cannot be allocated.
    pub(crate) fn insert(&mut self, entry: Entry, stored: &mut TxcStored) -> u32
        requires { entry_refusal MOST_VALUE_LEN entry ≡ None }
        ensures number { result ≢ NO_MEMORY
            → result ≡ reply_number 0 (reply_to MOST_VALUE_LEN self.old.cache (steps.Insert entry)) }
        ensures after { result ≢ NO_MEMORY → LeavesCounted self.old (steps.Insert entry) self.new }
        ensures told { result ≢ NO_MEMORY
            → StoredTold (Some (reply_to MOST_VALUE_LEN self.old.cache (steps.Insert entry))) stored.old stored.new }
        ensures refused { result ≡ NO_MEMORY → (self.new ≡ self.old) × (stored.new ≡ stored.old) }
    {
        let function = Some(entry.key.function());
        let Ok(inserted) = self.node.insert(entry) else {
            return NO_MEMORY;
        };
        let number = write_stored(&inserted, stored);
        self.tally.note(function, &Reply::Inserted(inserted));
        number
    }

    /// Does [`NodeCore::event`], and writes how many entries it closed.
    pub(crate) fn event(&mut self, stamp: Stamp, tags: TagSet, closed: &mut usize) -> u32
        ensures number { result ≡ reply_number 0 (reply_to MOST_VALUE_LEN self.old.cache (steps.Event stamp tags)) }
        ensures after { LeavesCounted self.old (steps.Event stamp tags) self.new }
        ensures told { closed.new
            ≡ closed_told (Some (reply_to MOST_VALUE_LEN self.old.cache (steps.Event stamp tags))) closed.old }
    {
        let Ok(count) = self.node.event(stamp, tags) else {
            return OUT_OF_ORDER;
        };
        *closed = count;
        self.tally.note(None, &Reply::Closed(count));
        DONE
    }

    /// Does [`NodeCore::sweep`], and writes how many entries it dropped.
    pub(crate) fn sweep(&mut self, horizon: Stamp, swept: &mut usize) -> u32
        ensures number { result ≡ reply_number 0 (reply_to MOST_VALUE_LEN self.old.cache (steps.Sweep horizon)) }
        ensures after { LeavesCounted self.old (steps.Sweep horizon) self.new }
        ensures told { swept.new
            ≡ swept_told (Some (reply_to MOST_VALUE_LEN self.old.cache (steps.Sweep horizon))) swept.old }
    {
        let count = self.node.sweep(horizon);
        *swept = count;
        self.tally.note(None, &Reply::Swept(count));
        DONE
    }

    /// Does [`NodeCore::trim`], and writes how many entries it dropped.
    pub(crate) fn trim(&mut self, most: usize, dropped: &mut usize) -> u32
        ensures number { result ≡ reply_number 0 (reply_to MOST_VALUE_LEN self.old.cache (steps.Trim most)) }
        ensures after { LeavesCounted self.old (steps.Trim most) self.new }
        ensures told { dropped.new
            ≡ trimmed_told (Some (reply_to MOST_VALUE_LEN self.old.cache (steps.Trim most))) dropped.old }
    {
        let count = self.node.trim(most);
        *dropped = count;
        self.tally.note(None, &Reply::Trimmed(count));
        DONE
    }
}
