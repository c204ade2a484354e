//! Counts of the visitors' work.
ghost use Rattle.std.specs.Prelude.{◌≡◌, ◌+◌, ◌*◌, ◌<◌, ◌^◌, ◌-ℤ◌, pos, IfSome, MatchOption, vec_len};
ghost use Rattle.std.specs.List.{sum_by};
ghost use Rattle.example_auction.specs.Pages.{IsWhole};
ghost use Rattle.example_auction.specs.Tallies.{added, pages_of, CountsBids};

use crate::changes::{FIRST_BID, ITEM_COUNT};
use crate::pages::BothBids;
use crate::seen::Seen;
use txc_site::{ChangeResult, Stamp};

/// Counts of the visitors' work.
#[derive(Clone, Copy)]
pub struct Tally {
    pub whole: u64,
    pub torn: u64,
    pub refused: u64,
    pub bids: u64,
    pub conflicts: u64,
    pub kept: u64,
    pub lookups: u64,
    pub hits: u64,
    /// The amount by which the bids that were made raised the highest ones.
    pub raised: u64,
    /// The stamp of a visitor's last bid.
    pub last: Stamp,
    /// The last sum that was read, after all bids, or `None` if that failed.
    pub seen: Option<Seen>,
}

impl Tally {
    /// Counts of no work.
    pub const ZERO: Tally = Tally {
        whole: 0,
        torn: 0,
        refused: 0,
        bids: 0,
        conflicts: 0,
        kept: 0,
        lookups: 0,
        hits: 0,
        raised: 0,
        last: Stamp::ZERO,
        seen: None,
    };

    /// Counts a page, or a failed one.
    pub fn count(&mut self, page: Option<BothBids>)
        requires { pages_of self.old < 2 ^ 32 }
        ensures pages { pages_of self.new ≡ pages_of self.old + 1 }
        ensures whole { IfSome page IsWhole → self.new.torn ≡ self.old.torn }
        ensures torn { IfSome page (λ it. ¬ (IsWhole it) → self.new.torn ≡ self.old.torn + 1) }
    {
        let Some(page) = page else {
            self.refused += 1;
            return;
        };
        if page.is_whole() {
            self.whole += 1;
        } else {
            self.torn += 1;
        }
    }

    /// Counts a bid that raised the highest one by `more`, with the conflicts before it. Returns its stamp.
    pub fn count_bid(&mut self, more: u32, written: &ChangeResult<u32>) -> Stamp
        ensures counts { CountsBids self.old self.new }
        ensures bids { self.new.bids ≡ added self.old.bids 1 }
        ensures conflicts { self.new.conflicts ≡ added self.old.conflicts (vec_len written.now.conflicts) }
        ensures raised { self.new.raised ≡ added self.old.raised more }
        ensures last { self.new.last ≡ written.now.committed.stamp }
        ensures stamp { result ≡ written.now.committed.stamp }
    {
        self.bids = self.bids.saturating_add(1);
        self.conflicts = self
            .conflicts
            .saturating_add(written.conflicts.len() as u64);
        self.raised = self.raised.saturating_add(u64::from(more));
        self.last = written.committed.stamp;
        self.last
    }

    /// Adds the counts of other visitors, without their last stamps and sums.
    pub fn add(&mut self, others: &Tally)
        requires { pages_of self.old + pages_of others.now < 2 ^ 64 }
        ensures pages { pages_of self.new ≡ pages_of self.old + pages_of others.now }
        ensures torn { self.new.torn ≡ self.old.torn + others.now.torn }
        ensures raised { self.new.raised ≡ added self.old.raised others.now.raised }
    {
        self.whole += others.whole;
        self.torn += others.torn;
        self.refused += others.refused;
        self.bids = self.bids.saturating_add(others.bids);
        self.conflicts = self.conflicts.saturating_add(others.conflicts);
        self.kept = self.kept.saturating_add(others.kept);
        self.lookups = self.lookups.saturating_add(others.lookups);
        self.hits = self.hits.saturating_add(others.hits);
        self.raised = self.raised.saturating_add(others.raised);
    }

    /// Returns by how much the first bids and all raises exceed the last sum: a difference is a bid that was
    /// made and lost. Returns `None` if there is no last sum.
    pub fn lost(&self) -> Option<i128>
        ensures { MatchOption self.now.seen (result ≡ None)
            (λ seen. result ≡ Some (pos (ITEM_COUNT * FIRST_BID + self.now.raised) -ℤ pos seen.sum)) }
    {
        let seen = self.seen?;
        let first = ITEM_COUNT * FIRST_BID;
        Some(i128::from(first) + i128::from(self.raised) - i128::from(seen.sum))
    }
}

/// Returns the last sum of one generation. The page of the greatest stamp shows the bids of all, since the last
/// bidder has read it. Returns `None` if one of them failed, since that may be the one.
fn last_seen(tallies: &[Tally]) -> Option<Seen> {
    let mut last = tallies.first()?.seen?;
    for tally in tallies {
        last = last.later(tally.seen?);
    }
    Some(last)
}

/// Returns the counts of all these visitors, without their last stamps and sums.
pub fn total(tallies: &[Tally]) -> Tally
    requires { sum_by pages_of tallies.now < 2 ^ 64 }
    ensures pages { pages_of result ≡ sum_by pages_of tallies.now }
    ensures torn { result.torn ≡ sum_by (λ tally. tally.torn) tallies.now }
{
    let mut all = Tally::ZERO;
    for tally in tallies {
        all.add(tally);
    }
    all
}

/// Returns the counts of the visitors of all generations. The last sum is that of the last generation, whose
/// bids are on top of the others'.
pub fn grand_total(generations: &[Vec<Tally>]) -> Tally
    requires { sum_by (λ tallies. sum_by pages_of tallies.items) generations.now < 2 ^ 64 }
    ensures pages { pages_of result ≡ sum_by (λ tallies. sum_by pages_of tallies.items) generations.now }
    ensures torn { result.torn
        ≡ sum_by (λ tallies. sum_by (λ tally. tally.torn) tallies.items) generations.now }
{
    let mut all = Tally::ZERO;
    for tallies in generations {
        all.add(&total(tallies));
    }
    if let Some(tallies) = generations.last() {
        all.seen = last_seen(tallies);
    }
    all
}
