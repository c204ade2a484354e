//! The visitors, which read pages and bid, each on a thread.
ghost use Rattle.std.specs.Prelude.{◌≡◌, ◌+◌, ◌<◌, ◌^◌, false, IfSome};
ghost use Rattle.example_auction.specs.Pages.{IsWhole};
ghost use Rattle.example_auction.specs.Tallies.{pages_of, CountsBids};

use crate::arguments::Arguments;
use crate::changes::{Bid, ITEM_COUNT, USER_COUNT};
use crate::functions::{Auction, AuctionFunction};
use crate::pages::{BothBids, ItemPage, key};
use crate::seen::{AllBids, Seen};
use crate::tally::Tally;
use std::alloc::Global;
use std::sync::Wait;
use txc_site::{Bounds, Generation, Keeper, Naming, OneCall, Recurring, SiteClient, Stamp, Worker};

/// A visitor's client.
type Guest<'a, J> = SiteClient<'a, Auction, AuctionFunction, J>;

/// The number of tries of a bid, and of the last page.
const TRIES: u32 = 8;

/// The number of rounds that a pin is kept.
const AGE: u64 = 16;

/// A round of a visitor at an item. Its time is the number of the round, so that a single visitor does the same
/// in each run.
#[derive(Clone, Copy)]
struct Round {
    item: u32,
    now: u32,
}

/// The visitors.
#[derive(Clone, Copy)]
pub struct Crowd {
    pub arguments: Arguments,
}

impl Crowd {
    /// Returns the bounds of a page of the round: its age and its stamp.
    fn bounds(&self, round: Round, at_least: Stamp) -> Bounds
        ensures { result ≡ record { now = round.now; staleness = self.now.arguments.staleness; at_least = at_least } }
    {
        let staleness = u64::from(self.arguments.staleness);
        Bounds::fresh_since(u64::from(round.now), staleness, at_least)
    }

    /// Bids on the item. Returns the stamp of the bid, if it was made.
    fn bid<'a, J: Naming, R: Wait>(
        &self,
        rt: &R,
        alloc: Global,
        client: Guest<'a, J>,
        round: Round,
        tally: &mut Tally,
    ) -> (Option<Stamp>, Guest<'a, J>)
        ensures { CountsBids tally.old tally.new }
    {
        let bid = Bid {
            item: round.item,
            user: round.now % USER_COUNT,
            more: 1 + round.now.wrapping_add(self.arguments.seed) % 7,
        };
        let (written, client) = client.write(rt, alloc, TRIES, &bid);
        match written {
            Ok(written) => (Some(tally.count_bid(bid.more, &written)), client),
            Err(_) => (None, client),
        }
    }

    /// Reads the item's highest bid and its page in one transaction: the page shows that bid, whatever others
    /// bid meanwhile.
    fn page<'a, J: Naming, R: Wait>(
        &self,
        rt: &R,
        alloc: Global,
        client: Guest<'a, J>,
        round: Round,
    ) -> (Option<BothBids>, Guest<'a, J>)
        ensures { IfSome result.0 IsWhole }
    {
        let bounds = self.bounds(round, Stamp::ZERO);
        let item = round.item;
        let (shown, client) = client.read(rt, alloc, bounds, &ItemPage { item });
        match shown {
            Ok(shown) => (Some(shown.output), client),
            Err(_) => (None, client),
        }
    }

    /// Reads each in a transaction of its own; the page reads no state before a bid that this visitor makes in
    /// between.
    fn plain_page<'a, J: Naming, R: Wait>(
        &self,
        rt: &R,
        alloc: Global,
        client: Guest<'a, J>,
        round: Round,
        tally: &mut Tally,
    ) -> (Option<BothBids>, Guest<'a, J>)
        ensures { CountsBids tally.old tally.new }
    {
        let highest = OneCall {
            key: key(0, round.item),
        };
        let page = OneCall {
            key: key(1, round.item),
        };
        let bounds = self.bounds(round, Stamp::ZERO);
        let (highest, client) = client.read(rt, alloc, bounds, &highest);
        let (stamp, client) = self.bid(rt, alloc, client, round, tally);
        let bounds = self.bounds(round, stamp.unwrap_or(Stamp::ZERO));
        let (page, client) = client.read(rt, alloc, bounds, &page);
        let Ok(highest) = highest else {
            return (None, client);
        };
        let Ok(page) = page else {
            return (None, client);
        };
        let both = BothBids {
            highest: highest.output,
            page: page.output,
        };
        (Some(both), client)
    }

    /// Reads both in one transaction or in two, by the arguments.
    fn both<'a, J: Naming, R: Wait>(
        &self,
        rt: &R,
        alloc: Global,
        client: Guest<'a, J>,
        round: Round,
        tally: &mut Tally,
    ) -> (Option<BothBids>, Guest<'a, J>)
        ensures counts { CountsBids tally.old tally.new }
        ensures whole { self.now.arguments.is_plain ≡ false → IfSome result.0 IsWhole }
    {
        if self.arguments.is_plain {
            self.plain_page(rt, alloc, client, round, tally)
        } else {
            self.page(rt, alloc, client, round)
        }
    }

    /// Reads the item's page, and bids.
    fn come<'a, J: Naming, R: Wait>(
        &self,
        rt: &R,
        alloc: Global,
        client: Guest<'a, J>,
        round: Round,
        tally: &mut Tally,
    ) -> Guest<'a, J>
        requires { pages_of tally.old < 2 ^ 32 }
        ensures pages { pages_of tally.new ≡ pages_of tally.old + 1 }
        ensures torn { self.now.arguments.is_plain ≡ false → tally.new.torn ≡ tally.old.torn }
    {
        let (page, client) = self.both(rt, alloc, client, round, tally);
        tally.count(page);
        let (_stamp, client) = self.bid(rt, alloc, client, round, tally);
        client
    }

    /// Returns the sum of all highest bids in a state at this stamp or later, or `None` if the page fails.
    fn last_page<'a, J: Naming, R: Wait>(
        &self,
        rt: &R,
        alloc: Global,
        client: Guest<'a, J>,
        at_least: Stamp,
    ) -> (Option<Seen>, Guest<'a, J>) {
        let round = Round {
            item: 0,
            now: self.arguments.pages,
        };
        let bounds = self.bounds(round, at_least);
        let (shown, client) = client.read(rt, alloc, bounds, &AllBids);
        match shown {
            Ok(shown) => (Seen::by(&shown), client),
            Err(_) => (None, client),
        }
    }

    /// Returns the sum as `last_page` does. If the page fails, it is tried again, up to [`TRIES`] times.
    fn see<J: Naming, R: Wait>(
        &self,
        rt: &R,
        alloc: Global,
        client: Guest<'_, J>,
        at_least: Stamp,
    ) -> Option<Seen> {
        let mut client = client;
        for _ in 0..TRIES {
            let (seen, left) = self.last_page(rt, alloc, client, at_least);
            if seen.is_some() {
                return seen;
            }
            client = left;
        }
        None
    }
}

/// Runs the maintenance, if the visitor has a keeper.
fn keep<'a, J: Naming, R: Wait>(
    rt: &R,
    alloc: Global,
    keeper: Option<Keeper<'a, Auction, J>>,
    now: u32,
    tally: &mut Tally,
) -> Option<Keeper<'a, Auction, J>>
    ensures { tally.new ≡ record tally.old { kept = tally.new.kept } }
{
    let keeper = keeper?;
    let (kept, keeper) = keeper.keep(rt, alloc, u64::from(now), AGE);
    let Ok(_kept) = kept else {
        return Some(keeper);
    };
    tally.kept = tally.kept.saturating_add(1);
    Some(keeper)
}

/// Counts the lookups at the nodes so far, and their hits.
fn count_lookups<J: Naming, R: Wait>(rt: &R, client: &mut Guest<'_, J>, tally: &mut Tally)
    ensures { tally.new ≡ record tally.old { lookups = tally.new.lookups; hits = tally.new.hits } }
{
    let numbers = client.stats(rt);
    tally.lookups = tally.lookups.saturating_add(numbers.lookups);
    tally.hits = tally.hits.saturating_add(numbers.hits);
}

impl Worker<Auction, AuctionFunction> for Crowd {
    ghost use Rattle.example_auction.specs.Tallies.{HasTallied};

    type Output = Tally;

    ghost gives = { λ crowd plan row number tally. HasTallied crowd.arguments.pages crowd.arguments tally };

    /// The first visitor runs the maintenance, and counts the lookups at the nodes.
    fn run<J: Naming + Send + Sync, R: Wait>(
        &self,
        rt: &R,
        alloc: Global,
        number: usize,
        client: &mut Option<Guest<'_, J>>,
    ) -> Tally {
        let Some(mut client) = client.take() else {
            unreachable!()
        };
        let mut tally = Tally::ZERO;
        let mut keeper = None;
        if number == 0 {
            keeper = client.keeper(rt, alloc).ok();
        }
        let first = u32::try_from(number).unwrap_or(0);
        for now in 0..self.arguments.pages {
            let item = now.wrapping_add(first).wrapping_add(self.arguments.seed) % ITEM_COUNT;
            client = self.come(rt, alloc, client, Round { item, now }, &mut tally);
            keeper = keep(rt, alloc, keeper, now, &mut tally);
        }
        if number == 0 {
            count_lookups(rt, &mut client, &mut tally);
        }
        tally.seen = self.see(rt, alloc, client, tally.last);
        tally
    }
}

impl Recurring<Auction, AuctionFunction> for Crowd {
    ghost use Rattle.std.specs.Prelude.{◌<◌, ◌↔◌, IsTrue};

    ghost continues = { λ crowd generation more. IsTrue more ↔ (generation.number < crowd.arguments.returns) };

    fn should_continue(&self, generation: &Generation<Tally>) -> bool {
        generation.number < usize::from(self.arguments.returns)
    }
}
