//! The last page of a visitor: the sum of all highest bids, after each bid of its own.
ghost use Rattle.std.specs.Prelude.{◌≡◌, ◌⊎◌, ◌≤◌, MatchOption};

use crate::changes::{ITEM_COUNT, amount_of};
use crate::functions::{Auction, AuctionFunction};
use crate::pages::key;
use std::alloc::Global;
use std::sync::Wait;
use txc_site::{Begun, Naming, Page, PageResult, PageTxn, RunError, Stamp};

/// The sum of all highest bids, and the stamp of that state.
#[derive(Clone, Copy)]
pub struct Seen {
    pub stamp: Stamp,
    pub sum: u64,
}

impl Seen {
    /// Returns the sum and the stamp of the page, or `None` if the page made no call.
    pub fn by(shown: &PageResult<u64>) -> Option<Seen>
        ensures { MatchOption shown.now.receipt.pin (result ≡ None)
            (λ pin. result ≡ Some (record { stamp = pin.stamp; sum = shown.now.output })) }
    {
        match &shown.receipt.pin {
            Some(pin) => Some(Seen {
                stamp: pin.stamp,
                sum: shown.output,
            }),
            None => None,
        }
    }

    /// Returns the later one of two.
    pub fn later(self, other: Seen) -> Seen
        ensures either { (result ≡ self) ⊎ (result ≡ other) }
        ensures one { self.stamp ≤ result.stamp }
        ensures other { other.stamp ≤ result.stamp }
    {
        if self.stamp < other.stamp {
            other
        } else {
            self
        }
    }
}

/// The page that reads all highest bids in one transaction, and adds up their amounts.
#[derive(Drop)]
pub struct AllBids;

impl Page<Auction, AuctionFunction> for AllBids {
    type Output = u64;

    ghost shows = { λ page calls sum. Unit {0} };

    ghost refuses = { λ page error. Unit {0} };

    fn show<J: Naming, B: Begun, R: Wait>(
        &self,
        rt: &R,
        alloc: Global,
        txn: &mut PageTxn<'_, Auction, AuctionFunction, J, B>,
    ) -> Result<u64, RunError> {
        let mut sum = 0u64;
        for item in 0..ITEM_COUNT {
            let highest = txn.call(rt, alloc, key(0, item))?;
            sum = sum.saturating_add(u64::from(amount_of(&highest)));
        }
        Ok(sum)
    }
}
