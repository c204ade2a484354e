//! Pages of visitors: an item's highest bid and its page, in one transaction or in two.
ghost use Rattle.std.specs.Prelude.{◌≡◌, ◌≤◌, ◌↔◌, IsTrue};
ghost use Rattle.example_auction.specs.Auction.{call_with_argument};
ghost use Rattle.example_auction.specs.Pages.{IsWhole};

use crate::functions::{Auction, AuctionFunction};
use std::alloc::Global;
use std::sync::Wait;
use txc_site::{Begun, Key, Naming, Page, PageTxn, RunError, Value};

/// Returns the call of a function with one argument.
pub fn key(function: u8, id: u32) -> Key
    requires { function ≤ 2 }
    ensures { result ≡ call_with_argument function id }
{
    let Ok(key) = Key::new(function, &[id]) else {
        unreachable!()
    };
    key
}

/// An item's highest bid, and its page.
#[derive(Drop)]
pub struct BothBids {
    pub highest: Value,
    pub page: Value,
}

impl BothBids {
    /// Returns `true` if the page shows that highest bid, at its end.
    pub fn is_whole(&self) -> bool
        ensures { IsTrue result ↔ IsWhole self.now }
    {
        match self.page.bytes().strip_suffix(self.highest.bytes()) {
            Some(before) => before.ends_with(b"|"),
            None => false,
        }
    }
}

/// The page that reads the highest bid on an item, and the item's page, in one transaction.
#[derive(Drop)]
pub struct ItemPage {
    pub item: u32,
}

impl Page<Auction, AuctionFunction> for ItemPage {
    ghost use Rattle.example_auction.specs.Pages.{ShowsBoth};

    type Output = BothBids;

    ghost shows = { λ page. ShowsBoth page.item };

    ghost refuses = { λ page error. Unit {0} };

    fn show<J: Naming, B: Begun, R: Wait>(
        &self,
        rt: &R,
        alloc: Global,
        txn: &mut PageTxn<'_, Auction, AuctionFunction, J, B>,
    ) -> Result<BothBids, RunError> {
        let highest = txn.call(rt, alloc, key(0, self.item))?;
        let page = txn.call(rt, alloc, key(1, self.item))?;
        Ok(BothBids { highest, page })
    }
}
