//! Changes: the first rows, and bids.
ghost use Rattle.std.specs.Prelude.{◌≡◌, ◌++◌, ◌∷◌, [], IfOk, OnOk, string_bytes};
ghost use Rattle.txc_site.specs.Change.TheVariants.{Put};
ghost use Rattle.txc_site.specs.Values.{IsBody};
ghost use Rattle.example_auction.specs.Bids.{text_of};

use crate::functions::{Auction, AuctionFunction, bids, items, users};
use crate::pages::key;
use std::alloc::{AllocError, Global};
use std::str;
use std::sync::Wait;
use txc_site::{Change, ChangeTxn, Naming, Row, RunError, Table, Value};

/// Number of items.
pub const ITEM_COUNT: u32 = 8;

/// Number of users.
pub const USER_COUNT: u32 = 3;

/// The amount of the first bid on each item.
pub const FIRST_BID: u32 = 10;

type Writing<'a, J> = ChangeTxn<'a, Auction, AuctionFunction, J>;

/// Buffers a put of the row with that body.
fn put<J: Naming>(
    txn: &mut Writing<'_, J>,
    table: Table,
    id: u32,
    group: u32,
    body: String,
) -> Result<(), RunError>
    requires { IsBody (string_bytes body) }
    ensures after { OnOk result (txn.new.core.changes ≡ txn.old.core.changes
        ++ Put (record { table = table; id = id; group = group; body = string_bytes body }) ∷ []) }
    ensures functions { txn.new.objects ≡ txn.old.objects }
{
    let Ok(row) = Row::new(table, id, group, body.into_bytes()) else {
        unreachable!()
    };
    txn.put(row)?;
    Ok(())
}

fn user_name(alloc: Global, user: u32) -> Result<String, AllocError>
    ensures { IfOk result (λ name. IsBody (string_bytes name)) }
{
    format!(in alloc; "user{user}")
}

fn title(alloc: Global, item: u32) -> Result<String, AllocError>
    ensures { IfOk result (λ title. IsBody (string_bytes title)) }
{
    format!(in alloc; "item{item}")
}

/// Returns the text of a bid, such as `120:user1`.
fn bid_text(alloc: Global, amount: u32, user: u32) -> Result<String, AllocError>
    ensures answer { IfOk result (λ text. string_bytes text ≡ text_of amount user) }
    ensures body { IfOk result (λ text. IsBody (string_bytes text)) }
{
    format!(in alloc; "{amount}:user{user}")
}

/// Returns the amount of a bid.
pub fn amount_of(bid: &Value) -> u32 {
    let text = str::from_utf8(bid.bytes()).unwrap_or("");
    let (amount, _user) = text.split_once(':').unwrap_or(("", ""));
    amount.parse().unwrap_or(0)
}

/// Puts the users, the items, and a first bid on each.
#[derive(Drop)]
pub struct Opening;

impl Change<Auction, AuctionFunction> for Opening {
    type Output = ();

    ghost makes = { λ change core output. Unit {0} };

    ghost refuses = { λ change error. Unit {0} };

    fn make<J: Naming, R: Wait>(
        &self,
        _rt: &R,
        alloc: Global,
        txn: &mut Writing<'_, J>,
    ) -> Result<(), RunError> {
        for user in 0..USER_COUNT {
            put(txn, users(), user, 0, user_name(alloc, user)?)?;
        }
        for item in 0..ITEM_COUNT {
            put(txn, items(), item, item % USER_COUNT, title(alloc, item)?)?;
            put(txn, bids(), item, 0, bid_text(alloc, FIRST_BID, 0)?)?;
        }
        Ok(())
    }
}

/// Raises the highest bid on an item by `more`.
#[derive(Drop)]
pub struct Bid {
    pub item: u32,
    pub user: u32,
    pub more: u32,
}

impl Change<Auction, AuctionFunction> for Bid {
    ghost use Rattle.example_auction.specs.Bids.{WritesBid};

    type Output = u32;

    ghost makes = { WritesBid };

    ghost refuses = { λ change error. Unit {0} };

    fn make<J: Naming, R: Wait>(
        &self,
        rt: &R,
        alloc: Global,
        txn: &mut Writing<'_, J>,
    ) -> Result<u32, RunError> {
        let highest = txn.call(rt, alloc, key(0, self.item))?;
        let amount = amount_of(&highest).saturating_add(self.more);
        let text = bid_text(alloc, amount, self.user)?;
        put(txn, bids(), self.item, 0, text)?;
        Ok(amount)
    }
}
