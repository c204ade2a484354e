//! The auction's functions: an item's highest bid, its page, and a user's items.
ghost use Rattle.std.specs.Prelude.{◌≡◌, ◌++◌, ◌∷◌, IfOk};
ghost use Rattle.example_auction.specs.Auction.{body_of, bytes_in, group_of, rows_in, titles_of, BIDS, ITEMS, USERS};

use std::alloc::{AllocError, Global};
use txc_site::{
    Answer, App, Ask, Bytes, Definition, FunctionTable, Key, Limits, Query, Row, Table,
};

/// The auction, as an application.
pub struct Auction;

impl App for Auction {
    ghost use Rattle.example_auction.specs.Auction.{auction};

    ghost next = { auction };

    fn limits() -> Limits {
        Limits::SMALL
    }
}

pub fn items() -> Table
    ensures { result ≡ ITEMS }
{
    let Some(table) = Table::new(1) else {
        unreachable!()
    };
    table
}

pub fn bids() -> Table
    ensures { result ≡ BIDS }
{
    let Some(table) = Table::new(2) else {
        unreachable!()
    };
    table
}

pub fn users() -> Table
    ensures { result ≡ USERS }
{
    let Some(table) = Table::new(3) else {
        unreachable!()
    };
    table
}

fn rows(answer: &Answer) -> &[Row]
    ensures { result.now ≡ rows_in answer.now }
{
    match answer {
        Answer::Rows(rows) => rows.as_slice(),
        Answer::Value(_) => &[],
    }
}

fn bytes(answer: &Answer) -> &[u8]
    ensures { result.now ≡ bytes_in answer.now }
{
    match answer {
        Answer::Rows(_) => &[],
        Answer::Value(value) => value.bytes(),
    }
}

fn body(rows: &[Row]) -> &[u8]
    ensures { result.now ≡ body_of rows.now }
{
    match rows.first() {
        Some(row) => row.body(),
        None => &[],
    }
}

fn group(rows: &[Row]) -> u32
    ensures { result ≡ group_of rows.now }
{
    match rows.first() {
        Some(row) => row.group(),
        None => 0,
    }
}

fn titles(alloc: Global, rows: &[Row]) -> Result<Bytes, AllocError>
    ensures { IfOk result (λ titles. titles ≡ titles_of rows.now) }
{
    let mut bytes = Vec::new(alloc);
    for row in rows {
        bytes.extend_from_slice(row.body())?;
        bytes.push(b';')?;
    }
    Ok(Bytes::new(bytes))
}

fn page(alloc: Global, bid: &[u8], title: &[u8], seller: &[u8]) -> Result<Bytes, AllocError>
    ensures { IfOk result (λ page. page ≡ title.now ++ 124 ∷ seller.now ++ 124 ∷ bid.now) }
{
    let mut bytes = Vec::from_slice(alloc, title)?;
    bytes.push(b'|')?;
    bytes.extend_from_slice(seller)?;
    bytes.push(b'|')?;
    bytes.extend_from_slice(bid)?;
    Ok(Bytes::new(bytes))
}

/// One of the auction's functions.
#[derive(Drop)]
pub enum AuctionFunction {
    HighestBid,
    ItemPage,
    ItemsOf,
}

impl Definition for AuctionFunction {
    ghost use Rattle.example_auction.specs.Objects.{auction_number, auction_says};

    ghost number = { auction_number };

    ghost says = { auction_says };

    fn number(&self) -> u8 {
        match self {
            AuctionFunction::HighestBid => 0,
            AuctionFunction::ItemPage => 1,
            AuctionFunction::ItemsOf => 2,
        }
    }

    fn accepts(&self, args: &[u32]) -> bool {
        matches!(args, [_])
    }

    fn first(&self, _alloc: Global, args: &[u32]) -> Result<Ask, AllocError> {
        let [id] = args else { unreachable!() };
        match self {
            AuctionFunction::HighestBid => Ok(Ask::Query(Query::ById(bids(), *id))),
            AuctionFunction::ItemPage => {
                let Ok(key) = Key::new(0, &[*id]) else {
                    unreachable!()
                };
                Ok(Ask::Call(key))
            }
            AuctionFunction::ItemsOf => Ok(Ask::Query(Query::ByGroup(items(), *id))),
        }
    }

    fn next(
        &self,
        alloc: Global,
        args: &[u32],
        answers: &[Answer],
        answer: &Answer,
    ) -> Result<Ask, AllocError> {
        let [id] = args else { unreachable!() };
        match self {
            AuctionFunction::HighestBid => {
                let bid = Vec::from_slice(alloc, body(rows(answer)))?;
                Ok(Ask::Done(Bytes::new(bid)))
            }
            AuctionFunction::ItemPage => match answers {
                [] => Ok(Ask::Query(Query::ById(items(), *id))),
                [_bid] => Ok(Ask::Query(Query::ById(users(), group(rows(answer))))),
                [bid, item] => {
                    let page = page(alloc, bytes(bid), body(rows(item)), body(rows(answer)))?;
                    Ok(Ask::Done(page))
                }
                _ => unreachable!(),
            },
            AuctionFunction::ItemsOf => Ok(Ask::Done(titles(alloc, rows(answer))?)),
        }
    }
}

impl FunctionTable<AuctionFunction> for Auction {
    ghost use Rattle.std.specs.Prelude.{[], ◌∷◌};

    ghost numbers = { 0 ∷ 1 ∷ 2 ∷ [] };

    fn definitions(alloc: Global) -> Result<Vec<AuctionFunction>, AllocError> {
        Ok(vec![in alloc;
            AuctionFunction::HighestBid,
            AuctionFunction::ItemPage,
            AuctionFunction::ItemsOf,
        ]?)
    }
}
