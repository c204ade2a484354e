//! A shop with stock. Arguments: the number of visitors, each on a thread, and how many pieces each tries to
//! buy.
#![tactic(auto)]

ghost use Rattle.std.specs.Prelude.{◌≡◌, ◌≤◌, [], ◌∷◌, IfOk};
ghost use Rattle.example_shop.specs.Shop.{piece_row, piece_list, shop, shop_asks, shop_number};
ghost use Rattle.example_shop.specs.Trade.{HasVisited, WritesTrade};

use std::alloc::{AllocError, Global};
use std::sync::Wait;
use txc_site::{
    Answer, App, Ask, Bounds, Bytes, Change, ChangeTxn, FixedAsks, FunctionTable, Key, Limits,
    Naming, OneCall, Plan, Query, Row, RunError, Sequential, SiteClient, Stamp, Table, Worker,
    with_site,
};

/// The number of products, and of pieces of each in the beginning.
const PRODUCTS: u32 = 8;

const PIECES: usize = 15;

/// The tables. A piece is a row of one of them, in the group of its product.
const STOCK: u8 = 1;

const ORDERS: u8 = 2;

fn table(number: u8) -> Table
    requires { number ≤ ORDERS }
    ensures { result ≡ number }
{
    Table::new(number).unwrap()
}

fn piece(alloc: Global, table: Table, id: u32, product: u32) -> Result<Row, AllocError>
    ensures { IfOk result (λ row. row ≡ piece_row table id product) }
{
    Ok(Row::new(table, id, product, vec![in alloc; b'*']?).unwrap())
}

/// The shop's functions. Each lists pieces, as a star for each: those in stock, of a product or of all. The
/// page of a product lists these, a bar, and the ordered ones.
#[derive(Clone, Copy)]
enum Shop {
    Stock,
    ProductPage,
}

type Turn = Sequential<Shop>;

impl App for Shop {
    ghost next = { shop };

    fn limits() -> Limits {
        Limits::SMALL
    }
}

impl FixedAsks for Shop {
    ghost number = { shop_number };

    ghost asks = { shop_asks };

    ghost gives = { λ function args. piece_list };

    fn number(&self) -> u8 {
        *self as u8
    }

    fn count(&self, args: &[u32]) -> usize {
        match (self, args) {
            (Shop::Stock, [] | [_]) => 1,
            (Shop::ProductPage, [_]) => 2,
            _ => 0,
        }
    }

    fn ask(&self, _alloc: Global, args: &[u32], at: usize) -> Result<Ask, AllocError> {
        Ok(match (self, args) {
            (Shop::Stock, [id]) => Ask::Query(Query::ByGroup(table(STOCK), *id)),
            (Shop::Stock, _) => Ask::Query(Query::All(table(STOCK))),
            (Shop::ProductPage, [id]) if at > 0 => Ask::Query(Query::ByGroup(table(ORDERS), *id)),
            (Shop::ProductPage, _) => Ask::Call(Key::new(Shop::Stock as u8, args).unwrap()),
        })
    }

    fn give(
        &self,
        alloc: Global,
        _args: &[u32],
        answers: &[Answer],
        last: &Answer,
    ) -> Result<Bytes, AllocError> {
        let mut list = Vec::new(alloc);
        if let [Answer::Value(stock)] = answers {
            list.extend_from_slice(stock.bytes())?;
            list.push(b'|')?;
        }
        if let Answer::Rows(rows) = last {
            for row in rows.as_slice() {
                list.extend_from_slice(row.body())?;
            }
        }
        Ok(Bytes::new(list))
    }
}

impl FunctionTable<Turn> for Shop {
    ghost numbers = { 0 ∷ 1 ∷ [] };

    fn definitions(alloc: Global) -> Result<Vec<Turn>, AllocError> {
        Ok(vec![in alloc; Sequential(Shop::Stock), Sequential(Shop::ProductPage)]?)
    }
}

/// The changes: all pieces are put in stock; or one of a product is ordered, if there is one.
#[derive(Drop)]
enum Trade {
    Opening,
    Purchase(u32),
}

impl Change<Shop, Turn> for Trade {
    type Output = bool;

    ghost makes = { WritesTrade };

    ghost refuses = { λ change error. Unit {0} };

    fn make<J: Naming, R: Wait>(
        &self,
        rt: &R,
        alloc: Global,
        txn: &mut ChangeTxn<'_, Shop, Turn, J>,
    ) -> Result<bool, RunError> {
        let Trade::Purchase(product) = self else {
            for id in 0..PRODUCTS * PIECES as u32 {
                txn.put(piece(alloc, table(STOCK), id, id % PRODUCTS)?)?;
            }
            return Ok(true);
        };
        let stock = txn.query(rt, alloc, Query::ByGroup(table(STOCK), *product))?;
        let Some(first) = stock.first() else {
            return Ok(false);
        };
        txn.remove(table(STOCK), first.id())?;
        txn.put(piece(alloc, table(ORDERS), first.id(), *product)?)?;
        Ok(true)
    }
}

/// Visitors, each of which tries to buy this many pieces. After each purchase, the page of the product must
/// have all of its pieces, and a bar: otherwise it is torn.
#[derive(Drop)]
struct Visitors(u32);

impl Worker<Shop, Turn> for Visitors {
    /// The number of torn pages, and of bought pieces. The first visitor runs the maintenance.
    type Output = (u32, u32);

    ghost gives = { λ visitors plan row number. HasVisited visitors.0 };

    fn run<J: Naming + Send + Sync, R: Wait>(
        &self,
        rt: &R,
        alloc: Global,
        number: usize,
        client: &mut Option<SiteClient<'_, Shop, Turn, J>>,
    ) -> (u32, u32) {
        let mut client = client.take().unwrap();
        let mut keeper = client.keeper(rt, alloc).ok().filter(|_| number == 0);
        let (mut torn, mut bought, mut at_least) = (0, 0, Stamp::ZERO);
        for round in 0..self.0 {
            let product = ((round as usize).wrapping_add(number) % PRODUCTS as usize) as u32;
            let (written, next) = client.write(rt, alloc, 64, &Trade::Purchase(product));
            if let Ok(written) = &written {
                bought += u32::from(written.output);
                at_least = written.committed.stamp;
            }
            let page = OneCall::new(Shop::ProductPage as u8, &[product]).unwrap();
            let bounds = Bounds::fresh_since(u64::from(round), 2, at_least);
            let (shown, next) = next.read(rt, alloc, bounds, &page);
            client = next;
            torn += u32::from(!shown.is_ok_and(|it| it.output.bytes().len() == PIECES + 1));
            keeper = keeper.map(|it| it.keep(rt, alloc, u64::from(round), 16).1);
        }
        (torn, bought)
    }
}

fn main(rt: HostRuntime) -> anyhow::Result<()> {
    let (alloc, plan) = (rt.alloc(), Plan::DEFAULT);
    let words = std::env::args(&rt)?.collect::<Vec<String>>(alloc)?;
    let number = |place: usize| words.get(place).and_then(|word| word.parse::<u32>().ok());
    let (threads, pages) = (number(1).unwrap_or(4) as usize, number(2).unwrap_or(40));
    let (opening, visitors) = (Trade::Opening, Visitors(pages));
    let visited = with_site::<Shop, Turn, _, _, _>(&rt, alloc, plan, &opening, threads, &visitors)?;
    let came = visited.outputs.as_slice();
    let torn = came.iter().fold(0u32, |sum, it| sum.saturating_add(it.0));
    let bought = came.iter().fold(0u32, |sum, it| sum.saturating_add(it.1));
    let stock = OneCall::new(Shop::Stock as u8, &[]).unwrap();
    let last = visited.last.read::<Shop, Turn, _, _>(&rt, alloc, &stock)?;
    println!(rt; "{threads} visitors, {pages} pages each, {torn} torn")?;
    let (all, left) = (PRODUCTS as usize * PIECES, last.output.bytes().len());
    Ok(println!(rt; "{all} pieces at first, {left} in the end and {bought} bought")?)
}
