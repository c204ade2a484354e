//! An auction on threads: visitors read pages in read-only transactions, and bid in read-write ones.
#![tactic(auto)]

ghost use Rattle.std.specs.Prelude.{◌+◌, ◌*◌, IfOk};
ghost use Rattle.example_auction.specs.Tallies.{HasTallied};

mod arguments;
mod changes;
mod crowd;
mod functions;
mod pages;
mod seen;
mod tally;

use arguments::Arguments;
use changes::Opening;
use crowd::Crowd;
use functions::{Auction, AuctionFunction};
use std::alloc::Global;
use std::env;
use std::sync::Wait;
use std::thread::Threads;
use tally::{Tally, grand_total};
use txc_site::{Plan, with_generations};

/// Opens the site with the first rows, and runs the visitors, generation after generation.
fn hold<R: Threads + Wait + Sync>(
    rt: &R,
    alloc: Global,
    arguments: Arguments,
) -> anyhow::Result<Tally>
    ensures { IfOk result (HasTallied
        ((arguments.returns + 1) * (arguments.threads * arguments.pages)) arguments) }
{
    let plan = Plan {
        events: arguments.events(),
        ..Plan::DEFAULT
    };
    let crowd = Crowd { arguments };
    let served = with_generations::<Auction, AuctionFunction, _, _, _>(
        rt,
        alloc,
        plan,
        &Opening,
        arguments.threads as usize,
        &crowd,
    )?;
    served.end?;
    Ok(grand_total(&served.generations))
}

fn main(rt: HostRuntime) -> anyhow::Result<()> {
    let alloc = rt.alloc();
    let words = env::args(&rt)?.collect::<Vec<String>>(alloc)?;
    let all = hold(&rt, alloc, Arguments::read(words.as_slice()))?;
    let pages = all.whole.saturating_add(all.torn);
    print!(rt; "{pages} pages, {} torn, {} refused", all.torn, all.refused)?;
    match all.lost() {
        Some(lost) => println!(rt; ", {lost} lost")?,
        None => {
            println!(rt)?;
            eprintln!(rt;
                "a visitor's last page was refused: whether bids were lost is not known"
            )?;
        }
    }
    // The other counts differ from run to run.
    eprintln!(rt;
        "{} bids that raised by {}, {} conflicts, kept {} times",
        all.bids, all.raised, all.conflicts, all.kept
    )?;
    eprintln!(rt; "{} hits of {} lookups", all.hits, all.lookups)?;
    Ok(())
}
