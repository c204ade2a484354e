//! A site with automatic maintenance.
ghost use Rattle.std.specs.Prelude.{IfErr, IfOk};
ghost use Rattle.txc_site_keeper.specs.Refusals.{IsKeeperRefused};
ghost use Rattle.txc_site_keeper.specs.SiteKeeper.{HasLooked, HasTended, IsNewOwnKeeper, IsTendedBy};

use crate::clock::{Clock, SharedClock, StopFlag};
use crate::error::SiteError;
use crate::keeper::Keeper;
use std::alloc::Global;
use std::marker::Model;
use std::sync::Wait;
use std::thread;
use txc_app::App;
use txc_db::{DbError, Naming};
use txc_shared::SharedNode;
use txc_site_ledger::Ledger;

/// Settings of automatic maintenance: after each `every` milliseconds, it does the work of
/// [`Keeper::keep`](crate::Keeper::keep), with pins kept for `age` milliseconds.
#[derive(Clone, Copy, Debug, PartialEq, Eq)]
pub struct KeeperSettings {
    pub every: u64,
    pub age: u64,
}

/// Result of automatic maintenance.
#[derive(Clone, Copy, Debug, PartialEq, Eq)]
pub struct KeeperTotals {
    /// The number of maintenance runs. It wraps after 2^64.
    pub keeps: u64,
    /// The error of the last run that did nothing, or `None` if each did something.
    pub refused: Option<DbError>,
}

/// A keeper with its counts, which only [`SiteKeeper::keep`] changes.
#[derive(Drop)]
struct SiteKeeper<'a, A: App, J: Naming> {
    keeper: Keeper<'a, A, J>,
    tended: KeeperTotals,
}

impl<'a, A: App, J: Naming> Model for SiteKeeper<'a, A, J> {
    ghost use Rattle.txc_site_keeper.specs.SiteKeeper.{OwnKeeperValue};

    ghost Value = { OwnKeeperValue };

    ghost view = { λ own. record { stations = own.keeper; tended = own.tended } };
}

impl<'a, A: App, J: Naming> SiteKeeper<'a, A, J> {
    fn new(
        rt: &impl Wait,
        alloc: Global,
        ledger: &'a Ledger<J>,
        nodes: &'a [SharedNode<A, J>],
        budget: Option<usize>,
    ) -> Result<Self, SiteError>
        ensures new { IfOk result (IsNewOwnKeeper nodes.now budget) }
        ensures refused { IfErr result IsKeeperRefused }
    {
        Ok(SiteKeeper {
            keeper: Keeper::new(rt, alloc, ledger, nodes, budget)?,
            tended: KeeperTotals {
                keeps: 0,
                refused: None,
            },
        })
    }

    /// Runs the maintenance once, and counts the run.
    fn keep(self, rt: &impl Wait, alloc: Global, now: u64, age: u64) -> Self
        ensures { HasTended J.database_history J.node_histories now age self.entry result }
    {
        let SiteKeeper { keeper, tended } = self;
        let keeps = tended.keeps.wrapping_add(1);
        let (kept, keeper) = keeper.keep(rt, alloc, now, age);
        match kept {
            Ok(_kept) => SiteKeeper {
                keeper,
                tended: KeeperTotals { keeps, ..tended },
            },
            Err(cause) => SiteKeeper {
                keeper,
                tended: KeeperTotals {
                    keeps,
                    refused: Some(cause),
                },
            },
        }
    }

    /// Reads the clock once, which shows `now`, and runs the maintenance if it is due. Returns the time from
    /// which the next run is due.
    fn look(
        self,
        rt: &impl Wait,
        alloc: Global,
        keeping: KeeperSettings,
        due: u64,
        now: u64,
    ) -> (Self, u64)
        ensures { HasLooked J.database_history J.node_histories keeping due now self.entry result.0 result.1 }
    {
        if now < due {
            thread::yield_now();
            return (self, due);
        }
        let next = now.saturating_add(keeping.every);
        (self.keep(rt, alloc, now, keeping.age), next)
    }
}

/// Maintains the ledger and these nodes at this clock until `ended` is set. With a `budget`, each run trims the
/// values of every node to that many bytes. `moment` gets the last time that the clock showed. Fails only
/// before it begins: if a node gives no pass, or memory cannot be allocated.
#[tactic(auto, using(crate::proofs::Tending::since_begun, crate::proofs::Tending::looked_on, crate::proofs::Tending::told_so))]
pub fn run_keeper<A: App, J: Naming, C: Clock, R: Wait>(
    rt: &R,
    alloc: Global,
    ledger: &Ledger<J>,
    nodes: &[SharedNode<A, J>],
    budget: Option<usize>,
    moment: &SharedClock,
    keeping: KeeperSettings,
    clock: &C,
    ended: &StopFlag,
) -> Result<KeeperTotals, SiteError>
    ensures tended { IfOk result
        (IsTendedBy J.database_history nodes.now budget (C.tells clock.now) keeping) }
    ensures refused { IfErr result IsKeeperRefused }
{
    let mut own = SiteKeeper::new(rt, alloc, ledger, nodes, budget)?;
    let mut due = 0;
    for _ in rt.forever() {
        let now = clock.now();
        moment.set(now);
        if ended.is_given() {
            return Ok(own.tended);
        }
        let (looked, next) = own.look(rt, alloc, keeping, due, now);
        own = looked;
        due = next;
    }
    unreachable!()
}
