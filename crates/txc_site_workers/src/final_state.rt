//! The last state of a site.
ghost use Rattle.std.specs.Prelude.{◌≡◌, IfErr, IfOk, length, vec_len};
ghost use Rattle.txc_db.specs.DatabaseValue.{front_of};
ghost use Rattle.txc_site_workers.specs.Histories.{AreHistoriesOf, HaveHistoriesBy};
ghost use Rattle.txc_site_workers.specs.Plans.{IsPlan};
ghost use Rattle.txc_site_pages.specs.Pages.{last_bounds};
ghost use Rattle.txc_site_workers.specs.Sites.{IsLastRefused};
ghost use Rattle.txc_txn.specs.TxnCore.{Explains};
ghost use Rattle.txc_txn.specs.Sessions.{IsAtLeast};

use crate::error::LastError;
use crate::function_table::FunctionTable;
use crate::node_histories::new_histories;
use crate::plan::Plan;
use crate::site_parts::SiteParts;
use crate::threads::client;
use std::alloc::Global;
use std::marker::{Brand, Model};
use std::sync::Wait;
use txc_call_definition::Definition;
use txc_call_permits::PermitPool;
use txc_db::{DbCore, Naming};
use txc_site_ledger::NodeHistory;
use txc_site_pages::{Page, PageResult};
use txc_stamp::Stamp;
use txc_txn_ports::Bounds;

/// The database of a site whose threads have all ended. Contracts see its history.
#[derive(Drop)]
pub struct FinalState {
    core: DbCore,
    plan: Plan,
}

impl Model for FinalState {
    ghost use Rattle.txc_db.specs.DatabaseValue.{front_of};
    ghost use Rattle.txc_db.specs.FrontsAndFeeds.{FrontValue};
    ghost use Rattle.txc_site_workers.specs.Plans.{IsPlan};

    ghost Value = { FrontValue };

    ghost view = { λ s. front_of s.core };

    ghost invariant = { λ s. IsPlan s.plan };
}

impl FinalState {
    /// Makes the last state of a site of this plan, with this database.
    pub fn new(core: DbCore, plan: Plan) -> FinalState
        requires { IsPlan plan }
        ensures { result ≡ front_of core }
    {
        FinalState { core, plan }
    }

    /// Reads a page of the newest state, by a new client over new nodes. That needs an event, so it fails if
    /// the database has no room for one.
    #[tactic(auto, using(txc_site_pages::proofs::Pages::explained_newest, txc_site_pages::proofs::Pages::at_least_newest))]
    pub fn read<A, D, P, R>(
        self,
        rt: &R,
        alloc: Global,
        page: &P,
    ) -> Result<PageResult<P::Output>, LastError>
    where
        A: FunctionTable<D>,
        D: Definition,
        P: Page<A, D>,
        R: Wait,
        ensures shows { IfOk result (λ shown. P.shows page.now shown.receipt.answers.items shown.output) }
        ensures explained { IfOk result (λ shown. Explains A.next shown.receipt.seen.history
            (last_bounds (length self.history)) shown.receipt.pin shown.receipt.answers.items) }
        ensures newest { IfOk result (λ shown. IsAtLeast (length self.history) shown.receipt.pin) }
        ensures row { IfOk result (λ shown. shown.receipt.seen.events ≡ self.events) }
        ensures refused { IfErr result (IsLastRefused A.numbers (P.refuses page.now)) }
    {
        let FinalState { core, plan } = self;
        let newest = core.front()?.newest();
        let histories = new_histories(alloc, plan.nodes, plan.records)?;
        read_last::<A, D, P, Brand, R>(rt, alloc, plan, core, histories, newest, page)
    }
}

/// Reads the page over the named histories.
#[tactic(auto, using(txc_site_pages::proofs::Pages::explained_by, txc_site_pages::proofs::Pages::at_least_by))]
fn read_last<A, D, P, J, R>(
    rt: &R,
    alloc: Global,
    plan: Plan,
    core: DbCore,
    histories: Vec<NodeHistory>,
    newest: Stamp,
    page: &P,
) -> Result<PageResult<P::Output>, LastError>
where
    A: FunctionTable<D>,
    D: Definition,
    P: Page<A, D>,
    J: Naming,
    R: Wait,
    requires plan { IsPlan plan }
    requires database { core.events ≡ J.database_history }
    requires each { vec_len histories ≡ plan.nodes }
    requires histories { AreHistoriesOf J.node_histories 0 histories.items }
    requires stored_so { HaveHistoriesBy plan J.node_histories }
    ensures shows { IfOk result (λ shown. P.shows page.now shown.receipt.answers.items shown.output) }
    ensures explained { IfOk result (λ shown. Explains A.next shown.receipt.seen.history
        (last_bounds newest) shown.receipt.pin shown.receipt.answers.items) }
    ensures newest { IfOk result (λ shown. IsAtLeast newest shown.receipt.pin) }
    ensures row { IfOk result (λ shown. shown.receipt.seen.events ≡ J.database_history) }
    ensures refused { IfErr result (IsLastRefused A.numbers (P.refuses page.now)) }
{
    let (foundation, committers) = SiteParts::<A, J>::new(rt, alloc, plan, core, histories, 1)?;
    let mut pool = PermitPool::new(alloc, plan.permits)?;
    let client = client::<A, D, J>(rt, alloc, &foundation, 0, &committers, &mut pool)?;
    let bounds = Bounds::fresh_since(u64::MAX, u64::MAX, newest);
    let (shown, _client) = client.read(rt, alloc, bounds, page);
    match shown {
        Ok(shown) => Ok(shown),
        Err(error) => Err(LastError::Page(error)),
    }
}
