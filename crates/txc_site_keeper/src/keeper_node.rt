//! The nodes of a site, for its keeper.
ghost use Rattle.std.specs.Prelude.{◌≡◌, [], IfErr, IfOk};
ghost use Rattle.txc_node.specs.declared.op.Op.TheVariants.{Sweep, Trim};
ghost use Rattle.txc_node.specs.declared.reply.Reply.TheVariants.{Swept, Trimmed};
ghost use Rattle.txc_shared.specs.Passes.{HasMade};
ghost use Rattle.txc_shared.specs.Refusals.{IsNewPassRefused, IsTidyRefused, NodeMayRefuse};
ghost use Rattle.txc_site_keeper.specs.NodeReports.{HasTakenEvents};
ghost use Rattle.txc_site_keeper.specs.KeeperNodes.{HasNotRefused, HasBeenRefused, IsSamePass};

use std::alloc::Global;
use std::marker::Model;
use std::sync::Wait;
use txc_app::App;
use txc_db::Naming;
use txc_shared::{Ended, MAX_TOGETHER, NodeError, NodePass, SharedNode};
use txc_site_ledger::Horizon;

/// A node, a pass at it, and the budget of a trim: the most bytes of the node's values, if there is a limit. It
/// counts the errors of the node.
#[derive(Drop)]
pub(crate) struct KeeperNode<'a, A: App, J: Naming> {
    node: &'a SharedNode<A, J>,
    pass: NodePass<J>,
    refusals: u64,
    budget: Option<usize>,
}

impl<'a, A: App, J: Naming> Model for KeeperNode<'a, A, J> {
    ghost use Rattle.txc_site_keeper.specs.KeeperNodes.{KeeperNodeValue};

    ghost Value = { KeeperNodeValue };

    ghost view = { λ s. record { pass = s.pass; refusals = s.refusals; budget = s.budget } };
}

impl<'a, A: App, J: Naming> KeeperNode<'a, A, J> {
    /// Makes a new pass at the node. Fails as a pass does.
    pub(crate) fn new(
        rt: &impl Wait,
        node: &'a SharedNode<A, J>,
        budget: Option<usize>,
    ) -> Result<KeeperNode<'a, A, J>, NodeError>
        ensures settings { IfOk result (λ station. station.pass.settings ≡ node.now) }
        ensures records { IfOk result (λ station. station.pass.records ≡ []) }
        ensures budget { IfOk result (λ station. station.budget ≡ budget) }
        ensures refused { IfErr result (NodeMayRefuse J.node_histories (IsNewPassRefused node.now)) }
    {
        let pass = node.pass(rt)?;
        Ok(KeeperNode {
            node,
            pass,
            refusals: 0,
            budget,
        })
    }

    /// Returns the pass.
    pub(crate) fn pass(&self) -> &NodePass<J>
        ensures { result.now ≡ self.now.pass }
    {
        &self.pass
    }

    /// Returns the most bytes of the values that a trim leaves in the node, if there is a budget.
    pub(crate) fn budget(&self) -> Option<usize>
        ensures { result ≡ self.now.budget }
    {
        self.budget
    }

    /// Lets the node take up to [`MAX_TOGETHER`] events in one locked call.
    #[tactic(auto, using(crate::proofs::NodesKept::same_settings, crate::proofs::NodesKept::same_pass))]
    pub(crate) fn advance_many(&mut self, rt: &impl Wait, alloc: Global) -> (usize, Ended)
        ensures same { IsSamePass self.old self.new }
        ensures taken { HasTakenEvents J.database_history J.node_histories MAX_TOGETHER self.old result.0 result.1 self.new }
    {
        let (taken, ended) = self.pass.advance_many(rt, alloc, self.node);
        if let Ended::Refused(_) = ended {
            self.refusals = self.refusals.wrapping_add(1);
        }
        (taken, ended)
    }

    /// Drops the entries that the node cannot serve from the horizon on.
    #[tactic(auto, using(crate::proofs::NodesKept::same_settings, crate::proofs::NodesKept::same_pass))]
    pub(crate) fn sweep(
        &mut self,
        rt: &impl Wait,
        alloc: Global,
        horizon: &Horizon<J>,
    ) -> Result<usize, NodeError>
        ensures same { IsSamePass self.old self.new }
        ensures made { IfOk result (λ count.
            HasMade self.old.pass self.new.pass (Sweep horizon.now) (Swept count)) }
        ensures answered { IfOk result (λ count. HasNotRefused self.old self.new) }
        ensures refused { IfErr result (λ error. HasBeenRefused J.node_histories IsTidyRefused self.old error self.new) }
    {
        match self.pass.sweep(rt, alloc, self.node, horizon.stamp()) {
            Ok(count) => Ok(count),
            Err(error) => {
                self.refusals = self.refusals.wrapping_add(1);
                Err(error)
            }
        }
    }

    /// Keeps the longest prefix of the node's entries whose values have at most `most` bytes in all. Returns
    /// how many it dropped.
    #[tactic(auto, using(crate::proofs::NodesKept::same_settings, crate::proofs::NodesKept::same_pass))]
    pub(crate) fn trim(
        &mut self,
        rt: &impl Wait,
        alloc: Global,
        most: usize,
    ) -> Result<usize, NodeError>
        ensures same { IsSamePass self.old self.new }
        ensures made { IfOk result (λ count.
            HasMade self.old.pass self.new.pass (Trim most) (Trimmed count)) }
        ensures answered { IfOk result (λ count. HasNotRefused self.old self.new) }
        ensures refused { IfErr result (λ error. HasBeenRefused J.node_histories IsTidyRefused self.old error self.new) }
    {
        match self.pass.trim(rt, alloc, self.node, most) {
            Ok(count) => Ok(count),
            Err(error) => {
                self.refusals = self.refusals.wrapping_add(1);
                Err(error)
            }
        }
    }
}
