//! The steps of a pass through its node, each under the node's lock.
ghost use Rattle.std.specs.Prelude.{◌≡◌, ◌<◌, IfOk, OnOk, IfErr, IfSome};
ghost use Rattle.std.specs.Option.{option_map};
ghost use mathlib.Core.List.{IsPrefix};
ghost use Rattle.txc_node.specs.declared.op.Op.TheVariants.{Lookup, Sweep, Trim};
ghost use Rattle.txc_node.specs.declared.reply.Reply.TheVariants.{Swept, Trimmed};
ghost use Rattle.txc_node.specs.Counts.{AreCountsOf};
ghost use Rattle.txc_node.specs.Steps.{found_reply};
ghost use Rattle.txc_app.specs.Claims.{IsTrueIn, entry_shown};
ghost use Rattle.txc_shared.specs.Passes.{IsLegalOver, HasGrown, GrowsByOthers, HasMade, HasInserted, HasTaken, IsPassLeft};
ghost use Rattle.txc_shared.specs.Refusals.{IsLookupRefused, IsStepRefused, IsTidyRefused, IsTakingRefused, IsCountRefused, IsRefusedThrough, NodeMayRefuse};
ghost use Rattle.txc_shared.specs.EventBatch.{HasTakenMany, StandTogether};

use crate::advanced::{Advanced, Ended, MAX_TOGETHER};
use crate::error::NodeError;
use crate::insertion::Insertion;
use crate::node_pass::NodePass;
use crate::shared_node::SharedNode;
use std::alloc::Global;
use std::sync::Wait;
use txc_app::App;
use txc_db::{Answered, HistoryFront, Naming, lock_spinning};
use txc_node::{Counts, Entry, HitValue};
use txc_stamp::Stamp;
use txc_tags::Key;

impl<J: Naming> NodePass<J> {
    /// Returns the counts of all records of the node, stored or not, and shows these to the pass. Does not
    /// allocate. Fails only if the node is broken, or the pass is another node's.
    pub fn node_counts<A: App>(
        &mut self,
        rt: &impl Wait,
        node: &SharedNode<A, J>,
    ) -> Result<Counts, NodeError>
        ensures longer { HasGrown self.old self.new }
        ensures legal { IsLegalOver J.database_history self.new.history self.new.settings self.new.records }
        ensures others { OnOk result (GrowsByOthers self.old.pass self.old.records self.new.records) }
        ensures counts { IfOk result (AreCountsOf self.new.records) }
        ensures left { IfErr result (IsPassLeft (J.node_histories self.old.settings.number) self.old self.new) }
        ensures refused { IfErr result
            (NodeMayRefuse J.node_histories (λ n. IsRefusedThrough IsCountRefused n self.old)) }
    {
        let counts = lock_spinning(rt, &node.lock).node_counts(self);
        self.is_legal();
        counts
    }

    /// Looks up the call of `key` at the stamps from `lo` to `hi`, both included. A found value is true in the
    /// history of the front next to it. Fails if `hi` is below `lo`, the node is broken or the pass is another
    /// node's, its history is full, or memory cannot be allocated.
    pub fn lookup<A: App>(
        &mut self,
        rt: &impl Wait,
        alloc: Global,
        node: &SharedNode<A, J>,
        key: &Key,
        lo: Stamp,
        hi: Stamp,
    ) -> Result<Option<Answered<HitValue>>, NodeError>
        ensures longer { HasGrown self.old self.new }
        ensures legal { IsLegalOver J.database_history self.new.history self.new.settings self.new.records }
        ensures made { IfOk result (λ found.
            HasMade self.old self.new (Lookup key.now lo hi) (found_reply (option_map (λ f. f.answer) found))) }
        ensures right { IfOk result (λ found. IfSome found (λ f.
            IsTrueIn A.next f.front.history (entry_shown key.now f.answer))) }
        ensures front { IfOk result (λ found. IfSome found (λ f. f.front.events ≡ J.database_history)) }
        ensures shown { IfOk result (λ found. IfSome found (λ f. IsPrefix f.front.history self.new.history)) }
        ensures left { IfErr result (IsPassLeft (J.node_histories self.old.settings.number) self.old self.new) }
        ensures refused { IfErr result
            (NodeMayRefuse J.node_histories (λ n. IsRefusedThrough (λ m. IsLookupRefused m lo hi) n self.old)) }
    {
        let found = lock_spinning(rt, &node.lock).lookup(alloc, self, key, lo, hi);
        self.is_legal();
        found
    }

    /// Inserts an entry that is true in the front's history. If this fails, the entry is dropped.
    pub fn insert<A: App>(
        &mut self,
        rt: &impl Wait,
        alloc: Global,
        node: &SharedNode<A, J>,
        entry: Entry,
        front: &HistoryFront,
    ) -> Result<Insertion, NodeError>
        requires row { front.now.events ≡ J.database_history }
        requires is_true { IsTrueIn A.next front.now.history entry }
        ensures longer { HasGrown self.old self.new }
        ensures legal { IsLegalOver J.database_history self.new.history self.new.settings self.new.records }
        ensures made { IfOk result (HasInserted self.old self.new entry) }
        ensures shown { OnOk result (IsPrefix front.now.history self.new.history) }
        ensures left { IfErr result (IsPassLeft (J.node_histories self.old.settings.number) self.old self.new) }
        ensures refused { IfErr result
            (NodeMayRefuse J.node_histories (λ n. IsRefusedThrough IsStepRefused n self.old)) }
    {
        let insertion = lock_spinning(rt, &node.lock).insert(alloc, self, entry, front);
        self.is_legal();
        insertion
    }

    /// Takes the next event of the database's history. If it returns `Idle`, each event that the pass has seen
    /// was taken or came before the node. Fails if the node is broken or the pass is another node's, its
    /// history is full, or memory cannot be allocated.
    pub fn advance<A: App>(
        &mut self,
        rt: &impl Wait,
        alloc: Global,
        node: &SharedNode<A, J>,
    ) -> Result<Advanced, NodeError>
        ensures longer { HasGrown self.old self.new }
        ensures legal { IsLegalOver J.database_history self.new.history self.new.settings self.new.records }
        ensures taken { IfOk result (HasTaken J.database_history self.old self.new) }
        ensures left { IfErr result (IsPassLeft (J.node_histories self.old.settings.number) self.old self.new) }
        ensures refused { IfErr result
            (NodeMayRefuse J.node_histories (λ n. IsRefusedThrough IsTakingRefused n self.old)) }
    {
        let advanced = lock_spinning(rt, &node.lock).advance(rt, alloc, self);
        self.is_legal();
        advanced
    }

    /// Takes up to [`MAX_TOGETHER`] events of the database's history, in order, under one lock, each with a
    /// record of its own. Returns their number and the reason for which it stopped. If it fails at an event,
    /// those before it are taken and counted.
    pub fn advance_many<A: App>(
        &mut self,
        rt: &impl Wait,
        alloc: Global,
        node: &SharedNode<A, J>,
    ) -> (usize, Ended)
        ensures longer { HasGrown self.old self.new }
        ensures legal { IsLegalOver J.database_history self.new.history self.new.settings self.new.records }
        ensures taken { HasTakenMany J.database_history J.node_histories MAX_TOGETHER self.old result.0 result.1 self.new }
        ensures together { StandTogether self.old.pass result.0 self.old.records self.new.records }
    {
        let did = lock_spinning(rt, &node.lock).advance_many(rt, alloc, self);
        self.is_legal();
        did
    }

    /// Drops the entries whose span ends at the horizon or before it, and returns how many. Fails if the node
    /// is broken or the pass is another node's, its history is full, or memory for the record cannot be
    /// allocated.
    pub fn sweep<A: App>(
        &mut self,
        rt: &impl Wait,
        alloc: Global,
        node: &SharedNode<A, J>,
        horizon: Stamp,
    ) -> Result<usize, NodeError>
        ensures longer { HasGrown self.old self.new }
        ensures legal { IsLegalOver J.database_history self.new.history self.new.settings self.new.records }
        ensures made { IfOk result (λ count. HasMade self.old self.new (Sweep horizon) (Swept count)) }
        ensures left { IfErr result (IsPassLeft (J.node_histories self.old.settings.number) self.old self.new) }
        ensures refused { IfErr result
            (NodeMayRefuse J.node_histories (λ n. IsRefusedThrough IsTidyRefused n self.old)) }
    {
        let count = lock_spinning(rt, &node.lock).sweep(alloc, self, horizon);
        self.is_legal();
        count
    }

    /// Keeps the longest prefix of the entries whose values have at most `most` bytes in all. Returns how many
    /// it dropped. Fails as [`NodePass::sweep`] does.
    pub fn trim<A: App>(
        &mut self,
        rt: &impl Wait,
        alloc: Global,
        node: &SharedNode<A, J>,
        most: usize,
    ) -> Result<usize, NodeError>
        ensures longer { HasGrown self.old self.new }
        ensures legal { IsLegalOver J.database_history self.new.history self.new.settings self.new.records }
        ensures made { IfOk result (λ count. HasMade self.old self.new (Trim most) (Trimmed count)) }
        ensures left { IfErr result (IsPassLeft (J.node_histories self.old.settings.number) self.old self.new) }
        ensures refused { IfErr result
            (NodeMayRefuse J.node_histories (λ n. IsRefusedThrough IsTidyRefused n self.old)) }
    {
        let count = lock_spinning(rt, &node.lock).trim(alloc, self, most);
        self.is_legal();
        count
    }
}
