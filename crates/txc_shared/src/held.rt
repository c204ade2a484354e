//! The node's calls under its lock.
ghost use Rattle.std.specs.Prelude.{◌≡◌, ◌+◌, ◌<◌, ◌⊎◌, ◌↔◌, [], true, false, length, Some, None, Ok, Err, IfOk, OnOk, OnErr, IfErr, IfSome};
ghost use Rattle.std.specs.Option.{option_map};
ghost use mathlib.Core.List.{IsPrefix};
ghost use Rattle.txc_db.specs.FrontsAndFeeds.{taken_at_start};
ghost use Rattle.txc_node.specs.declared.op.Op.TheVariants.{Lookup, Insert, Sweep, Trim};
ghost use Rattle.txc_node.specs.declared.reply.Reply.TheVariants.{Swept, Trimmed};
ghost use Rattle.txc_node.specs.Counts.{AreCountsOf};
ghost use Rattle.txc_node.specs.Steps.{found_reply};
ghost use Rattle.txc_app.specs.Claims.{IsTrueIn, entry_shown};
ghost use Rattle.txc_shared.specs.Nodes.{NodeValue, IsHistoryFull, after_call, seeing, HasAdvanced};
ghost use Rattle.txc_shared.specs.Passes.{PassValue, HasGrown, HasSeen, DoAgree, GrowsByOthers, HasMade, HasInserted, HasTaken, IsPassLeft};
ghost use Rattle.txc_shared.specs.Refusals.{IsLookupRefused, IsStepRefused, IsTidyRefused, IsTakingRefused, IsCountRefused, IsNodeLeft, IsNewPassRefused};
ghost use Rattle.txc_shared.specs.LockedNode.{IsAhead, IsAdmitted, IsStepThrough, LiesUnderLock};
ghost use Rattle.txc_shared.specs.EventBatch.{HasTakenMany, StandTogether};

use crate::advanced::{Advanced, Ended, MAX_TOGETHER};
use crate::error::NodeError;
use crate::insertion::Insertion;
use crate::laws::legal_histories;
use crate::log::MAX_PASSES;
use crate::node_pass::NodePass;
use crate::node_remains::NodeRemains;
use crate::settings::NodeSettings;
use crate::stored_node::StoredNode;
use std::alloc::Global;
use std::marker::Model;
use std::sync::Wait;
use txc_app::App;
use txc_db::{Answered, Event, Feed, HistoryFront, Naming};
use txc_node::{Counts, Entry, HitValue, Record};
use txc_stamp::Stamp;
use txc_stream::{prefix_of_itself, prefix_of_prefix};
use txc_tags::Key;

/// The content of the lock: the named node, and a feed of the events that it takes.
#[derive(Drop)]
pub(crate) struct Held<A: App, J: Naming> {
    node: StoredNode<A>,
    feed: Feed<J>,
}

impl<A: App, J: Naming> Model for Held<A, J> {
    ghost use Rattle.txc_shared.specs.Nodes.{NodeValue};
    ghost use Rattle.txc_shared.specs.LockedNode.{LiesUnderLock};

    ghost Value = { NodeValue };

    ghost view = { λ h. h.node };

    ghost invariant = { λ h. LiesUnderLock J.node_histories J.database_history h.feed.taken h.node };
}

impl<A: App, J: Naming> Held<A, J> {
    /// Wraps the named node, which begins where the feed does.
    pub(crate) fn new(node: StoredNode<A>, feed: Feed<J>) -> Held<A, J>
        requires name { node.name ≡ J.node_histories node.settings.number }
        requires events { node.seen.events ≡ J.database_history }
        requires begun { node.from ≡ taken_at_start J.database_history node.from }
        requires in_step { feed.taken ≡ node.cache.processed }
        ensures { result ≡ node }
    {
        Held { node, feed }
    }

    /// Returns the entries of the node, once no other thread has it.
    pub(crate) fn drain(self) -> NodeRemains<A>
        ensures { result.seen.events ≡ J.database_history }
    {
        let Held { node, feed: _ } = self;
        node.drain()
    }

    // Returns `true` if the node agrees with what a pass states about it.
    fn agrees(&self, pass: &NodePass<J>) -> bool
        ensures { result ≡ true ↔ DoAgree self.now pass.now }
    {
        let seen = pass.records.len();
        if self.node.settings() != pass.settings || pass.pass >= self.node.passes() {
            return false;
        }
        self.node.turn(pass.pass) == pass.turn && seen <= self.node.front().len()
    }

    // A node that is not broken and agrees with a pass has all records that the pass has seen, and no further
    // record of that pass. It does nothing when it runs.
    fn admits(&self, pass: &NodePass<J>)
        requires whole { self.now.broken ≡ false }
        requires agrees { DoAgree self.now pass.now }
        ensures { IsAdmitted self.now pass.now }
    {
        pass.is_legal();
        pass.records.agree(self.node.front());
    }

    // Lets a pass make a step, if the node is not broken and agrees with it. If they disagree, the node becomes
    // broken.
    fn admit(&mut self, pass: &NodePass<J>) -> Result<(), NodeError>
        ensures named { self.old.name ≡ J.node_histories self.old.settings.number }
        ensures ok { OnOk result (IsAdmitted self.old pass.now) }
        ensures agrees { OnOk result (DoAgree self.old pass.now) }
        ensures unchanged { OnOk result (self.new ≡ self.old) }
        ensures left { IfErr result (IsNodeLeft self.old self.new) }
        ensures refused { OnErr result ((result ≡ Err NodeError.Broken)
            × ((self.old.broken ≡ true) ⊎ ¬ (DoAgree self.old pass.now))) }
    {
        prefix_of_itself::<Event>();
        if self.node.is_broken() {
            return Err(NodeError::Broken);
        }
        if !self.agrees(pass) {
            self.node.set_broken();
            return Err(NodeError::Broken);
        }
        self.admits(pass);
        Ok(())
    }

    // Shows the pass what the node has seen.
    fn show(&self, pass: &mut NodePass<J>)
        requires { IsAhead self.now pass.old }
        ensures { HasSeen pass.old self.now.records self.now.seen.history pass.new }
    {
        legal_histories();
        self.node.is_sound();
        let turn = self.node.turn(pass.pass);
        pass.see(self.node.front(), self.node.seen(), turn);
    }

    // Shows a full history to the pass whose call fails.
    fn refuse(&self, pass: &mut NodePass<J>, refusal: NodeError) -> NodeError
        requires { refusal ≡ NodeError.HistoryFull
            → IsAdmitted self.now pass.old × IsHistoryFull self.now.name self.now.records }
        ensures same { result ≡ refusal }
        ensures longer { HasGrown pass.old pass.new }
        ensures left { IsPassLeft (J.node_histories pass.old.settings.number) pass.old pass.new refusal }
    {
        prefix_of_itself::<Record>();
        prefix_of_itself::<Event>();
        let _named = &self.node;
        if let NodeError::HistoryFull = refusal {
            self.show(pass);
        }
        refusal
    }

    /// Adds a pass, which has seen no record. Fails as broken if the node was made with other settings.
    pub(crate) fn pass(&mut self, settings: NodeSettings) -> Result<NodePass<J>, NodeError>
        ensures named { self.old.name ≡ J.node_histories self.old.settings.number }
        ensures pass { IfOk result (λ pass. pass ≡ record {
          settings = settings;
          pass = self.old.passes;
          own = [];
          records = [];
          history = self.old.seen.history;
        }) }
        ensures after { OnOk result (self.new ≡ record self.old { passes = self.old.passes + 1 }) }
        ensures only_if { OnOk result (self.old.passes < MAX_PASSES) }
        ensures left { IfErr result (IsNodeLeft self.old self.new) }
        ensures refused { IfErr result (IsNewPassRefused settings self.old) }
    {
        prefix_of_itself::<Event>();
        if !self.node.is_broken() && self.node.settings() != settings {
            self.node.set_broken();
            return Err(NodeError::Broken);
        }
        self.node.check_pass()?;
        let records = self.node.start()?;
        let events = self.node.seen().again()?;
        let pass = self.node.pass()?;
        Ok(NodePass::new(settings, pass, records, events))
    }

    /// Returns the counts of the node's records, and shows these to the pass.
    pub(crate) fn node_counts(&mut self, pass: &mut NodePass<J>) -> Result<Counts, NodeError>
        ensures step { IsStepThrough IsCountRefused J.node_histories self.old self.new pass.old pass.new result }
        ensures after { OnOk result (self.new ≡ self.old) }
        ensures shown { OnOk result (pass.new.records ≡ self.new.records) }
        ensures others { OnOk result (GrowsByOthers pass.old.pass pass.old.records pass.new.records) }
        ensures counts { IfOk result (AreCountsOf pass.new.records) }
    {
        self.admit(pass)?;
        let Some(counts) = self.node.counts() else {
            unreachable!();
        };
        let counts = counts.again();
        self.show(pass);
        Ok(counts)
    }

    /// Looks up the call of `key` at the stamps from `lo` to `hi`, both included. A found value is true in the
    /// front next to it.
    pub(crate) fn lookup(
        &mut self,
        alloc: Global,
        pass: &mut NodePass<J>,
        key: &Key,
        lo: Stamp,
        hi: Stamp,
    ) -> Result<Option<Answered<HitValue>>, NodeError>
        ensures step { IsStepThrough (λ n. IsLookupRefused n lo hi) J.node_histories self.old self.new pass.old pass.new result }
        ensures after { OnOk result (self.new ≡ after_call self.old pass.old.pass (Lookup key.now lo hi)) }
        ensures made { IfOk result (λ found.
            HasMade pass.old pass.new (Lookup key.now lo hi) (found_reply (option_map (λ f. f.answer) found))) }
        ensures right { IfOk result (λ found. IfSome found (λ f.
            IsTrueIn A.next f.front.history (entry_shown key.now f.answer))) }
        ensures front { IfOk result (λ found. IfSome found (λ f. f.front.events ≡ J.database_history)) }
        ensures shown { IfOk result (λ found. IfSome found (λ f. IsPrefix f.front.history pass.new.history)) }
    {
        self.admit(pass)?;
        match self.node.lookup(alloc, pass.pass, key, lo, hi) {
            Ok(found) => {
                self.show(pass);
                Ok(found)
            }
            Err(refusal) => Err(self.refuse(pass, refusal)),
        }
    }

    /// Inserts an entry that is true in the front's history. The node takes over the front if it is longer than
    /// its own.
    pub(crate) fn insert(
        &mut self,
        alloc: Global,
        pass: &mut NodePass<J>,
        entry: Entry,
        front: &HistoryFront,
    ) -> Result<Insertion, NodeError>
        requires row { front.now.events ≡ J.database_history }
        requires is_true { IsTrueIn A.next front.now.history entry }
        ensures step { IsStepThrough IsStepRefused J.node_histories self.old self.new pass.old pass.new result }
        ensures after { OnOk result
            (self.new ≡ after_call (seeing self.old self.new.seen) pass.old.pass (Insert entry)) }
        ensures seen { OnOk result (IsPrefix front.now.history self.new.seen.history) }
        ensures made { IfOk result (HasInserted pass.old pass.new entry) }
        ensures shown { OnOk result (IsPrefix front.now.history pass.new.history) }
    {
        prefix_of_prefix::<Event>();
        self.admit(pass)?;
        match self.node.insert(alloc, pass.pass, entry, front) {
            Ok(insertion) => {
                self.node.see(&pass.events);
                self.show(pass);
                Ok(insertion)
            }
            Err(refusal) => Err(self.refuse(pass, refusal)),
        }
    }

    /// Takes the next event that the feed, the pass or the node has seen.
    pub(crate) fn advance(
        &mut self,
        rt: &impl Wait,
        alloc: Global,
        pass: &mut NodePass<J>,
    ) -> Result<Advanced, NodeError>
        ensures step { IsStepThrough IsTakingRefused J.node_histories self.old self.new pass.old pass.new result }
        ensures after { IfOk result (HasAdvanced (seeing self.old self.new.seen) pass.old.pass self.new) }
        ensures taken { IfOk result (HasTaken J.database_history pass.old pass.new) }
        ensures shown { OnOk result (pass.new.records ≡ self.new.records) }
    {
        legal_histories();
        prefix_of_prefix::<Event>();
        self.admit(pass)?;
        self.feed.longer(&pass.events);
        self.feed.longer(self.node.seen());
        self.feed.look(rt);
        let tags = self.feed.next_tags();
        match self
            .node
            .advance_by(alloc, pass.pass, self.feed.front(), tags)
        {
            Ok(advanced) => {
                self.node.is_sound();
                let Advanced::Taken { .. } = advanced else {
                    self.show(pass);
                    return Ok(advanced);
                };
                self.feed.take();
                self.show(pass);
                Ok(advanced)
            }
            Err(refusal) => Err(self.refuse(pass, refusal)),
        }
    }

    /// Takes up to [`MAX_TOGETHER`] events, in order.
    #[tactic(auto, using(crate::proofs::Together::grown_then))]
    pub(crate) fn advance_many(
        &mut self,
        rt: &impl Wait,
        alloc: Global,
        pass: &mut NodePass<J>,
    ) -> (usize, Ended)
        ensures longer { HasGrown pass.old pass.new }
        ensures taken { HasTakenMany J.database_history J.node_histories MAX_TOGETHER pass.old result.0 result.1 pass.new }
        ensures together { StandTogether pass.old.pass result.0 pass.old.records pass.new.records }
    {
        let mut taken = 0;
        for _ in 0..MAX_TOGETHER {
            match self.advance(rt, alloc, pass) {
                Ok(Advanced::Taken { .. }) => taken += 1,
                Ok(Advanced::Idle) => return (taken, Ended::Idle),
                Err(error) => return (taken, Ended::Refused(error)),
            }
        }
        (taken, Ended::Paused)
    }

    /// Drops the entries whose span ends at the horizon or before it, and returns how many.
    pub(crate) fn sweep(
        &mut self,
        alloc: Global,
        pass: &mut NodePass<J>,
        horizon: Stamp,
    ) -> Result<usize, NodeError>
        ensures step { IsStepThrough IsTidyRefused J.node_histories self.old self.new pass.old pass.new result }
        ensures after { OnOk result (self.new ≡ after_call self.old pass.old.pass (Sweep horizon)) }
        ensures made { IfOk result (λ count. HasMade pass.old pass.new (Sweep horizon) (Swept count)) }
    {
        self.admit(pass)?;
        match self.node.sweep(alloc, pass.pass, horizon) {
            Ok(count) => {
                self.show(pass);
                Ok(count)
            }
            Err(refusal) => Err(self.refuse(pass, refusal)),
        }
    }

    /// Keeps the longest prefix of the entries whose values have at most `most` bytes in all. Returns how many
    /// it dropped.
    pub(crate) fn trim(
        &mut self,
        alloc: Global,
        pass: &mut NodePass<J>,
        most: usize,
    ) -> Result<usize, NodeError>
        ensures step { IsStepThrough IsTidyRefused J.node_histories self.old self.new pass.old pass.new result }
        ensures after { OnOk result (self.new ≡ after_call self.old pass.old.pass (Trim most)) }
        ensures made { IfOk result (λ count. HasMade pass.old pass.new (Trim most) (Trimmed count)) }
    {
        self.admit(pass)?;
        match self.node.trim(alloc, pass.pass, most) {
            Ok(count) => {
                self.show(pass);
                Ok(count)
            }
            Err(refusal) => Err(self.refuse(pass, refusal)),
        }
    }
}
