//! The node for one thread, which the lock of a shared one holds.
ghost use Rattle.std.specs.Prelude.{◌≡◌, ◌+◌, ◌<◌, ◌≤◌, ◌⊎◌, ◌↔◌, ◌++◌, ◌∷◌, [], true, false, length, Some, None, Ok, Err, IsOk, IfOk, OnOk, OnErr, IfErr, IfSome, IfNone, IsSome, IsTrue, MatchOption};
ghost use Rattle.txc_stream.specs.Names.{stored, unstored, HasRow};
ghost use Rattle.std.specs.Option.{option_map};
ghost use Rattle.txc_node.specs.Cache.{lookup_answer, outcome, swept_count, bytes_of, trimmed_count};
ghost use Rattle.txc_node.specs.Hit.{seen};
ghost use Rattle.txc_node.specs.Counts.{AreCountsOf};
ghost use Rattle.txc_node.specs.declared.op.Op.TheVariants.{Insert, Lookup, Sweep, Trim};
ghost use Rattle.txc_app.specs.Claims.{IsTrueIn, entry_shown};
ghost use Rattle.txc_shared.specs.Nodes.{NodeValue, start_of, after_call, seeing, next_stamp, IsLonger, HasTags, insertion_of, HasAdvanced, HasTakenAll};
ghost use Rattle.txc_shared.specs.Histories.{records_of};
ghost use Rattle.txc_shared.specs.Runs.{IsNode};
ghost use Rattle.txc_shared.specs.Refusals.{CanRecord, IsStepRefused, IsTidyRefused, IsTakingRefused, IsLookupRefused, IsPassRefused, IsNodeLeft};
ghost use Rattle.txc_shared.specs.LockedNode.{IsRoomRefused, CanGrow};

use crate::advanced::Advanced;
use crate::counting::{count_step, reply_without_copies};
use crate::error::NodeError;
use crate::history::History;
use crate::insertion::Insertion;
use crate::laws::{answers_are_true, nodes_go_on};
use crate::log::{Log, MAX_PASSES};
use crate::node_front::NodeFront;
use crate::node_remains::NodeRemains;
use crate::settings::NodeSettings;
use std::alloc::{AllocError, Global};
use std::marker::{Model, PhantomData};
use txc_app::App;
use txc_app::laws::true_entries_stay;
use txc_db::{Answered, Event, HistoryFront, states_stay};
use txc_node::{
    Counts, Entry, Hit, HitValue, MAX_RECENT, MOST_CAPACITY, NodeCore, Op, Record, Reply,
};
use txc_stamp::Stamp;
use txc_stream::{AppendToken, EventRow};
use txc_tags::{Key, TagSet};

/// A node of the cache, with the history of its steps, which is stored or ghost, and the database history that
/// it has seen.
///
/// Unless it is broken, its state is that after its history. Each result that it stores is true in the database
/// history that it has seen. Each step belongs to a pass, named by its number; its record has the pass's next
/// turn.
pub struct StoredNode<A: App> {
    settings: NodeSettings,
    from: Stamp,
    core: NodeCore,
    log: Log,
    counts: Counts,
    seen: HistoryFront,
    broken: bool,
    of: PhantomData<A>,
}

// Not derived, since a derived one would be proved again in each crate above.
impl<A: App> Drop for StoredNode<A> {
    fn drop(self) {
        let StoredNode {
            settings: _,
            from: _,
            core: _,
            log: _,
            counts: _,
            seen: _,
            broken: _,
            of: _,
        } = self;
    }
}

impl<A: App> Model for StoredNode<A> {
    ghost use Rattle.std.specs.Prelude.{◌≡◌, false};
    ghost use Rattle.txc_node.specs.Counts.{AreCountsOf};
    ghost use Rattle.txc_shared.specs.Runs.{IsNode};
    ghost use Rattle.txc_shared.specs.Nodes.{NodeValue, start_of};

    ghost Value = { NodeValue };

    ghost view = { λ n. record {
      settings = n.settings;
      from = n.from;
      name = n.log.name;
      records = n.log.records;
      passes = n.log.passes;
      cache = n.core;
      seen = n.seen;
      broken = n.broken;
    } };

    ghost invariant = { λ n.
        IsNode A.next n.seen.history (start_of n.settings n.from) n.log.records n.core n.broken
        × (n.broken ≡ false → AreCountsOf n.log.records n.counts) };
}

impl<A: App> StoredNode<A> {
    /// Makes an empty node that stores its records in the log. The front shows the database history that it has
    /// seen. Fails only if memory cannot be allocated.
    pub fn new(
        alloc: Global,
        settings: NodeSettings,
        row: EventRow<Record>,
        seen: HistoryFront,
    ) -> Result<StoredNode<A>, AllocError>
        requires capacity { (1 ≤ settings.capacity) × (settings.capacity ≤ MOST_CAPACITY) }
        requires recent { (1 ≤ settings.recent) × (settings.recent ≤ MAX_RECENT) }
        ensures settings { IfOk result (λ n. n.settings ≡ settings) }
        ensures from { IfOk result (λ n. n.from ≡ 0) }
        ensures name { IfOk result (λ n. n.name ≡ stored row) }
        ensures records { IfOk result (λ n. n.records ≡ []) }
        ensures passes { IfOk result (λ n. n.passes ≡ 0) }
        ensures cache { IfOk result (λ n. n.cache ≡ start_of settings 0) }
        ensures seen { IfOk result (λ n. n.seen ≡ seen) }
        ensures whole { IfOk result (λ n. n.broken ≡ false) }
    {
        let history = History::stored(alloc, row)?;
        StoredNode::of(alloc, settings, history, seen, Stamp::ZERO)
    }

    /// Makes an empty node whose ghost records `pen` appends. The front shows the database history that it has
    /// seen. Fails only if memory cannot be allocated.
    pub fn unstored(
        alloc: Global,
        settings: NodeSettings,
        pen: AppendToken<Record>,
        seen: HistoryFront,
    ) -> Result<StoredNode<A>, AllocError>
        requires capacity { (1 ≤ settings.capacity) × (settings.capacity ≤ MOST_CAPACITY) }
        requires recent { (1 ≤ settings.recent) × (settings.recent ≤ MAX_RECENT) }
        requires none { pen.list ≡ [] }
        ensures settings { IfOk result (λ n. n.settings ≡ settings) }
        ensures from { IfOk result (λ n. n.from ≡ 0) }
        ensures name { IfOk result (λ n. n.name ≡ unstored pen.number) }
        ensures records { IfOk result (λ n. n.records ≡ []) }
        ensures passes { IfOk result (λ n. n.passes ≡ 0) }
        ensures cache { IfOk result (λ n. n.cache ≡ start_of settings 0) }
        ensures seen { IfOk result (λ n. n.seen ≡ seen) }
        ensures whole { IfOk result (λ n. n.broken ≡ false) }
    {
        StoredNode::of(alloc, settings, History::unstored(pen), seen, Stamp::ZERO)
    }

    /// Makes an empty node of that history, which begins after the first `from` events that the front shows.
    /// Fails only if memory cannot be allocated.
    pub(crate) fn of(
        alloc: Global,
        settings: NodeSettings,
        history: History,
        seen: HistoryFront,
        from: Stamp,
    ) -> Result<StoredNode<A>, AllocError>
        requires capacity { (1 ≤ settings.capacity) × (settings.capacity ≤ MOST_CAPACITY) }
        requires recent { (1 ≤ settings.recent) × (settings.recent ≤ MAX_RECENT) }
        requires none { history.records ≡ [] }
        requires seen { from ≤ length seen.history }
        ensures { IfOk result (λ n. n ≡ record {
          settings = settings;
          from = from;
          name = history.name;
          records = [];
          passes = 0;
          cache = start_of settings from;
          seen = seen;
          broken = false;
        }) }
    {
        nodes_go_on();
        let log = Log::new(alloc, history);
        let core = NodeCore::beginning_at(alloc, settings.capacity, settings.recent, from)?;
        Ok(StoredNode {
            settings,
            from,
            core,
            log,
            counts: Counts::new(),
            seen,
            broken: false,
            of: PhantomData,
        })
    }

    /// In every node the stored results are true in the database history that it has seen; unless it is broken,
    /// its state is that after a legal history. This is a lemma: it does nothing when it runs.
    pub fn is_sound(&self)
        ensures { IsNode A.next self.now.seen.history (start_of self.now.settings self.now.from)
            self.now.records self.now.cache self.now.broken }
    {
        let _whole = self.broken;
    }

    /// Returns its settings.
    pub fn settings(&self) -> NodeSettings
        ensures { result ≡ self.now.settings }
    {
        self.settings
    }

    /// Returns how many events came before it.
    pub fn from(&self) -> Stamp
        ensures { result ≡ self.now.from }
    {
        self.from
    }

    /// Returns the entries of a node that is no longer used. Does not allocate.
    pub fn drain(self) -> NodeRemains<A>
        ensures number { result.number ≡ self.settings.number }
        ensures entries { result.entries ≡ self.cache.entries }
        ensures processed { result.processed ≡ self.cache.processed }
        ensures seen { result.seen ≡ self.seen }
    {
        let StoredNode {
            settings,
            from: _,
            core,
            log: _,
            counts: _,
            seen,
            broken: _,
            of: _,
        } = self;
        let processed = core.processed();
        NodeRemains {
            number: settings.number,
            entries: core.drain(),
            processed,
            seen,
            of: PhantomData,
        }
    }

    /// Returns a front that shows its records.
    pub fn front(&self) -> &NodeFront
        ensures { result.now ≡ record { name = self.now.name; records = self.now.records } }
    {
        self.log.front()
    }

    /// Returns a front of the database history that it has seen.
    pub fn seen(&self) -> &HistoryFront
        ensures { result.now ≡ self.now.seen }
    {
        &self.seen
    }

    /// Returns how many events it has taken, including those that came before it.
    pub fn processed(&self) -> Stamp
        ensures { result ≡ self.now.cache.processed }
    {
        self.core.processed()
    }

    /// Returns how many passes there are.
    pub fn passes(&self) -> usize
        ensures { result ≡ self.now.passes }
    {
        self.log.passes()
    }

    /// Returns how many entries it stores.
    pub fn len(&self) -> usize
        ensures { result ≡ length self.now.cache.entries }
    {
        self.core.len()
    }

    /// Returns the number of bytes of its entries' values in all.
    pub fn bytes(&self) -> usize
        ensures { result ≡ bytes_of self.now.cache.entries }
    {
        self.core.bytes()
    }

    /// Returns how many of its records a pass made.
    pub fn turn(&self, pass: usize) -> usize
        requires { pass < self.now.passes }
        ensures { result ≡ records_of pass self.now.records }
    {
        self.log.turn(pass)
    }

    /// Returns the counts of its records, or `None` if it is broken.
    pub fn counts(&self) -> Option<&Counts>
        ensures { MatchOption result
            (self.now.broken ≡ true)
            (λ counts. AreCountsOf self.now.records counts.now) }
    {
        if self.broken {
            return None;
        }
        Some(&self.counts)
    }

    /// Returns `true` if another record was found in its log.
    pub fn is_broken(&self) -> bool
        ensures { result ≡ self.now.broken }
    {
        self.broken
    }

    /// Takes over the events of the database that only the front shows. Does not allocate.
    pub fn see(&mut self, front: &HistoryFront)
        requires { front.now.events ≡ self.old.seen.events }
        ensures seen { IsLonger self.old.seen front.now self.new.seen }
        ensures same { self.new ≡ seeing self.old self.new.seen }
    {
        nodes_go_on();
        self.seen.longer(front);
    }

    /// Makes each later call fail as broken.
    pub(crate) fn set_broken(&mut self)
        ensures { self.new ≡ record self.old { broken = true } }
    {
        self.broken = true;
    }

    // Fails if it is broken.
    fn check_whole(&self) -> Result<(), NodeError>
        ensures only_if { OnOk result (self.now.broken ≡ false) }
        ensures refused { OnErr result ((result ≡ Err NodeError.Broken) × (self.now.broken ≡ true)) }
    {
        if self.broken {
            return Err(NodeError::Broken);
        }
        Ok(())
    }

    // Fails as full if there is no room for a record, or as out of memory if there are as many records as a
    // `usize` can count.
    fn check_room(&self) -> Result<(), NodeError>
        ensures only_if { OnOk result (CanGrow self.now.name self.now.records) }
        ensures refused { IfErr result (IsRoomRefused self.now.name self.now.records) }
    {
        self.log.check_room()
    }

    /// Fails if no pass can be added, whatever memory there is.
    pub(crate) fn check_pass(&self) -> Result<(), NodeError>
        ensures only_if { OnOk result ((self.now.broken ≡ false) × (self.now.passes < MAX_PASSES)) }
        ensures refused { IfErr result (IsPassRefused self.now) }
    {
        self.check_whole()?;
        if self.log.passes() >= MAX_PASSES {
            return Err(NodeError::PassesFull);
        }
        Ok(())
    }

    /// Adds a pass, and returns its number. Fails if the node is broken, has [`MAX_PASSES`] passes, or memory
    /// cannot be allocated.
    pub fn pass(&mut self) -> Result<usize, NodeError>
        ensures pass { IfOk result (λ pass. pass ≡ self.old.passes) }
        ensures after { OnOk result (self.new ≡ record self.old { passes = self.old.passes + 1 }) }
        ensures only_if { OnOk result ((self.old.broken ≡ false) × (self.old.passes < MAX_PASSES)) }
        ensures unchanged { OnErr result (self.new ≡ self.old) }
        ensures refused { IfErr result (IsPassRefused self.old) }
    {
        self.check_pass()?;
        Ok(self.log.add_pass()?)
    }

    /// Returns the front of a new pass, which shows no record. Fails only if the log has too many handles.
    pub(crate) fn start(&self) -> Result<NodeFront, AllocError>
        ensures { IfOk result (λ front. front ≡ record { name = self.now.name; records = [] }) }
    {
        self.log.start()
    }

    /// Looks up the call of `key` at the stamps from `lo` to `hi`, both included. A found value is true in the
    /// front next to it, which is the database history that the node has seen. Fails if `hi` is below `lo`, the
    /// node is broken, its history is full, or memory cannot be allocated.
    pub fn lookup(
        &mut self,
        alloc: Global,
        pass: usize,
        key: &Key,
        lo: Stamp,
        hi: Stamp,
    ) -> Result<Option<Answered<HitValue>>, NodeError>
        requires { pass < self.old.passes }
        ensures after { OnOk result (self.new ≡ after_call self.old pass (Lookup key.now lo hi)) }
        ensures answer { IfOk result (λ found.
            option_map (λ f. f.answer) found ≡ lookup_answer self.old.cache key.now lo hi) }
        ensures right { IfOk result (λ found. IfSome found (λ f.
            IsTrueIn A.next f.front.history (entry_shown key.now f.answer))) }
        ensures front { IfOk result (λ found. IfSome found (λ f. f.front ≡ self.old.seen)) }
        ensures only_if { OnOk result (CanRecord self.old × (lo ≤ hi)) }
        ensures left { IfErr result (IsNodeLeft self.old self.new) }
        ensures refused { IfErr result (IsLookupRefused self.old lo hi) }
    {
        nodes_go_on();
        answers_are_true();
        self.check_whole()?;
        if hi < lo {
            return Err(NodeError::EmptyRange);
        }
        self.check_room()?;
        let Ok(search) = self.core.search(key, lo, hi) else {
            unreachable!();
        };
        let found = copied_hit(alloc, self.core.hit(key, &search), &self.seen)?;
        let prepared = self
            .log
            .prepare_lookup(alloc, pass, key, lo, hi, &self.core)?;
        let next = prepared.with_found(alloc, &found)?;
        self.core.mark_used(key, &search);
        let reply = reply_without_copies(&found);
        count_step(&mut self.counts, Some(key.function()), &reply);
        if !self.log.append(pass, next) {
            self.broken = true;
            return Err(NodeError::Broken);
        }
        Ok(found)
    }

    /// Inserts an entry that is true in the front's history. The node keeps the longer of that front and its
    /// own. If this fails, the entry is dropped.
    pub fn insert(
        &mut self,
        alloc: Global,
        pass: usize,
        entry: Entry,
        front: &HistoryFront,
    ) -> Result<Insertion, NodeError>
        requires own { pass < self.old.passes }
        requires front { front.now.events ≡ self.old.seen.events }
        requires is_true { IsTrueIn A.next front.now.history entry }
        ensures seen { OnOk result (IsLonger self.old.seen front.now self.new.seen) }
        ensures after { OnOk result
            (self.new ≡ after_call (seeing self.old self.new.seen) pass (Insert entry)) }
        ensures answer { IfOk result (λ insertion.
            insertion ≡ insertion_of (outcome self.old.cache entry)) }
        ensures only_if { OnOk result (CanRecord self.old) }
        ensures left { IfErr result (IsNodeLeft self.old self.new) }
        ensures refused { IfErr result (IsStepRefused self.old) }
    {
        nodes_go_on();
        true_entries_stay();
        self.check_whole()?;
        self.check_room()?;
        let _known = entry.reach.known();
        let _bytes = entry.value.bytes();
        let function = entry.key.function();
        let prepared = self.log.prepare_insertion(alloc, pass, &entry, &self.core)?;
        let inserted = self.core.insert(entry)?;
        let insertion = Insertion::of(&inserted);
        let reply = Reply::Inserted(inserted);
        count_step(&mut self.counts, Some(function), &reply);
        let next = prepared.answered(reply);
        self.seen.longer(front);
        if !self.log.append(pass, next) {
            self.broken = true;
            return Err(NodeError::Broken);
        }
        Ok(insertion)
    }

    // Returns the tags of an event that the node or the front has seen: the posted ones, or those stored with
    // the event. None if they were not posted and the event is not stored.
    fn tags_of(
        &self,
        alloc: Global,
        front: &HistoryFront,
        number: usize,
        posted: Option<&TagSet>,
    ) -> Result<Option<TagSet>, AllocError>
        requires first { 1 ≤ number }
        requires named { front.now.events ≡ self.now.seen.events }
        requires seen { (number ≤ length self.now.seen.history) ⊎ (number ≤ length front.now.history) }
        requires posted { IfSome posted (λ tags. HasTags front.now.history number tags.now) }
        ensures tags { IfOk result (λ tags. IfSome tags (λ tags.
            HasTags self.now.seen.history number tags ⊎ HasTags front.now.history number tags)) }
        ensures none { IfOk result (λ tags. IfNone tags (¬ (HasRow self.now.seen.events))) }
        ensures posted { IfSome posted.entry (λ _. IfOk result (λ tags. IsSome tags)) }
    {
        if let Some(tags) = posted {
            return Ok(Some(tags.copy(alloc)?));
        }
        if number <= self.seen.len() {
            return copied(alloc, self.seen.event_at(number));
        }
        copied(alloc, front.event_at(number))
    }

    /// Takes the next event of the database's history that the node or the front has seen, and returns how many
    /// entries it closed. The node keeps the longer of that front and its own. Fails if the node is broken, its
    /// history is full, or memory cannot be allocated.
    pub fn advance(
        &mut self,
        alloc: Global,
        pass: usize,
        front: &HistoryFront,
    ) -> Result<Advanced, NodeError>
        requires own { pass < self.old.passes }
        requires front { front.now.events ≡ self.old.seen.events }
        ensures seen { OnOk result (IsLonger self.old.seen front.now self.new.seen) }
        ensures after { IfOk result (HasAdvanced (seeing self.old self.new.seen) pass self.new) }
        ensures only_if { OnOk result (self.old.broken ≡ false) }
        ensures left { IfErr result (IsNodeLeft self.old self.new) }
        ensures refused { IfErr result (IsTakingRefused self.old) }
        ensures idle { self.old.broken ≡ false → HasTakenAll self.old front.now.history
            → result ≡ Ok Advanced.Idle }
    {
        self.advance_by(alloc, pass, front, None)
    }

    /// Takes the next event as [`StoredNode::advance`] does, with its tags if they were posted.
    pub fn advance_by(
        &mut self,
        alloc: Global,
        pass: usize,
        front: &HistoryFront,
        posted: Option<&TagSet>,
    ) -> Result<Advanced, NodeError>
        requires own { pass < self.old.passes }
        requires front { front.now.events ≡ self.old.seen.events }
        requires posted { IfSome posted (λ tags. HasTags front.now.history (next_stamp self.old) tags.now) }
        ensures seen { OnOk result (IsLonger self.old.seen front.now self.new.seen) }
        ensures after { IfOk result (HasAdvanced (seeing self.old self.new.seen) pass self.new) }
        ensures only_if { OnOk result (self.old.broken ≡ false) }
        ensures left { IfErr result (IsNodeLeft self.old self.new) }
        ensures refused { IfErr result (IsTakingRefused self.old) }
        ensures posted { IfSome posted.entry (λ _. IfErr result (IsStepRefused self.old)) }
        ensures idle { self.old.broken ≡ false → HasTakenAll self.old front.now.history
            → result ≡ Ok Advanced.Idle }
    {
        states_stay();
        nodes_go_on();
        self.check_whole()?;
        let number = self.core.processed().number() as usize + 1;
        if number > self.seen.len() && number > front.len() {
            self.seen.longer(front);
            return Ok(Advanced::Idle);
        }
        self.check_room()?;
        let stamp = Stamp::after(number);
        let known = self.tags_of(alloc, front, number, posted)?;
        let Some(tags) = known else {
            self.broken = true;
            return Err(NodeError::Broken);
        };
        let prepared = self
            .log
            .prepare_event(alloc, pass, stamp, &tags, &self.core)?;
        let Ok(closed) = self.core.event(stamp, tags) else {
            unreachable!();
        };
        let reply = Reply::Closed(closed);
        count_step(&mut self.counts, None, &reply);
        let next = prepared.answered(reply);
        self.seen.longer(front);
        if !self.log.append(pass, next) {
            self.broken = true;
            return Err(NodeError::Broken);
        }
        Ok(Advanced::Taken { stamp, closed })
    }

    /// Drops the entries whose span ends at the horizon or before it, and returns how many. Fails if the node
    /// is broken, its history is full, or memory for the record cannot be allocated.
    pub fn sweep(&mut self, alloc: Global, pass: usize, horizon: Stamp) -> Result<usize, NodeError>
        requires { pass < self.old.passes }
        ensures after { OnOk result (self.new ≡ after_call self.old pass (Sweep horizon)) }
        ensures answer { IfOk result (λ count. count ≡ swept_count self.old.cache horizon) }
        ensures only_if { OnOk result (CanRecord self.old) }
        ensures left { IfErr result (IsNodeLeft self.old self.new) }
        ensures refused { IfErr result (IsStepRefused self.old) }
        ensures memory { IfErr result (IsTidyRefused self.old) }
    {
        nodes_go_on();
        self.check_whole()?;
        self.check_room()?;
        let op = Op::Sweep { horizon };
        let prepared = self.log.prepare(alloc, pass, op, &self.core)?;
        let dropped = self.core.sweep(horizon);
        let reply = Reply::Swept(dropped);
        count_step(&mut self.counts, None, &reply);
        let next = prepared.answered(reply);
        if !self.log.append(pass, next) {
            self.broken = true;
            return Err(NodeError::Broken);
        }
        Ok(dropped)
    }

    /// Keeps the longest prefix of the entries whose values have at most `most` bytes in all. Returns how many
    /// it dropped. Fails as [`StoredNode::sweep`] does.
    pub fn trim(&mut self, alloc: Global, pass: usize, most: usize) -> Result<usize, NodeError>
        requires { pass < self.old.passes }
        ensures after { OnOk result (self.new ≡ after_call self.old pass (Trim most)) }
        ensures answer { IfOk result (λ count. count ≡ trimmed_count self.old.cache most) }
        ensures only_if { OnOk result (CanRecord self.old) }
        ensures left { IfErr result (IsNodeLeft self.old self.new) }
        ensures refused { IfErr result (IsStepRefused self.old) }
        ensures memory { IfErr result (IsTidyRefused self.old) }
    {
        nodes_go_on();
        self.check_whole()?;
        self.check_room()?;
        let op = Op::Trim { most };
        let prepared = self.log.prepare(alloc, pass, op, &self.core)?;
        let dropped = self.core.trim(most);
        let reply = Reply::Trimmed(dropped);
        count_step(&mut self.counts, None, &reply);
        let next = prepared.answered(reply);
        if !self.log.append(pass, next) {
            self.broken = true;
            return Err(NodeError::Broken);
        }
        Ok(dropped)
    }
}

// Copies a lent entry, with a front of the same history.
fn copied_hit(
    alloc: Global,
    hit: Option<Hit<'_>>,
    front: &HistoryFront,
) -> Result<Option<Answered<HitValue>>, AllocError>
    ensures answer { IfOk result (λ found. option_map (λ f. f.answer) found ≡ option_map seen hit.entry) }
    ensures front { IfOk result (λ found. IfSome found (λ f. f.front ≡ front.now)) }
{
    let Some(hit) = hit else {
        return Ok(None);
    };
    let answer = hit.copy(alloc)?;
    let front = front.again()?;
    Ok(Some(Answered { answer, front }))
}

// Returns the tags of an event, if there is one.
fn copied(alloc: Global, event: Option<&Event>) -> Result<Option<TagSet>, AllocError>
    ensures { IfOk result (λ tags.
        MatchOption event.entry (tags ≡ None) (λ event. tags ≡ Some event.now.tags)) }
{
    match event {
        Some(event) => Ok(Some(event.tags.copy(alloc)?)),
        None => Ok(None),
    }
}
