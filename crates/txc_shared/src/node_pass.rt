//! A caller's handle at a node.
ghost use Rattle.std.specs.Prelude.{◌≡◌, ◌+◌, ◌<◌, ◌≤◌, ◌⊎◌, [], ℕ, take, length, MatchOption};
ghost use mathlib.Core.List.{IsPrefix};
ghost use Rattle.txc_stream.specs.Names.{stored, HasRow};
ghost use Rattle.txc_node.specs.Counts.{AreCountsOf};
ghost use Rattle.txc_shared.specs.Histories.{records_of};
ghost use Rattle.txc_shared.specs.Passes.{PassValue, IsLegalOver, HasSeen};

mod calls;

use crate::laws::legal_histories;
use crate::node_front::NodeFront;
use crate::settings::NodeSettings;
use std::marker::{Model, PhantomData};
use txc_db::{HistoryFront, Naming};
use txc_node::{Counts, Record};
use txc_stream::{EventRow, Front, prefix_of_itself, prefix_of_prefix};

/// A caller's handle at a node, with what it has seen: a legal history of the node's records, and the database
/// history that they name.
///
/// A caller makes its steps through a pass of its own, and finds its records in each history that the pass
/// takes over.
pub struct NodePass<J: Naming> {
    pub(crate) settings: NodeSettings,
    pub(crate) pass: usize,
    // The number of own records among those that its own last call showed.
    pub(crate) turn: usize,
    own: Front<Record>,
    pub(crate) records: NodeFront,
    pub(crate) events: HistoryFront,
    of: PhantomData<J>,
}

// Not derived, since a derived one would be proved again in each crate above.
impl<J: Naming> Drop for NodePass<J> {
    fn drop(self) {
        let NodePass {
            settings: _,
            pass: _,
            turn: _,
            own: _,
            records: _,
            events: _,
            of: _,
        } = self;
    }
}

impl<J: Naming> Model for NodePass<J> {
    ghost use Rattle.std.specs.Prelude.{◌≡◌};
    ghost use mathlib.Core.List.{IsPrefix};
    ghost use Rattle.txc_shared.specs.Histories.{records_of};
    ghost use Rattle.txc_shared.specs.Passes.{PassValue, IsLegalOver};

    ghost Value = { PassValue };

    ghost view = { λ p. record {
      settings = p.settings;
      pass = p.pass;
      own = p.own.list;
      records = p.records.records;
      history = p.events.history;
    } };

    ghost invariant = { λ p.
        (p.records.name ≡ J.node_histories p.settings.number)
        × (p.events.events ≡ J.database_history)
        × (p.turn ≡ records_of p.pass p.own.list)
        × IsPrefix p.own.list p.records.records
        × IsLegalOver J.database_history p.events.history p.settings p.records.records };
}

impl<J: Naming> NodePass<J> {
    /// Makes a pass that has seen no record.
    pub(crate) fn new(
        settings: NodeSettings,
        pass: usize,
        records: NodeFront,
        events: HistoryFront,
    ) -> NodePass<J>
        requires name { records.name ≡ J.node_histories settings.number }
        requires none { records.records ≡ [] }
        requires events { events.events ≡ J.database_history }
        ensures { result
            ≡ record { settings = settings; pass = pass; own = []; records = []; history = events.history } }
    {
        legal_histories();
        prefix_of_itself::<Record>();
        let own = records.front().again();
        NodePass {
            settings,
            pass,
            turn: 0,
            own,
            records,
            events,
            of: PhantomData,
        }
    }

    /// Returns the settings of its node.
    pub fn settings(&self) -> NodeSettings
        ensures { result ≡ self.now.settings }
    {
        self.settings
    }

    /// Returns how many records it has seen, its own and others'.
    pub fn len(&self) -> usize
        ensures { result ≡ length self.now.records }
    {
        self.records.len()
    }

    /// The records that it has seen are a legal history of its node, and begin with those that its own last
    /// call showed. This is a lemma: it does nothing when it runs.
    pub fn is_legal(&self)
        ensures legal { IsLegalOver J.database_history self.now.history self.now.settings self.now.records }
        ensures own { IsPrefix self.now.own self.now.records }
    {
        let _len = self.records.len();
    }

    /// Returns a front of the records that it has seen: the steps of other passes too.
    pub fn records(&self) -> &NodeFront
        ensures name { result.now.name ≡ J.node_histories self.now.settings.number }
        ensures records { result.now.records ≡ self.now.records }
    {
        &self.records
    }

    /// Returns a front of the database history that it has seen.
    pub fn events(&self) -> &HistoryFront
        ensures events { result.now.events ≡ J.database_history }
        ensures history { result.now.history ≡ self.now.history }
    {
        &self.events
    }

    /// Takes over a front of records that begins with its own and has `turn` records of this pass, and the
    /// events of the database that only the other front shows.
    pub(crate) fn see(&mut self, records: &NodeFront, events: &HistoryFront, turn: usize)
        requires name { records.now.name ≡ J.node_histories self.old.settings.number }
        requires row { events.now.events ≡ J.database_history }
        requires records { IsPrefix self.old.records records.now.records }
        requires turn { turn ≡ records_of self.old.pass records.now.records }
        requires legal { IsLegalOver J.database_history events.now.history self.old.settings records.now.records }
        ensures { HasSeen self.old records.now.records events.now.history self.new }
    {
        legal_histories();
        prefix_of_itself::<Record>();
        self.records.longer(records);
        self.events.longer(events);
        self.own = records.front().again();
        self.turn = turn;
    }
}

/// Shows each of two passes of one node what the other has seen. It takes no lock, and does not allocate.
pub fn meet<J: Naming>(one: &mut NodePass<J>, other: &mut NodePass<J>)
    requires { one.old.settings ≡ other.old.settings }
    ensures one { one.new ≡ record one.old { records = one.new.records; history = one.new.history } }
    ensures other { other.new ≡ record other.old { records = one.new.records; history = one.new.history } }
    ensures either { (one.new.records ≡ one.old.records) ⊎ (one.new.records ≡ other.old.records) }
    ensures seen { IsPrefix one.old.records one.new.records }
    ensures others_seen { IsPrefix other.old.records one.new.records }
    ensures either_history { (one.new.history ≡ one.old.history) ⊎ (one.new.history ≡ other.old.history) }
    ensures history { IsPrefix one.old.history one.new.history }
    ensures others_history { IsPrefix other.old.history one.new.history }
    ensures legal { IsLegalOver J.database_history one.new.history one.new.settings one.new.records }
{
    legal_histories();
    prefix_of_prefix::<Record>();
    one.records.longer(&other.records);
    other.records.longer(&one.records);
    one.events.longer(&other.events);
    other.events.longer(&one.events);
}

/// Returns the counts of the records that a pass has seen, or `None` if they are not stored. It takes no lock,
/// and does not allocate.
pub fn audit<J: Naming>(pass: &NodePass<J>) -> Option<Counts>
    ensures { MatchOption result
        (¬ (HasRow (J.node_histories pass.now.settings.number)))
        (AreCountsOf pass.now.records) }
{
    let records = pass.records();
    let row = records.row()?;
    Some(count_records(row, records.front()))
}

// Returns the counts of the records that a front of the log shows.
fn count_records(row: &EventRow<Record>, front: &Front<Record>) -> Counts
    requires { front.now.name ≡ stored row.now }
    ensures { AreCountsOf front.now.list result }
{
    let mut counts = Counts::new();
    for at in 0..front.len() {
        counts.add(row.get(front, at));
    }
    counts
}
