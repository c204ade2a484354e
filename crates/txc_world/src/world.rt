//! Every interleaving of the steps of actors and of the keeper.
ghost use Rattle.std.specs.Prelude.{◌≡◌, ◌<◌, ◌≤◌, ◌+◌, [], false, length, map, slice_get, vec_len, All, Err, IfErr, IfOk, IsOk, MatchOption, OnErr, Some};
ghost use Rattle.txc_node.specs.Counts.{AreCountsOf};
ghost use Rattle.txc_node.specs.declared.node.TheConstants.{MAX_CAPACITY, MAX_RECENT};
ghost use Rattle.txc_stream.specs.declared.row.TheConstants.{MAX_CAPACITY as MAX_ROW};
ghost use Rattle.txc_shared.specs.declared.log.TheConstants.{MAX_PASSES};
ghost use Rattle.txc_shared.specs.Nodes.{start_of};
ghost use Rattle.txc_shared.specs.Runs.{IsNode};
ghost use Rattle.txc_call_registry.specs.Objects.{AllIdle};
ghost use Rattle.txc_world.specs.StepEffects.{AreAfterSteps, IsWholeStep};
ghost use Rattle.txc_world.specs.Worlds.{due_of_pins, AreMembersOf, IsBalanced, IsTrueWorld};
ghost use Rattle.txc_world.specs.ActorValues.{reads, resting, ReadingValue};
ghost use Rattle.txc_world.specs.NewWorld.{AreNewPorts};
ghost use Rattle.txc_world.specs.Sessions.{ActorSessionsAreMonotonic};
ghost use Rattle.txc_db.specs.Refusals.{IsWant};
ghost use Rattle.txc_world.specs.Tidy.{nothing_in_hand, in_hand_by, AreTidy, LoseNoSnapshot, InHand};
ghost use Rattle.txc_world.specs.Observation.{idle, reading, observed_from, AreDue, AreExplained, AreExplainedIn, Reading};

use crate::acting::act_at;
use crate::actor::{Actor, idle_actors};
use crate::keeping::keep;
use crate::nodes::counts_of;
use crate::ports::Ports;
use crate::reply::{Refusal, Reply};
use crate::sessions::{floor_at, new_sessions, note};
use crate::settings::WorldSettings;
use crate::step::{ActorStep, Step};
use std::alloc::{AllocError, Global};
use std::marker::Model;
use txc_app::App;
use txc_call_registry::{Cacheable, Registry};
use txc_cushion::{CushionCore, Pin};
use txc_db::{DbCore, DbError};
use txc_node::Counts;
use txc_shared::StoredNode;
use txc_txn::Session;
use txc_txn_ports::Bounds;

/// The stamps at which a read-only transaction may still be serialised.
#[derive(Clone, Copy, Debug)]
pub struct Members<'a> {
    /// `true` if it may still be serialised at the present.
    pub has_present: bool,
    /// Its members, the newest first.
    pub pins: &'a [Pin],
}

/// Actors, each with a registry of its own and a transaction that may be open, and the keeper, over one
/// database, one pincushion and the nodes.
///
/// Contracts see what its replies report: its settings; its history; the stamps of the keeper's pins that are
/// not added yet; the floor of each actor's session; and each actor's open transaction. They also see its
/// holdings: the holds of the database, the pins of the pincushion with their users, and each actor's share of
/// both.
#[derive(Drop)]
pub struct World<A: App, C: Cacheable> {
    settings: WorldSettings,
    ports: Ports<A>,
    // None only in the middle of a step of that actor.
    actors: Vec<Option<Actor<A, C>>>,
    // One for each actor.
    sessions: Vec<Session>,
}

impl<A: App, C: Cacheable> Model for World<A, C> {
    ghost use Rattle.txc_world.specs.Worlds.{value_of_world, IsWorld, WorldValue};

    ghost Value = { WorldValue };

    ghost view = { λ w. value_of_world w.settings w.ports w.sessions.items w.actors.items };

    ghost invariant = { λ w. IsWorld A.next w.settings w.ports w.sessions.items w.actors.items };
}

impl<A: App, C: Cacheable> World<A, C> {
    /// Makes a world with an empty history, an empty pincushion and empty nodes, and an idle actor for each
    /// registry, with nothing noted in its session. Fails only if memory cannot be allocated or SQLite fails.
    pub fn new(
        alloc: Global,
        settings: WorldSettings,
        registries: Vec<Registry<A, C>>,
    ) -> Result<World<A, C>, DbError>
        requires capacity { (1 ≤ settings.capacity) × (settings.capacity ≤ MAX_CAPACITY) }
        requires nodes { 1 ≤ settings.nodes }
        requires recent { (1 ≤ settings.recent) × (settings.recent ≤ MAX_RECENT) }
        requires row_cap { (1 ≤ settings.row_cap) × (settings.row_cap ≤ MAX_ROW) }
        requires actors { vec_len registries < MAX_PASSES }
        requires all_idle { All AllIdle registries.items }
        ensures settings { IfOk result (λ world. world.told.settings ≡ settings) }
        ensures history { IfOk result (λ world. world.told.history ≡ []) }
        ensures spare { IfOk result (λ world. world.told.spare ≡ []) }
        ensures floors { IfOk result (λ world. world.told.floors ≡ map (λ registry. 0) registries.items) }
        ensures actors { IfOk result (λ world. world.told.actors ≡ map (λ registry. idle) registries.items) }
        ensures balanced { IfOk result (λ world. IsBalanced world nothing_in_hand) }
        ensures ports { IfOk result (λ world. AreNewPorts settings (vec_len registries) world.ports) }
        ensures idle { IfOk result (λ world. world.actors ≡ map (λ registry. resting registry) registries.items) }
        ensures refused { IfErr result IsWant }
    {
        let count = registries.len();
        let sessions = new_sessions(alloc, &registries)?;
        let actors = idle_actors(alloc, registries)?;
        let ports = Ports::new(alloc, &settings, count)?;
        Ok(World {
            settings,
            ports,
            actors,
            sessions,
        })
    }

    /// Returns its database and its pincushion, for the calls under locks. The rest is dropped: open
    /// transactions, and their holds and users, which no one releases then.
    pub fn into_parts(self) -> (DbCore, CushionCore)
        ensures database { result.0 ≡ self.ports.database }
        ensures cushion { result.1 ≡ self.ports.cushion }
        ensures row { result.1.events ≡ result.0.events }
    {
        let World {
            settings: _,
            ports,
            actors: _,
            sessions: _,
        } = self;
        ports.into_parts()
    }

    /// Returns how many actors there are.
    pub fn actor_count(&self) -> usize
        ensures { result ≡ length self.now.told.actors }
    {
        self.actors.len()
    }

    /// Returns the members of the actor's read-only transaction, and whether its pin set has the present. Fails
    /// if there is no such actor, or it has no read-only transaction open.
    pub fn pins(&self, number: usize) -> Result<Members<'_>, Refusal>
        ensures due { MatchOption (due_of_pins (slice_get self.now.told.actors number)) (IsOk result)
            (λ refusal. result ≡ Err refusal) }
        ensures members { IfOk result (λ members. (r : Reading)
            → slice_get self.now.told.actors number ≡ Some (reading r)
            → AreMembersOf A.next self.now.told.history r members.has_present members.pins.now) }
        ensures pin_set { IfOk result (λ members. (r : ReadingValue)
            → slice_get self.now.actors number ≡ Some (reads r)
            → r.txn.core.pins ≡ record { members = members.pins.now; has_present = members.has_present }) }
    {
        let Some(Some(actor)) = self.actors.get(number) else {
            return Err(Refusal::NoActor);
        };
        let Actor::Reading(current) = actor else {
            return Err(Refusal::NotOpen);
        };
        current.txn.is_kept();
        let core = current.txn.core();
        Ok(Members {
            has_present: core.has_present(),
            pins: core.members(),
        })
    }

    /// Returns a node, as it is between two steps. Unless it is broken, each result that it stores is true in
    /// the history, and its state is that after a legal history of records, whose events are those of the
    /// history.
    pub fn node(&self, at: usize) -> &StoredNode<A>
        requires { at < self.now.told.settings.nodes }
        ensures there { slice_get self.now.ports.nodes at ≡ Some result.now }
        ensures passes { result.now.passes ≡ self.now.ports.actors + 1 }
        ensures right { result.now.broken ≡ false → IsNode A.next self.now.told.history (start_of result.now.settings 0)
            result.now.records result.now.cache false }
    {
        self.ports.node(at)
    }

    /// Every world is true between two steps. This is a lemma: it does nothing when it runs.
    pub fn is_true(&self)
        ensures { IsTrueWorld A.next self.now }
    {
        self.ports.are_true();
    }

    /// Returns the counts of a node's records, as it is between two steps. Fails if there is no such node. Does
    /// not allocate.
    pub fn counts(&self, at: usize) -> Result<Counts, Refusal>
        ensures due { MatchOption (slice_get self.now.ports.nodes at) (result ≡ Err Refusal.NoNode)
            (λ node. IfOk result (AreCountsOf node.records) × IsOk result) }
        ensures only_if { IsOk result → at < self.now.told.settings.nodes }
    {
        if at >= self.settings.nodes {
            return Err(Refusal::NoNode);
        }
        Ok(counts_of(self.ports.node(at).front()))
    }

    // Each actor has a session. It does nothing when it runs.
    fn has_sessions(&self)
        ensures { length self.now.told.floors ≡ length self.now.told.actors }
    {
        let _count = self.actors.len();
    }

    // Makes one step of an actor.
    fn act(&mut self, alloc: Global, number: usize, doing: &ActorStep) -> Reply
        ensures { IsWholeStep A.next self.old (Step.Actor number doing.now) result self.new }
    {
        if number >= self.actors.len() {
            self.ports.are_true();
            return Reply::Refused(Refusal::NoActor);
        }
        self.ports.count_right();
        let renew_after = self.settings.renew_after;
        let reply = act_at(
            alloc,
            &mut self.ports,
            renew_after,
            number,
            &mut self.actors,
            doing,
        );
        note(&mut self.sessions, number, &reply);
        self.ports.are_true();
        reply
    }

    /// Makes one step, as `run` does, and returns its reply.
    pub fn step(&mut self, alloc: Global, step: &Step) -> Reply
        ensures { IsWholeStep A.next self.old step.now result self.new }
    {
        match step {
            Step::Actor(number, doing) => self.act(alloc, *number, doing),
            Step::BeginIn {
                actor,
                now,
                staleness,
            } => {
                let at_least = floor_at(&self.sessions, *actor);
                let bounds = Bounds {
                    now: *now,
                    staleness: *staleness,
                    at_least,
                };
                self.act(alloc, *actor, &ActorStep::BeginRo(bounds))
            }
            Step::Keeper(doing) => {
                self.ports.count_right();
                let reply = keep(alloc, &mut self.ports, doing);
                self.ports.are_true();
                reply
            }
        }
    }

    /// Makes the steps one after another, and returns their replies. Memory for the replies is allocated before
    /// the first step; a later failed allocation is a reply.
    ///
    /// The state afterwards is the one that the steps and their replies determine. Only an actor with an open
    /// read-only transaction gets a receipt, and it explains the values that the replies reported of it. Only
    /// an actor with an open read-write transaction has that committed. Each value reported of it is correct at
    /// its base, and at the stamp before the event of the commit, or, if there is none, at the newest stamp.
    /// Both hold in the history as reported by then, and in that of the whole run.
    ///
    /// A receipt of a transaction that an actor began in its session, in the list, is not below any stamp that
    /// the list reported to that actor before. Such a stamp is of a receipt or of the commit of a read-write
    /// transaction.
    ///
    /// If each actor and the keeper have exactly their own holds and users, as in a new world, and the list is
    /// tidy, the same is true afterwards. Then neither a query nor the commit of an open transaction fails for
    /// a lost snapshot.
    pub fn run(&mut self, alloc: Global, steps: &[Step]) -> Result<Vec<Reply>, AllocError>
        ensures told { IfOk result (λ replies. self.new.told ≡ observed_from self.old.told steps.now replies.items) }
        ensures transition { IfOk result (λ replies. AreAfterSteps A.next self.old steps.now replies.items self.new) }
        ensures explained { IfOk result (λ replies. AreExplained A.next self.old.told steps.now replies.items) }
        ensures explained_in_the_end { IfOk result (λ replies.
            AreExplainedIn A.next self.new.told.history self.old.told steps.now replies.items) }
        ensures due { IfOk result (λ replies. AreDue self.old.told steps.now replies.items) }
        ensures sessions { IfOk result (λ replies. ActorSessionsAreMonotonic steps.now replies.items) }
        ensures balanced { IfOk result (λ replies. (in_hand : InHand) → IsBalanced self.old in_hand
            → AreTidy in_hand steps.now replies.items
            → IsBalanced self.new (in_hand_by in_hand steps.now replies.items)) }
        ensures tidy { IfOk result (λ replies. (in_hand : InHand) → IsBalanced self.old in_hand
            → AreTidy in_hand steps.now replies.items → LoseNoSnapshot steps.now replies.items) }
        ensures each { IfOk result (λ replies. length replies.items ≡ length steps.now) }
        ensures unchanged { OnErr result (self.new ≡ self.old) }
    {
        self.has_sessions();
        let mut replies = Vec::with_capacity(alloc, steps.len())?;
        for step in steps {
            let reply = self.step(alloc, step);
            replies.push_reserved(reply);
        }
        Ok(replies)
    }
}
