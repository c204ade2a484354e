//! Actors and their open transactions.
ghost use Rattle.std.specs.Prelude.{◌≡◌, map, Some, IfOk};

use std::alloc::{AllocError, Global};
use txc_app::App;
use txc_call_registry::{Cacheable, Registry};
use txc_node::Value;
use txc_rows::Query;
use txc_stamp::Stamp;
use txc_tags::Key;
use txc_txn::RunningTxn;
use txc_txn_ports::{PortRequest, Turn};
use txc_txn_rw::RwCore;

/// A call that has not ended for its caller yet: its key, and its next step.
#[derive(Drop)]
pub(crate) struct OpenCall<R> {
    pub key: Key,
    pub turn: Turn<R, Value>,
}

/// A read-only transaction, and its call, if one is open.
#[derive(Drop)]
pub(crate) struct OpenTxn<A: App, C: Cacheable> {
    pub txn: RunningTxn<A, C>,
    pub call: Option<OpenCall<PortRequest>>,
}

/// A read-write transaction with the registry of its functions, and its call, if one is open.
#[derive(Drop)]
pub(crate) struct OpenRw<A: App, C: Cacheable> {
    pub core: RwCore,
    pub registry: Registry<A, C>,
    pub call: Option<OpenCall<Query>>,
}

/// An actor, with the registry of its functions.
#[derive(Drop)]
pub(crate) enum Actor<A: App, C: Cacheable> {
    /// It has nothing open.
    Idle(Registry<A, C>),
    Reading(OpenTxn<A, C>),
    Writing(OpenRw<A, C>),
    /// Its transaction has ended, and the hold of the stamp must still be removed.
    Leaving(Registry<A, C>, Stamp),
}

/// Makes idle actors, one for each registry. Fails only if memory cannot be allocated.
pub(crate) fn idle_actors<A: App, C: Cacheable>(
    alloc: Global,
    registries: Vec<Registry<A, C>>,
) -> Result<Vec<Option<Actor<A, C>>>, AllocError>
    ensures { IfOk result (λ actors. actors.items
        ≡ map (λ registry. Some (Actor.Idle registry)) registries.items) }
{
    registries
        .into_iter()
        .map(|registry| Some(Actor::Idle(registry)))
        .collect(alloc)
}
