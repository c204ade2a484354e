//! The steps of a world.
use txc_rows::{Change, Query};
use txc_stamp::Stamp;
use txc_tags::Key;
use txc_txn_ports::Bounds;

/// Step of an actor.
#[derive(Drop)]
pub enum ActorStep {
    /// Begins a read-only transaction.
    BeginRo(Bounds),
    /// Begins a read-write transaction at the newest stamp, its base, which is held until it has ended.
    BeginRw,
    /// Starts a call of its open transaction. It makes no request.
    Start(Key),
    /// Makes the next request of its open call, or the remaining one after its transaction has ended.
    Request,
    /// Makes a query at the base of its read-write transaction.
    Ask(Query),
    /// Buffers a change of its read-write transaction until that commits. It makes no request.
    Write(Change),
    /// Ends its transaction: a read-only one with a receipt; a read-write one if the database commits it.
    Commit,
    /// Aborts its transaction, also in the middle of a call.
    Abort,
}

/// Step of the keeper.
#[derive(Drop)]
pub enum KeeperStep {
    /// Commits the change at the newest stamp, without reads.
    Write(Change),
    /// Pins the present, at this wall-clock time in milliseconds.
    Pin(u64),
    /// Adds the pin of the stamp, which the keeper pinned and has not added yet, to the pincushion.
    Add(Stamp),
    /// Removes one user of the pin of the stamp at the pincushion.
    GiveBack(Stamp),
    /// Removes the pins without users whose time is more than `age` before `now`, in milliseconds.
    Retire { now: u64, age: u64 },
    /// Removes one hold of the stamp.
    Unpin(Stamp),
    /// Drops the versions that no held stamp needs.
    Vacuum,
    /// Makes a query at the stamp.
    Query(Stamp, Query),
    /// Lets the node of that number take the next event.
    Advance(usize),
    /// Lets the node of that number drop the entries whose span ends at the horizon or before it.
    Sweep(usize, Stamp),
}

/// One step: of the actor of that number, or of the keeper.
#[derive(Drop)]
pub enum Step {
    Actor(usize, ActorStep),
    /// The actor of that number begins a read-only transaction in its session, which reads nothing older than
    /// the session's floor.
    BeginIn {
        actor: usize,
        now: u64,
        staleness: u64,
    },
    Keeper(KeeperStep),
}
