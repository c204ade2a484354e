//! The sessions of actors.
ghost use Rattle.std.specs.Prelude.{◌≡◌, ◌<◌, IfOk, map, slice_set, vec_len};
ghost use Rattle.txc_world.specs.Observation.{floor_at, floor_by};

use crate::reply::Reply;
use std::alloc::{AllocError, Global};
use txc_app::App;
use txc_call_registry::{Cacheable, Registry};
use txc_stamp::Stamp;
use txc_txn::Session;

/// Makes sessions in which nothing was noted, one for each registry. Fails only if memory cannot be allocated.
pub(crate) fn new_sessions<A: App, C: Cacheable>(
    alloc: Global,
    registries: &[Registry<A, C>],
) -> Result<Vec<Session>, AllocError>
    ensures { IfOk result (λ sessions. sessions.items ≡ map (λ registry. 0) registries.now) }
{
    registries.iter().map(|_| Session::new()).collect(alloc)
}

/// Returns the floor of the session of the actor of that number, or the first stamp if there is no such actor.
pub(crate) fn floor_at(sessions: &[Session], number: usize) -> Stamp
    ensures { result ≡ floor_at sessions.now number }
{
    match sessions.get(number) {
        Some(session) => session.floor(),
        None => Stamp::ZERO,
    }
}

/// Notes the stamp in the reply, if it has one, in the session of the actor of that number.
pub(crate) fn note(sessions: &mut Vec<Session>, number: usize, reply: &Reply)
    requires { number < vec_len sessions.old }
    ensures { sessions.new.items
        ≡ slice_set sessions.old.items number (floor_by reply.now (floor_at sessions.old.items number)) }
{
    let session = &mut sessions[number];
    match reply {
        Reply::Receipt(pin) => session.note_pin(*pin),
        Reply::At(stamp) => session.note_commit(*stamp),
        _ => {}
    }
}
