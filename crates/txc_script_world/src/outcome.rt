//! The meaning of a reply for the rest of its line.
ghost use Rattle.std.specs.Prelude.{◌≡◌, Some, None, IfOk, IfErr};
ghost use Rattle.txc_world.specs.declared.reply.Reply.{Reply};
ghost use Rattle.txc_script_world.specs.TaskSteps.{ending_of, is_added, is_unpinned, leaves_hold, stamp_in, taken_out, tidied};

use crate::printed::Printed;
use txc_stamp::Stamp;
use txc_world::Reply;

/// Returns the stamp of the pin that was made, if one was.
pub fn stamp_in(reply: &Reply) -> Option<Stamp>
    ensures { result ≡ stamp_in reply.now }
{
    match reply {
        Reply::At(stamp) => Some(*stamp),
        _ => None,
    }
}

/// Returns `true` if the pin was added.
pub fn is_added(reply: &Reply) -> bool
    ensures { result ≡ is_added reply.now }
{
    match reply {
        Reply::Added => true,
        _ => false,
    }
}

/// Returns the result of a call that has ended; any other reply, such as an error, as it is; or `None` if the
/// call continues.
pub fn ending_of(reply: Reply) -> Option<Printed>
    ensures { result ≡ ending_of reply }
{
    match reply {
        Reply::Asked(_did, end) => match end {
            None => None,
            Some(end) => Some(Printed::Ended(end)),
        },
        Reply::Ended(end) => Some(Printed::Ended(end)),
        reply => Some(Printed::Replied(reply)),
    }
}

/// Returns `true` if a hold is left after the end of a transaction.
pub fn leaves_hold(reply: &Reply) -> bool
    ensures { result ≡ leaves_hold reply.now }
{
    match reply {
        Reply::At(_) => true,
        Reply::Aborted(Some(_)) => true,
        _ => false,
    }
}

/// Returns the stamps of the pins that were removed, or otherwise the reply.
pub fn taken_out(reply: Reply) -> Result<Vec<Stamp>, Reply>
    ensures some { IfOk result (λ stamps. reply ≡ Reply.Retired stamps) }
    ensures none { IfErr result (λ other. (other ≡ reply) × (taken_out reply ≡ None)) }
{
    match reply {
        Reply::Retired(stamps) => Ok(stamps),
        reply => Err(reply),
    }
}

/// Returns `true` if the hold was removed.
pub fn is_unpinned(reply: &Reply) -> bool
    ensures { result ≡ is_unpinned reply.now }
{
    match reply {
        Reply::Unpinned => true,
        _ => false,
    }
}

/// Returns the output at the end of a tidy that removed `count` pins.
pub fn tidied(count: usize, reply: Reply) -> Printed
    ensures { result ≡ tidied count reply }
{
    match reply {
        Reply::Vacuumed(horizon) => Printed::Tidied(count, horizon),
        reply => Printed::Replied(reply),
    }
}
