//! Refusals in the output of lines.
ghost use Rattle.std.specs.Prelude.{◌≡◌};
ghost use Rattle.txc_script_world.specs.TaskTexts.{is_refused_did, is_refused_end, is_refused_line, is_refused_reply};

use crate::printed::Printed;
use txc_node::Value;
use txc_txn_ports::TxnError;
use txc_world::{PortOutcome, Reply};

fn is_refused_end(end: &Result<Value, TxnError>) -> bool
    ensures { result ≡ is_refused_end end.now }
{
    end.is_err()
}

fn is_refused_did(did: &PortOutcome) -> bool
    ensures { result ≡ is_refused_did did.now }
{
    match did {
        PortOutcome::NotAdded(_) | PortOutcome::Refused(_) => true,
        _ => false,
    }
}

fn is_refused_reply(reply: &Reply) -> bool
    ensures { result ≡ is_refused_reply reply.now }
{
    match reply {
        Reply::Asked(did, None) => is_refused_did(did),
        Reply::Asked(did, Some(end)) => is_refused_did(did) || is_refused_end(end),
        Reply::Ended(end) => is_refused_end(end),
        Reply::Refused(_) => true,
        _ => false,
    }
}

/// Returns `true` if the output has a refusal.
pub fn is_refused_line(printed: &Printed) -> bool
    ensures { result ≡ is_refused_line printed.now }
{
    match printed {
        Printed::Replied(reply) => is_refused_reply(reply),
        Printed::Ended(end) => is_refused_end(end),
        Printed::Members(_, _) => false,
        Printed::Tidied(_, _) => false,
        Printed::Counted(_) => false,
    }
}
