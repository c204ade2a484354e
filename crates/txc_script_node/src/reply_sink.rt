//! Takers of the replies to steps.
ghost use Rattle.std.specs.Prelude.{◌≡◌, ◌≤◌, ℕ, List, IfSome, IfNone, None};
ghost use Rattle.txc_node.specs.Steps.{is_refusal, seen_reply};
ghost use Rattle.txc_node.specs.declared.hit.HitValue.{HitValue};
ghost use Rattle.txc_node.specs.declared.op.Op.{Op};
ghost use Rattle.txc_node.specs.declared.reply.Reply.{Reply};
ghost use Rattle.txc_script_node.specs.Steps.{IsFor};

use crate::output::push_reply;
use std::alloc::Global;
use txc_node::{Hit, Reply};
use txc_script::LineError;
use txc_tags::LAST_FUNCTION;

/// Takes the replies to steps: a text, to which they are written, or a report, which counts them.
pub trait ReplySink {
    // The relation of the sink after a reply to the sink before it.
    ghost takes: { Self → Op → Reply HitValue → Self → Type 0 };

    // The text written so far.
    ghost text: { Self → List ℕ };

    /// Takes the reply to a step of that function, or of none. Returns whether it is a refusal. If memory
    /// cannot be allocated, returns `None`, and sets `why`.
    fn take<F: Drop>(
        &mut self,
        alloc: Global,
        function: Option<u8>,
        reply: &Reply<Hit<'_>>,
        why: &mut LineError<F>,
    ) -> Option<bool>
        requires { IfSome function (λ f. f ≤ LAST_FUNCTION) }
        ensures after { IfSome result (λ refused. (op : Op) → IsFor function op (seen_reply reply.now)
            → takes self.old op (seen_reply reply.now) self.new) }
        ensures refusal { IfSome result (λ refused. refused ≡ is_refusal (seen_reply reply.now)) }
        ensures memory { IfNone result (why.new ≡ LineError.Memory) }
        ensures unchanged { IfNone result (text self.new ≡ text self.old) };
}

/// Sets `why` to a failed allocation.
#[cold]
#[inline(never)]
pub(crate) fn out_of_memory<F: Drop>(why: &mut LineError<F>) -> Option<bool>
    ensures none { result ≡ None }
    ensures memory { why.new ≡ LineError.Memory }
{
    *why = LineError::Memory;
    None
}

impl ReplySink for Vec<u8> {
    ghost use Rattle.std.specs.Prelude.{◌≡◌, ◌++◌};
    ghost use Rattle.txc_script_settings.specs.declared.mode.Mode.TheVariants.{Node};
    ghost use Rattle.txc_script_node.specs.NodeScripts.{reply_line};

    ghost takes = { λ old op reply new. new.items ≡ old.items ++ reply_line Node reply };

    ghost text = { λ text. text.items };

    fn take<F: Drop>(
        &mut self,
        alloc: Global,
        function: Option<u8>,
        reply: &Reply<Hit<'_>>,
        why: &mut LineError<F>,
    ) -> Option<bool> {
        match push_reply(alloc, self, reply) {
            Ok(()) => Some(reply.is_refusal()),
            Err(_) => out_of_memory(why),
        }
    }
}
