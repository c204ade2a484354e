//! Counting the steps of a node.
ghost use Rattle.std.specs.Prelude.{◌≡◌, ◌+◌, ◌^◌, ◌<◌, ◌≤◌, ◌++◌, ◌∷◌, [], List, IfSome};
ghost use Rattle.std.specs.Option.{option_map};
ghost use Rattle.txc_tags.specs.declared.key.TheConstants.{LAST_FUNCTION};
ghost use Rattle.txc_node.specs.Steps.{found_reply, function_of};
ghost use Rattle.txc_node.specs.Counts.{AreCountsOf};
ghost use Rattle.txc_node.specs.declared.record.Record.{Record};
ghost use Rattle.txc_shared.specs.LockedNode.{DoCountAlike};

use txc_db::Answered;
use txc_node::{Counts, HitValue, Reply};

/// Counts a step of that function by a reply with the same counts as the step's own. Does not allocate.
#[inline(always)]
pub(crate) fn count_step<H>(counts: &mut Counts, function: Option<u8>, reply: &Reply<H>)
    requires function { IfSome function (λ f. f ≤ LAST_FUNCTION) }
    requires room { counts.old.replies + 1 < 2 ^ 64 }
    ensures { (steps : List Record) (step : Record) → AreCountsOf steps counts.old
        → function ≡ function_of step.op → DoCountAlike reply.now step.reply
        → AreCountsOf (steps ++ step ∷ []) counts.new }
{
    counts.count(function, reply);
}

/// Returns a reply with the same counts as that of a lookup with this result. It copies nothing.
pub(crate) fn reply_without_copies(found: &Option<Answered<HitValue>>) -> Reply<()>
    ensures { DoCountAlike result (found_reply (option_map (λ f. f.answer) found.now)) }
{
    match found {
        Some(_) => Reply::Hit(()),
        None => Reply::Miss,
    }
}
