//! The record of a step, prepared before the step is made.
ghost use Rattle.std.specs.Prelude.{◌≡◌, IfOk};
ghost use Rattle.std.specs.Option.{option_map};
ghost use Rattle.txc_stream.specs.Names.{Name};
ghost use Rattle.txc_node.specs.declared.record.Record.{Record};
ghost use Rattle.txc_node.specs.Steps.{found_reply};
ghost use Rattle.txc_shared.specs.LockedNode.{record_in, Suits, AwaitsReply};

use std::alloc::{AllocError, Global};
use txc_db::Answered;
use txc_node::{HitValue, Record, Reply};
use txc_stream::GhostRecord;

/// A record that waits for its step.
#[derive(Drop)]
pub(crate) enum Prepared {
    /// For a stored history. Its reply is set later.
    Stored(Box<Record>),
    /// For a ghost history. It already has the reply of the step.
    Unstored(GhostRecord<Record>),
}

impl Prepared {
    /// Returns the record with the reply of its step.
    pub(crate) fn answered(self, reply: Reply<HitValue>) -> Prepared
        ensures suits { (name : Name) → Suits name self → Suits name result }
        ensures answered { (r : Record) → AwaitsReply r self → reply ≡ r.reply → record_in result ≡ r }
    {
        match self {
            Prepared::Stored(mut next) => {
                set_reply(&mut next, reply);
                Prepared::Stored(next)
            }
            Prepared::Unstored(draft) => Prepared::Unstored(draft),
        }
    }

    /// Returns the record of a lookup with this result. Allocates, and so can fail, only if records are stored.
    #[inline(always)]
    pub(crate) fn with_found(
        self,
        alloc: Global,
        found: &Option<Answered<HitValue>>,
    ) -> Result<Prepared, AllocError>
        ensures suits { IfOk result (λ next. (name : Name) → Suits name self → Suits name next) }
        ensures answered { IfOk result (λ next. (r : Record) → AwaitsReply r self
            → found_reply (option_map (λ f. f.answer) found.now) ≡ r.reply → record_in next ≡ r) }
    {
        match self {
            Prepared::Stored(mut next) => {
                set_reply(&mut next, reply_to(alloc, found)?);
                Ok(Prepared::Stored(next))
            }
            Prepared::Unstored(draft) => Ok(Prepared::Unstored(draft)),
        }
    }
}

// Sets the reply of a record that was allocated before the step.
fn set_reply(next: &mut Record, reply: Reply<HitValue>)
    ensures { next.new ≡ record next.old { reply = reply } }
{
    next.reply = reply;
}

// Makes the reply of a lookup with this result.
fn reply_to(
    alloc: Global,
    found: &Option<Answered<HitValue>>,
) -> Result<Reply<HitValue>, AllocError>
    ensures { IfOk result (λ reply. reply ≡ found_reply (option_map (λ f. f.answer) found.now)) }
{
    let Some(found) = found else {
        return Ok(Reply::Miss);
    };
    Ok(Reply::Hit(HitValue {
        reach: found.answer.reach,
        value: found.answer.value.copy(alloc)?,
        tags: found.answer.tags.copy(alloc)?,
    }))
}
