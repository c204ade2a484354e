//! Replies of a node.
ghost use Rattle.std.specs.Prelude.{◌≡◌, IfOk};
ghost use Rattle.txc_node.specs.Steps.{is_refusal, seen_reply};

use crate::hit::{Hit, HitValue};
use crate::node::Inserted;
use crate::refusal::Refusal;
use std::alloc::{AllocError, Global};
use std::fmt;

/// Reply to a step. A node lends a hit, so its own replies have a [`Hit`]; a record has a copy, a [`HitValue`].
#[derive(Debug, Drop)]
pub enum Reply<H> {
    /// Result of an insertion.
    Inserted(Inserted),
    /// The entry that a lookup found.
    Hit(H),
    /// A lookup found nothing.
    Miss,
    /// The number of entries that an event closed.
    Closed(usize),
    /// The number of entries that a sweep dropped.
    Swept(usize),
    /// The number of entries that a trim dropped.
    Trimmed(usize),
    /// The step failed with this error.
    Refused(Refusal),
}

impl<H> Reply<H> {
    /// Returns `true` if the step failed.
    pub fn is_refusal(&self) -> bool
        ensures { result ≡ is_refusal self.now }
    {
        match self {
            Reply::Refused(_) => true,
            _ => false,
        }
    }
}

impl Reply<Hit<'_>> {
    /// Returns the reply with a copy of its hit. Only a hit allocates; fails only if that memory cannot be
    /// allocated.
    pub fn into_owned(self, alloc: Global) -> Result<Reply<HitValue>, AllocError>
        ensures { IfOk result (λ r. r ≡ seen_reply self.entry) }
    {
        match self {
            Reply::Inserted(inserted) => Ok(Reply::Inserted(inserted)),
            Reply::Hit(hit) => {
                let shown = hit.copy(alloc)?;
                Ok(Reply::Hit(shown))
            }
            Reply::Miss => Ok(Reply::Miss),
            Reply::Closed(count) => Ok(Reply::Closed(count)),
            Reply::Swept(count) => Ok(Reply::Swept(count)),
            Reply::Trimmed(count) => Ok(Reply::Trimmed(count)),
            Reply::Refused(refusal) => Ok(Reply::Refused(refusal)),
        }
    }
}

impl fmt::Display for Reply<Hit<'_>> {
    ghost use Rattle.std.specs.Prelude.{Some};
    ghost use Rattle.txc_node.specs.Steps.{seen_reply};
    ghost use Rattle.txc_node.specs.Texts.{reply_text};

    ghost output = { λ r. Some (reply_text (seen_reply r)) };

    fn fmt<W: fmt::Write>(&self, f: &mut fmt::Formatter<W>) -> fmt::Result {
        match self {
            Reply::Inserted(inserted) => write!(f, "{inserted}"),
            Reply::Hit(hit) => {
                let reach = hit.reach();
                let value = hit.value;
                write!(f, "hit {reach} {value}")
            }
            Reply::Miss => write!(f, "miss"),
            Reply::Closed(count) => write!(f, "closed {count}"),
            Reply::Swept(count) => write!(f, "swept {count}"),
            Reply::Trimmed(count) => write!(f, "trimmed {count}"),
            Reply::Refused(refusal) => write!(f, "refused {refusal}"),
        }
    }
}
