//! Result of a lookup, lent by the node.
ghost use Rattle.std.specs.Prelude.{◌≡◌, ◌≤◌, IfOk};
ghost use Rattle.txc_stamp.specs.declared.stamp.TheConstants.{MOST_STAMP};

use crate::value::Value;
use std::alloc::{AllocError, Global};
use txc_stamp::Reach;
use txc_tags::TagSet;

/// Entry that a lookup found: a value with its validity interval and its tags, lent by the node.
#[derive(Clone, Copy, Debug)]
pub struct Hit<'a> {
    pub(crate) stored: &'a Reach,
    pub(crate) last: u32,
    /// The result.
    pub value: &'a Value,
    /// The tags of the rows that it depends on.
    pub tags: &'a TagSet,
    ghost ordered: { stored.now.lo ≤ last },
    ghost bounded: { last ≤ MOST_STAMP },
}

/// A copy of a hit: a value with its validity interval and its tags.
#[derive(Debug, Drop)]
pub struct HitValue {
    /// The reach of the result, known up to the last stamp of its span.
    pub reach: Reach,
    /// The result.
    pub value: Value,
    /// The tags of the rows that it depends on.
    pub tags: TagSet,
}

impl Hit<'_> {
    ghost use Rattle.txc_node.specs.Hit.{hit_reach, seen};

    /// Returns the reach of the result, known up to the last stamp of its span.
    pub fn reach(&self) -> Reach
        ensures { result ≡ hit_reach self.now }
    {
        self.stored.with_known(self.last)
    }

    /// Returns a copy of the hit. Fails only if memory cannot be allocated.
    pub fn copy(&self, alloc: Global) -> Result<HitValue, AllocError>
        ensures { IfOk result (λ shown. shown ≡ seen self.now) }
    {
        Ok(HitValue {
            reach: self.reach(),
            value: self.value.copy(alloc)?,
            tags: self.tags.copy(alloc)?,
        })
    }
}
