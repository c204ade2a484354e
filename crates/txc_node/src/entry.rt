//! Entries of the cache.
ghost use Rattle.std.specs.Prelude.{◌≡◌, ◌<◌, ◌≤◌, ◌↔◌, Ok, Err, IsOk, IfOk, vec_len};

use crate::refusal::Refusal;
use crate::value::{MAX_VALUE_LEN, MOST_VALUE_LEN, Value};
use std::alloc::{AllocError, Global};
use thiserror::Error;
use txc_stamp::{Reach, Stamp};
use txc_tags::{Key, TagSet};

/// Errors of making an entry.
#[derive(Clone, Copy, Debug, PartialEq, Eq, Error)]
pub enum EntryError {
    /// The last known stamp is below the first.
    #[error("the last known stamp of the entry is below its first")]
    BadReach,
    /// The value has more than [`MAX_VALUE_LEN`] bytes.
    #[error("the value is longer than {MAX_VALUE_LEN} bytes")]
    ValueTooLong,
}

/// A cached result.
#[derive(Debug, Drop)]
pub struct Entry {
    /// The call that the result belongs to.
    pub key: Key,
    /// The result.
    pub value: Value,
    /// Its validity interval: the stamps on which it is known to hold, and whether it is still valid.
    pub reach: Reach,
    /// The tags of the rows that it depends on.
    pub tags: TagSet,
}

impl Entry {
    /// Makes an entry of a result that holds from `lo` to `known`, and, if it is `still` valid, until an event
    /// matches one of its tags. Fails if `known` is below `lo`, or else if the value has more than
    /// [`MAX_VALUE_LEN`] bytes. Does not allocate.
    pub fn new(
        key: Key,
        value: Vec<u8>,
        lo: Stamp,
        known: Stamp,
        still: bool,
        tags: TagSet,
    ) -> Result<Entry, EntryError>
        ensures answer { IfOk result (λ e. e ≡ record {
          key = key;
          value = value.items;
          reach = record { lo = lo; known = known; still = still };
          tags = tags;
        }) }
        ensures only_if { IsOk result ↔ ((lo ≤ known) × (vec_len value ≤ MAX_VALUE_LEN)) }
        ensures bad_reach { (result ≡ Err EntryError.BadReach) ↔ (known < lo) }
        ensures too_long { (result ≡ Err EntryError.ValueTooLong)
            ↔ ((lo ≤ known) × (MAX_VALUE_LEN < vec_len value)) }
    {
        let Ok(reach) = Reach::from_stamps(lo, known, still) else {
            return Err(EntryError::BadReach);
        };
        let Some(value) = Value::new(value) else {
            return Err(EntryError::ValueTooLong);
        };
        Ok(Entry {
            key,
            value,
            reach,
            tags,
        })
    }

    /// Makes an entry as [`Entry::new`] does, with a value of at most `most` bytes. Fails with the reply that a
    /// node gives to such an insertion in any state: the reach is empty, or else the value is too long.
    pub fn up_to(
        most: usize,
        key: Key,
        value: Vec<u8>,
        lo: Stamp,
        known: Stamp,
        still: bool,
        tags: TagSet,
    ) -> Result<Entry, Refusal>
        requires { most ≤ MOST_VALUE_LEN }
        ensures answer { IfOk result (λ e. e ≡ record {
          key = key;
          value = value.items;
          reach = record { lo = lo; known = known; still = still };
          tags = tags;
        }) }
        ensures only_if { IsOk result ↔ ((lo ≤ known) × (vec_len value ≤ most)) }
        ensures bad_reach { (result ≡ Err Refusal.BadReach) ↔ (known < lo) }
        ensures too_long { (result ≡ Err Refusal.ValueTooLong)
            ↔ ((lo ≤ known) × (most < vec_len value)) }
    {
        let Ok(reach) = Reach::from_stamps(lo, known, still) else {
            return Err(Refusal::BadReach);
        };
        let Some(value) = Value::up_to(most, value) else {
            return Err(Refusal::ValueTooLong);
        };
        Ok(Entry {
            key,
            value,
            reach,
            tags,
        })
    }

    /// Returns an equal entry. Fails only if memory cannot be allocated.
    pub fn copy(&self, alloc: Global) -> Result<Entry, AllocError>
        ensures { IfOk result (λ e. e ≡ self.now) }
    {
        Ok(Entry {
            key: self.key.copy(),
            value: self.value.copy(alloc)?,
            reach: self.reach,
            tags: self.tags.copy(alloc)?,
        })
    }
}
