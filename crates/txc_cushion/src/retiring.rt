//! Retiring pins.
ghost use Rattle.std.specs.Prelude.{◌≡◌, not, filter, reverse, IfOk};
ghost use Rattle.txc_cushion.specs.Entries.{stamps_of, is_retirable};

use crate::entry::PinEntry;
use std::alloc::{AllocError, Global};
use txc_stamp::Stamp;

/// Returns the stamps of the pins that may be retired, in ascending order. Fails only if memory cannot be
/// allocated.
pub(crate) fn retirable(
    alloc: Global,
    entries: &[PinEntry],
    now: u64,
    age: u64,
) -> Result<Vec<Stamp>, AllocError>
    ensures { IfOk result (λ stamps. stamps.items
        ≡ stamps_of (filter (is_retirable now age) (reverse entries.now))) }
{
    entries
        .iter()
        .rev()
        .filter(|entry| entry.is_retirable(now, age))
        .map(|entry| entry.pin.stamp)
        .collect(alloc)
}

/// Removes the pins that may be retired.
pub(crate) fn retire(entries: &mut Vec<PinEntry>, now: u64, age: u64)
    ensures { entries.new.items ≡ filter (λ e. not (is_retirable now age e)) entries.old.items }
{
    entries.retain(|entry| !entry.is_retirable(now, age));
}
