//! Places of stamps among the pins in a list.
ghost use Rattle.std.specs.Prelude.{◌≡◌, ◌≤◌, nat_lt, false, length, filter, OnOk, OnErr};
ghost use Rattle.txc_cushion.specs.Entries.{EntriesDescend, is_pinned, with_entry};

use crate::entry::PinEntry;
use crate::pin::Pin;
use std::alloc::AllocError;
use txc_stamp::Stamp;

/// Returns `true` if there is a pin of this stamp.
pub(crate) fn is_pinned(entries: &[PinEntry], stamp: Stamp) -> bool
    ensures { result ≡ is_pinned stamp entries.now }
{
    entries.iter().any(|entry| entry.pin.stamp == stamp)
}

// Returns how many pins have greater stamps.
fn count_newer(entries: &[PinEntry], stamp: Stamp) -> usize
    ensures count { result ≡ length (filter (λ e. nat_lt stamp e.pin.stamp) entries.now) }
    ensures most { result ≤ length entries.now }
{
    entries
        .iter()
        .filter(|entry| stamp < entry.pin.stamp)
        .count()
}

/// Inserts a pin with one user after those with greater stamps. Fails, and changes nothing, only if memory
/// cannot be allocated.
pub(crate) fn put(entries: &mut Vec<PinEntry>, pin: Pin) -> Result<(), AllocError>
    requires falls { EntriesDescend entries.old.items }
    requires absent { is_pinned pin.stamp entries.old.items ≡ false }
    ensures after { OnOk result (entries.new.items
        ≡ with_entry (record { pin = pin; users = 1 }) entries.old.items) }
    ensures unchanged { OnErr result (entries.new.items ≡ entries.old.items) }
{
    let place = count_newer(entries, pin.stamp);
    let entry = PinEntry { pin, users: 1 };
    let Ok(()) = entries.insert(place, entry) else {
        return Err(AllocError);
    };
    Ok(())
}
