//! Users of returned pins.
ghost use Rattle.std.specs.Prelude.{◌≡◌, ◌+◌, ◌-◌, ◌<◌, ◌≤◌, ◌==◌, ◌&&◌, nat_lt, if◌then◌else◌, All, map, length, slice_index_or, true, OnErr, OnOk, IfErr};
ghost use Rattle.txc_cushion.specs.Entries.{stand_in_order, users_of, times, without_users, EntriesDescend};
ghost use Rattle.txc_cushion.specs.Refusals.{HaveUsers, IsFirstUnused};

use crate::entry::PinEntry;
use crate::error::UnknownPin;
use txc_stamp::Stamp;

// Returns how many times the stamp is in the list.
fn times(stamp: Stamp, stamps: &[Stamp]) -> usize
    ensures count { result ≡ times stamp stamps.now }
    ensures most { result ≤ length stamps.now }
{
    stamps.iter().filter(|s| **s == stamp).count()
}

// Returns how many users the pin of this stamp has, or `None` if there is no pin of it.
fn users_of(entries: &[PinEntry], stamp: Stamp) -> u16
    ensures { result ≡ users_of stamp entries.now }
{
    for entry in entries {
        if entry.pin.stamp == stamp {
            return entry.users;
        }
    }
    0
}

// Fails if a stamp in the list has no user left.
fn check_users(entries: &[PinEntry], stamps: &[Stamp]) -> Result<(), UnknownPin>
    ensures only_if { OnOk result (HaveUsers entries.now stamps.now) }
    ensures refused { IfErr result (λ e. IsFirstUnused entries.now stamps.now e.stamp) }
{
    for (place, stamp) in stamps.iter().enumerate() {
        if times(*stamp, &stamps[..place]) >= users_of(entries, *stamp) as usize {
            return Err(UnknownPin { stamp: *stamp });
        }
    }
    Ok(())
}

// Removes one user of the entry for each time that its stamp is in the list.
fn take_users_of(entry: &mut PinEntry, stamps: &[Stamp])
    requires { times entry.old.pin.stamp stamps.now ≤ entry.old.users }
    ensures { entry.new ≡ without_users stamps.now entry.old }
{
    let PinEntry { pin, users } = *entry;
    entry.users = users - times(pin.stamp, stamps) as u16;
}

// Removes one user of each entry for each time that its stamp is in the list.
fn take_users_each(entries: &mut [PinEntry], stamps: &[Stamp])
    requires { All (λ e. times e.pin.stamp stamps.now ≤ e.users) entries.old }
    ensures { entries.new ≡ map (without_users stamps.now) entries.old }
{
    for entry in entries.iter_mut() {
        take_users_of(entry, stamps);
    }
}

// Returns `true` if the stamps are among those of the entries in this order, each with a user.
fn stand_in_order(entries: &[PinEntry], stamps: &[Stamp]) -> bool
    ensures { result ≡ stand_in_order entries.now stamps.now }
{
    let mut found = 0;
    for entry in entries {
        if found < stamps.len() && entry.pin.stamp == stamps[found] {
            if entry.users == 0 {
                return false;
            }
            found += 1;
        }
    }
    found == stamps.len()
}

// Removes a user of the entry if its stamp is the next one in the list. Returns how many stamps were found by
// then.
fn take_found(entry: &mut PinEntry, stamps: &[Stamp], found: usize) -> usize
    requires { nat_lt found (length stamps.now) && (entry.old.pin.stamp == slice_index_or stamps.now found 0) ≡ true
        → 0 < entry.old.users }
    ensures users { entry.new
        ≡ (if nat_lt found (length stamps.now) && (entry.old.pin.stamp == slice_index_or stamps.now found 0)
        then record entry.old { users = entry.old.users - 1 } else entry.old) }
    ensures found { result
        ≡ (if nat_lt found (length stamps.now) && (entry.old.pin.stamp == slice_index_or stamps.now found 0)
        then found + 1 else found) }
{
    if found < stamps.len() && entry.pin.stamp == stamps[found] {
        entry.users -= 1;
        return found + 1;
    }
    found
}

// Removes one user for each of the stamps in one pass; the stamps are in the order of the entries.
fn take_users_in_order(entries: &mut [PinEntry], stamps: &[Stamp])
    requires falls { EntriesDescend entries.old }
    requires order { stand_in_order entries.old stamps.now ≡ true }
    ensures { entries.new ≡ map (without_users stamps.now) entries.old }
{
    let mut found = 0;
    for entry in entries.iter_mut() {
        found = take_found(entry, stamps, found);
    }
}

/// Removes one user for each stamp in the list, in one pass if the stamps are in the order in which they were
/// issued. Fails, and changes nothing, if a stamp has no user left.
pub(crate) fn give_back(entries: &mut Vec<PinEntry>, stamps: &[Stamp]) -> Result<(), UnknownPin>
    requires { EntriesDescend entries.old.items }
    ensures after { OnOk result (entries.new.items ≡ map (without_users stamps.now) entries.old.items) }
    ensures only_if { OnOk result (HaveUsers entries.old.items stamps.now) }
    ensures unchanged { OnErr result (entries.new.items ≡ entries.old.items) }
    ensures refused { IfErr result (λ e. IsFirstUnused entries.old.items stamps.now e.stamp) }
{
    if stand_in_order(entries, stamps) {
        take_users_in_order(entries, stamps);
        return Ok(());
    }
    check_users(entries, stamps)?;
    take_users_each(entries, stamps);
    Ok(())
}
