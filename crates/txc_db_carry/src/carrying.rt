//! Rollover to a new database: it reads the old state by ranges of ids, table by table, and commits the rows of
//! each range.
ghost use Rattle.std.specs.Prelude.{◌≡◌, ◌≢◌, ◌⊎◌, ◌+◌, ◌≤◌, [], true, false, length, map, Err, None, IfOk, OnOk, OnErr, IfErr, IfSome};
ghost use Rattle.txc_rows.specs.declared.query.Change.TheVariants.{Put};
ghost use Rattle.txc_db.specs.History.{state_at};
ghost use Rattle.txc_db.specs.DatabaseValue.{newest, newest_state, after_commit, after_vacuum};
ghost use Rattle.txc_db.specs.Room.{events_room};
ghost use Rattle.txc_db.specs.Calls.{IsCommitRefused};
ghost use Rattle.txc_db_carry.specs.Carry.{HasCarried, IsBrokenBy, IsCarryRefused, IsCarryStepRefused, IsNotTooMany};
ghost use Rattle.txc_db_carry.specs.declared.error.CarryError.TheVariants.{New};
ghost use Rattle.txc_db_carry.specs.Rooms.{IsHistoryFor, room_for};

use crate::beginning::new_database;
use crate::error::CarryError;
use std::alloc::{AllocError, Global};
use txc_db::{DbCore, DbError};
use txc_rows::{Change, Query, Row, StoreError, net_changes_are_differences, states_are_maps};
use txc_stamp::Stamp;
use txc_stream::MAX_CAPACITY;
use txc_tags::{LAST_TABLE, Table, TagSet};

/// Returns a put of each row. Fails only if memory cannot be allocated.
fn puts_of(alloc: Global, rows: Vec<Row>) -> Result<Vec<Change>, AllocError>
    ensures { IfOk result (λ puts. puts.items ≡ map Put rows.items) }
{
    let mut puts = Vec::new(alloc);
    for row in rows {
        puts.push(Change::Put(row))?;
    }
    Ok(puts)
}

/// Commits a put of each row.
fn put_rows(alloc: Global, new: &mut DbCore, rows: Vec<Row>) -> Result<Stamp, DbError>
    requires whole { new.old.broken ≡ false }
    requires tags { new.old.horizon ≡ 0 }
    ensures after { OnOk result (new.new ≡ after_commit new.old (map Put rows.items)) }
    ensures refused { IfErr result (IsCommitRefused new.old 0 [] (map Put rows.items)) }
    ensures broken { IfErr result (λ refusal. IsBrokenBy new.old.events new.new (New refusal)) }
{
    match puts_of(alloc, rows) {
        Ok(puts) => new.commit(alloc, Stamp::ZERO, &TagSet::new(alloc), &puts),
        Err(_) => Err(DbError::Memory),
    }
}

/// Carries over the rows of a table with ids from the first to the last. If they have more versions than a
/// query may look at, it carries over each half of the ids by itself.
fn carry_range(
    alloc: Global,
    old: &mut DbCore,
    new: &mut DbCore,
    stamp: Stamp,
    table: Table,
    first: u32,
    last: u32,
) -> Result<(), CarryError>
    requires whole { old.old.broken ≡ false }
    requires stamp { stamp ≡ newest old.old }
    requires some { first ≤ last }
    requires carried { HasCarried old.old new.old.events table first new.old }
    ensures same { old.new ≡ old.old }
    ensures carried { OnOk result
        (HasCarried old.old new.old.events table (last + 1) new.new) }
    ensures refused { IfErr result (IsCarryStepRefused old.old (events_room new.old.events)) }
    ensures broken { IfErr result (IsBrokenBy new.old.events new.new) }
{
    states_are_maps();
    net_changes_are_differences();
    old.is_sound();
    match old.query(alloc, &Query::Range(table, first, last), stamp) {
        Ok(found) => match put_rows(alloc, new, found.rows) {
            Ok(_) => Ok(()),
            Err(refusal) => Err(CarryError::New(refusal)),
        },
        Err(DbError::Store(StoreError::TooManyRows)) => {
            if first == last {
                return Err(CarryError::TooManyVersions(table, first));
            }
            let middle = first + (last - first) / 2;
            carry_range(alloc, old, new, stamp, table, first, middle)?;
            carry_range(alloc, old, new, stamp, table, middle + 1, last)
        }
        Err(refusal) => Err(CarryError::Old(refusal)),
    }
}

/// Carries over the rows of a table.
fn carry_table(
    alloc: Global,
    old: &mut DbCore,
    new: &mut DbCore,
    stamp: Stamp,
    table: Table,
) -> Result<(), CarryError>
    requires whole { old.old.broken ≡ false }
    requires stamp { stamp ≡ newest old.old }
    requires carried { HasCarried old.old new.old.events table 0 new.old }
    ensures same { old.new ≡ old.old }
    ensures carried { OnOk result
        (HasCarried old.old new.old.events (table + 1) 0 new.new) }
    ensures refused { IfErr result (IsCarryStepRefused old.old (events_room new.old.events)) }
    ensures broken { IfErr result (IsBrokenBy new.old.events new.new) }
{
    old.is_sound();
    carry_range(alloc, old, new, stamp, table, 0, u32::MAX)
}

/// Carries over the rows of all tables.
fn carry_tables(
    alloc: Global,
    old: &mut DbCore,
    new: &mut DbCore,
    stamp: Stamp,
) -> Result<(), CarryError>
    requires whole { old.old.broken ≡ false }
    requires stamp { stamp ≡ newest old.old }
    requires carried { HasCarried old.old new.old.events 0 0 new.old }
    ensures same { old.new ≡ old.old }
    ensures carried { OnOk result
        (HasCarried old.old new.old.events (LAST_TABLE + 1) 0 new.new) }
    ensures refused { IfErr result (IsCarryStepRefused old.old (events_room new.old.events)) }
    ensures broken { IfErr result (IsBrokenBy new.old.events new.new) }
{
    for number in 0..LAST_TABLE + 1 {
        match carry_table(alloc, old, new, stamp, Table::new(number).unwrap()) {
            Ok(()) => {}
            Err(refusal) => return Err(refusal),
        }
    }
    Ok(())
}

/// Returns the newest stamp. Fails only if memory cannot be allocated.
fn newest_stamp(old: &DbCore) -> Result<Stamp, AllocError>
    ensures { IfOk result (λ stamp. stamp ≡ newest old.now) }
{
    Ok(old.front()?.newest())
}

/// Makes a database whose newest state is the old one's, with an event log for `room` events, or, if that is
/// `None`, with a ghost history. It allows as many versions to match a query as the old one.
///
/// It vacuums the old one first, so that each row has one version if no stamp is held. The first events of the
/// new one put the rows: at most one event for each row, and mostly one for several hundred.
pub fn carry(alloc: Global, old: &mut DbCore, room: Option<usize>) -> Result<DbCore, CarryError>
    requires { IfSome room (λ room. (1 ≤ room) × (room ≤ MAX_CAPACITY)) }
    ensures state { IfOk result (λ new. state_at new.history (length new.history)
        ≡ state_at old.old.history (length old.old.history)) }
    ensures whole { IfOk result (λ new. new.broken ≡ false) }
    ensures holds { IfOk result (λ new. new.holds ≡ []) }
    ensures kept { IfOk result (λ new. new.horizon ≡ 0) }
    ensures limit { IfOk result (λ new. new.most ≡ old.old.most) }
    ensures room { IfOk result (λ new. IsHistoryFor room new.events) }
    ensures few { IfOk result (λ new. length new.history ≤ length (newest_state new)) }
    ensures vacuumed { OnOk result (old.new ≡ after_vacuum old.old) }
    ensures left { OnErr result ((old.new ≡ old.old) ⊎ (old.new ≡ after_vacuum old.old)) }
    ensures refused { IfErr result (IsCarryRefused old.new (room_for room)) }
    ensures broken { old.old.broken ≡ true → result ≡ Err (CarryError.Old DbError.Broken) }
    ensures taken { room ≡ None → result ≢ Err (CarryError.New DbError.Broken) }
    ensures one { old.old.holds ≡ [] → IfErr result IsNotTooMany }
{
    if let Err(refusal) = old.vacuum() {
        return Err(CarryError::Old(refusal));
    }
    old.is_sound();
    let Ok(stamp) = newest_stamp(old) else {
        return Err(CarryError::Old(DbError::Memory));
    };
    match new_database(alloc, room) {
        Ok(mut new) => {
            new.allow(old.allowed());
            match carry_tables(alloc, old, &mut new, stamp) {
                Ok(()) => Ok(new),
                Err(refusal) => Err(refusal),
            }
        }
        Err(refusal) => Err(CarryError::New(refusal)),
    }
}
