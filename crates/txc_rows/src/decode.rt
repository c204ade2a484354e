//! Versions from the rows that SQLite returns.

ghost use Rattle.std.specs.Prelude.{◌≡◌, ◌≤◌, ◌+◌, ◌++◌, length, IfOk, IfErr, OnOk, Some, map};
ghost use Rattle.std.specs.List.{AllByRecursion};
ghost use Rattle.txc_stamp.specs.declared.stamp.TheConstants.{MOST_STAMP};
ghost use Rattle.txc_rows.specs.Values.{AreBytes};
ghost use Rattle.txc_rows.specs.Placed.{version_of, AreAmong};
ghost use Rattle.txc_rows.specs.StoredVersion.{placed_from, version_shown};
ghost use Rattle.txc_rows.specs.LatestTable.{IsPlacedRow, IsShown};

use crate::placed::Placed;
use crate::row::Row;
use crate::store_error::StoreError;
use crate::version::Versioned;
use std::alloc::Global;
use txc_stamp::Stamp;
use txc_tags::Table;

fn death_from(number: Option<u32>) -> Option<Stamp>
    requires { (d : _) → number ≡ Some d → d ≤ MOST_STAMP }
    ensures { result ≡ number }
{
    match number {
        Some(number) => Some(Stamp::after(number as usize)),
        None => None,
    }
}

/// Makes a row that was stored.
fn row_from(table: Table, id: u32, group: u32, body: Vec<u8>) -> Row
    requires { AreBytes body.items }
    ensures { result ≡ record { table = table; id = id; group = group; body = body.items } }
{
    match Row::of_bytes(table, id, group, body) {
        Ok(row) => row,
        Err(_) => unreachable!(),
    }
}

fn version_from(table: Table, shown: &sqlite::Row) -> Result<Versioned, sqlite::Error>
    requires { IsShown table shown.now }
    ensures { IfOk result (λ v. v ≡ version_shown table shown.now) }
{
    let id: u32 = shown.get(0)?;
    let group: u32 = shown.get(1)?;
    let body: Vec<u8> = shown.get(2)?;
    let born: u32 = shown.get(3)?;
    let died: Option<u32> = shown.get(4)?;
    Ok(Versioned {
        row: row_from(table, id, group, body),
        born: Stamp::after(born as usize),
        died: death_from(died),
    })
}

/// Appends the versions of a table that the rows show to the found ones. Fails only if memory cannot be
/// allocated.
pub(crate) fn add_shown(
    table: Table,
    rows: &[sqlite::Row],
    found: &mut Vec<Versioned>,
) -> Result<(), StoreError>
    requires { AllByRecursion (IsShown table) rows.now }
    ensures found { OnOk result (found.new.items ≡ found.old.items ++ map (version_shown table) rows.now) }
    ensures refused { IfErr result (λ e. e ≡ StoreError.Memory) }
{
    found.reserve(rows.len())?;
    for shown in rows {
        // A stored version can be read back if there is memory for it.
        let Ok(version) = version_from(table, shown) else {
            return Err(StoreError::Memory);
        };
        found.push(version)?;
    }
    Ok(())
}

fn placed_from(table: Table, row: &sqlite::Row) -> Result<Placed, sqlite::Error>
    requires { IsPlacedRow table row.now }
    ensures { IfOk result (λ x. x ≡ placed_from row.now) }
{
    let place: u32 = row.get(0)?;
    let id: u32 = row.get(2)?;
    let born: u32 = row.get(3)?;
    let group: u32 = row.get(4)?;
    let body: Vec<u8> = row.get(5)?;
    let died: Option<u32> = row.get(6)?;
    Ok(Placed {
        place,
        version: Versioned {
            row: row_from(table, id, group, body),
            born: Stamp::after(born as usize),
            died: death_from(died),
        },
    })
}

/// Returns the versions of a table that the rows are, with their places.
pub(crate) fn all_placed_from(
    alloc: Global,
    table: Table,
    rows: &[sqlite::Row],
) -> Result<Vec<Placed>, sqlite::Error>
    requires { AllByRecursion (IsPlacedRow table) rows.now }
    ensures { IfOk result (λ xs. xs.items ≡ map placed_from rows.now) }
{
    let mut placed = Vec::new(alloc);
    for row in rows {
        let Ok(()) = placed.push(placed_from(table, row)?) else {
            return Err(sqlite::Error::SqliteFailure(sqlite::ErrorCode::OutOfMemory));
        };
    }
    Ok(placed)
}

/// Appends the versions of a table that the rows are to the found and to the known ones. Fails only if memory
/// cannot be allocated.
pub(crate) fn add_known(
    alloc: Global,
    table: Table,
    rows: &[sqlite::Row],
    known: &mut Vec<Placed>,
    found: &mut Vec<Versioned>,
) -> Result<(), StoreError>
    requires { AllByRecursion (IsPlacedRow table) rows.now }
    ensures known { (latest : _) → AreAmong latest known.old.items → AreAmong latest (map placed_from rows.now) → AreAmong latest known.new.items }
    ensures few { length known.new.items ≤ length known.old.items + length rows.now }
    ensures found { OnOk result (found.new.items ≡ found.old.items ++ map version_of (map placed_from rows.now)) }
    ensures refused { IfErr result (λ e. e ≡ StoreError.Memory) }
{
    for row in rows {
        let Ok(placed) = placed_from(table, row) else {
            return Err(StoreError::Memory);
        };
        found.push(placed.version.copy(alloc)?)?;
        known.push(placed)?;
    }
    Ok(())
}
