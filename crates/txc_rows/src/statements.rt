//! The statements that make, drop and rebuild the table of last versions.

ghost use Rattle.std.specs.Prelude.{◌≡◌, ◌++◌, ◌∷◌, [], true, map, OnOk};
ghost use Rattle.std.specs.List.Sorted.{IsPermutation};
ghost use Rattle.std.specs.List.{AllByRecursion};
ghost use Rattle.sqlite.specs.Held.{state};
ghost use Rattle.sqlite.specs.Steps.{over_memory, IsEmpty};
ghost use Rattle.txc_rows.specs.Placed.{placed_left};
ghost use Rattle.txc_rows.specs.StoredVersion.{AreCells, placed_from};
ghost use Rattle.txc_rows.specs.LatestTable.{latest_in, HasNoTable, HasTable, HasLatest, IsKept, IsStep, IsCall, IsLeaving};

use crate::texts::{ADD_LATEST, DROP_LATEST, MAKE_LATEST, READ_LEFT};
use sqlite::{Connection, Error, MemStore, Transaction, params};

fn make_latest(tx: &mut Transaction<'_, MemStore>) -> Result<usize, Error>
    requires table { HasNoTable tx.old.conn.now }
    requires inside { tx.old.conn.now.in_transaction ≡ true }
    ensures same_reference { tx.new.conn.ghost_name ≡ tx.old.conn.ghost_name }
    ensures step { IsStep (HasLatest []) tx.old.conn.now tx.new.conn.now result }
{
    tx.execute(MAKE_LATEST, &[])
}

fn drop_latest(tx: &mut Transaction<'_, MemStore>) -> Result<usize, Error>
    requires table { HasTable tx.old.conn.now }
    requires inside { tx.old.conn.now.in_transaction ≡ true }
    ensures same_reference { tx.new.conn.ghost_name ≡ tx.old.conn.ghost_name }
    ensures step { IsStep HasNoTable tx.old.conn.now tx.new.conn.now result }
{
    tx.execute(DROP_LATEST, &[])
}

/// Makes the table in an empty store.
pub(crate) fn create(conn: &mut Connection<MemStore>) -> Result<(), Error>
    requires { IsEmpty (state over_memory conn.old) }
    ensures kept { OnOk result (IsKept conn.new) }
    ensures empty { OnOk result (latest_in conn.new ≡ []) }
{
    let mut tx = conn.transaction();
    make_latest(&mut tx)?;
    tx.commit()
}

// ---- leaving out what died

/// Adds a version that was read.
fn add_row(tx: &mut Transaction<'_, MemStore>, row: &sqlite::Row) -> Result<usize, Error>
    requires table { HasTable tx.old.conn.now }
    requires inside { tx.old.conn.now.in_transaction ≡ true }
    requires cells { AreCells row.now }
    ensures same_reference { tx.new.conn.ghost_name ≡ tx.old.conn.ghost_name }
    ensures step { IsStep (HasLatest (latest_in tx.old.conn.now ++ placed_from row.now ∷ []))
        tx.old.conn.now tx.new.conn.now result }
{
    let columns = [
        row.get_ref(0)?,
        row.get_ref(1)?,
        row.get_ref(2)?,
        row.get_ref(3)?,
        row.get_ref(4)?,
        row.get_ref(5)?,
        row.get_ref(6)?,
    ];
    tx.execute(ADD_LATEST, &columns)
}

fn fill_latest(tx: &mut Transaction<'_, MemStore>, rows: &[sqlite::Row]) -> Result<(), Error>
    requires table { HasTable tx.old.conn.now }
    requires inside { tx.old.conn.now.in_transaction ≡ true }
    requires cells { AllByRecursion AreCells rows.now }
    ensures same_reference { tx.new.conn.ghost_name ≡ tx.old.conn.ghost_name }
    ensures step { IsStep (HasLatest (latest_in tx.old.conn.now ++ map placed_from rows.now))
        tx.old.conn.now tx.new.conn.now result }
{
    for row in rows {
        add_row(tx, row)?;
    }
    Ok(())
}

/// Returns the versions that did not die before the stamp.
fn read_left(conn: &mut Connection<MemStore>, from: u32) -> Result<Vec<sqlite::Row>, Error>
    requires { IsKept conn.old }
    ensures { IsLeaving from conn.old conn.new result }
{
    conn.query_all(READ_LEFT, params![from])
}

/// Rebuilds the table with these versions.
fn refill(tx: &mut Transaction<'_, MemStore>, rows: &[sqlite::Row]) -> Result<(), Error>
    requires table { HasTable tx.old.conn.now }
    requires inside { tx.old.conn.now.in_transaction ≡ true }
    requires cells { AllByRecursion AreCells rows.now }
    ensures same_reference { tx.new.conn.ghost_name ≡ tx.old.conn.ghost_name }
    ensures step { IsStep (HasLatest (map placed_from rows.now)) tx.old.conn.now tx.new.conn.now result }
{
    drop_latest(tx)?;
    make_latest(tx)?;
    fill_latest(tx, rows)
}

/// Rebuilds the table with the versions that did not die before the stamp, and returns how many these are.
pub(crate) fn rebuild(conn: &mut Connection<MemStore>, from: u32) -> Result<usize, Error>
    requires { IsKept conn.old }
    ensures { IsCall (IsPermutation (placed_left from (latest_in conn.old))) conn.old conn.new result }
{
    let left = read_left(conn, from)?;
    let mut tx = conn.transaction();
    refill(&mut tx, &left)?;
    tx.commit()?;
    Ok(left.len())
}
