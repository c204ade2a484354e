//! The statements that read last versions for queries.

ghost use Rattle.std.specs.Prelude.{IfOk};
ghost use Rattle.txc_rows.specs.declared.query.Query.TheVariants.{ById, ByGroup, All, Range};
ghost use Rattle.txc_rows.specs.Placed.{is_row_left};
ghost use Rattle.txc_rows.specs.LatestTable.{latest_in, ArePassing, IsKept, IsReading, IsSame};

use crate::query::Query;
use crate::texts::{READ_GROUP, READ_PLACED, READ_RANGE, READ_ROW, READ_TABLE};
use sqlite::{Connection, Error, MemStore, params};
use std::alloc::Global;
use txc_tags::Table;

fn read_table(
    conn: &mut Connection<MemStore>,
    table: Table,
    from: u32,
    most: u32,
) -> Result<Vec<sqlite::Row>, Error>
    requires { IsKept conn.old }
    ensures { IsReading (All table) from most conn.old conn.new result }
{
    conn.query_all(READ_TABLE, params![u32::from(table.number()), most, from])
}

fn read_row(
    conn: &mut Connection<MemStore>,
    table: Table,
    id: u32,
    from: u32,
    most: u32,
) -> Result<Vec<sqlite::Row>, Error>
    requires { IsKept conn.old }
    ensures { IsReading (ById table id) from most conn.old conn.new result }
{
    conn.query_all(READ_ROW, params![u32::from(table.number()), most, from, id])
}

fn read_group(
    conn: &mut Connection<MemStore>,
    table: Table,
    group: u32,
    from: u32,
    most: u32,
) -> Result<Vec<sqlite::Row>, Error>
    requires { IsKept conn.old }
    ensures { IsReading (ByGroup table group) from most conn.old conn.new result }
{
    conn.query_all(
        READ_GROUP,
        params![u32::from(table.number()), most, from, group],
    )
}

fn read_range(
    conn: &mut Connection<MemStore>,
    table: Table,
    first: u32,
    last: u32,
    from: u32,
    most: u32,
) -> Result<Vec<sqlite::Row>, Error>
    requires { IsKept conn.old }
    ensures { IsReading (Range table first last) from most conn.old conn.new result }
{
    conn.query_all(
        READ_RANGE,
        params![u32::from(table.number()), most, from, first, last],
    )
}

/// Returns the last versions that match and did not die before the stamp, at most `most` of them, in any order.
pub(crate) fn read(
    conn: &mut Connection<MemStore>,
    query: &Query,
    from: u32,
    most: u32,
) -> Result<Vec<sqlite::Row>, Error>
    requires { IsKept conn.old }
    ensures { IsReading query.now from most conn.old conn.new result }
{
    match *query {
        Query::ById(table, id) => read_row(conn, table, id, from, most),
        Query::ByGroup(table, group) => read_group(conn, table, group, from, most),
        Query::All(table) => read_table(conn, table, from, most),
        Query::Range(table, first, last) => read_range(conn, table, first, last, from, most),
    }
}

/// Returns the last versions of a table and id that did not die before the stamp, with their places, in any
/// order.
pub(crate) fn read_placed(
    conn: &mut Connection<MemStore>,
    table: Table,
    id: u32,
    from: u32,
) -> Result<Vec<sqlite::Row>, Error>
    requires { IsKept conn.old }
    ensures same { IsSame conn.old conn.new }
    ensures versions { IfOk result (λ rows. ArePassing table (is_row_left table id from) (latest_in conn.old) rows.items) }
{
    conn.query_all(READ_PLACED, params![u32::from(table.number()), id, from])
}
