//! The texts of the statements on the table of last versions, which has the last version of each table, id and
//! group.

/// The second key finds the versions of a group.
pub(crate) const MAKE_LATEST: &str =
    "CREATE TABLE latest (place INTEGER NOT NULL, table_number INTEGER NOT NULL, id INTEGER NOT NULL, \
     born INTEGER NOT NULL, group_number INTEGER NOT NULL, body BLOB NOT NULL, died INTEGER, \
     PRIMARY KEY (table_number, id, group_number), UNIQUE (table_number, group_number, id), \
     CHECK (died IS NULL OR born < died)) STRICT";

pub(crate) const DROP_LATEST: &str = "DROP TABLE latest";

/// Adds a version with its place.
pub(crate) const ADD_LATEST: &str =
    "INSERT INTO latest (place, table_number, id, born, group_number, body, died) \
     VALUES (?1, ?2, ?3, ?4, ?5, ?6, ?7)";

/// Ends the current version of a table and id.
pub(crate) const END_VERSION: &str =
    "UPDATE latest SET died = ?3 WHERE table_number = ?1 AND id = ?2 AND died IS NULL";

/// Replaces the last version of its table, id and group by a new one.
pub(crate) const RENEW_LATEST: &str =
    "UPDATE latest SET place = ?4, born = ?5, body = ?6, died = NULL \
     WHERE table_number = ?1 AND id = ?2 AND group_number = ?3";

/// The versions of a table and id that a put ends or replaces: the current one, and the last of the new one's
/// group.
pub(crate) const READ_LAST: &str =
    "SELECT place, table_number, id, born, group_number, body, died FROM latest \
     WHERE table_number = ?1 AND id = ?2 AND (died IS NULL OR group_number = ?3)";

/// The versions of a table and id that did not die before a stamp.
pub(crate) const READ_PLACED: &str =
    "SELECT place, table_number, id, born, group_number, body, died FROM latest \
     WHERE table_number = ?1 AND id = ?2 AND (died IS NULL OR died >= ?3)";

/// The versions that did not die before a stamp.
pub(crate) const READ_LEFT: &str =
    "SELECT place, table_number, id, born, group_number, body, died FROM latest \
     WHERE died IS NULL OR died >= ?1";

// ---- what queries read

/// Versions of a table that did not die before a stamp, at most as many as the limit. Each text adds a test
/// that the store answers by a key of the table. They come in no order, since sorting would read all of them.
macro_rules! read_text {
    ($test:literal) => {
        concat!(
            "SELECT id, group_number, body, born, died FROM latest WHERE table_number = ?1",
            $test,
            " AND (died IS NULL OR died >= ?3) LIMIT ?2"
        )
    };
}

pub(crate) const READ_TABLE: &str = read_text!("");

pub(crate) const READ_ROW: &str = read_text!(" AND id = ?4");

pub(crate) const READ_GROUP: &str = read_text!(" AND group_number = ?4");

pub(crate) const READ_RANGE: &str = read_text!(" AND id >= ?4 AND id <= ?5");
