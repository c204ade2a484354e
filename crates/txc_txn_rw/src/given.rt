use txc_app::Rows;
use txc_node::Value;
use txc_rows::Query;
use txc_tags::Key;

/// A result that a read-write transaction has read.
#[derive(Debug, Drop)]
pub enum Given {
    /// The value of a call.
    Value(Key, Value),
    /// The rows of a query.
    Rows(Query, Rows),
}
