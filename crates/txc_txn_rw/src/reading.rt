use txc_rows::Query;
use txc_tags::TagSet;

/// A query that was requested, and the tags of everything read, including this query.
#[derive(Drop)]
pub struct Reading {
    pub(crate) query: Query,
    pub(crate) tags: TagSet,
}
