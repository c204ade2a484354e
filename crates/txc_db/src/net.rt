use txc_rows::Change;
use txc_tags::TagSet;

/// The net changes of the newest state, and the tags of the rows that they replace or put.
#[derive(Drop)]
pub(crate) struct Net {
    pub(crate) changes: Vec<Change>,
    pub(crate) tags: TagSet,
}
