use txc_stamp::Reach;
use txc_tags::{Key, TagSet};

/// An activation that has begun and is not done, with the answers that it got.
#[derive(Debug, Drop)]
pub struct Frame {
    /// The call that it computes.
    pub key: Key,
    /// The number of answers that it got.
    pub answers: usize,
    /// The stamps at which all of them hold. `None` if it got no answer, or none that depends on a row.
    pub reach: Option<Reach>,
    /// The tags that they depend on.
    pub tags: TagSet,
}
