//! Results of searches.
use crate::versions::Found;
use txc_stamp::Stamp;

/// Result of searching the entries of a key at the stamps from `lo` to `hi`, in the node as it was then.
#[derive(Clone, Copy, Debug)]
pub struct Search {
    pub lo: Stamp,
    pub hi: Stamp,
    pub(crate) found: Option<Found>,
    /// Number of entries whose key or span it looked at.
    pub looked: u64,
}
