use txc_stamp::Stamp;

/// The snapshot in which a query runs.
#[derive(Clone, Copy, Debug, PartialEq, Eq)]
pub enum Choice {
    /// The present, which must be pinned first.
    Present,
    /// The stamp of the newest member.
    At(Stamp),
}
