//! Number and size of a node's entries, for callers in C.
ghost use Rattle.std.specs.Prelude.{◌≡◌};
ghost use Rattle.txc_c.specs.Totals.{crossing_totals};

/// The number of a node's entries, the number of bytes of their values in all, and the number of entries that
/// trims have dropped.
#[repr(C)]
#[derive(Clone, Copy)]
pub struct TxcTotals {
    pub entries: usize,
    pub bytes: usize,
    pub trimmed: u64,
}

impl TxcTotals {
    /// Returns the struct of these totals. If `trimmed` exceeds a `u64`, it has the greatest one.
    pub(crate) fn of(entries: usize, bytes: usize, trimmed: u128) -> TxcTotals
        ensures { result ≡ crossing_totals entries bytes trimmed }
    {
        let trimmed = if trimmed > u64::MAX as u128 {
            u64::MAX
        } else {
            trimmed as u64
        };
        TxcTotals {
            entries,
            bytes,
            trimmed,
        }
    }
}
