//! Results of maintenance.

/// Result of a maintenance run: retired pins, the horizon, and entries that the node dropped.
#[repr(C)]
#[derive(Clone, Copy)]
pub struct TxcKept {
    pub retired: usize,
    pub horizon: u32,
    pub swept: usize,
}
