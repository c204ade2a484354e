//! Limits of settings.

/// The most nodes.
pub const MAX_NODES: usize = 64;

/// The most permits.
pub const MAX_PERMITS: usize = 1_024;

/// The longest time after which a pin is renewed, in milliseconds.
pub const MAX_RENEW_AFTER: u64 = 4_294_967_295;

/// The most records of a history.
pub const MAX_ROW_CAP: usize = 1_048_576;

/// The most workers.
pub const MAX_WORKERS: usize = 8;
