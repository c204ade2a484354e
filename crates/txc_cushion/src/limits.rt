/// The most pins issued to a transaction.
pub const MAX_HANDED_OUT: usize = 32;

/// The most pins of a pincushion.
pub const MAX_PINS: usize = 1_024;

/// The most users of a pin at a time.
pub const MAX_USERS: u16 = 65_535;
