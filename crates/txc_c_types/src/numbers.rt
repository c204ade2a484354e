//! The numbers that calls return.
ghost use Rattle.std.specs.Prelude.{◌≡◌};
ghost use Rattle.txc_c_types.specs.Numbers.{refusal_number};

use txc_node::Refusal;

/// Success: a hit, a stored entry, an event that was taken.
pub const DONE: u32 = 0;
/// No entry of the key holds at a stamp of the range.
pub const MISS: u32 = 1;
/// The old entry ends no earlier, and stays.
pub const KEPT: u32 = 2;
/// A hit whose value is longer than the buffer: its length is given.
pub const NO_ROOM: u32 = 3;
/// The handle has no node, or no site.
pub const CLOSED: u32 = 4;
/// The handle already has a node or a site.
pub const ALREADY_OPEN: u32 = 5;
/// An argument is out of its range: a function, a table, a stamp, a size.
pub const BAD_ARGUMENT: u32 = 6;
/// The stamps of a lookup end before they begin.
pub const EMPTY_RANGE: u32 = 7;
/// The last known stamp of an entry is below its first.
pub const BAD_REACH: u32 = 8;
/// The event does not directly follow the last one that was taken.
pub const OUT_OF_ORDER: u32 = 9;
/// The value is longer than a node stores.
pub const VALUE_TOO_LONG: u32 = 10;
/// Memory cannot be allocated.
pub const NO_MEMORY: u32 = 11;

/// The caller must compute the function of the call that it requested.
pub const COMPUTE: u32 = 12;
/// The function being computed has its answer, and continues.
pub const ANSWERED: u32 = 13;
/// No transaction of that number is open for this call, or no function is being computed.
pub const NOT_OPEN: u32 = 14;
/// A commit while a call is open. The transaction stays as it was.
pub const MID_CALL: u32 = 15;
/// The call or the operation failed, or no transaction can begin.
pub const REFUSED: u32 = 16;
/// A commit conflicts: what the transaction has read was changed since.
pub const CONFLICT: u32 = 18;

/// Returns the number of an error.
pub fn number_of(refusal: Refusal) -> u32
    ensures { result ≡ refusal_number refusal }
{
    match refusal {
        Refusal::EmptyRange => EMPTY_RANGE,
        Refusal::BadReach => BAD_REACH,
        Refusal::OutOfOrder(_) => OUT_OF_ORDER,
        Refusal::ValueTooLong => VALUE_TOO_LONG,
        Refusal::Memory => NO_MEMORY,
    }
}
