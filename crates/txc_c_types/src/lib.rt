//! Values that cross to callers in C: keys, tags, reaches and counts as structs of numbers, and the numbers
//! that calls return.
#![tactic(auto)]

mod crossing;
mod numbers;

pub use crossing::{
    TxcCounts, TxcKey, TxcReach, TxcStored, TxcTag, are_sizes, are_tags, is_insertion, stamp_of,
    tags_of, write_value,
};
pub use numbers::{
    ALREADY_OPEN, ANSWERED, BAD_ARGUMENT, BAD_REACH, CLOSED, COMPUTE, CONFLICT, DONE, EMPTY_RANGE,
    KEPT, MID_CALL, MISS, NO_MEMORY, NO_ROOM, NOT_OPEN, OUT_OF_ORDER, REFUSED, VALUE_TOO_LONG,
    number_of,
};
