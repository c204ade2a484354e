//! Histories that only grow, and fronts: prefixes of them that a thread has observed. A history is stored in a
//! row of cells, each set at most once, or is ghost: it exists for the verifier only.
//!
//! Threads share a row by `&`: no call waits, and only `new` allocates. A caller keeps a [`Front`], the records
//! that it has seen so far, and each call that sees one more lengthens it. Of any two fronts of one history,
//! one is a prefix of the other, whichever threads they come from: callers who compare fronts can rely on that.
//!
//! A ghost history uses no memory and has no end. The owner of its [`AppendToken`] lengthens it, and each front
//! of it shows a prefix of what this owner has appended.
//!
//! A [`Window`] keeps a note of each of the last records of a ghost history. Notes can also be posted, in
//! segments of cells: a [`Cursor`] reads them one after the other, and a segment that each cursor has passed is
//! dropped.
#![tactic(auto)]

mod append_token;
mod cursor;
mod ghost_record;
mod laws;
mod published;
mod publisher;
mod row;
mod seen;
mod segment;
mod window;

pub use append_token::AppendToken;
pub use cursor::Cursor;
pub use ghost_record::{GhostRecord, GhostRecords};
pub use laws::{
    longer_of_two, prefix_length, prefix_of_appended, prefix_of_itself, prefix_of_prefix,
    prefix_places,
};
pub use published::{Published, Publishes};
pub use publisher::{NextCell, Publisher};
pub use row::{AppendError, EventRow, Front, MAX_CAPACITY, Refused};
pub use segment::{SEGMENT_LEN, Segment};
pub use window::{Window, Witnessed};
