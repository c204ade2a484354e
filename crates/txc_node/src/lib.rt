//! The versioned cache of one node, after Ports, Clements, Zhang, Madden and Liskov, "Transactional Consistency
//! and Automatic Management in an Application Data Cache" (OSDI 2010). Each [`Entry`] is the result of a call
//! with its validity interval; an event of the database closes, that is invalidates, the entries whose tags it
//! matches.
//!
//! A [`NodeCore`] is one list of entries, the most recently used first, the stamp of the last event that it
//! took, and the tags of the last events. It changes by five steps: [`NodeCore::lookup`], [`NodeCore::insert`],
//! [`NodeCore::event`], [`NodeCore::sweep`] and [`NodeCore::trim`]; an [`Op`] names a step, and a [`Reply`] is
//! its result. The capacity counts entries, and a trim counts the bytes of their values. The orders among
//! entries, the ties, the replay of recent events at an insertion, and the trim are this project's own.
#![tactic(auto)]

mod bucket;
mod call_key;
mod closing;
mod counts;
mod entry;
mod hit;
mod indexed;
mod key_index;
mod keyed;
pub mod laws;
mod mixing;
mod node;
mod op;
mod others;
mod place;
mod record;
mod refusal;
mod remaining_entries;
mod replay;
mod reply;
mod search;
mod stored;
mod sweeping;
mod tag_index;
mod value;
mod versions;
mod weighed;

pub use counts::{Counts, FunctionCounts};
pub use entry::{Entry, EntryError};
pub use hit::{Hit, HitValue};
pub use node::{
    EmptyRange, Inserted, MAX_CAPACITY, MAX_RECENT, MOST_CAPACITY, NodeCore, OutOfOrder,
};
pub use op::Op;
pub use record::Record;
pub use refusal::Refusal;
pub use remaining_entries::RemainingEntries;
pub use reply::Reply;
pub use search::Search;
pub use value::{MAX_VALUE_LEN, MOST_VALUE_LEN, Value};
pub use versions::Found;
