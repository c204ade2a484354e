use txc_tags::Key;
use txc_txn::Receipt;
use txc_txn_ports::{Bounds, TxnError};

/// A read-only transaction to run: its number in its batch, the bounds of its snapshot, and its calls, in
/// order.
#[derive(Debug, Drop)]
pub struct Job {
    pub number: u32,
    pub bounds: Bounds,
    pub keys: Vec<Key>,
}

/// Outcome of a job.
#[derive(Drop)]
pub enum Outcome {
    /// All of its calls were completed.
    Receipt(Receipt),
    /// It had no memory to begin, or this is the error of its first failed call. The transaction was aborted.
    Refused(TxnError),
}

/// The outcome of the job of a number.
#[derive(Drop)]
pub struct Receipted {
    pub number: u32,
    pub outcome: Outcome,
}
