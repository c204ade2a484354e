use txc_cushion::Pin;
use txc_db::HistoryFront;
use txc_stamp::Stamp;
use txc_txn_ports::Recorded;

/// Result of a committed read-only transaction: its snapshot, and every value that it read.
#[derive(Drop)]
pub struct Receipt {
    /// The pin of the stamp at which every value is correct, or `None` if no call was completed.
    pub pin: Option<Pin>,
    /// The completed calls, with their values, in order.
    pub answers: Vec<Recorded>,
    /// The history that the transaction has seen. It shows the pin.
    pub seen: HistoryFront,
}

/// Remaining work of a cancelled transaction.
#[derive(Drop)]
pub struct Unfinished {
    /// The stamps of the pins that must be returned to the pincushion.
    pub give_back: Vec<Stamp>,
    /// A stamp that was pinned and not added: its hold must be removed.
    pub unpin: Option<Stamp>,
}
