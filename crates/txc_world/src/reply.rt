//! Replies to the steps of a world.
ghost use Rattle.std.specs.Fmt.{WritesOnOk};
ghost use Rattle.txc_world.specs.Codes.{refusal_code};

use crate::port_outcome::{PortOutcome, RowsFound};
use std::alloc::AllocError;
use std::fmt;
use thiserror::Error;
use txc_cushion::{AddError, Pin, UnknownPin};
use txc_db::DbError;
use txc_node::Value;
use txc_rows::Row;
use txc_shared::{Advanced, NodeError};
use txc_stamp::Stamp;
use txc_txn_ports::TxnError;

/// Errors of a step. The first six are the world's own: they come before any other, in this order, and change
/// nothing.
#[derive(Clone, Copy, Debug, PartialEq, Eq, Error)]
pub enum Refusal {
    #[error("there is no such actor")]
    NoActor,
    #[error("there is no such node")]
    NoNode,
    /// The actor has a transaction open, or the hold of an ended one must still be removed.
    #[error("the actor has a transaction open already")]
    AlreadyOpen,
    #[error("the actor has no such transaction open")]
    NotOpen,
    #[error("the actor's transaction is in the middle of a call")]
    MidCall,
    /// The actor has no call open, or the keeper has no such pin queued.
    #[error("the actor or the keeper has no request to make")]
    NoRequest,
    #[error("{0}")]
    Database(DbError),
    #[error("{0}")]
    Pincushion(AddError),
    #[error("{0}")]
    GiveBack(UnknownPin),
    #[error("{0}")]
    Node(NodeError),
    /// A query or a change of a read-write transaction failed.
    #[error("{0}")]
    Transaction(TxnError),
    /// Memory cannot be allocated.
    #[error("out of memory")]
    Memory,
}

impl Refusal {
    /// Writes its code, and the numbers that go with it.
    pub fn write_code<W: fmt::Write>(&self, f: &mut fmt::Formatter<W>) -> fmt::Result
        ensures { WritesOnOk W.write_str_gives f.old result (refusal_code self.now) f.new }
    {
        match self {
            Refusal::NoActor => write!(f, "O1"),
            Refusal::NotOpen => write!(f, "O2"),
            Refusal::AlreadyOpen => write!(f, "O3"),
            Refusal::NoRequest => write!(f, "O4"),
            Refusal::MidCall => write!(f, "O5"),
            Refusal::NoNode => write!(f, "O6"),
            Refusal::Database(cause) => cause.write_code(f),
            Refusal::Pincushion(cause) => cause.write_code(f),
            Refusal::GiveBack(UnknownPin { stamp }) => write!(f, "C1 {stamp}"),
            Refusal::Node(cause) => cause.write_code(f),
            Refusal::Transaction(cause) => cause.write_code(f),
            Refusal::Memory => write!(f, "memory"),
        }
    }
}

impl From<AllocError> for Refusal {
    ghost use Rattle.std.specs.Prelude.{◌≡◌};
    ghost use Rattle.txc_world.specs.declared.reply.Refusal.TheVariants.{Memory};

    ghost from_gives = { λ _ it. it ≡ Memory };

    fn from(_: AllocError) -> Refusal {
        Refusal::Memory
    }
}

/// Effect of a step.
#[derive(Drop)]
pub enum Reply {
    /// A read-only transaction is open.
    Begun,
    /// A read-write transaction is open, which reads at this stamp.
    Based(Stamp),
    /// A call is open.
    Started,
    /// The port's action, and the call's result, if the call has ended with this.
    Asked(PortOutcome, Option<Result<Value, TxnError>>),
    /// The call's result, if it ended before any request.
    Ended(Result<Value, TxnError>),
    /// The rows of a query of a read-write transaction, in the order of the answer.
    Answered(Vec<Row>),
    /// The change is buffered until the transaction commits.
    Kept,
    /// The pin of the stamp at which every result of the transaction is correct, or `None` if no call was
    /// completed.
    Receipt(Option<Pin>),
    /// The transaction was aborted. If there is a stamp, its hold must still be removed by one request.
    Aborted(Option<Stamp>),
    /// The newest stamp, after the commit of a read-write transaction, or a commit or a pin of the keeper.
    At(Stamp),
    Added,
    GivenBack,
    /// The stamps of the removed pins, in ascending order.
    Retired(Vec<Stamp>),
    Unpinned,
    /// The horizon.
    Vacuumed(Stamp),
    Rows(RowsFound),
    Advanced(Advanced),
    /// The number of dropped entries.
    Swept(usize),
    Refused(Refusal),
}
