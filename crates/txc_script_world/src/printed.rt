//! Outputs of the lines of a world's script.

mod texts;

use txc_node::Value;
use txc_script::FunctionLine;
use txc_stamp::Stamp;
use txc_txn_ports::TxnError;
use txc_world::Reply;

/// Output of a line.
#[derive(Drop)]
pub enum Printed {
    /// The reply to a step.
    Replied(Reply),
    /// The result of a call.
    Ended(Result<Value, TxnError>),
    /// The stamps at which a transaction may be serialised: whether the present is one, and these.
    Members(bool, Vec<Stamp>),
    /// The number of removed pins, and the horizon.
    Tidied(usize, Stamp),
    /// The counts of a function at a node.
    Counted(FunctionLine),
}
