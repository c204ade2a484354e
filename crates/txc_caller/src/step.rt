ghost use Rattle.std.specs.Prelude.{◌≡◌};
ghost use Rattle.txc_call.specs.CallSteps.{NeedsFunction};
ghost use Rattle.txc_caller.specs.ComputedFunctions.{ended_step, is_begin, IsNextStep};

use thiserror::Error;
use txc_call::{CallMachine, Need};
use txc_db::DbError;
use txc_node::Value;
use txc_stamp::Stamp;
use txc_txn_ports::TxnError;
use txc_txn_rw::Given;

/// The next step of the caller.
#[derive(Debug, Drop)]
pub enum Step {
    /// It must compute the function of the call that it requested.
    Compute,
    /// It continues to compute the function, which has its answer.
    Answered,
    /// It has the value of its outermost call.
    Value(Value),
}

/// Errors of an act.
#[derive(Clone, Copy, Debug, PartialEq, Eq, Error)]
pub enum CallerError {
    /// The call failed and has ended; the transaction stays open.
    #[error("{0}")]
    Txn(TxnError),
    /// No function is being computed.
    #[error("no function is being computed")]
    NoFunction,
}

/// Result of a committed read-write transaction.
#[derive(Drop)]
pub struct Written {
    /// The newest stamp after the commit.
    pub stamp: Stamp,
    /// The results that the transaction has read, in order.
    pub answers: Vec<Given>,
}

/// Errors of committing a read-write transaction.
#[derive(Clone, Copy, Debug, PartialEq, Eq, Error)]
pub enum WriteError {
    /// A function is being computed.
    #[error("a call is open, which must be finished or cancelled first")]
    MidCall,
    /// The database failed.
    #[error("{0}")]
    Database(DbError),
}

// Returns `true` if a function must begin.
fn is_begin(need: &Need) -> bool
    ensures { result ≡ is_begin need.now }
{
    match need {
        Need::Begin(_) => true,
        Need::Resume(_) => false,
        Need::Lookup(_) => false,
        Need::Query(_) => false,
        Need::Insert(_) => false,
        Need::Value(_) => false,
    }
}

impl Step {
    /// Returns the caller's next step for a call that needs a function.
    pub(crate) fn next(machine: &CallMachine) -> Step
        requires { NeedsFunction machine.now.need }
        ensures { IsNextStep machine.now result }
    {
        let Some(need) = machine.need() else {
            unreachable!()
        };
        if is_begin(need) {
            Step::Compute
        } else {
            Step::Answered
        }
    }
}

/// Returns the caller's next step after a call has ended with this value or error.
pub(crate) fn ended(outcome: Result<Value, TxnError>) -> Result<Step, CallerError>
    ensures { result ≡ ended_step outcome }
{
    match outcome {
        Ok(value) => Ok(Step::Value(value)),
        Err(error) => Err(CallerError::Txn(error)),
    }
}
