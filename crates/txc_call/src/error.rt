ghost use Rattle.std.specs.Fmt.{WritesOnOk};
ghost use Rattle.txc_call.specs.Codes.{call_code};

use crate::frames::MAX_CALL_ASKS;
use std::fmt;
use thiserror::Error;
use txc_app::MOST_ASKS;
use txc_node::MOST_VALUE_LEN;

/// Errors of a call. Every object that ran for it is idle afterwards.
#[derive(Clone, Copy, Debug, PartialEq, Eq, Error)]
pub enum CallError {
    /// There is no function of this number.
    #[error("there is no function {0}")]
    NoFunction(u8),
    /// The first function called the second, which is not below it.
    #[error("function {0} may only call functions with lower numbers, and called function {1}")]
    CallOrder(u8, u8),
    /// An activation made one step more than it may.
    #[error("a function made more queries and calls than its application allows, at most {MOST_ASKS} with its return")]
    AskLimit,
    /// The activations of the call together made one step more than they may.
    #[error("the functions of a call made more than {MAX_CALL_ASKS} queries, calls and returns in all")]
    Budget,
    /// No permit is left.
    #[error("no permit to run a function is left")]
    Busy,
    /// An object has no memory.
    #[error("a function failed: out of memory")]
    ObjectMemory,
    /// A value has more bytes than a node may store.
    #[error("a function's value is longer than its application allows, at most {MOST_VALUE_LEN} bytes")]
    ValueTooLong,
    /// The function does not take these arguments.
    #[error("function {0} does not take these arguments")]
    BadArguments(u8),
    /// Memory cannot be allocated.
    #[error("out of memory")]
    Memory,
}

impl CallError {
    /// Writes its code, and the numbers that go with it.
    pub fn write_code<W: fmt::Write>(&self, f: &mut fmt::Formatter<W>) -> fmt::Result
        ensures { WritesOnOk W.write_str_gives f.old result (call_code self.now) f.new }
    {
        match self {
            CallError::NoFunction(number) => write!(f, "K1 {number}"),
            CallError::CallOrder(caller, called) => write!(f, "K2 {caller} {called}"),
            CallError::AskLimit => write!(f, "K3"),
            CallError::Budget => write!(f, "K4"),
            CallError::Busy => write!(f, "K5"),
            CallError::ObjectMemory => write!(f, "K6"),
            CallError::ValueTooLong => write!(f, "K7"),
            CallError::BadArguments(number) => write!(f, "K8 {number}"),
            CallError::Memory => write!(f, "memory"),
        }
    }
}
