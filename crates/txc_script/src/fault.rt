//! Ends of runs.
ghost use Rattle.txc_script.specs.declared.line_fault.MalformedLine.{MalformedLine};
ghost use Rattle.std.specs.Prelude.{◌≡◌, Ok, Err};

use crate::line_fault::MalformedLine;
use thiserror::Error;

/// Status of a run that reached the end of its script, or a malformed line.
#[derive(Debug, Drop)]
pub enum Status<F> {
    /// No reply is a refusal.
    Done,
    /// A reply is a refusal, and no line is malformed.
    Refused,
    /// The last line that was read is malformed.
    Malformed(MalformedLine<F>),
}

/// Errors that end a run early. The replies to the lines before were written, as far as the writer took them.
#[derive(Clone, Copy, Debug, PartialEq, Eq, Error)]
pub enum RunFault {
    /// The reader failed, or did not reach its end within [`crate::MAX_READS`] reads.
    #[error("read fault")]
    Read,
    /// The writer failed, or took no byte.
    #[error("write fault")]
    Write,
    /// Memory cannot be allocated.
    #[error("memory")]
    Memory,
}

/// Returns the exit status of a program after such a run: 0, or 1 after a refusal or a malformed line, 4 after
/// a fault of the reader or the writer, 5 if memory could not be allocated.
pub fn exit_of<F>(ended: &Result<Status<F>, RunFault>) -> u8
    ensures all_done { ended.now ≡ Ok Status.Done → result ≡ 0 }
    ensures line_refused { ended.now ≡ Ok Status.Refused → result ≡ 1 }
    ensures line_malformed { (line : MalformedLine F) → ended.now ≡ Ok (Status.Malformed line) → result ≡ 1 }
    ensures read_fault { ended.now ≡ Err RunFault.Read → result ≡ 4 }
    ensures write_fault { ended.now ≡ Err RunFault.Write → result ≡ 4 }
    ensures out_of_memory { ended.now ≡ Err RunFault.Memory → result ≡ 5 }
{
    match ended {
        Ok(Status::Done) => 0,
        Ok(Status::Refused | Status::Malformed(_)) => 1,
        Err(RunFault::Read | RunFault::Write) => 4,
        Err(RunFault::Memory) => 5,
    }
}
