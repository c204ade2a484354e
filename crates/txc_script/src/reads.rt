//! Counted reads of a reader.
ghost use Rattle.std.specs.Prelude.{◌≡◌, ◌<◌, ◌≤◌, None, OnOk, OnErr, Err, IfOk, length};
ghost use Rattle.std.specs.Io.KnownBytes.{ReadConsumes};
ghost use Rattle.txc_script.specs.Reads.{IsOver};

use crate::fault::RunFault;
use std::io::{ErrorKind, Read};

/// The most times that a run reads its reader.
pub const MAX_READS: u64 = 1_048_576;

/// State of a run's reader.
#[derive(Clone, Copy)]
pub struct Reads {
    /// The number of reads that are left.
    left: u64,
    /// The error of the read that failed, if one did.
    failure: Option<ErrorKind>,
}

impl Reads {
    /// Makes the state before the first read.
    pub fn new() -> Reads
        ensures { result ≡ record { left = 1048576; failure = None } }
    {
        Reads {
            left: MAX_READS,
            failure: None,
        }
    }

    /// Reads a piece. An interrupted read is repeated, and counts as one more. Fails with `Read` if the reader
    /// fails.
    pub fn read<R: Read>(&mut self, reader: &mut R, piece: &mut [u8]) -> Result<usize, RunFault>
        ensures bound { IfOk result (λ n. n ≤ length piece.new) }
        ensures bytes { ReadConsumes (R.remaining reader.old) (R.remaining reader.new) result piece.new }
        ensures counted { OnOk result (self.new.left < self.old.left) }
        ensures refused { OnErr result (IsOver self.new) }
        ensures fault { OnErr result (result ≡ Err RunFault.Read) }
    {
        while self.left > 0 {
            self.left -= 1;
            match reader.read(piece) {
                Ok(n) => return Ok(n),
                Err(error) => {
                    let kind = error.kind();
                    if kind != ErrorKind::Interrupted {
                        self.failure = Some(kind);
                        return Err(RunFault::Read);
                    }
                }
            }
        }
        Err(RunFault::Read)
    }
}
