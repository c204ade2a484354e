//! Writing replies.
ghost use Rattle.std.specs.Prelude.{◌≡◌, OnOk, OnErr, Err};
ghost use Rattle.std.specs.Io.KnownBytes.{Appends};
ghost use Rattle.txc_script.specs.WriterPrefix.{AppendsPrefix};

use crate::fault::RunFault;
use std::io::Write;

/// Writes a text. If the writer fails, a prefix of it was written.
pub fn write_text<W: Write>(writer: &mut W, text: &[u8]) -> Result<(), RunFault>
    ensures after { OnOk result (Appends (W.contents writer.old) (W.contents writer.new) text.now) }
    ensures prefix { OnErr result
        (AppendsPrefix (W.contents writer.old) (W.contents writer.new) text.now) }
    ensures refused { OnErr result (result ≡ Err RunFault.Write) }
{
    let mut at = 0;
    while at < text.len() {
        match writer.write(&text[at..]) {
            Ok(n) if n > 0 => at += n,
            _ => return Err(RunFault::Write),
        }
    }
    Ok(())
}
