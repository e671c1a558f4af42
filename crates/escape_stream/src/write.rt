//! Writing bytes whole.
ghost use Rattle.std.specs.Prelude.{◌≡◌, OnOk, IfErr, OnErr};
ghost use Rattle.std.specs.Io.KnownBytes.{Appends, Keeps};
ghost use Rattle.escape_stream.specs.Run.{AppendsFront};

use crate::fault::ToolFault;
use std::io::Write;

/// Writes all the bytes.
///
/// # Errors
///
/// `WriteFailed` if a write takes no bytes, or returns an error, of any kind.
pub(crate) fn write_all<W: Write>(output: &mut W, bytes: &[u8]) -> Result<(), ToolFault>
    ensures whole { OnOk result
        (Appends (W.contents output.old) (W.contents output.new) bytes.now) }
    ensures beginning { OnErr result
        (AppendsFront (W.contents output.old) (W.contents output.new) bytes.now) }
    ensures fault { IfErr result (λ fault. fault ≡ ToolFault.WriteFailed) }
{
    let mut written = 0;
    while written < bytes.len() {
        match output.write(&bytes[written..]) {
            Ok(count) if count > 0 => written += count,
            _ => return Err(ToolFault::WriteFailed),
        }
    }
    Ok(())
}

/// Flushes the writer.
///
/// # Errors
///
/// `WriteFailed` if that returns an error, of any kind.
pub(crate) fn flush<W: Write>(output: &mut W) -> Result<(), ToolFault>
    ensures kept { Keeps (W.contents output.old) (W.contents output.new) }
    ensures fault { IfErr result (λ fault. fault ≡ ToolFault.WriteFailed) }
{
    output.flush().map_err(|_| ToolFault::WriteFailed)
}
