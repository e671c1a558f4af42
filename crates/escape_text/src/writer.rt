//! The output of a text, to a writer.
ghost use Rattle.std.specs.Prelude.{◌≤◌, OnOk, OnErr};
ghost use Rattle.std.specs.Io.KnownBytes.{Appends};
ghost use Rattle.escape_simd.specs.Modes.{mode_numbered};
ghost use Rattle.escape_simd.specs.Output.{plain};
ghost use Rattle.escape_text.specs.Writers.{AppendsBeginning, AppendsAsFar};
ghost use Rattle.escape_text.specs.InTurn.{writer-in_turn};

use crate::piecewise::send;
use crate::sink::Sink;
use std::io::{Error, ErrorKind, Result, Write};

struct ToWriter;

impl<W: Write> Sink<W> for ToWriter {
    type Error = Error;

    ghost sends = { λ old ok bytes new. AppendsAsFar (W.contents old) ok (W.contents new) bytes };

    ghost in_turn = { writer-in_turn W.contents };

    fn put(text: &str, writer: &mut W) -> Result<()> {
        write_whole(text.as_bytes(), writer)
    }
}

/// Writes the output of a text in the mode `MODE` to `writer`, and does not flush.
pub(crate) fn write_output<const MODE: u8, W: Write>(value: &str, writer: &mut W) -> Result<()>
    requires mode { MODE ≤ 2 }
    ensures whole { OnOk result (Appends (W.contents writer.old) (W.contents writer.new)
        (plain (mode_numbered MODE) value.now)) }
    ensures beginning { OnErr result (AppendsBeginning (W.contents writer.old)
        (W.contents writer.new) (plain (mode_numbered MODE) value.now)) }
{
    send::<MODE, W, ToWriter>(value, writer)
}

/// Writes all the bytes to `writer`, and does not flush: `Write::write_all`, with a promise of what an error leaves.
///
/// The call repeats a write that was interrupted.
///
/// # Errors
///
/// The error of the first write that fails, or `WriteZero` if a write takes no bytes. `writer` has then taken a prefix
/// of the bytes.
///
/// ```rust
/// escape_to_writer("a\"b", &mut log)?; // "a\"b"
/// write_whole(b"\n", &mut log)?;
/// ```
pub fn write_whole<W: Write>(bytes: &[u8], writer: &mut W) -> Result<()>
    ensures whole { OnOk result
        (Appends (W.contents writer.old) (W.contents writer.new) bytes.now) }
    ensures beginning { OnErr result
        (AppendsBeginning (W.contents writer.old) (W.contents writer.new) bytes.now) }
{
    let mut written = 0;
    // A loop with a bound, so that the call is proved to return.
    'writes: for _try in 0..u64::MAX {
        if written >= bytes.len() {
            return Ok(());
        }
        match writer.write(&bytes[written..]) {
            Ok(0) => return Err(ErrorKind::WriteZero.into()),
            Ok(count) => written += count,
            Err(error) => {
                if error.kind() != ErrorKind::Interrupted {
                    return Err(error);
                }
            }
        }
    }
    Err(ErrorKind::Interrupted.into())
}
