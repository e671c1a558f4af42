//! Writing the escaped bytes of a text, piece by piece.
ghost use Rattle.std.specs.Prelude.{◌⊎◌, ◌≡◌, ◌≢◌, ◌+◌, ◌*◌, ◌<◌, ◌≤◌, ◌↔◌, min, length, IfOk, IfErr, OnOk, OnErr, IsErrOf};
ghost use Rattle.std.specs.Io.KnownBytes.{Appends, Keeps};
ghost use Rattle.escape_simd.specs.Modes.{escaping};
ghost use Rattle.escape_simd.specs.Output.{plain, inner, quote_of, bound};
ghost use Rattle.escape_stream.specs.Run.{AppendsFront};

use crate::fault::ToolFault;
use crate::write::{flush, write_all};
use escape_simd::{Kernel, Mode, format_inner};
use std::alloc::Allocator;
use std::io::Write;

/// The largest number of bytes of a text that a run escapes and writes at a time. Beside its input, a run holds an
/// array of at most `6 * PIECE + 32` bytes.
pub const PIECE: usize = 64 * 1024;

/// Writes the output of the text, and flushes once. Beside the text it holds the bound of one piece.
///
/// # Errors
///
/// `TooLarge` exactly if the bound of the text exceeds `usize::MAX`, `OutOfMemory` if memory for a piece is refused, and
/// `WriteFailed`, the only one after a write.
pub(crate) fn write_escaped<A: Allocator, W: Write>(
    alloc: A,
    mode: Mode,
    kernel: Kernel,
    text: &str,
    output: &mut W,
) -> Result<(), ToolFault>
    ensures exact { OnOk result
        (Appends (W.contents output.old) (W.contents output.new) (plain (escaping mode) text.now)) }
    ensures unchanged { IfErr result (λ fault. fault ≢ ToolFault.WriteFailed
        → Keeps (W.contents output.old) (W.contents output.new)) }
    ensures beginning { IsErrOf result ToolFault.WriteFailed
        → AppendsFront (W.contents output.old) (W.contents output.new) (plain (escaping mode) text.now) }
    ensures too_large { IsErrOf result ToolFault.TooLarge
        ↔ (usize.MAX < bound (escaping mode) (length text.now)) }
    ensures faults { IfErr result (λ fault. (fault ≡ ToolFault.TooLarge)
        ⊎ ((fault ≡ ToolFault.OutOfMemory) ⊎ (fault ≡ ToolFault.WriteFailed))) }
{
    // The whole has to fit a `usize`, though it is never held.
    if mode.capacity(text.len()).is_err() {
        return Err(ToolFault::TooLarge);
    }
    let zeros = vec![in alloc; 0; 6 * PIECE.min(text.len()) + 32];
    let mut room = zeros.map_err(|_| ToolFault::OutOfMemory)?;
    write_output(mode, kernel, text, room.as_mut_slice(), output)
}

/// Writes the output of the text, whose pieces are escaped in `room`, and flushes once.
fn write_output<W: Write>(
    mode: Mode,
    kernel: Kernel,
    text: &str,
    room: &mut [u8],
    output: &mut W,
) -> Result<(), ToolFault>
    requires { 6 * min 65536 (length text.now) + 32 ≤ length room.old }
    ensures whole { OnOk result
        (Appends (W.contents output.old) (W.contents output.new) (plain (escaping mode) text.now)) }
    ensures beginning { OnErr result
        (AppendsFront (W.contents output.old) (W.contents output.new) (plain (escaping mode) text.now)) }
    ensures fault { IfErr result (λ fault. fault ≡ ToolFault.WriteFailed) }
{
    write_quote(mode, output)?;
    write_pieces(mode, kernel, text, room, output)?;
    write_quote(mode, output)?;
    flush(output)
}

/// Writes the quotation mark of the mode, in HTML nothing.
fn write_quote<W: Write>(mode: Mode, output: &mut W) -> Result<(), ToolFault>
    ensures whole { OnOk result
        (Appends (W.contents output.old) (W.contents output.new) (quote_of (escaping mode))) }
    ensures beginning { OnErr result
        (AppendsFront (W.contents output.old) (W.contents output.new) (quote_of (escaping mode))) }
    ensures fault { IfErr result (λ fault. fault ≡ ToolFault.WriteFailed) }
{
    write_all(output, mode.quote().as_bytes())
}

/// Writes the output of the text without its quotation marks, piece by piece.
///
/// Each piece is a text, so no separator is cut.
fn write_pieces<W: Write>(
    mode: Mode,
    kernel: Kernel,
    text: &str,
    room: &mut [u8],
    output: &mut W,
) -> Result<(), ToolFault>
    requires { 6 * min 65536 (length text.now) + 32 ≤ length room.old }
    ensures whole { OnOk result
        (Appends (W.contents output.old) (W.contents output.new) (inner (escaping mode) text.now)) }
    ensures beginning { OnErr result
        (AppendsFront (W.contents output.old) (W.contents output.new) (inner (escaping mode) text.now)) }
    ensures fault { IfErr result (λ fault. fault ≡ ToolFault.WriteFailed) }
{
    let mut at = 0;
    'pieces: while at < text.len() {
        let next = text.floor_char_boundary(at + PIECE.min(text.len() - at));
        let count = format_inner(kernel, mode, &text[at..next], room);
        write_all(output, &room[..count])?;
        at = next;
    }
    Ok(())
}
