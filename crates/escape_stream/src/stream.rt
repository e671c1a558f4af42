//! From a reader to a writer.
ghost use Rattle.std.specs.Prelude.{◌≢◌, ◌<◌, length, IfErr, IfSome, IsErrOf, IsUtf8, OnOk};
ghost use Rattle.std.specs.Io.KnownBytes.{Appends, Keeps};
ghost use Rattle.escape_simd.specs.Output.{plain, bound};
ghost use Rattle.escape_simd.specs.Modes.{escaping};
ghost use Rattle.escape_stream.specs.Run.{AppendsEscaped, AppendsEscapedBeginning, WholeInput};

use crate::escaped::write_escaped;
use crate::fault::ToolFault;
use crate::input::read_whole;
use escape_simd::{Kernel, Mode};
use std::alloc::{Allocator, Global};
use std::io::{Read, Write};
use std::str;

/// Reads `input` to its end, escapes it in the mode `mode`, writes the result to `output` and flushes once.
///
/// The whole input is read before the first write. The call holds the input in memory, and one piece of the output,
/// of at most `6 * min(n, 65536) + 32` bytes for an input of `n` bytes. It adds no newline. A newline at the end of
/// the input and a byte order mark are part of the text. The output is the same for every kernel.
///
/// # Errors
///
/// `output` is unchanged after each error but `WriteFailed`.
///
/// - `ReadFailed`: a read returned an error, also `Interrupted`. How much was read before is not promised.
/// - `NotUtf8`: the input is not UTF-8.
/// - `TooLarge`: `6 * n + 35`, in HTML `6 * n + 32`, exceeds `usize::MAX`.
/// - `OutOfMemory`: memory for the input or for the piece was refused. An input that never ends leads to this error.
/// - `WriteFailed`: a write returned an error, also `Interrupted`, or took no bytes, or the flush returned an error.
///   `output` has then taken a prefix of the result, or all of it.
///
/// If several apply after the input is read, the first of `NotUtf8`, `TooLarge`, `OutOfMemory`, `WriteFailed` is
/// returned.
///
/// ```rust
/// let mut input = b"<a".as_slice();
/// let mut out = Vec::new(rt.alloc());
/// run(rt.alloc(), Mode::Html, Kernel::Avx2, &mut input, &mut out)?; // &lt;a
/// ```
pub fn run<R: Read, W: Write>(
    alloc: Global,
    mode: Mode,
    kernel: Kernel,
    input: &mut R,
    output: &mut W,
) -> Result<(), ToolFault>
    // At `Ok` the whole input was read and is text, and exactly its escaping was appended.
    ensures exact { OnOk result (WholeInput (R.remaining input.old) (R.remaining input.new)
        (AppendsEscaped (escaping mode) (W.contents output.old) (W.contents output.new))) }

    // The same, where the input's bytes are known.
    ensures headline { OnOk result (IfSome (R.remaining input.old) (λ bytes.
        Appends (W.contents output.old) (W.contents output.new) (plain (escaping mode) bytes))) }

    // What a fault leaves.
    ensures unchanged { IfErr result (λ fault. fault ≢ ToolFault.WriteFailed
        → Keeps (W.contents output.old) (W.contents output.new)) }
    ensures beginning { IsErrOf result ToolFault.WriteFailed
        → WholeInput (R.remaining input.old) (R.remaining input.new)
        (AppendsEscapedBeginning (escaping mode) (W.contents output.old) (W.contents output.new)) }

    // When a refusal comes.
    ensures not_utf8 { IsErrOf result ToolFault.NotUtf8
        → WholeInput (R.remaining input.old) (R.remaining input.new) (λ bytes. ¬ IsUtf8 bytes) }
    ensures too_large { IsErrOf result ToolFault.TooLarge
        → WholeInput (R.remaining input.old) (R.remaining input.new)
        (λ bytes. IsUtf8 bytes × (usize.MAX < bound (escaping mode) (length bytes))) }
{
    run_in(alloc, mode, kernel, input, output)
}

/// Does what [`run`] does, in memory of `alloc`. If your allocator is not `Copy`, as an arena, pass a reference to
/// it: `&arena` is an allocator too.
///
/// All memory is from `alloc`: the input, in a vector that grows as it is read, and one piece of the output.
///
/// # Errors
///
/// Those of [`run`].
///
/// ```rust
/// run_in(&arena, Mode::Json, Kernel::default(), &mut input, &mut out)?; // "<a"
/// ```
pub fn run_in<A: Allocator + Copy, R: Read, W: Write>(
    alloc: A,
    mode: Mode,
    kernel: Kernel,
    input: &mut R,
    output: &mut W,
) -> Result<(), ToolFault>
    // At `Ok` the whole input was read and is text, and exactly its escaping was appended.
    ensures exact { OnOk result (WholeInput (R.remaining input.old) (R.remaining input.new)
        (AppendsEscaped (escaping mode) (W.contents output.old) (W.contents output.new))) }

    // The same, where the input's bytes are known.
    ensures headline { OnOk result (IfSome (R.remaining input.old) (λ bytes.
        Appends (W.contents output.old) (W.contents output.new) (plain (escaping mode) bytes))) }

    // What a fault leaves.
    ensures unchanged { IfErr result (λ fault. fault ≢ ToolFault.WriteFailed
        → Keeps (W.contents output.old) (W.contents output.new)) }
    ensures beginning { IsErrOf result ToolFault.WriteFailed
        → WholeInput (R.remaining input.old) (R.remaining input.new)
        (AppendsEscapedBeginning (escaping mode) (W.contents output.old) (W.contents output.new)) }

    // When a refusal comes.
    ensures not_utf8 { IsErrOf result ToolFault.NotUtf8
        → WholeInput (R.remaining input.old) (R.remaining input.new) (λ bytes. ¬ IsUtf8 bytes) }
    ensures too_large { IsErrOf result ToolFault.TooLarge
        → WholeInput (R.remaining input.old) (R.remaining input.new)
        (λ bytes. IsUtf8 bytes × (usize.MAX < bound (escaping mode) (length bytes))) }
{
    let bytes = read_whole(alloc, input)?;
    let text = str::from_utf8(bytes.as_slice()).map_err(|_| ToolFault::NotUtf8)?;
    write_escaped(alloc, mode, kernel, text, output)
}
