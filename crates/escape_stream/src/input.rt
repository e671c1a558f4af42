//! Reading an input to its end.
ghost use Rattle.std.specs.Prelude.{◌⊎◌, ◌≡◌, ◌≤◌, ◌<◌, ◌+◌, take, drop, length, vec_len, IfOk, IfErr, OnOk};
ghost use Rattle.std.specs.Io.KnownBytes.{Consumes, IsAtEnd};
ghost use Rattle.escape_stream.specs.Run.{IsReadWhole};

use crate::fault::ToolFault;
use std::alloc::Allocator;
use std::io::Read;

/// The largest number of bytes that a read is asked for, and the least number by which a full vector grows.
const WINDOW: usize = 64 * 1024;

/// Returns all bytes that the input has left. It is read until a read returns 0.
///
/// # Errors
///
/// `ReadFailed` if a read returns an error, of any kind, and `OutOfMemory` if memory for more bytes is refused,
/// whichever comes first.
pub(crate) fn read_whole<R: Read, A: Allocator>(
    alloc: A,
    input: &mut R,
) -> Result<Vec<u8, A>, ToolFault>
    ensures whole { IfOk result
        (λ bytes. IsReadWhole (R.remaining input.old) (R.remaining input.new) bytes.items) }
    ensures faults { IfErr result
        (λ fault. (fault ≡ ToolFault.ReadFailed) ⊎ (fault ≡ ToolFault.OutOfMemory)) }
{
    let mut bytes = Vec::new(alloc);
    let mut filled = 0;
    loop {
        make_room(&mut bytes, filled)?;
        let count = read_after(input, bytes.as_mut_slice(), filled)?;
        if count == 0 {
            bytes.truncate(filled);
            return Ok(bytes);
        }
        filled += count;
    }
}

/// Appends zeros for the next read, if the vector has no byte past the first `filled`.
///
/// If it has no room for them, its capacity at least doubles. Only these zeros are written, not all of the new room.
fn make_room<A: Allocator>(bytes: &mut Vec<u8, A>, filled: usize) -> Result<(), ToolFault>
    requires { filled ≤ vec_len bytes.old }
    ensures front { OnOk result (take filled bytes.new.items ≡ take filled bytes.old.items) }
    ensures room { OnOk result (filled < vec_len bytes.new) }
    ensures fault { IfErr result (λ fault. fault ≡ ToolFault.OutOfMemory) }
{
    if filled < bytes.len() {
        return Ok(());
    }
    bytes.reserve(WINDOW).map_err(|_| ToolFault::OutOfMemory)?;
    let len = bytes.len() + WINDOW;
    bytes.resize(len, 0).map_err(|_| ToolFault::OutOfMemory)
}

/// Reads once into the bytes past the first `filled` ones, and returns the number of bytes read.
fn read_after<R: Read>(input: &mut R, bytes: &mut [u8], filled: usize) -> Result<usize, ToolFault>
    requires { filled < length bytes.old }
    ensures front { take filled bytes.new ≡ take filled bytes.old }
    ensures fits { IfOk result (λ count. filled + count ≤ length bytes.new) }
    ensures read { IfOk result (λ count. Consumes (R.remaining input.old) (R.remaining input.new)
        (take count (drop filled bytes.new))) }
    ensures end { IfOk result (λ count. count ≡ 0 → IsAtEnd (R.remaining input.new)) }
    ensures fault { IfErr result (λ fault. fault ≡ ToolFault.ReadFailed) }
{
    let read = input.read(&mut bytes[filled..]);
    read.map_err(|_| ToolFault::ReadFailed)
}
