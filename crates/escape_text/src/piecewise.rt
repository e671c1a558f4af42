//! The output of a text, written to a sink at once or piece by piece.
ghost use Rattle.std.specs.Prelude.{◌≡◌, ◌+◌, ◌*◌, ◌<◌, ◌≤◌, ◌++◌, length, IsUtf8, is_ok};
ghost use Rattle.escape_simd.specs.Modes.{mode_numbered};
ghost use Rattle.escape_simd.specs.Output.{plain, inner};

use crate::sink::Sink;
use escape_simd::output::{is_clean, quote, write_inner};

/// The largest number of bytes of a text that is escaped at once.
const SHORT: usize = 79;

/// The size of the array for it: six bytes for each byte, two quotation marks, and a vector.
const SHORT_ROOM: usize = 6 * SHORT + 34;

/// The largest number of bytes of a longer text that are tested at a time. They are still in the first cache when they
/// are written.
const FRONT: usize = 8192;

/// The largest number of bytes that are escaped at a time, if the test finds a byte that needs an escape.
const PIECE: usize = 512;

/// The size of the array for them: six bytes for each, and a vector.
const ROOM: usize = 6 * PIECE + 32;

/// Writes the output of a text in the mode `MODE` to the sink.
///
/// An array is filled with zeros before it is written to. So a short text has a small one, and clean bytes have none.
pub(crate) fn send<const MODE: u8, D, S: Sink<D>>(value: &str, dst: &mut D) -> Result<(), S::Error>
    requires mode { MODE ≤ 2 }
    ensures { S.sends dst.old (is_ok result) (plain (mode_numbered MODE) value.now) dst.new }
{
    if value.len() <= SHORT {
        let mut room = [0; SHORT_ROOM];
        return S::put(escape_short::<MODE>(value, &mut room), dst);
    }
    S::put(quote::<MODE>(), dst)?;
    send_inner::<MODE, D, S>(value, dst)?;
    S::put(quote::<MODE>(), dst)
}

/// Writes the output of a text without its quotation marks, front by front.
fn send_inner<const MODE: u8, D, S: Sink<D>>(value: &str, dst: &mut D) -> Result<(), S::Error>
    requires mode { MODE ≤ 2 }
    ensures { S.sends dst.old (is_ok result) (inner (mode_numbered MODE) value.now) dst.new }
{
    let mut rest = value;
    'fronts: while !rest.is_empty() {
        let (front, behind) = split_front(rest, FRONT);
        send_front::<MODE, D, S>(front, dst)?;
        rest = behind;
    }
    Ok(())
}

/// Writes the output of a front without quotation marks: the front itself if nothing in it needs an escape.
fn send_front<const MODE: u8, D, S: Sink<D>>(front: &str, dst: &mut D) -> Result<(), S::Error>
    requires mode { MODE ≤ 2 }
    ensures { S.sends dst.old (is_ok result) (inner (mode_numbered MODE) front.now) dst.new }
{
    if is_clean::<MODE>(front) {
        return S::put(front, dst);
    }
    send_pieces::<MODE, D, S>(front, dst)
}

/// Writes the output of a front without quotation marks, piece by piece.
#[inline(never)]
fn send_pieces<const MODE: u8, D, S: Sink<D>>(front: &str, dst: &mut D) -> Result<(), S::Error>
    requires mode { MODE ≤ 2 }
    ensures { S.sends dst.old (is_ok result) (inner (mode_numbered MODE) front.now) dst.new }
{
    let mut room = [0; ROOM];
    let mut rest = front;
    'pieces: while !rest.is_empty() {
        let (piece, behind) = split_front(rest, PIECE);
        S::put(escape_inner::<MODE>(piece, &mut room), dst)?;
        rest = behind;
    }
    Ok(())
}

/// Returns the longest front of a text that has at most `most` bytes and ends at a character, and the rest of the text.
pub(crate) fn split_front(text: &str, most: usize) -> (&str, &str)
    requires { 4 ≤ most }
    ensures joined { text.now ≡ result.0.now ++ result.1.now }
    ensures cut { IsUtf8 result.0.now }
    ensures few { length result.0.now ≤ most }
    ensures shorter { 0 < length text.now → length result.1.now < length text.now }
{
    text.split_at(text.floor_char_boundary(most.min(text.len())))
}

/// Returns the output of a text, which it writes to `room`.
#[inline(always)]
fn escape_short<'r, const MODE: u8>(text: &str, room: &'r mut [u8]) -> &'r str
    requires mode { MODE ≤ 2 }
    requires room { 6 * length text.now + 34 ≤ length room.old }
    ensures { result.now ≡ plain (mode_numbered MODE) text.now }
{
    let quote = quote::<MODE>().as_bytes();
    room[..quote.len()].copy_from_slice(quote);
    let end = write_inner::<MODE>(text, room, quote.len());
    room[end..end + quote.len()].copy_from_slice(quote);
    // The output for a text is a text.
    unsafe { str::from_utf8_unchecked(&room[..end + quote.len()]) }
}

/// Returns the output of a text without its quotation marks, which it writes to `room`.
#[inline(always)]
pub(crate) fn escape_inner<'r, const MODE: u8>(text: &str, room: &'r mut [u8]) -> &'r str
    requires mode { MODE ≤ 2 }
    requires room { 6 * length text.now + 32 ≤ length room.old }
    ensures { result.now ≡ inner (mode_numbered MODE) text.now }
{
    let end = write_inner::<MODE>(text, room, 0);
    // What stands for a text is a text.
    unsafe { str::from_utf8_unchecked(&room[..end]) }
}
