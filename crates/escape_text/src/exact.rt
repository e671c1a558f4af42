//! The output of a text in a slice of the output's own length.
ghost use Rattle.std.specs.Prelude.{◌≡◌, ◌+◌, ◌≤◌, ◌++◌, length, take};
ghost use Rattle.escape_simd.specs.Modes.{mode_numbered};
ghost use Rattle.escape_simd.specs.Output.{plain, inner};

use crate::piecewise::{escape_inner, split_front};
use escape_simd::output::{quote, write_inner};

/// The number of bytes at the end of an output that are made in an array.
const END: usize = 64;

/// The size of the array: six bytes for each of them, and a vector.
const END_ROOM: usize = 6 * END + 32;

/// Writes the output of a text in the mode `MODE` to `dst`, and fills it. The call allocates nothing and does not fail.
///
/// `dst` must have the length of the output, which [`escaped_len`](escape_simd::output::escaped_len) returns.
///
/// ```rust
/// if escaped_len(text) == Some(dst.len()) {
///     write_exact::<{ JSON_MODE }>(text, dst);
/// }
/// ```
pub fn write_exact<const MODE: u8>(value: &str, dst: &mut [u8])
    requires mode { MODE ≤ 2 }
    requires room { length dst.old ≡ length (plain (mode_numbered MODE) value.now) }
    ensures { dst.new ≡ plain (mode_numbered MODE) value.now }
{
    let quote = quote::<MODE>().as_bytes();
    let last = dst.len() - quote.len();
    dst[..quote.len()].copy_from_slice(quote);
    write_exact_inner::<MODE>(value, &mut dst[quote.len()..last]);
    dst[last..].copy_from_slice(quote);
}

/// Writes the output of a text without its quotation marks to `dst`, and fills it.
fn write_exact_inner<const MODE: u8>(value: &str, dst: &mut [u8])
    requires mode { MODE ≤ 2 }
    requires room { length dst.old ≡ length (inner (mode_numbered MODE) value.now) }
    ensures { dst.new ≡ inner (mode_numbered MODE) value.now }
{
    if dst.len() == value.len() {
        return dst.copy_from_slice(value.as_bytes());
    }
    // A piece has room for its bound before the end. What the kernel changes past the piece is written again.
    let mut at = 0;
    let mut rest = value;
    'pieces: while END < dst.len() - at {
        let (piece, behind) = split_front(rest, (dst.len() - at - 32) / 6);
        at = write_inner::<MODE>(piece, dst, at);
        rest = behind;
    }
    write_end::<MODE>(rest, dst, at);
}

/// Writes the output of the last bytes of a text, without quotation marks, to `dst` from `at` on, and fills it.
fn write_end<const MODE: u8>(rest: &str, dst: &mut [u8], at: usize)
    requires mode { MODE ≤ 2 }
    requires few { length dst.old ≤ at + END }
    requires ends { at + length (inner (mode_numbered MODE) rest.now) ≡ length dst.old }
    ensures { dst.new ≡ take at dst.old ++ inner (mode_numbered MODE) rest.now }
{
    let mut room = [0; END_ROOM];
    let end = escape_inner::<MODE>(rest, &mut room);
    dst[at..].copy_from_slice(end.as_bytes());
}
