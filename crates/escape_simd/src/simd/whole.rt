//! Whole texts: to a target, and to a slice with quotation marks or without.
ghost use Rattle.std.specs.Prelude.{◌+◌, ◌<◌, ◌≤◌, true, length, take, chars};
ghost use Rattle.escape_lanes.specs.Written.{bytes_of};
ghost use Rattle.escape_simd.specs.Formatted.{IsFormatted, IsQuoted, IsWritten};
ghost use Rattle.escape_simd.specs.Headline.{IsOnlyOutput};
ghost use Rattle.escape_simd.specs.Laws.{IsOfOneText};
ghost use Rattle.escape_simd.specs.Modes.{mode_numbered};
ghost use Rattle.escape_simd.specs.Output.{bound};
ghost use Rattle.escape_simd.specs.Parts.{IsEscapedAt, quote_if, room_for};
ghost use Rattle.escape_simd.specs.Stretch.{AreTailMasks, HasRoom, reach};

use crate::simd::Classifier;
use crate::simd::body::escape_bytes;
use crate::simd::tail::{escape_flagged_tail, store_clean_tail};
use escape_lanes::simd::escape_mask::EscapeMask;
use escape_lanes::simd::mode::is_quoted;
use escape_lanes::simd::target::{Target, Ticks};

/// Writes a quotation mark if `QUOTED` and the mode has one. Returns the place after it.
#[inline(always)]
fn write_quote<const MODE: u8, const QUOTED: bool, const N: usize>(
    target: &mut Target<'_, N>,
    to: usize,
) -> usize
    requires { to < length (bytes_of target.old) }
    ensures { IsQuoted (quote_if QUOTED (mode_numbered MODE)) target.old target.new to result }
{
    if !QUOTED || !is_quoted::<MODE>() {
        return to;
    }
    target.quote(to);
    to + 1
}

/// Escapes the text to the front of the target. Returns how many bytes it became.
#[inline(always)]
pub(crate) fn format<V: Classifier<MODE, N>, const MODE: u8, const N: usize>(
    value: &str,
    target: &mut Target<'_, N>,
    ticks: &mut Ticks,
) -> usize
    requires { bound (mode_numbered MODE) (length value.now) ≤ length (bytes_of target.old) }
    ensures { IsFormatted (mode_numbered MODE) value.now
        target.old target.new result ticks.old ticks.new }
{
    let open = write_quote::<MODE, true, N>(target, 0);
    let close = escape_bytes::<V, MODE, N>(value.as_bytes(), target, open, ticks);
    write_quote::<MODE, true, N>(target, close)
}

/// As [`format`], to `dst`, and without counts of the writes.
#[inline(always)]
pub(crate) fn format_string<V: Classifier<MODE, N>, const MODE: u8, const N: usize>(
    value: &str,
    dst: &mut [u8],
) -> usize
    requires { bound (mode_numbered MODE) (length value.now) ≤ length dst.old }
    ensures written { IsWritten N (mode_numbered MODE) value.now dst.old dst.new result }
    ensures headline { IsOnlyOutput (mode_numbered MODE) (take result dst.new) (chars value.now) }
    ensures equal_texts { IsOfOneText (mode_numbered MODE) value.now (take result dst.new) }
{
    escape_to_slice::<V, MODE, true, N>(value.as_bytes(), dst, 0)
}

/// Escapes the text to `dst` from `to` on, between quotation marks if `QUOTED`. Returns the place after it.
///
/// A clean short text needs no stack frame: the two calls are tail calls, and `escape_flagged` writes the first
/// mark again.
#[inline(never)]
pub(crate) fn escape_to_slice<
    V: Classifier<MODE, N>,
    const MODE: u8,
    const QUOTED: bool,
    const N: usize,
>(text: &[u8], dst: &mut [u8], to: usize) -> usize
    requires { to + room_for QUOTED (mode_numbered MODE) (length text.now) ≤ length dst.old }
    ensures { IsEscapedAt (reach true N) (mode_numbered MODE) QUOTED text.now dst.old dst.new to result }
{
    // The empty text goes this way too: so the compiler drops the test for it from the short way.
    if text.is_empty() || 2 * N <= text.len() {
        return escape_long::<V, MODE, QUOTED, N>(text, dst, to);
    }
    let mut target = Target::<N>::new(dst);
    let open = write_quote::<MODE, QUOTED, N>(&mut target, to);
    match store_clean_tail::<V, MODE, N>(text, &mut target, open, &mut Ticks::new()) {
        Ok(close) => write_quote::<MODE, QUOTED, N>(&mut target, close),
        Err(masks) => {
            escape_flagged::<V, MODE, QUOTED, N>(text, masks.first, masks.last, dst, to)
        }
    }
}

/// As [`escape_to_slice`], of any text. The target is made here: so the compiler keeps it in registers.
#[inline(never)]
fn escape_long<V: Classifier<MODE, N>, const MODE: u8, const QUOTED: bool, const N: usize>(
    text: &[u8],
    dst: &mut [u8],
    to: usize,
) -> usize
    requires { to + room_for QUOTED (mode_numbered MODE) (length text.now) ≤ length dst.old }
    ensures { IsEscapedAt (reach true N) (mode_numbered MODE) QUOTED text.now dst.old dst.new to result }
{
    let mut target = Target::<N>::new(dst);
    let open = write_quote::<MODE, QUOTED, N>(&mut target, to);
    let close = escape_bytes::<V, MODE, N>(text, &mut target, open, &mut Ticks::new());
    write_quote::<MODE, QUOTED, N>(&mut target, close)
}

/// As [`escape_to_slice`], of a text shorter than two vectors, by its masks.
///
/// The masks are arguments of their own, so that they are passed in registers.
#[inline(never)]
pub(crate) fn escape_flagged<
    V: Classifier<MODE, N>,
    const MODE: u8,
    const QUOTED: bool,
    const N: usize,
>(text: &[u8], first: EscapeMask<MODE>, last: EscapeMask<MODE>, dst: &mut [u8], to: usize) -> usize
    requires masks { AreTailMasks N text.now first last }
    requires room { HasRoom (mode_numbered MODE) (reach true N) text.now 0 (length text.now)
        (to + length (quote_if QUOTED (mode_numbered MODE))) (length dst.old) }
    ensures { IsEscapedAt (reach true N) (mode_numbered MODE) QUOTED text.now dst.old dst.new to result }
{
    let mut target = Target::<N>::new(dst);
    let open = write_quote::<MODE, QUOTED, N>(&mut target, to);
    let mut ticks = Ticks::new();
    let close = escape_flagged_tail::<V, MODE, N>(text, first, last, &mut target, open, &mut ticks);
    write_quote::<MODE, QUOTED, N>(&mut target, close)
}
