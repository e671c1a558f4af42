//! The length of an output.
ghost use Rattle.std.specs.Prelude.{◌≡◌, ◌+◌, ◌<◌, ◌≤◌, ◌↔◌, length, IfSome, IsNone};
ghost use Rattle.escape_simd.specs.Lengths.{IsPartLength};
ghost use Rattle.escape_simd.specs.Modes.{mode_numbered};
ghost use Rattle.escape_simd.specs.Output.{plain};
ghost use Rattle.escape_simd.specs.Stretch.{IsFlaggedAt};

use crate::output::clean::{clean_end, mask_at};
use crate::output::{N, quote};
use crate::simd::separator::is_separator;
use escape_lanes::simd::mode::entry;

/// Returns how many bytes more than itself stand for the flagged byte at `at`, or for the separator that
/// begins with it.
#[inline(always)]
fn added<const MODE: u8>(src: &[u8], at: usize) -> usize
    requires { IsFlaggedAt (mode_numbered MODE) src.now at }
    ensures { IsPartLength (mode_numbered MODE) src.now at (at + 1) (result + 1) }
{
    if is_separator::<MODE>(src, at) {
        // Six bytes stand for three.
        return 3;
    }
    usize::from(entry::<MODE>(src[at]).0) - 1
}

/// Returns how many bytes stand for `count` bytes of the text from `at` on: a vector, or the last bytes.
#[inline(always)]
pub(super) fn part_len<const MODE: u8>(src: &[u8], at: usize, count: usize) -> usize
    requires few { count ≤ N }
    requires inside { at + count ≤ length src.now }
    requires last { count < N → at + count ≡ length src.now }
    ensures { IsPartLength (mode_numbered MODE) src.now at (at + count) result }
{
    let mut len = count;
    let mut mask = mask_at::<MODE>(src, at, count);
    'flags: while !mask.is_clear() {
        len += added::<MODE>(src, at + mask.first_offset());
        mask.clear_first_flag();
    }
    len
}

/// Returns the length in bytes of the output of a text in the mode `MODE`. Returns `None` if it exceeds `usize::MAX`.
///
/// The call allocates nothing. It classifies clean text once, and bytes near an escape up to six times.
///
/// ```rust
/// let len = output::escaped_len::<{ HTML_MODE }>("a<b"); // Some(6)
/// ```
pub fn escaped_len<const MODE: u8>(value: &str) -> Option<usize>
    requires mode { MODE ≤ 2 }
    ensures exact { IfSome result (λ n. n ≡ length (plain (mode_numbered MODE) value.now)) }
    ensures passes { IsNone result ↔ (usize.MAX < length (plain (mode_numbered MODE) value.now)) }
{
    let src = value.as_bytes();
    let mut total = 2 * quote::<MODE>().len();
    let mut at = 0;
    'parts: while at < src.len() {
        let end = clean_end::<MODE>(src, at);
        let count = N.min(src.len() - end);
        total = total.checked_add(end - at + part_len::<MODE>(src, end, count))?;
        at = end + count;
    }
    Some(total)
}
