//! Which bytes of a text are flagged, and whether nothing in a text needs an escape.
ghost use Rattle.std.specs.Prelude.{◌≡◌, ◌+◌, ◌<◌, ◌≤◌, ◌↔◌, true, false, length, take, drop};
ghost use Rattle.std.specs.List.{count_by};
ghost use Rattle.escape_lanes.specs.Masks.{IsMaskOf};
ghost use Rattle.escape_lanes.specs.Replacement.{needs_escape};
ghost use Rattle.escape_simd.specs.Modes.{mode_numbered};
ghost use Rattle.escape_simd.specs.Output.{inner};
ghost use Rattle.escape_simd.specs.Parts.{IsFront};

use crate::output::length::part_len;
use crate::output::{N, V};
use escape_lanes::simd::escape_mask::{EscapeMask, classify, classify_four, classify_front};
use escape_lanes::simd::target::Ticks;
use escape_lanes::simd::traits::LoadStore;

/// Returns the mask of `count` bytes of the text from `at` on: of a vector, or of the last bytes if they are fewer.
#[inline(always)]
pub(super) fn mask_at<const MODE: u8>(src: &[u8], at: usize, count: usize) -> EscapeMask<MODE>
    requires few { count ≤ N }
    requires inside { at + count ≤ length src.now }
    requires last { count < N → at + count ≡ length src.now }
    ensures { IsMaskOf result (take count (drop at src.now)) }
{
    let mut ticks = Ticks::new();
    if count == N {
        return classify::<V, MODE, N>(src, at, &mut ticks);
    }
    if count == 0 {
        return EscapeMask::empty();
    }
    classify_front::<V, MODE, N>(&V::load_last(src, count), &src[at..], &mut ticks)
}

/// Returns where the clean bytes of the text from `at` on end, as far as whole vectors tell: at a vector with a flagged
/// byte, or where fewer than two vectors are left.
#[inline(always)]
pub(super) fn clean_end<const MODE: u8>(src: &[u8], at: usize) -> usize
    requires { at ≤ length src.now }
    ensures { IsFront (mode_numbered MODE) src.now at result }
{
    let mut end = at;
    'chunks: while 5 * N <= src.len() - end
        && classify_four::<V, MODE, N>(src, end, &mut Ticks::new()).4
    {
        end += 4 * N;
    }
    'vectors: while 2 * N <= src.len() - end && mask_at::<MODE>(src, end, N).is_clear() {
        end += N;
    }
    end
}

/// Returns whether nothing in the text needs an escape in the mode `MODE`. If so, the output is the text, between
/// quotation marks in the modes that have them.
///
/// The call allocates nothing. It reads the text in parts of at most 128 bytes, returns `false` at the first part in
/// which something needs an escape, and else reads the whole text.
///
/// ```rust
/// let clean = output::is_clean::<{ HTML_MODE }>("a<b"); // false
/// ```
#[inline(never)]
pub fn is_clean<const MODE: u8>(value: &str) -> bool
    requires mode { MODE ≤ 2 }
    ensures itself { (result ≡ true) ↔ (inner (mode_numbered MODE) value.now ≡ value.now) }
    ensures flagged { result ≡ false → 0 < count_by (needs_escape (mode_numbered MODE)) value.now }
{
    let src = value.as_bytes();
    let mut at = 0;
    'parts: while at < src.len() {
        let end = clean_end::<MODE>(src, at);
        let count = N.min(src.len() - end);
        if part_len::<MODE>(src, end, count) != count {
            return false;
        }
        at = end + count;
    }
    true
}
