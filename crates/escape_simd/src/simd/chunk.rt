//! A chunk: four vectors of a text that have a further one behind them.
ghost use Rattle.std.specs.Prelude.{◌≡◌, ◌+◌, ◌*◌, ◌≤◌, length, take, drop};
ghost use Rattle.escape_lanes.specs.Masks.{whole_mask};
ghost use Rattle.escape_lanes.specs.Written.{bytes_of};
ghost use Rattle.escape_simd.specs.Modes.{mode_numbered};
ghost use Rattle.escape_simd.specs.Stretch.{Advanced, HasRoom, Reached, state};

use crate::simd::Classifier;
use crate::simd::by_mask::escape_by_mask;
use crate::simd::store::{load_vector, store_lanes};
use escape_lanes::simd::escape_mask::{EscapeMask, classify_four};
use escape_lanes::simd::target::{Target, Ticks};

/// Escapes the text's vector at `at` by its mask, from `from` on: a separator of the vector before may end
/// there. Returns the places after it.
#[inline(always)]
fn vector_from<V: Classifier<MODE, N>, const MODE: u8, const N: usize>(
    src: &[u8],
    at: usize,
    from: usize,
    mask: EscapeMask<MODE>,
    target: &mut Target<'_, N>,
    to: usize,
    ticks: &mut Ticks,
) -> (usize, usize)
    requires { (mask ≡ whole_mask (take N (drop at src.now)))
        × Reached (mode_numbered MODE) src.now at from
        × (at + 2 * N ≤ length src.now)
        × HasRoom (mode_numbered MODE) N src.now from (at + N) to (length (bytes_of target.old)) }
    ensures { Advanced (mode_numbered MODE) N (at + N) 1 1
        src.now (state target.old from to ticks.old) (state target.new result.0 result.1 ticks.new) }
{
    let skipped = from - at;
    let rest = mask.skip(skipped);
    escape_by_mask::<V, MODE, N, false>(src, from, N - skipped, rest, target, to, ticks)
}

/// Escapes four vectors of the text, classified at once, since most are clean. Returns the places after them.
#[inline(always)]
pub(crate) fn chunk<V: Classifier<MODE, N>, const MODE: u8, const N: usize>(
    src: &[u8],
    at: usize,
    target: &mut Target<'_, N>,
    to: usize,
    ticks: &mut Ticks,
) -> (usize, usize)
    requires { (at + 5 * N ≤ length src.now)
        × HasRoom (mode_numbered MODE) N src.now at (at + 4 * N) to (length (bytes_of target.old)) }
    ensures { Advanced (mode_numbered MODE) N (at + 4 * N) 4 0
        src.now (state target.old at to ticks.old) (state target.new result.0 result.1 ticks.new) }
{
    let (mut mask1, mut mask2, mut mask3, mut mask4, clear) = classify_four::<V, MODE, N>(
        src, at, ticks,
    );
    if clear {
        // All loads come before the first store: after it the compiler would load the text again.
        let v1: V = load_vector(src, at);
        let v2: V = load_vector(src, at + N);
        let v3: V = load_vector(src, at + 2 * N);
        let v4: V = load_vector(src, at + 3 * N);
        let end = store_lanes::<V, MODE, N, false>(v1, N, &mut mask1, target, to);
        let end = store_lanes::<V, MODE, N, false>(v2, N, &mut mask2, target, end);
        let end = store_lanes::<V, MODE, N, false>(v3, N, &mut mask3, target, end);
        let end = store_lanes::<V, MODE, N, false>(v4, N, &mut mask4, target, end);
        return (at + 4 * N, end);
    }
    let (next, end) = vector_from::<V, MODE, N>(src, at, at, mask1, target, to, ticks);
    let (next, end) = vector_from::<V, MODE, N>(src, at + N, next, mask2, target, end, ticks);
    let (next, end) = vector_from::<V, MODE, N>(src, at + 2 * N, next, mask3, target, end, ticks);
    vector_from::<V, MODE, N>(src, at + 3 * N, next, mask4, target, end, ticks)
}
