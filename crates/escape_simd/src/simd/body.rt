//! The body of all kernels: a text's bytes by chunks, by vectors, and the last ones.
ghost use Rattle.std.specs.Prelude.{◌+◌, ◌/◌, true, length};
ghost use Rattle.escape_lanes.specs.Written.{bytes_of};
ghost use Rattle.escape_simd.specs.Modes.{mode_numbered};
ghost use Rattle.escape_simd.specs.Stretch.{Advanced, HasRoom, reach, state};

use crate::simd::Classifier;
use crate::simd::by_mask::escape_by_mask;
use crate::simd::chunk::chunk;
use crate::simd::tail::{escape_flagged_tail, store_clean_tail};
use escape_lanes::simd::escape_mask::classify;
use escape_lanes::simd::target::{Target, Ticks};

/// Escapes the bytes to the target from `to` on, with no quotation marks. Returns the place after them.
#[inline(always)]
pub(crate) fn escape_bytes<V: Classifier<MODE, N>, const MODE: u8, const N: usize>(
    src: &[u8],
    target: &mut Target<'_, N>,
    to: usize,
    ticks: &mut Ticks,
) -> usize
    requires { HasRoom (mode_numbered MODE) (reach true N)
        src.now 0 (length src.now) to (length (bytes_of target.old)) }
    ensures { Advanced (mode_numbered MODE) (reach true N)
        (length src.now) (length src.now / N + 1) 0 src.now
        (state target.old 0 to ticks.old) (state target.new (length src.now) result ticks.new) }
{
    let mut at = 0;
    let mut end = to;
    // A vector more is left behind them: after a run, a vector is loaded from each byte on.
    'chunks: while 5 * N <= src.len() - at {
        (at, end) = chunk::<V, MODE, N>(src, at, target, end, ticks);
    }
    'vectors: while 2 * N <= src.len() - at {
        let mask = classify::<V, MODE, N>(src, at, ticks);
        (at, end) = escape_by_mask::<V, MODE, N, false>(src, at, N, mask, target, end, ticks);
    }
    let last = &src[at..];
    match store_clean_tail::<V, MODE, N>(last, target, end, ticks) {
        Ok(close) => close,
        Err(masks) => {
            escape_flagged_tail::<V, MODE, N>(last, masks.first, masks.last, target, end, ticks)
        }
    }
}
