//! The last bytes of a text, fewer than those of two vectors, and with them every short text.
ghost use Rattle.std.specs.Prelude.{min, ◌≡◌, ◌+◌, ◌-◌, ◌*◌, ◌/◌, ◌<◌, ◌≤◌, ◌++◌, ◌&&◌, true, length, take, drop, replicate, IfOk, IfErr, OnErr};
ghost use Rattle.std.specs.List.{flat_map};
ghost use Rattle.escape_lanes.specs.Masks.{is_clear, whole_mask};
ghost use Rattle.escape_lanes.specs.Written.{bytes_of};
ghost use Rattle.escape_simd.specs.Modes.{mode_numbered};
ghost use Rattle.escape_simd.specs.Stretch.{AreTailMasks, Advanced, HasRoom, reach, state};

use crate::simd::Classifier;
use crate::simd::by_mask::escape_by_mask;
use crate::simd::store::{load_vector, store_lanes, store_vector};
use escape_lanes::simd::escape_mask::{EscapeMask, classify, classify_front};
use escape_lanes::simd::target::{Target, Ticks};

/// The masks of a text shorter than two vectors: of its last vector, and of its first. If it fills no vector, the
/// last mask is of all of it, and the first is empty.
#[derive(Drop)]
pub(crate) struct TailMasks<const MODE: u8> {
    pub first: EscapeMask<MODE>,
    pub last: EscapeMask<MODE>,
}

impl<const MODE: u8> TailMasks<MODE> {
    /// Returns whether no byte is flagged.
    #[inline(always)]
    pub(crate) fn are_clear(&self) -> bool
        ensures { result
            ≡ is_clear (mode_numbered MODE) self.now.first && is_clear (mode_numbered MODE) self.now.last }
    {
        // One test, not two: which of the vectors has flags is hard to predict.
        self.first.is_clear() & self.last.is_clear()
    }
}

/// Returns a text of at least one byte, and fewer than a vector has, in a vector with zeros after it, and its
/// masks. Ticks once.
#[inline(always)]
pub(crate) fn classify_short<V: Classifier<MODE, N>, const MODE: u8, const N: usize>(
    text: &[u8],
    ticks: &mut Ticks,
) -> (V, TailMasks<MODE>)
    requires { (0 < length text.now) × (length text.now < N) }
    ensures loaded { V.lanes result.0 ≡ text.now ++ replicate (N - length text.now) 0 }
    ensures masks { AreTailMasks N text.now result.1.first result.1.last }
    ensures tick { ticks.new ≡ ticks.old + 1 }
{
    let v = V::load_last(text, text.len());
    let last = classify_front::<V, MODE, N>(&v, text, ticks);
    let first = EscapeMask::empty();
    (v, TailMasks { first, last })
}

/// Returns the masks of the first and the last vector of a text of one vector or more, and fewer than two. Ticks
/// twice.
#[inline(always)]
pub(crate) fn classify_pair<V: Classifier<MODE, N>, const MODE: u8, const N: usize>(
    text: &[u8],
    ticks: &mut Ticks,
) -> TailMasks<MODE>
    requires several { N ≤ length text.now }
    requires few { length text.now < 2 * N }
    ensures masks { AreTailMasks N text.now result.first result.last }
    ensures ticks { ticks.new ≡ ticks.old + 2 }
{
    let first = classify::<V, MODE, N>(text, 0, ticks);
    let last = classify::<V, MODE, N>(text, text.len() - N, ticks);
    TailMasks { first, last }
}

/// Returns a text's last vector, with zeros after it: so a vector can be loaded from each of its bytes on.
#[inline(always)]
fn spill_last<V: Classifier<MODE, N>, const MODE: u8, const N: usize>(text: &[u8]) -> [[u8; N]; 2]
    ensures { flat_map (λ row. row) result
        ≡ drop (length text.now - N) text.now ++ replicate (2 * N - min (length text.now) N) 0 }
{
    let mut rows = [[0u8; N]; 2];
    if text.len() < N {
        V::load_last(text, text.len()).put(&mut rows[0]);
    } else {
        load_vector::<V>(text, text.len() - N).put(&mut rows[0]);
    }
    rows
}

/// Escapes the bytes before the last vector of a text shorter than two vectors, by the mask of its first one.
/// Returns how many bytes of the last vector went with them (script: of a separator), and the place after.
#[inline(always)]
fn escape_before_last<V: Classifier<MODE, N>, const MODE: u8, const N: usize>(
    text: &[u8],
    first: EscapeMask<MODE>,
    target: &mut Target<'_, N>,
    to: usize,
    ticks: &mut Ticks,
) -> (usize, usize)
    requires few { length text.now < 2 * N }
    requires mask { N ≤ length text.now → first ≡ whole_mask (take N text.now) }
    requires room { HasRoom (mode_numbered MODE) (reach true N)
        text.now 0 (length text.now) to (length (bytes_of target.old)) }
    ensures { Advanced (mode_numbered MODE) (reach true N)
        (length text.now - N) (length text.now / N) (length text.now / N) text.now
        (state target.old 0 to ticks.old)
        (state target.new (length text.now - N + result.0) result.1 ticks.new) }
{
    if text.len() < N {
        return (0, to);
    }
    let border = text.len() - N;
    let front = first.cut(border);
    let (next, end) = escape_by_mask::<V, MODE, N, true>(text, 0, border, front, target, to, ticks);
    (next - border, end)
}

/// Escapes a text shorter than two vectors, by its masks. Returns the place after it.
#[inline(always)]
pub(crate) fn escape_flagged_tail<V: Classifier<MODE, N>, const MODE: u8, const N: usize>(
    text: &[u8],
    first: EscapeMask<MODE>,
    last: EscapeMask<MODE>,
    target: &mut Target<'_, N>,
    to: usize,
    ticks: &mut Ticks,
) -> usize
    requires { AreTailMasks N text.now first last
        × HasRoom (mode_numbered MODE) (reach true N)
        text.now 0 (length text.now) to (length (bytes_of target.old)) }
    ensures { Advanced (mode_numbered MODE) (reach true N)
        (length text.now) (length text.now / N + 1) (length text.now / N + 1) text.now
        (state target.old 0 to ticks.old) (state target.new (length text.now) result ticks.new) }
{
    let (skipped, end) = escape_before_last::<V, MODE, N>(text, first, target, to, ticks);
    let rows = spill_last::<V, MODE, N>(text);
    let left = text.len().min(N) - skipped;
    let mask = last.skip(skipped);
    let held = &rows.as_flattened()[skipped..];
    escape_by_mask::<V, MODE, N, true>(held, 0, left, mask, target, end, ticks).1
}

/// Stores a text shorter than two vectors if it is clean. Returns the place after it, or else its masks.
#[inline(always)]
pub(crate) fn store_clean_tail<V: Classifier<MODE, N>, const MODE: u8, const N: usize>(
    text: &[u8],
    target: &mut Target<'_, N>,
    to: usize,
    ticks: &mut Ticks,
) -> Result<usize, TailMasks<MODE>>
    requires { (length text.now < 2 * N)
        × HasRoom (mode_numbered MODE) (reach true N)
        text.now 0 (length text.now) to (length (bytes_of target.old)) }
    ensures clean { IfOk result (λ end. Advanced (mode_numbered MODE) (reach true N)
        (length text.now) (length text.now / N + 1) 0 text.now
        (state target.old 0 to ticks.old) (state target.new (length text.now) end ticks.new)) }
    ensures flagged { IfErr result (λ masks. AreTailMasks N text.now masks.first masks.last) }
    ensures unchanged { OnErr result (target.new ≡ target.old) }
    ensures ticks { OnErr result (ticks.new ≡ ticks.old + (length text.now / N + 1)) }
{
    let count = text.len();
    if count < N {
        // No byte, so none is classified or stored.
        if count == 0 {
            return Ok(to);
        }
        let (v, mut masks) = classify_short::<V, MODE, N>(text, ticks);
        if !masks.are_clear() {
            return Err(masks);
        }
        return Ok(store_lanes::<V, MODE, N, true>(v, count, &mut masks.last, target, to));
    }
    let mut masks = classify_pair::<V, MODE, N>(text, ticks);
    if !masks.are_clear() {
        return Err(masks);
    }
    let last = count - N;
    store_vector::<V, MODE, N, true>(text, 0, N, &mut masks.first, target, to);
    // The last vector overlaps the first one.
    store_vector::<V, MODE, N, true>(text, last, N, &mut masks.last, target, to + last);
    Ok(to + count)
}
