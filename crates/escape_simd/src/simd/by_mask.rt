//! One vector of a text, by its mask: stored where it is clean, else escaped in blocks or by turns.
ghost use Rattle.std.specs.Prelude.{◌≡◌, ◌+◌, ◌≤◌, true, false, length, take, drop};
ghost use Rattle.escape_lanes.specs.Masks.{is_clear, whole_mask};
ghost use Rattle.escape_lanes.specs.Written.{bytes_of, stored_of};
ghost use Rattle.escape_simd.specs.Modes.{mode_numbered};
ghost use Rattle.escape_simd.specs.Runs.{run_count, run_count_after};
ghost use Rattle.escape_simd.specs.Stretch.{Advanced, IsRunEnd, IsVectorAt, Reached, Stretch, reach, state};

use crate::simd::Classifier;
use crate::simd::blocks::{are_paid, are_short, escape_blocks};
use crate::simd::store::store_vector;
use crate::simd::util::escape_run;
use escape_lanes::simd::escape_mask::EscapeMask;
use escape_lanes::simd::mode::is_script;
use escape_lanes::simd::target::{Target, Ticks};
use escape_lanes::simd::traits::LoadStore;

/// Stores the clean bytes from `from` on of a vector that ends at `border`, whose last escape was written.
/// Returns the places after them.
#[inline]
fn finish_vector<V: LoadStore, const MODE: u8, const N: usize, const LAST: bool>(
    src: &[u8],
    border: usize,
    from: usize,
    mask: EscapeMask<MODE>,
    target: &mut Target<'_, N>,
    to: usize,
    ticks: &mut Ticks,
) -> (usize, usize)
    requires { (V.LANES ≡ N)
        × (border ≤ 64)
        × (is_clear (mode_numbered MODE) mask ≡ true)
        × IsRunEnd (mode_numbered MODE) src.now border from mask
        × IsVectorAt (mode_numbered MODE) N (reach LAST N)
        src.now from border to (length (bytes_of target.old)) }
    ensures stretch { Stretch (mode_numbered MODE) (reach LAST N)
        src.now target.old target.new (from, to) result }
    ensures reached { Reached (mode_numbered MODE) src.now border result.0 }
    ensures stored { stored_of target.new + run_count (mode_numbered MODE) (drop result.0 src.now)
        ≤ stored_of target.old + run_count_after (mode_numbered MODE) true (drop from src.now) + 1 }
    ensures classified { ticks.new + stored_of target.old ≡ ticks.old + stored_of target.new }
{
    if border <= from {
        return (from, to);
    }
    let mut rest = mask.rest(from, ticks);
    store_vector::<V, MODE, N, LAST>(src, from, border - from, &mut rest, target, to)
}

/// Escapes the first `valid` bytes of the text's first vector, some of which are flagged. Returns the places
/// after them.
///
/// The vector is stored. Then each turn passes the clean bytes before a run, escapes it and stores the vector
/// after it. The loop ends in mid-turn: so a vector of one run takes no branch of the loop.
#[inline(always)]
fn escape_by_turns<V: LoadStore, const MODE: u8, const N: usize, const LAST: bool>(
    text: &[u8],
    valid: usize,
    mut mask: EscapeMask<MODE>,
    target: &mut Target<'_, N>,
    to: usize,
    ticks: &mut Ticks,
) -> (usize, usize)
    requires { (V.LANES ≡ N)
        × (16 ≤ N)
        × (N ≤ 64)
        × (mask ≡ whole_mask (take valid text.now))
        × (is_clear (mode_numbered MODE) mask ≡ false)
        × IsVectorAt (mode_numbered MODE) N (reach LAST N)
        text.now 0 valid to (length (bytes_of target.old)) }
    ensures { Advanced (mode_numbered MODE) (reach LAST N) valid 1 1
        text.now (state target.old 0 to ticks.old) (state target.new result.0 result.1 ticks.new) }
{
    store_vector::<V, MODE, N, LAST>(text, 0, valid, &mut mask, target, to);
    let mut next = 0;
    let mut end = to;
    'turns: loop {
        let flagged = mask.first_offset();
        let (after, after_end) = escape_run::<EscapeMask<MODE>, MODE, N>(
            text,
            valid,
            flagged,
            &mut mask,
            target,
            end + (flagged - next),
        );
        if mask.is_clear() {
            return finish_vector::<V, MODE, N, LAST>(
                text, valid, after, mask, target, after_end, ticks,
            );
        }
        next = after;
        end = after_end;
        mask = mask.rest(next, ticks);
        store_vector::<V, MODE, N, LAST>(text, next, valid - next, &mut mask, target, end);
    }
}

/// Escapes the first `valid` bytes of the text's vector at `at`, by their mask. Returns the places after
/// them, in script mode after the rest of a separator. Where `LAST`, these may be the text's last bytes.
#[inline(always)]
pub(crate) fn escape_by_mask<
    V: Classifier<MODE, N>,
    const MODE: u8,
    const N: usize,
    const LAST: bool,
>(
    src: &[u8],
    at: usize,
    valid: usize,
    mut mask: EscapeMask<MODE>,
    target: &mut Target<'_, N>,
    to: usize,
    ticks: &mut Ticks,
) -> (usize, usize)
    requires { (mask ≡ whole_mask (take valid (drop at src.now)))
        × IsVectorAt (mode_numbered MODE) N (reach LAST N)
        src.now at (at + valid) to (length (bytes_of target.old)) }
    ensures { Advanced (mode_numbered MODE) (reach LAST N) (at + valid) 1 1
        src.now (state target.old at to ticks.old) (state target.new result.0 result.1 ticks.new) }
{
    if mask.is_clear() {
        return store_vector::<V, MODE, N, LAST>(src, at, valid, &mut mask, target, to);
    }
    let bits = mask.bits();
    if are_paid(bits, valid) && are_short::<MODE, N>(src, at, bits) {
        let end = escape_blocks::<MODE, N>(src, at, valid, mask, target, to, ticks);
        return (at + valid, end);
    }
    let text = &src[at..];
    let (next, end) = escape_by_turns::<V, MODE, N, LAST>(text, valid, mask, target, to, ticks);
    if is_script::<MODE>() {
        return (at + next, end);
    }
    // Without separators `next` is `valid`, which the next load need not wait for.
    (at + valid, end)
}
