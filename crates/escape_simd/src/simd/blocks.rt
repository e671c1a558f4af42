//! The escapes of a vector in blocks of eight bytes, with no branch on a single byte.
ghost use Rattle.std.specs.Prelude.{min, ◌≡◌, ◌+◌, ◌-◌, ◌*◌, ◌/◌, ◌≤◌, ◌&&◌, true, false, not, nat_eq, length, map, take, drop, if◌then◌else◌};
ghost use Rattle.escape_lanes.specs.Bits.{bits_of, gaps, none_set};
ghost use Rattle.escape_lanes.specs.Masks.{IsMaskOf, lanes_of_mask, whole_mask};
ghost use Rattle.escape_lanes.specs.Short.{shortened};
ghost use Rattle.escape_lanes.specs.Spread.{IsBlock, flag_count, flagged_blocks};
ghost use Rattle.escape_lanes.specs.Written.{bytes_of, stored_of};
ghost use Rattle.escape_simd.specs.Modes.{mode_numbered};
ghost use Rattle.escape_simd.specs.Blocks.{AreShort, HasBlocks};
ghost use Rattle.escape_simd.specs.Stretch.{Stretch};

use escape_lanes::simd::escape_mask::EscapeMask;
use escape_lanes::simd::lane_bits::{count_flagged, count_gaps, first_eight};
use escape_lanes::simd::mode::has_short_escapes;
use escape_lanes::simd::short::{half, has_long, shorten_vector};
use escape_lanes::simd::target::{Target, Ticks};
use std::simd::prelude::*;

/// Returns whether a vector's first `valid` bytes can go by blocks: only if these keep the bound on stores,
/// as a block without an escape counts as one. False also where turns are faster.
#[inline(always)]
pub(crate) fn are_paid(bits: u64, valid: usize) -> bool
    requires some { none_set (bits_of 64 bits) ≡ false }
    requires few { valid ≤ 64 }
    ensures { result ≡ true → (valid + 7) / 8
        ≤ flagged_blocks 8 (bits_of 64 bits) + gaps false (take valid (bits_of 64 bits)) + 1 }
{
    let blocks = (valid + 7) / 8;
    let escapes = count_flagged(bits);
    // With fewer escapes than blocks turns are faster. The bound is the blocks with an escape, and the gaps, and one
    // more. A block has at most eight escapes, so at least an eighth of their count are blocks with one.
    blocks <= escapes && (blocks <= 2 || 8 * blocks < escapes + 8 * count_gaps(bits, valid) + 16)
}

/// Returns whether what stands for each flagged byte of the text's vector at `at` is two bytes.
// This and `escape_blocks` are not `inline(always)`: that would make their callers too large to inline.
#[inline]
pub(crate) fn are_short<const MODE: u8, const N: usize>(src: &[u8], at: usize, bits: u64) -> bool
    requires width { N ≡ 16 * (N / 16) }
    requires most { N ≤ 64 }
    requires inside { at + N ≤ length src.now }
    ensures { result ≡ true → AreShort (mode_numbered MODE) N src.now at (bits_of 64 bits) }
{
    has_short_escapes::<MODE>() && !has_long::<MODE>(&src[at..at + N], bits)
}

/// Returns whether one of eight lanes is flagged.
#[inline(always)]
fn has_flag(eight: u8) -> bool
    ensures { result ≡ not (nat_eq eight 0) }
{
    eight != 0
}

/// Returns a mask by which the first block of eight can be written, and whether the vector's own is still unused.
///
/// A block without a flag counts as a vector: the first one takes the vector's own mask, and each later one what
/// `rest` returns.
#[inline(always)]
fn pay_block<const MODE: u8>(
    mask: EscapeMask<MODE>,
    unused: bool,
    ticks: &mut Ticks,
) -> (EscapeMask<MODE>, bool)
    requires { (mask.from ≡ 0) × (1 ≤ length mask.bytes) × (mask.stored ≡ (if unused then 0 else 1)) }
    ensures same { IsMaskOf result.0 mask.entry.bytes }
    ensures stored { result.0.stored
        ≡ (if nat_eq (flag_count (take 8 (lanes_of_mask (mode_numbered MODE) mask.entry))) 0
        then 0 else mask.entry.stored) }
    ensures left { result.1 ≡ unused
        && not (nat_eq (flag_count (take 8 (lanes_of_mask (mode_numbered MODE) mask.entry))) 0) }
    ensures ticks { ticks.new ≡ ticks.old
        + (if not unused && nat_eq (flag_count (take 8 (lanes_of_mask (mode_numbered MODE) mask.entry))) 0
        then 1 else 0) }
{
    if has_flag(first_eight(mask.bits())) {
        return (mask, unused);
    }
    if unused {
        return (mask, false);
    }
    (mask.rest(0, ticks), false)
}

/// Escapes a mask's first eight bytes, or all if it has fewer, at `to`: `block` begins with them, shortened.
/// Uses up the mask if none of them is flagged. Returns the place after eight.
#[inline(always)]
fn put_block<const MODE: u8, const N: usize>(
    block: u8x16,
    mask: &mut EscapeMask<MODE>,
    target: &mut Target<'_, N>,
    to: usize,
) -> usize
    requires { (length block ≡ 16)
        × (mask.old.from ≡ 0)
        × (take (min 8 (length mask.old.bytes)) block ≡ map shortened (take 8 mask.old.bytes))
        × (flag_count (take 8 (lanes_of_mask (mode_numbered MODE) mask.old)) ≡ 0 → mask.old.stored ≡ 0)
        × (to + 16 ≤ length (bytes_of target.old)) }
    ensures block { IsBlock (take 8 (lanes_of_mask (mode_numbered MODE) mask.old)) (take 8 block)
        target.old target.new to result }
    ensures same { IsMaskOf mask.new mask.old.bytes }
    ensures used { mask.new.stored
        ≡ (if nat_eq (flag_count (take 8 (lanes_of_mask (mode_numbered MODE) mask.old))) 0
        then 1 else mask.old.stored) }
{
    let eight = first_eight(mask.bits());
    if !has_flag(eight) {
        mask.count_store();
    }
    target.escape_block(to, block, eight)
}

/// Escapes the text's `valid` bytes at `at` in blocks of eight. Returns the place after them.
///
/// The last block may have bytes past them, which are not flagged: what it has of these is stepped back over.
#[inline]
pub(crate) fn escape_blocks<const MODE: u8, const N: usize>(
    src: &[u8],
    at: usize,
    valid: usize,
    mut mask: EscapeMask<MODE>,
    target: &mut Target<'_, N>,
    to: usize,
    ticks: &mut Ticks,
) -> usize
    requires { (mask ≡ whole_mask (take valid (drop at src.now)))
        × (valid ≤ N)
        × (N ≡ 16 * (N / 16))
        × (N ≤ 64)
        × (at + N ≤ length src.now)
        × HasBlocks (mode_numbered MODE) src.now at valid to (length (bytes_of target.old)) }
    ensures stretch { Stretch (mode_numbered MODE) 16
        src.now target.old target.new (at, to) (at + valid, result) }
    ensures stored { stored_of target.new + flagged_blocks 8 (lanes_of_mask (mode_numbered MODE) mask.entry)
        ≡ stored_of target.old + (valid + 7) / 8 }
    ensures ticks { ticks.new ≡ ticks.old
        + ((valid + 7) / 8 - (flagged_blocks 8 (lanes_of_mask (mode_numbered MODE) mask.entry) + 1)) }
{
    let pieces = shorten_vector::<N>(src, at);
    let mut unused = true;
    let mut end = to;
    let mut block = 0;
    'blocks: while 8 * block < N {
        (mask, unused) = pay_block::<MODE>(mask, unused, ticks);
        let eight = half(pieces[block / 2], block);
        end = put_block::<MODE, N>(eight, &mut mask, target, end);
        block += 1;
        if valid <= 8 * block {
            break;
        }
        mask = mask.skip(8);
    }
    end - (8 * block - valid)
}
