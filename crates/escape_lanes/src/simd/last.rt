//! A text's last bytes in a vector, with zeros after them.
//!
//! They never pass through memory: a copy of a number of bytes that is known only at run time is a
//! call, and a vector that is loaded from words just written has to wait for all of them.
ghost use Rattle.std.specs.Prelude.{◌≡◌, ◌+◌, ◌-◌, ◌<◌, ◌≤◌, ◌++◌, length, take, drop, replicate};
ghost use Rattle.std.specs.Simd.Lanes.{number_l};
ghost use Rattle.escape_lanes.specs.Lanes.{AreBytes};

use crate::simd::halves::{both_4, both_8, both_16, both_32};
use crate::simd::lanes;
use std::simd::prelude::*;

/// Returns the last `count` bytes, three at most, as a number.
///
/// The first, the middle and the last one are all of them, and may be the same one.
#[inline(always)]
#[tactic(auto, using(crate::proofs::LastLemmas::number_up_to_three))]
fn up_to_three(src: &[u8], count: usize) -> u64
    requires few { count < 4 }
    requires inside { count ≤ length src.now }
    ensures { result ≡ number_l 256 (drop (length src.now - count) src.now) }
{
    if count == 0 {
        return 0;
    }
    let at = src.len() - count;
    let middle = (src[at + count / 2] as u64) << (8 * (count / 2));
    let last = (src[at + count - 1] as u64) << (8 * (count - 1));
    src[at] as u64 | (middle | last)
}

// For each length of 4 to 15, where its bytes lie in four words of four bytes that overlap, and zeros after
// them: a place of 128 reads as 0. The first four rows are not used.
#[rattlefmt::skip]
static GATHERED: [[u8; 16]; 16] = [
    [128; 16],
    [128; 16],
    [128; 16],
    [128; 16],
    [12, 13, 14, 15, 128, 128, 128, 128, 128, 128, 128, 128, 128, 128, 128, 128],
    [0, 12, 13, 14, 15, 128, 128, 128, 128, 128, 128, 128, 128, 128, 128, 128],
    [0, 1, 12, 13, 14, 15, 128, 128, 128, 128, 128, 128, 128, 128, 128, 128],
    [0, 1, 2, 12, 13, 14, 15, 128, 128, 128, 128, 128, 128, 128, 128, 128],
    [0, 1, 2, 3, 12, 13, 14, 15, 128, 128, 128, 128, 128, 128, 128, 128],
    [0, 1, 2, 3, 4, 12, 13, 14, 15, 128, 128, 128, 128, 128, 128, 128],
    [0, 1, 2, 3, 4, 5, 12, 13, 14, 15, 128, 128, 128, 128, 128, 128],
    [0, 1, 2, 3, 4, 5, 6, 12, 13, 14, 15, 128, 128, 128, 128, 128],
    [0, 1, 2, 3, 4, 5, 6, 7, 12, 13, 14, 15, 128, 128, 128, 128],
    [0, 1, 2, 3, 4, 5, 6, 7, 8, 12, 13, 14, 15, 128, 128, 128],
    [0, 1, 2, 3, 4, 5, 6, 7, 8, 9, 12, 13, 14, 15, 128, 128],
    [0, 1, 2, 3, 4, 5, 6, 7, 8, 9, 10, 12, 13, 14, 15, 128],
];

/// Returns the four bytes from `at` on.
#[inline(always)]
fn four_lanes(src: &[u8], at: usize) -> u8x4
    requires { at + 4 ≤ length src.now }
    ensures { result ≡ take 4 (drop at src.now) }
{
    lanes::load(&src[at..])
}

/// Returns a text of 4 to 15 bytes with zeros after it: four words that overlap, put in place by one look-up, with
/// no branch on the length.
#[inline(always)]
fn gathered(src: &[u8]) -> u8x16
    requires several { 4 ≤ length src.now }
    requires few { length src.now < 16 }
    ensures { result ≡ src.now ++ replicate (16 - length src.now) 0 }
{
    let last = src.len() - 4;
    let low = both_4(four_lanes(src, 0), four_lanes(src, last.min(4)));
    let high = both_4(four_lanes(src, last.min(8)), four_lanes(src, last));
    both_8(low, high).swizzle_dyn(u8x16::from_array(GATHERED[src.len()]))
}

/// Returns the last `count` bytes of a text of any length, with zeros after them.
#[inline(always)]
fn joined(src: &[u8], count: usize) -> u8x16
    requires few { count < 16 }
    requires inside { count ≤ length src.now }
    ensures { result ≡ drop (length src.now - count) src.now ++ replicate (16 - count) 0 }
{
    if 4 <= count {
        return gathered(&src[src.len() - count..]);
    }
    u64x2::from_array([up_to_three(src, count), 0]).to_le_bytes()
}

// The places of 16 lanes, and after them places that read as 0.
const PLACES: [u8; 32] = [
    0, 1, 2, 3, 4, 5, 6, 7, 8, 9, 10, 11, 12, 13, 14, 15, 128, 128, 128, 128, 128, 128, 128, 128,
    128, 128, 128, 128, 128, 128, 128, 128,
];

/// Returns the last `count` bytes of a text of 16 bytes or more: its last 16, moved down by a look-up.
#[inline(always)]
fn moved_down(src: &[u8], count: usize) -> u8x16
    requires few { count < 16 }
    requires long { 16 ≤ length src.now }
    ensures { result ≡ drop (length src.now - count) src.now ++ replicate (16 - count) 0 }
{
    let last: u8x16 = lanes::load(&src[src.len() - 16..]);
    last.swizzle_dyn(lanes::load(&PLACES[16 - count..]))
}

/// Returns the last `count` bytes, with zeros after them, in 16 lanes.
#[inline(always)]
pub(crate) fn last_16(src: &[u8], count: usize) -> u8x16
    requires few { count < 16 }
    requires inside { count ≤ length src.now }
    ensures bytes { AreBytes 16 result }
    ensures lanes { result ≡ drop (length src.now - count) src.now ++ replicate (16 - count) 0 }
{
    if 16 <= src.len() {
        moved_down(src, count)
    } else {
        joined(src, count)
    }
}

/// Returns the last `count` bytes, with zeros after them, in 32 lanes.
#[inline(always)]
pub(crate) fn last_32(src: &[u8], count: usize) -> u8x32
    requires few { count < 32 }
    requires inside { count ≤ length src.now }
    ensures bytes { AreBytes 32 result }
    ensures lanes { result ≡ drop (length src.now - count) src.now ++ replicate (32 - count) 0 }
{
    if count < 16 {
        return both_16(last_16(src, count), lanes::splat(0));
    }
    let first = lanes::load(&src[src.len() - count..]);
    both_16(first, moved_down(src, count - 16))
}

/// Returns the last `count` bytes, with zeros after them, in 64 lanes.
#[inline(always)]
pub(crate) fn last_64(src: &[u8], count: usize) -> u8x64
    requires few { count < 64 }
    requires inside { count ≤ length src.now }
    ensures bytes { AreBytes 64 result }
    ensures lanes { result ≡ drop (length src.now - count) src.now ++ replicate (64 - count) 0 }
{
    if count < 32 {
        return both_32(last_32(src, count), lanes::splat(0));
    }
    let first = lanes::load(&src[src.len() - count..]);
    both_32(first, last_32(src, count - 32))
}
