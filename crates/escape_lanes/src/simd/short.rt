//! Short escapes: a reverse solidus, and the byte itself or a control character's letter.
ghost use Rattle.std.specs.Prelude.{◌≡◌, ◌≢◌, ℕ, ◌+◌, ◌*◌, ◌/◌, ◌%◌, ◌<◌, ◌≤◌, ◌++◌, ◌&&◌, not, false, [], length, take, drop, map, replicate, slice_index_or};
ghost use Rattle.std.specs.Simd.Lanes.{zip2};
ghost use Rattle.escape_lanes.specs.Bits.{bits_of, none_set};
ghost use Rattle.escape_lanes.specs.Mode.{html, mode_numbered};
ghost use Rattle.escape_lanes.specs.Short.{shortened, is_long};

use crate::simd::lane_bits::shift_lanes;
use crate::simd::lanes::load;
use crate::simd::mode::is_script;
use std::simd::prelude::*;

/// Returns the 16 bytes of the text from `at` on, with the letter of its short escape in place of each
/// control character that has one.
///
/// Of a line feed that is `n`, and of a byte without such a letter the byte itself.
#[inline(always)]
fn shorten(text: &[u8], at: usize) -> u8x16
    requires { at + 16 ≤ length text.now }
    ensures { result ≡ map shortened (take 16 (drop at text.now)) }
{
    let bytes = load::<16>(&text[at..]);
    // By the control character, and 0 for one that has no short escape.
    let letters = u8x16::from_array(*b"\0\0\0\0\0\0\0\0btn\0fr\0\0");
    // A byte below 0x10 is its own place. That of any other is at least 0x80, where the look-up reads 0.
    let places = bytes.saturating_add(u8x16::splat(0x70)) ^ u8x16::splat(0x70);
    // A letter is more than the byte that it stands for.
    bytes.simd_max(letters.swizzle_dyn(places))
}

/// Returns the text's `N` bytes from `at` on, shortened, 16 at a time: so all of them are loaded before the
/// first block is written.
///
/// `N` is a multiple of 16, at most 64.
#[inline(always)]
pub fn shorten_vector<const N: usize>(text: &[u8], at: usize) -> [u8x16; 4]
    requires sixteens { N ≡ 16 * (N / 16) }
    requires most { N ≤ 64 }
    requires inside { at + N ≤ length text.now }
    ensures { (k : ℕ) → 16 * k < N → slice_index_or result k []
        ≡ map shortened (take 16 (drop (at + 16 * k) text.now)) }
{
    let mut pieces = [u8x16::splat(0); 4];
    let mut next = 0;
    'pieces: while 16 * next < N {
        pieces[next] = shorten(text, at + 16 * next);
        next += 1;
    }
    pieces
}

/// The last eight lanes of a vector, and then the first eight.
const LAST_HALF: [usize; 16] = [8, 9, 10, 11, 12, 13, 14, 15, 0, 1, 2, 3, 4, 5, 6, 7];

/// Returns a piece with its block of that number in front. A piece has two blocks of eight bytes, of which the
/// first has an even number.
#[inline(always)]
pub fn half(piece: u8x16, block: usize) -> u8x16
    requires { length piece ≡ 16 }
    ensures whole { length result ≡ 16 }
    ensures block { take 8 result ≡ take 8 (drop (8 * (block % 2)) piece) }
{
    if block % 2 == 0 {
        return piece;
    }
    piece.shuffle(piece, LAST_HALF)
}

/// Returns a bit for each of the text's 16 bytes from `at` on: it is set if the byte needs an escape and has
/// no short one.
#[inline(always)]
fn long_lanes<const MODE: u8>(text: &[u8], at: usize) -> u64
    requires mode { mode_numbered MODE ≢ html }
    requires inside { at + 16 ≤ length text.now }
    ensures { bits_of 64 result
        ≡ map (is_long (mode_numbered MODE)) (take 16 (drop at text.now)) ++ replicate 48 false }
{
    // Of the control characters, `shorten` leaves those that have no letter.
    let bytes = shorten(text, at);
    let control = bytes.simd_le(u8x16::splat(0x1f));
    if !is_script::<MODE>() {
        return control.to_bitmask();
    }
    let angle = (bytes | u8x16::splat(2)).simd_eq(u8x16::splat(b'>'));
    let ampersand = bytes.simd_eq(u8x16::splat(b'&'));
    let lead = bytes.simd_eq(u8x16::splat(0xe2));
    (control | angle | ampersand | lead).to_bitmask()
}

/// Returns whether a byte of the text is flagged that needs an escape and has no short one. `MODE` is not
/// that of HTML, which has no short escapes.
///
/// The text has a multiple of 16 bytes, at most 64. Of a text with `"` and `\u{1}` that is so where the
/// second is flagged.
#[inline(always)]
pub fn has_long<const MODE: u8>(text: &[u8], flags: u64) -> bool
    requires mode { mode_numbered MODE ≢ html }
    requires sixteens { length text.now ≡ 16 * (length text.now / 16) }
    requires few { length text.now ≤ 64 }
    ensures { result
        ≡ not (none_set (zip2 ◌&&◌ (map (is_long (mode_numbered MODE)) text.now) (bits_of 64 flags))) }
{
    let mut long = 0;
    let mut next = 0;
    'pieces: while next < text.len() {
        long |= long_lanes::<MODE>(text, next) & shift_lanes(flags, next);
        next += 16;
    }
    long != 0
}
