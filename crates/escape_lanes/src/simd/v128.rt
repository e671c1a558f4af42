//! 16 bytes in two words, by plain arithmetic on all lanes of a word at once. The compiler makes
//! operations on vectors of it where there are any.
ghost use Rattle.std.specs.Prelude.{◌≡◌, ◌+◌, ◌<◌, ◌≤◌, ◌^◌, length, map, refl, take, drop, replicate, bit_and, bit_xor};
ghost use Rattle.std.proofs.Common.{lit≤};
ghost use Rattle.escape_lanes.specs.Bits.{bits_of};
ghost use Rattle.escape_lanes.specs.Lanes.{flagged_lanes};
ghost use Rattle.escape_lanes.specs.Mode.{json, html, mode_of};
ghost use Rattle.escape_lanes.specs.Replacement.{needs_escape};
ghost use Rattle.escape_lanes.specs.Words.{lanes_of_word, lanes_of_words, words-bytes};

mod script;

use crate::simd::classifier::Classifier;
use crate::simd::lane_mask::LaneMask;
use crate::simd::lanes;
use crate::simd::last::last_16;
use crate::simd::mode::{is_quoted, is_script};
use crate::simd::target::Ticks;
use crate::simd::traits::{BitMask, LoadLast, Simd};
pub use script::script_mask;
use std::simd::prelude::{u8x16, u64x1};

/// A vector of 16 bytes.
#[derive(Debug, Drop)]
pub struct Simd128u {
    // The first eight lanes, and the others, the first lane lowest.
    low: u64,
    high: u64,
}

/// A truth value for each lane of a [`Simd128u`].
pub type Mask128 = LaneMask<1, 16>;

/// Returns the eight bytes from `at` on, as a word.
#[inline(always)]
fn word_at(src: &[u8], at: usize) -> u64
    requires { at + 8 ≤ length src.now }
    ensures { lanes_of_word result ≡ take 8 (drop at src.now) }
{
    u64x1::from_le_bytes(lanes::load(&src[at..])).to_array()[0]
}

/// Returns the word with the byte in each of its lanes.
#[inline(always)]
fn each_lane(byte: u8) -> u64
    ensures { lanes_of_word result ≡ replicate 8 byte }
{
    u64::from_le_bytes([byte; 8])
}

/// Returns the eight bytes of a word.
#[inline(always)]
#[tactic(auto, using(crate::proofs::WordLemmas::word_to_bytes))]
fn bytes_of(word: u64) -> [u8; 8]
    ensures { result ≡ lanes_of_word word }
{
    word.to_le_bytes()
}

/// Returns the lanes of both words.
#[inline(always)]
fn to_lanes(v: &Simd128u) -> u8x16
    ensures { result ≡ lanes_of_words v.now.low v.now.high }
{
    let mut lanes = [0; 16];
    v.storeu(&mut lanes);
    u8x16::from_array(lanes)
}

/// The top bit of each lane of a word.
const TOPS: u64 = 0x8080_8080_8080_8080;

/// Returns one bit for each lane of a word that is flagged, the first lane's lowest.
///
/// The product has the top bit of lane `i` at `56 + i`, since lane `i` of the word meets one bit of
/// the factor for each place, and no two meet at one.
#[inline(always)]
#[tactic(auto, using(crate::proofs::WordLemmas::word_bits))]
fn flag_bits(flags: u64) -> u16
    ensures below { result < 2 ^ 8 }
    ensures bits { bits_of 8 result ≡ flagged_lanes (lanes_of_word flags) }
{
    ((flags & TOPS).wrapping_mul(0x0002_0408_1020_4081) >> 56) as u16
}

/// Returns one bit for each lane of both words that is flagged, the first lane's lowest.
#[inline(always)]
fn lane_bits(low: u64, high: u64) -> u16
    ensures { bits_of 16 result ≡ flagged_lanes (lanes_of_words low high) }
{
    flag_bits(low) | flag_bits(high) << 8
}

impl Simd for Simd128u {
    const LANES: usize = 16;

    type Element = u8;

    type Mask = Mask128;

    ghost LANES = { 16 };

    ghost lanes = { λ v. lanes_of_words v.low v.high };

    ghost number = { λ e. e };

    ghost width = { λ v. (words-bytes v.low v.high).full };

    ghost bytes = { λ v. (words-bytes v.low v.high).small };

    ghost mask_width = { refl };

    #[inline(always)]
    fn loadu(src: &[u8]) -> Self {
        Simd128u {
            low: word_at(src, 0),
            high: word_at(src, 8),
        }
    }

    #[inline(always)]
    fn storeu(&self, dst: &mut [u8]) {
        dst[..8].copy_from_slice(&bytes_of(self.low));
        dst[8..16].copy_from_slice(&bytes_of(self.high));
    }

    #[inline(always)]
    fn eq(&self, rhs: &Self) -> Mask128 {
        LaneMask::new(lanes::eq(&to_lanes(self), &to_lanes(rhs)))
    }

    #[inline(always)]
    fn splat(elem: u8) -> Self {
        Simd128u {
            low: each_lane(elem),
            high: each_lane(elem),
        }
    }

    #[inline(always)]
    fn le(&self, rhs: &Self) -> Mask128 {
        LaneMask::new(lanes::le(&to_lanes(self), &to_lanes(rhs)))
    }
}

impl LoadLast for Simd128u {
    ghost at_most = { lit≤ tt };

    #[inline(always)]
    fn loadu_last(src: &[u8], count: usize) -> Self {
        Simd128u::loadu(&last_16(src, count).to_array())
    }
}

impl<const MODE: u8> Classifier<MODE, 16> for Simd128u {
    ghost lane_count = { refl };

    ghost sixteens = { refl };

    ghost several = { lit≤ tt };

    ghost most = { lit≤ tt };

    #[inline]
    fn escape_bits(&self, ticks: &mut Ticks) -> u64 {
        if is_script::<MODE>() {
            script_mask(self, ticks) as u64
        } else if is_quoted::<MODE>() {
            escaped_mask::<false>(self, ticks) as u64
        } else {
            escaped_mask::<true>(self, ticks) as u64
        }
    }
}

/// Returns in each lane its bits `kept`, with the bits `flipped` flipped, plus `more`: 0x80 or more where what
/// is kept and flipped is at least `0x80 - more`.
///
/// All three are below 0x80, so no sum carries into the next lane.
#[inline(always)]
fn sums(lanes: u64, kept: u8, flipped: u8, more: u8) -> u64
    requires kept { kept < 0x80 }
    requires flipped { flipped < 0x80 }
    requires more { more < 0x80 }
    ensures { lanes_of_word result
        ≡ map (λ b. bit_xor (bit_and b kept) flipped + more) (lanes_of_word lanes) }
{
    ((lanes & each_lane(kept)) ^ each_lane(flipped)) + each_lane(more)
}

/// Returns flags where JSON needs an escape, in one word.
///
/// A flip of bit 1 brings the quotation mark, 0x22, to 0x20, past the control characters, which stay
/// below it. A byte that is not ASCII needs none.
#[inline(always)]
fn json_needs(lanes: u64) -> u64
    ensures { flagged_lanes (lanes_of_word result) ≡ map (needs_escape json) (lanes_of_word lanes) }
{
    let above = sums(lanes, 0x7f, 0x02, 0x5f);
    let not_backslash = sums(lanes, 0x7f, b'\\', 0x7f);
    ((above & not_backslash) | lanes) ^ each_lane(0x80)
}

/// Returns flags where HTML needs an escape, in one word.
///
/// The six bytes are three pairs, each of two bytes that differ in one bit.
#[inline(always)]
fn html_needs(lanes: u64) -> u64
    ensures { flagged_lanes (lanes_of_word result) ≡ map (needs_escape html) (lanes_of_word lanes) }
{
    let not_quote_or_ampersand = sums(lanes, 0x7b, b'"', 0x7f);
    let not_apostrophe_or_slash = sums(lanes, 0x77, b'\'', 0x7f);
    let not_angle = sums(lanes, 0x7d, b'<', 0x7f);
    ((not_quote_or_ampersand & not_apostrophe_or_slash & not_angle) | lanes) ^ each_lane(0x80)
}

/// Returns which lanes of `v` have bytes that need an escape: in HTML if `HTML`, else in JSON. It
/// ticks once.
///
/// Where `v` begins with the bytes of `a<b`, lane 1 is set in HTML, and none of these in JSON.
#[inline(always)]
pub fn escaped_mask<const HTML: bool>(v: &Simd128u, ticks: &mut Ticks) -> u16
    ensures lanes { ⟦<u16 as BitMask>⟧.bits result
        ≡ map (needs_escape (mode_of HTML)) (⟦<Simd128u as Simd>⟧.lanes v.now) }
    ensures tick { ticks.new ≡ ticks.old + 1 }
{
    ticks.tick();
    if HTML {
        lane_bits(html_needs(v.low), html_needs(v.high))
    } else {
        lane_bits(json_needs(v.low), json_needs(v.high))
    }
}
