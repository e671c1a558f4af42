//! Which lanes need an escape, at every width.
//!
//! Of a flag only the lane's top bit counts, so a difference can set it.
ghost use Rattle.std.specs.Prelude.{◌≡◌, if◌then◌else◌, ◌<◌, ◌≤◌, ◌^◌, map, nat_eq, bit_and, ◌-◌};
ghost use Rattle.escape_lanes.specs.Bits.{bits_of};
ghost use Rattle.escape_lanes.specs.Lanes.{AreBytes, flagged_lanes};
ghost use Rattle.escape_lanes.specs.Mode.{json, html, script};
ghost use Rattle.escape_lanes.specs.Nibble.{at_low_half, at_high_half};
ghost use Rattle.escape_lanes.specs.Replacement.{needs_escape};

use crate::simd::by_width::ByWidth;
use crate::tables::{
    HTML_CANDIDATE_TAB, HTML_HI_NIBBLE_TAB, HTML_LO_NIBBLE_TAB, SCRIPT_HI_NIBBLE_TAB,
    SCRIPT_LO_NIBBLE_TAB,
};
use std::simd::prelude::*;

/// Returns one bit for each lane that is flagged, the first lane's lowest.
#[inline(always)]
pub(crate) fn flag_bits<const N: usize>(flags: &Simd<u8, N>) -> u64
    requires bytes { AreBytes N flags.now }
    requires few { N ≤ 64 }
    ensures below { result < 2 ^ N }
    ensures bits { bits_of N result ≡ flagged_lanes flags.now }
{
    flags.simd_ge(Simd::splat(0x80)).to_bitmask()
}

/// Returns 255 where the lane is `byte`, or has one bit more, `bit`, which `byte` lacks; else 0. If `bit` is 0, only
/// `byte` gives 255.
#[inline(always)]
pub(crate) fn is_without<const N: usize>(v: &Simd<u8, N>, bit: u8, byte: u8) -> Simd<u8, N>
    requires { AreBytes N v.now }
    ensures { result ≡ map (λ b. if nat_eq (bit_and b (255 - bit)) byte then 255 else 0) v.now }
{
    (*v & Simd::splat(!bit))
        .simd_eq(Simd::splat(byte))
        .select(Simd::splat(255), Simd::splat(0))
}

/// Returns flags where JSON needs an escape.
///
/// A flip of bit 1 brings the quotation mark, 0x22, to 0x20, past the control characters, which stay below
/// it. Subtracted from 0xa0, these leave 0x80 or more.
#[inline(always)]
pub(crate) fn json_needs<const N: usize>(v: &Simd<u8, N>) -> Simd<u8, N>
    requires { AreBytes N v.now }
    ensures bytes { AreBytes N result }
    ensures lanes { flagged_lanes result ≡ map (needs_escape json) v.now }
{
    let all: Simd<u8, N> = Simd::splat(0xa0);
    let control_or_quote = all.saturating_sub(*v ^ Simd::splat(2));
    // No lane is both. Of an `|` the compiler makes a choice between vectors, which is slower.
    control_or_quote ^ is_without(v, 0, b'\\')
}

/// Returns what the table has for the low half of each lane.
#[inline(always)]
fn by_low_half<const N: usize>(v: &Simd<u8, N>, table: &[u8; 16]) -> Simd<u8, N>
where
    Simd<u8, N>: ByWidth<N>,
    requires { AreBytes N v.now }
    ensures { result ≡ map (at_low_half table.now) v.now }
{
    <Simd<u8, N> as ByWidth<N>>::look_up(table, &(*v & Simd::splat(15)))
}

/// Returns what the table has for the high half of each lane.
#[inline(always)]
fn by_high_half<const N: usize>(v: &Simd<u8, N>, table: &[u8; 16]) -> Simd<u8, N>
where
    Simd<u8, N>: ByWidth<N>,
    requires { AreBytes N v.now }
    ensures { result ≡ map (at_high_half table.now) v.now }
{
    <Simd<u8, N> as ByWidth<N>>::look_up(table, &(*v >> Simd::splat(4)))
}

/// Returns flags where HTML needs an escape, by the bits that both nibble tables have for each lane.
#[inline(always)]
pub(crate) fn html_needs<const N: usize>(v: &Simd<u8, N>) -> Simd<u8, N>
where
    Simd<u8, N>: ByWidth<N>,
    requires { AreBytes N v.now }
    ensures bytes { AreBytes N result }
    ensures lanes { flagged_lanes result ≡ map (needs_escape html) v.now }
{
    let flags = by_low_half(v, &HTML_LO_NIBBLE_TAB) & by_high_half(v, &HTML_HI_NIBBLE_TAB);
    flags
        .simd_ne(Simd::splat(0))
        .select(Simd::splat(255), Simd::splat(0))
}

/// Returns flags where HTML needs an escape, by the candidate of each lane: the lane is one of the six
/// bytes exactly where it is its candidate.
#[inline(always)]
pub(crate) fn html_needs_by_candidates<const N: usize>(v: &Simd<u8, N>) -> Simd<u8, N>
where
    Simd<u8, N>: ByWidth<N>,
    requires { AreBytes N v.now }
    ensures bytes { AreBytes N result }
    ensures lanes { flagged_lanes result ≡ map (needs_escape html) v.now }
{
    v.simd_eq(by_low_half(v, &HTML_CANDIDATE_TAB))
        .select(Simd::splat(255), Simd::splat(0))
}

/// Returns the flags of script, by the sum of what the nibble tables have for each lane.
#[inline(always)]
pub(crate) fn script_needs<const N: usize>(v: &Simd<u8, N>) -> Simd<u8, N>
where
    Simd<u8, N>: ByWidth<N>,
    requires { AreBytes N v.now }
    ensures bytes { AreBytes N result }
    ensures lanes { flagged_lanes result ≡ map (needs_escape script) v.now }
{
    by_low_half(v, &SCRIPT_LO_NIBBLE_TAB) + by_high_half(v, &SCRIPT_HI_NIBBLE_TAB)
}
