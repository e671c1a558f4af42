//! The flags of a vector as a number, a bit for each lane: how a body goes through them.
ghost use Rattle.std.specs.Prelude.{◌≡◌, ◌+◌, ◌<◌, ◌≤◌, ◌++◌, false, nat_eq, take, drop, replicate};
ghost use Rattle.escape_lanes.specs.Bits.{bits_of, first_set, none_set, clear_first, gaps};
ghost use Rattle.escape_lanes.specs.Spread.{flag_count};

use crate::simd::traits::BitMask;

/// Returns the flags without the first one. Some lane is flagged.
///
/// Of `0b0110` that is `0b0100`.
#[inline(always)]
#[tactic(auto, using(crate::proofs::BitLemmas::some_bit, crate::proofs::BitLemmas::bits_first_cleared))]
pub fn clear_first_flag(flags: u64) -> u64
    requires { none_set (bits_of 64 flags) ≡ false }
    ensures { bits_of 64 result ≡ clear_first (first_set (bits_of 64 flags) + 1) (bits_of 64 flags) }
{
    flags & (flags - 1)
}

/// Returns the flags from lane `count` on, moved to the first lanes.
///
/// `count` is below 64. Of `0b0110` and 1 that is `0b0011`.
#[inline(always)]
#[tactic(auto, using(crate::proofs::BitLemmas::bits_shifted))]
pub fn shift_lanes(flags: u64, count: usize) -> u64
    requires { count < 64 }
    ensures { bits_of 64 result ≡ drop count (bits_of 64 flags) ++ replicate count false }
{
    flags >> count
}

/// Returns the flags of the first eight lanes, 0 where none is set.
#[inline(always)]
pub fn first_eight(flags: u64) -> u8
    ensures lanes { bits_of 8 result ≡ take 8 (bits_of 64 flags) }
    ensures none { nat_eq result 0 ≡ nat_eq (flag_count (bits_of 8 result)) 0 }
{
    (flags % 256) as u8
}

/// Returns how many lanes are flagged.
///
/// Of `0b0110` that is 2.
#[inline(always)]
#[tactic(auto, using(crate::proofs::BitLemmas::ones_bits))]
pub fn count_flagged(flags: u64) -> usize
    ensures count { result ≡ flag_count (bits_of 64 flags) }
    ensures most { result ≤ 64 }
{
    flags.count_ones() as usize
}

/// Returns how many of the first `count` lanes are not flagged and follow one that is: where runs end.
///
/// `count` is at most 64. Of `0b0110` and 4 that is 1, and of `0b0110` and 3 it is 0.
#[inline(always)]
pub fn count_gaps(flags: u64, count: usize) -> usize
    requires { count ≤ 64 }
    ensures count { result ≡ gaps false (take count (bits_of 64 flags)) }
    ensures most { result ≤ 64 }
{
    (!flags & (flags << 1))
        .clear_high_bits(64 - count)
        .count_ones() as usize
}
