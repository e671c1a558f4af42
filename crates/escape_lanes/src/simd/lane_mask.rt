//! The mask of every vector: a truth value for each lane, as a number.
ghost use Rattle.std.specs.Prelude.{◌≡◌, ◌||◌, ◌&&◌, ◌<◌, ◌≤◌, ◌^◌, refl};
ghost use Rattle.std.specs.Simd.Lanes.{zip2};
ghost use Rattle.std.proofs.Common.{lit≤, rules};
ghost use Rattle.escape_lanes.specs.Bits.{bits_of, length-bits_of};

use crate::simd::bits::NeonBits;
use crate::simd::mask::Mask;
use crate::simd::traits::BitMask;
use std::ops::{BitAnd, BitOr, BitOrAssign};

/// A truth value for each of `N` lanes. `BITS` tells which bit mask it has, as in
/// [`Vector`](crate::simd::vector::Vector).
#[derive(Debug, Clone, Copy)]
pub struct LaneMask<const BITS: u8, const N: usize> {
    // Bit `i` is set where lane `i` is.
    bits: u64,
    ghost below: { bits < 2 ^ N },
}

/// Which bit mask a mask has.
pub trait HasBits<const N: usize> {
    /// The bit mask.
    type Bits: BitMask;

    /// Returns the bit mask of a number with one bit for each lane.
    fn of_lanes(lanes: u64) -> Self::Bits
        requires { lanes < 2 ^ N }
        ensures { Self.Bits.bits result ≡ bits_of N lanes };

    // It has `N` lanes, which fit in a number.
    ghost lane_count: { Self.Bits.LEN ≡ N };

    ghost at_most: { N ≤ 64 };
}

impl HasBits<16> for LaneMask<1, 16> {
    type Bits = u16;

    ghost lane_count = { refl };

    ghost at_most = { lit≤ tt };

    #[inline(always)]
    fn of_lanes(lanes: u64) -> u16 {
        lanes as u16
    }
}

impl HasBits<16> for LaneMask<4, 16> {
    type Bits = NeonBits;

    ghost lane_count = { refl };

    ghost at_most = { lit≤ tt };

    #[inline(always)]
    fn of_lanes(lanes: u64) -> NeonBits {
        NeonBits::of(lanes as u16)
    }
}

impl HasBits<32> for LaneMask<1, 32> {
    type Bits = u32;

    ghost lane_count = { refl };

    ghost at_most = { lit≤ tt };

    #[inline(always)]
    fn of_lanes(lanes: u64) -> u32 {
        lanes as u32
    }
}

impl HasBits<64> for LaneMask<1, 64> {
    type Bits = u64;

    ghost lane_count = { refl };

    ghost at_most = { lit≤ tt };

    #[inline(always)]
    fn of_lanes(lanes: u64) -> u64 {
        lanes
    }
}

impl<const BITS: u8, const N: usize> LaneMask<BITS, N> {
    /// Returns the mask of a number with one bit for each lane.
    #[inline(always)]
    pub(crate) fn new(bits: u64) -> Self
        requires { bits < 2 ^ N }
        ensures { result.bits ≡ bits }
    {
        LaneMask { bits }
    }
}

impl<const BITS: u8, const N: usize> BitOr for LaneMask<BITS, N> {
    type Output = LaneMask<BITS, N>;

    ghost bitor_gives = { λ a b c. bits_of N c.bits ≡ zip2 ◌||◌ (bits_of N a.bits) (bits_of N b.bits) };

    #[inline(always)]
    #[tactic(auto, using(crate::proofs::LaneLemmas::bits_or, std::proofs::lemmas::Nat::or_lt))]
    fn bitor(self, rhs: LaneMask<BITS, N>) -> LaneMask<BITS, N> {
        LaneMask::new(self.bits | rhs.bits)
    }
}

impl<const BITS: u8, const N: usize> BitAnd for LaneMask<BITS, N> {
    type Output = LaneMask<BITS, N>;

    ghost bitand_gives = { λ a b c. bits_of N c.bits ≡ zip2 ◌&&◌ (bits_of N a.bits) (bits_of N b.bits) };

    #[inline(always)]
    #[tactic(auto, using(crate::proofs::LaneLemmas::bits_and))]
    fn bitand(self, rhs: LaneMask<BITS, N>) -> LaneMask<BITS, N> {
        LaneMask::new(self.bits & rhs.bits)
    }
}

impl<const BITS: u8, const N: usize> BitOrAssign for LaneMask<BITS, N> {
    ghost bitor_assign_gives = { λ a b c. bits_of N c.bits
        ≡ zip2 ◌||◌ (bits_of N a.bits) (bits_of N b.bits) };

    #[inline(always)]
    fn bitor_assign(&mut self, rhs: LaneMask<BITS, N>) {
        *self = *self | rhs;
    }
}

impl<const BITS: u8, const N: usize> Mask for LaneMask<BITS, N>
where
    LaneMask<BITS, N>: HasBits<N>,
{
    type Element = u8;

    type BitMask = <LaneMask<BITS, N> as HasBits<N>>::Bits;

    ghost truths = { λ m. bits_of N m.bits };

    ghost width = { λ m. Prim.search (rules, length-bits_of) };

    ghost can_or = { λ a b. tt };

    ghost or_is = { λ a b c h. h };

    ghost can_or_assign = { λ a b. tt };

    ghost or_assign_is = { λ a b c h. h };

    ghost can_and = { λ a b. tt };

    ghost and_is = { λ a b c h. h };

    #[inline(always)]
    fn bitmask(self) -> Self::BitMask {
        <LaneMask<BITS, N> as HasBits<N>>::of_lanes(self.bits)
    }
}
