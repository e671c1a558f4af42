//! Numbers as bit masks, lowest bits first.
ghost use Rattle.std.specs.Prelude.{◌≡◌};
ghost use Rattle.escape_lanes.specs.Bits.{bits_of, nibbles_of, length-bits_of};
ghost use Rattle.escape_lanes.specs.Lanes.{AreBytes, flagged_lanes};

use crate::simd::needs;
use crate::simd::traits::BitMask;
use std::simd::prelude::*;

/// Lane `i` is bit `i`.
impl BitMask for u16 {
    const LEN: usize = 16;

    ghost LEN = { 16 };

    ghost bits = { bits_of 16 };

    ghost count = { length-bits_of 16 };

    #[inline(always)]
    #[tactic(auto, using(crate::proofs::BitLemmas::trailing_bits))]
    fn first_offset(&self) -> usize {
        self.trailing_zeros() as usize
    }

    #[inline(always)]
    fn as_little_endian(&self) -> Self {
        *self
    }

    #[inline(always)]
    #[tactic(auto, using(crate::proofs::BitLemmas::zero_bits))]
    fn all_zero(&self) -> bool {
        *self == 0
    }

    #[inline(always)]
    #[tactic(auto, using(crate::proofs::BitLemmas::bits_cleared, crate::proofs::BitLemmas::bits_all_cleared))]
    fn clear_high_bits(&self, n: usize) -> Self {
        if n == 16 { 0 } else { *self & (u16::MAX >> n) }
    }
}

/// Lane `i` is bit `i`.
impl BitMask for u32 {
    const LEN: usize = 32;

    ghost LEN = { 32 };

    ghost bits = { bits_of 32 };

    ghost count = { length-bits_of 32 };

    #[inline(always)]
    #[tactic(auto, using(crate::proofs::BitLemmas::trailing_bits))]
    fn first_offset(&self) -> usize {
        self.trailing_zeros() as usize
    }

    #[inline(always)]
    fn as_little_endian(&self) -> Self {
        *self
    }

    #[inline(always)]
    #[tactic(auto, using(crate::proofs::BitLemmas::zero_bits))]
    fn all_zero(&self) -> bool {
        *self == 0
    }

    #[inline(always)]
    #[tactic(auto, using(crate::proofs::BitLemmas::bits_cleared, crate::proofs::BitLemmas::bits_all_cleared))]
    fn clear_high_bits(&self, n: usize) -> Self {
        if n == 32 { 0 } else { *self & (u32::MAX >> n) }
    }
}

/// Lane `i` is bit `i`.
impl BitMask for u64 {
    const LEN: usize = 64;

    ghost LEN = { 64 };

    ghost bits = { bits_of 64 };

    ghost count = { length-bits_of 64 };

    #[inline(always)]
    #[tactic(auto, using(crate::proofs::BitLemmas::trailing_bits))]
    fn first_offset(&self) -> usize {
        self.trailing_zeros() as usize
    }

    #[inline(always)]
    fn as_little_endian(&self) -> Self {
        *self
    }

    #[inline(always)]
    #[tactic(auto, using(crate::proofs::BitLemmas::zero_bits))]
    fn all_zero(&self) -> bool {
        *self == 0
    }

    #[inline(always)]
    #[tactic(auto, using(crate::proofs::BitLemmas::bits_cleared, crate::proofs::BitLemmas::bits_all_cleared))]
    fn clear_high_bits(&self, n: usize) -> Self {
        if n == 64 { 0 } else { *self & (u64::MAX >> n) }
    }
}

/// The bit mask of the kernel `neon`: sixteen lanes. [`NeonBits::new`] takes four bits for each.
#[derive(Drop)]
pub struct NeonBits {
    // Bit `i` is set where lane `i` is.
    lanes: u16,
}

impl NeonBits {
    /// Returns the sixteen lanes of a number: lane `i` is set if one of the bits `4i` to `4i + 3` is.
    ///
    /// `NeonBits::new(0x200).first_offset()` is 2.
    #[inline(always)]
    pub fn new(nibbles: u64) -> Self
        ensures { ⟦<NeonBits as BitMask>⟧.bits result ≡ nibbles_of 16 nibbles }
    {
        NeonBits {
            lanes: needs::flag_bits(&flags_of_nibbles(nibbles)) as u16,
        }
    }

    /// Returns the sixteen lanes of a number with one bit for each.
    #[inline(always)]
    pub(crate) fn of(lanes: u16) -> Self
        ensures { ⟦<NeonBits as BitMask>⟧.bits result ≡ bits_of 16 lanes }
    {
        NeonBits { lanes }
    }

    /// Returns one bit for each lane, the first lane's lowest.
    #[inline(always)]
    pub(crate) fn lane_bits(&self) -> u16
        ensures { bits_of 16 result ≡ ⟦<NeonBits as BitMask>⟧.bits self.now }
    {
        self.lanes
    }
}

/// Returns flags where the lanes of four bits each aren't all zero: a sum with 0x7f is then 0x80 or more.
#[inline(always)]
fn flags_of_nibbles(nibbles: u64) -> u8x16
    ensures bytes { AreBytes 16 result }
    ensures lanes { flagged_lanes result ≡ nibbles_of 16 nibbles }
{
    let pairs = u64x1::from_array([nibbles]).to_le_bytes().cast::<u16>();
    let apart = (pairs | (pairs << u16x8::splat(4))) & u16x8::splat(0x0f0f);
    (apart + u16x8::splat(0x7f7f)).to_le_bytes()
}

impl BitMask for NeonBits {
    const LEN: usize = 16;

    ghost LEN = { 16 };

    ghost bits = { λ m. bits_of 16 m.lanes };

    ghost count = { λ m. length-bits_of 16 m.lanes };

    #[inline(always)]
    fn first_offset(&self) -> usize {
        self.lanes.first_offset()
    }

    #[inline(always)]
    fn as_little_endian(&self) -> Self {
        NeonBits::of(self.lanes)
    }

    #[inline(always)]
    fn all_zero(&self) -> bool {
        self.lanes.all_zero()
    }

    #[inline(always)]
    fn clear_high_bits(&self, n: usize) -> Self {
        NeonBits::of(self.lanes.clear_high_bits(n))
    }
}
