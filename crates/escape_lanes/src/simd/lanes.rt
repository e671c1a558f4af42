//! What the vectors over `std::simd` share, at every width.
ghost use Rattle.std.specs.Prelude.{◌≡◌, ◌++◌, ◌<◌, ◌≤◌, ◌^◌, length, take, drop, replicate, nat_eq, nat_le};
ghost use Rattle.std.specs.Simd.Lanes.{zip2};
ghost use Rattle.escape_lanes.specs.Bits.{bits_of};
ghost use Rattle.escape_lanes.specs.Lanes.{AreBytes};

use std::simd::prelude::*;

/// Returns the first `N` bytes of `src`.
#[inline(always)]
pub(crate) fn load<const N: usize>(src: &[u8]) -> Simd<u8, N>
    requires { N ≤ length src.now }
    ensures bytes { AreBytes N result }
    ensures lanes { result ≡ take N src.now }
{
    Simd::from_slice(src)
}

/// Writes the lanes to the first `N` bytes of `dst`.
#[inline(always)]
#[tactic(auto, using(crate::proofs::LaneLemmas::stored_first))]
pub(crate) fn store<const N: usize>(v: &Simd<u8, N>, dst: &mut [u8])
    requires bytes { AreBytes N v.now }
    requires room { N ≤ length dst.old }
    ensures { dst.new ≡ v.now ++ drop N dst.old }
{
    v.copy_to_slice(dst);
}

/// Returns the byte in every lane.
#[inline(always)]
pub(crate) fn splat<const N: usize>(byte: u8) -> Simd<u8, N>
    ensures bytes { AreBytes N result }
    ensures lanes { result ≡ replicate N byte }
{
    Simd::splat(byte)
}

/// Returns one bit for each lane, the first lane's lowest: it is set if both vectors have the same byte there.
#[inline(always)]
pub(crate) fn eq<const N: usize>(a: &Simd<u8, N>, b: &Simd<u8, N>) -> u64
    requires left { AreBytes N a.now }
    requires right { AreBytes N b.now }
    requires few { N ≤ 64 }
    ensures below { result < 2 ^ N }
    ensures bits { bits_of N result ≡ zip2 nat_eq a.now b.now }
{
    a.simd_eq(*b).to_bitmask()
}

/// The same, of the lanes where the left byte is at most the right one, both unsigned.
#[inline(always)]
pub(crate) fn le<const N: usize>(a: &Simd<u8, N>, b: &Simd<u8, N>) -> u64
    requires left { AreBytes N a.now }
    requires right { AreBytes N b.now }
    requires few { N ≤ 64 }
    ensures below { result < 2 ^ N }
    ensures bits { bits_of N result ≡ zip2 nat_le a.now b.now }
{
    a.simd_le(*b).to_bitmask()
}
