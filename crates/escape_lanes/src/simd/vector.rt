//! The vectors over `std::simd`, at every width.
ghost use Rattle.std.specs.Prelude.{◌≡◌};
ghost use Rattle.std.proofs.Common.{rules};
ghost use Rattle.escape_lanes.specs.Lanes.{AreBytes};

use crate::simd::by_width::ByWidth;
use crate::simd::lane_mask::{HasBits, LaneMask};
use crate::simd::lanes;
use crate::simd::traits::{LoadLast, Simd};

/// A vector of `N` bytes. `BITS` picks the bit mask: 1 is a number with one bit for each lane, 4 is
/// [`NeonBits`](crate::simd::bits::NeonBits), which can be made of four bits for each.
#[derive(Debug, Clone, Copy)]
pub struct Vector<const BITS: u8, const N: usize> {
    // An array, since no struct can hold a vector of `std::simd` whose width is a parameter.
    lanes: [u8; N],
    ghost are_bytes: { AreBytes N lanes },
}

impl<const BITS: u8, const N: usize> Vector<BITS, N> {
    /// Returns the vector with these lanes.
    #[inline(always)]
    pub(crate) fn of(lanes: std::simd::Simd<u8, N>) -> Self
        requires { AreBytes N lanes }
        ensures { result.lanes ≡ lanes.entry }
    {
        Vector {
            lanes: lanes.to_array(),
        }
    }

    /// Returns its lanes.
    #[inline(always)]
    pub(crate) fn lanes(&self) -> std::simd::Simd<u8, N>
        ensures bytes { AreBytes N result }
        ensures lanes { result ≡ self.now.lanes }
    {
        std::simd::Simd::from_array(self.lanes)
    }
}

impl<const BITS: u8, const N: usize> Simd for Vector<BITS, N>
where
    LaneMask<BITS, N>: HasBits<N>,
{
    const LANES: usize = N;

    type Element = u8;

    type Mask = LaneMask<BITS, N>;

    ghost LANES = { N };

    ghost lanes = { λ v. v.lanes };

    ghost number = { λ e. e };

    ghost width = { λ v. v.are_bytes.full };

    ghost bytes = { λ v. v.are_bytes.small };

    ghost mask_width = { Prim.search rules };

    #[inline(always)]
    fn loadu(src: &[u8]) -> Self {
        Vector::of(lanes::load(src))
    }

    #[inline(always)]
    fn storeu(&self, dst: &mut [u8]) {
        lanes::store(&self.lanes(), dst);
    }

    #[inline(always)]
    fn eq(&self, rhs: &Self) -> LaneMask<BITS, N> {
        LaneMask::new(lanes::eq(&self.lanes(), &rhs.lanes()))
    }

    #[inline(always)]
    fn splat(elem: u8) -> Self {
        Vector::of(lanes::splat(elem))
    }

    #[inline(always)]
    fn le(&self, rhs: &Self) -> LaneMask<BITS, N> {
        LaneMask::new(lanes::le(&self.lanes(), &rhs.lanes()))
    }
}

impl<const BITS: u8, const N: usize> LoadLast for Vector<BITS, N>
where
    LaneMask<BITS, N>: HasBits<N>,
    std::simd::Simd<u8, N>: ByWidth<N>,
{
    ghost at_most = { Prim.search rules };

    #[inline(always)]
    fn loadu_last(src: &[u8], count: usize) -> Self {
        Vector::of(<std::simd::Simd<u8, N> as ByWidth<N>>::last(src, count))
    }
}
