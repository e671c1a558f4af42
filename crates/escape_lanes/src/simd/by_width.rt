//! What `std::simd` does only at a width that is written out.
ghost use Rattle.std.specs.Prelude.{◌≡◌, ◌≤◌, ◌<◌, ◌-◌, ◌++◌, length, map, drop, replicate, slice_index};
ghost use Rattle.escape_lanes.specs.Lanes.{AreBytes, AreBelow};

use crate::simd::halves::{both_16, both_32};
use crate::simd::last::{last_16, last_32, last_64};
use std::simd::prelude::*;

/// The steps that `std::simd` has only for a fixed width.
pub trait ByWidth<const N: usize> {
    /// Returns what the table has at each place.
    fn look_up(table: &[u8; 16], places: &Simd<u8, N>) -> Simd<u8, N>
        requires { AreBelow 16 N places.now }
        ensures { result ≡ map (slice_index table.now) places.now };

    /// Returns the last `count` bytes, with zeros after them.
    fn last(src: &[u8], count: usize) -> Simd<u8, N>
        requires few { count < N }
        requires inside { count ≤ length src.now }
        ensures bytes { AreBytes N result }
        ensures lanes { result ≡ drop (length src.now - count) src.now ++ replicate (N - count) 0 };
}

impl ByWidth<16> for u8x16 {
    #[inline(always)]
    fn look_up(table: &[u8; 16], places: &u8x16) -> u8x16 {
        u8x16::from_array(*table).swizzle_dyn_within::<16>(*places)
    }

    #[inline(always)]
    fn last(src: &[u8], count: usize) -> u8x16 {
        last_16(src, count)
    }
}

impl ByWidth<32> for u8x32 {
    #[inline(always)]
    fn look_up(table: &[u8; 16], places: &u8x32) -> u8x32 {
        let table = u8x16::from_array(*table);
        both_16(table, table).swizzle_dyn_within::<16>(*places)
    }

    #[inline(always)]
    fn last(src: &[u8], count: usize) -> u8x32 {
        last_32(src, count)
    }
}

impl ByWidth<64> for u8x64 {
    #[inline(always)]
    fn look_up(table: &[u8; 16], places: &u8x64) -> u8x64 {
        let table = u8x16::from_array(*table);
        let pair = both_16(table, table);
        both_32(pair, pair).swizzle_dyn_within::<16>(*places)
    }

    #[inline(always)]
    fn last(src: &[u8], count: usize) -> u8x64 {
        last_64(src, count)
    }
}
