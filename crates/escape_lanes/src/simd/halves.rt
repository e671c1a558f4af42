//! Vectors of two halves.
ghost use Rattle.std.specs.Prelude.{◌≡◌, ◌++◌, length};

use std::simd::prelude::*;

// All lanes of two vectors of 4.
const BOTH_4: [usize; 8] = [0, 1, 2, 3, 4, 5, 6, 7];

// All lanes of two vectors of 8.
const BOTH_8: [usize; 16] = [0, 1, 2, 3, 4, 5, 6, 7, 8, 9, 10, 11, 12, 13, 14, 15];

// All lanes of two vectors of 16.
const BOTH_16: [usize; 32] = [
    0, 1, 2, 3, 4, 5, 6, 7, 8, 9, 10, 11, 12, 13, 14, 15, 16, 17, 18, 19, 20, 21, 22, 23, 24, 25,
    26, 27, 28, 29, 30, 31,
];

// All lanes of two vectors of 32.
const BOTH_32: [usize; 64] = [
    0, 1, 2, 3, 4, 5, 6, 7, 8, 9, 10, 11, 12, 13, 14, 15, 16, 17, 18, 19, 20, 21, 22, 23, 24, 25,
    26, 27, 28, 29, 30, 31, 32, 33, 34, 35, 36, 37, 38, 39, 40, 41, 42, 43, 44, 45, 46, 47, 48, 49,
    50, 51, 52, 53, 54, 55, 56, 57, 58, 59, 60, 61, 62, 63,
];

/// Returns two vectors of 4 lanes as one.
#[inline(always)]
pub(crate) fn both_4(low: u8x4, high: u8x4) -> u8x8
    requires low { length low ≡ 4 }
    requires high { length high ≡ 4 }
    ensures { result ≡ low ++ high }
{
    low.shuffle(high, BOTH_4)
}

/// Returns two vectors of 8 lanes as one.
#[inline(always)]
pub(crate) fn both_8(low: u8x8, high: u8x8) -> u8x16
    requires low { length low ≡ 8 }
    requires high { length high ≡ 8 }
    ensures { result ≡ low ++ high }
{
    low.shuffle(high, BOTH_8)
}

/// Returns two vectors of 16 lanes as one.
#[inline(always)]
pub(crate) fn both_16(low: u8x16, high: u8x16) -> u8x32
    requires low { length low ≡ 16 }
    requires high { length high ≡ 16 }
    ensures { result ≡ low ++ high }
{
    low.shuffle(high, BOTH_16)
}

/// Returns two vectors of 32 lanes as one.
#[inline(always)]
pub(crate) fn both_32(low: u8x32, high: u8x32) -> u8x64
    requires low { length low ≡ 32 }
    requires high { length high ≡ 32 }
    ensures { result ≡ low ++ high }
{
    low.shuffle(high, BOTH_32)
}
