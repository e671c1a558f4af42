//! Masks, a bit for each lane.

use escape_lanes::simd::bits::NeonBits;
use escape_lanes::simd::{BitMask, Mask, Simd, v128};

/// A mask, how many of its last lanes are cut, what is left, and the first lane of that.
type Cut<M> = (M, usize, M, usize);

static CUTS_OF_16: [Cut<u16>; 6] = [
    (0, 0, 0, 16),
    (0x8001, 0, 0x8001, 0),
    (0x8001, 1, 0x0001, 0),
    (0x8001, 16, 0, 16),
    (0x8400, 5, 0x0400, 10),
    (0x8400, 6, 0, 16),
];

static CUTS_OF_32: [Cut<u32>; 6] = [
    (0, 0, 0, 32),
    (0x8000_0001, 31, 1, 0),
    (u32::MAX, 0, u32::MAX, 0),
    (u32::MAX, 32, 0, 32),
    (0x8040_0000, 9, 0x0040_0000, 22),
    (0x8040_0000, 10, 0, 32),
];

static CUTS_OF_64: [Cut<u64>; 5] = [
    (0, 0, 0, 64),
    (u64::MAX, 63, 1, 0),
    (u64::MAX, 64, 0, 64),
    (0x8000_0000_0000_0400, 53, 0x0400, 10),
    (0x8000_0000_0000_0400, 54, 0, 64),
];

/// Whether so many lanes are left, and these questions tell it.
fn is_cut<M: BitMask + PartialEq>((mask, n, left, first): &Cut<M>) -> bool {
    let cut = mask.as_little_endian().clear_high_bits((*n).min(M::LEN));
    cut == *left && cut.first_offset() == *first && cut.all_zero() == (*first == M::LEN)
}

fn are_cut<M: BitMask + PartialEq>(cuts: &[Cut<M>]) -> bool {
    for cut in cuts {
        if !is_cut(cut) {
            return false;
        }
    }
    true
}

#[test]
fn masks_that_are_cut(rt: HostRuntime) {
    assert!(rt; are_cut(&CUTS_OF_16));
    assert!(rt; are_cut(&CUTS_OF_32));
    assert!(rt; are_cut(&CUTS_OF_64));
}

/// `NeonBits::new` takes four bits for each lane. Its number, how many of its last lanes are cut, and the first lane
/// that is left.
static NEON_CUTS: [(u64, usize, usize); 9] = [
    (0, 0, 16),
    (0x200, 0, 2),
    (0x200, 13, 2),
    (0x200, 14, 16),
    (0xf0000, 4, 4),
    (0xf0000, 11, 4),
    (0xf0000, 12, 16),
    (u64::MAX, 0, 0),
    (u64::MAX, 16, 16),
];

fn is_neon_cut(bits: u64, n: usize, first: usize) -> bool {
    let cut = NeonBits::new(bits).clear_high_bits(n.min(16));
    cut.first_offset() == first && cut.all_zero() == (first == 16)
}

#[test]
fn neon_bits(rt: HostRuntime) {
    for (bits, n, first) in &NEON_CUTS {
        assert!(rt; is_neon_cut(*bits, *n, *first), "{bits} {n}");
    }
}

/// The mask of the lanes that are at most the bound, where each lane has the same byte.
fn at_most(byte: u8, bound: u8) -> u16 {
    v128::Simd128u::splat(byte)
        .le(&v128::Simd128u::splat(bound))
        .bitmask()
}

#[test]
fn lanes_that_are_all_the_same(rt: HostRuntime) {
    assert!(rt; at_most(0x20, 0x1f) == 0x0000);
    assert!(rt; at_most(0xff, 0xff) == 0xffff);
}
