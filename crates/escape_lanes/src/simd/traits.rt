//! Vectors and bit masks, as lists of numbers and of truth values.
ghost use Rattle.std.specs.Prelude.{◌≡◌, ℕ, ◌-◌, ◌<◌, ◌≤◌, Bool, List, ◌++◌, length, take, drop, replicate, nat_eq, nat_le, slice_index_or};
ghost use Rattle.std.specs.Simd.Lanes.{zip2};
ghost use Rattle.escape_lanes.specs.Bits.{first_set, none_set, clear_last};

use crate::simd::mask::Mask;

/// The lanes of a mask as a number, to find the first that is set.
///
/// A contract sees `LEN` truth values, one for each lane, the first lane first.
pub trait BitMask: Drop {
    /// The number of lanes.
    const LEN: usize;

    ghost LEN: { ℕ };

    // The truth values, lane by lane.
    ghost bits: { Self → List Bool };

    /// Returns the place of the first lane that is set, and `LEN` where none is.
    fn first_offset(&self) -> usize
        ensures { result ≡ first_set (bits self.now) };

    /// Returns the same lanes, in the order in which the lane of the lowest address is the lowest.
    ///
    /// They are held in that order, so this is the same mask.
    fn as_little_endian(&self) -> Self
        ensures { bits result ≡ bits self.now };

    /// Returns whether no lane is set.
    fn all_zero(&self) -> bool
        ensures { result ≡ none_set (bits self.now) };

    /// Returns the mask with its last `n` lanes cleared and the others kept.
    ///
    /// `n` is at most `LEN`, and `LEN` clears all lanes.
    fn clear_high_bits(&self, n: usize) -> Self
        requires { n ≤ LEN }
        ensures { bits result ≡ clear_last n (bits self.now) };

    // There are `LEN` of them.
    ghost count: { (m : Self) → length (bits m) ≡ LEN };
}

/// A vector of bytes.
///
/// A contract sees `LANES` numbers from 0 to 255, the first lane first.
pub trait Simd: Sized + Drop {
    /// The number of lanes, which is the size of a vector in bytes: 16, 32 or 64 here.
    const LANES: usize;

    /// The type of one element.
    type Element;

    /// What a comparison returns.
    type Mask: Mask;

    ghost LANES: { ℕ };

    // The numbers, lane by lane.
    ghost lanes: { Self → List ℕ };

    // The number that an element stands for.
    ghost number: { Self.Element → ℕ };

    /// Returns the first `LANES` bytes of `src`, which has as many or more.
    fn loadu(src: &[u8]) -> Self
        requires { LANES ≤ length src.now }
        ensures { lanes result ≡ take LANES src.now };

    /// Writes the lanes to the first `LANES` bytes of `dst`, which has as many or more, and leaves
    /// the bytes after them alone.
    fn storeu(&self, dst: &mut [u8])
        requires { LANES ≤ length dst.old }
        ensures { dst.new ≡ lanes self.now ++ drop LANES dst.old };

    /// Returns the lanes that are equal in both vectors.
    fn eq(&self, rhs: &Self) -> Self::Mask
        ensures { Self.Mask.truths result ≡ zip2 nat_eq (lanes self.now) (lanes rhs.now) };

    /// Returns the element in every lane.
    fn splat(elem: Self::Element) -> Self
        ensures { lanes result ≡ replicate LANES (number elem) };

    /// Returns the lanes where this vector is at most the other one, as unsigned numbers.
    fn le(&self, rhs: &Self) -> Self::Mask
        ensures { Self.Mask.truths result ≡ zip2 nat_le (lanes self.now) (lanes rhs.now) };

    // There are `LANES` of them, each below 256.
    ghost width: { (v : Self) → length (lanes v) ≡ LANES };

    ghost bytes: { (v : Self) (k : ℕ) → k < LANES → slice_index_or (lanes v) k 0 < 256 };

    // A comparison returns a truth value for each lane.
    ghost mask_width: { Self.Mask.BitMask.LEN ≡ LANES };
}

/// What short texts need besides: a text's last bytes in a vector.
pub trait LoadLast: Simd {
    /// Returns the last `count` bytes of `src` in the first lanes, and zeros in the others.
    ///
    /// `src` has `count` bytes or more, and a vector more than `count` lanes. Of `abcd` and 2 it
    /// makes `c`, `d` and zeros.
    fn loadu_last(src: &[u8], count: usize) -> Self
        requires few { count < Self.LANES }
        requires inside { count ≤ length src.now }
        ensures { Self.lanes result
            ≡ drop (length src.now - count) src.now ++ replicate (Self.LANES - count) 0 };

    // There are so few lanes that an array of them fits in memory.
    ghost at_most: { Self.LANES ≤ 64 };
}

/// A [`Simd`] as it is loaded and stored.
///
/// What needs no comparison asks for this: then its proof has no masks in it.
pub trait LoadStore: Sized + Drop {
    ghost LANES: { ℕ };

    // The numbers, lane by lane.
    ghost lanes: { Self → List ℕ };

    /// As [`Simd::loadu`].
    fn load(src: &[u8]) -> Self
        requires { LANES ≤ length src.now }
        ensures { lanes result ≡ take LANES src.now };

    /// As [`LoadLast::loadu_last`].
    fn load_last(src: &[u8], count: usize) -> Self
        requires few { count < LANES }
        requires inside { count ≤ length src.now }
        ensures { lanes result
            ≡ drop (length src.now - count) src.now ++ replicate (LANES - count) 0 };

    /// As [`Simd::storeu`].
    fn put(&self, dst: &mut [u8])
        requires { LANES ≤ length dst.old }
        ensures { dst.new ≡ lanes self.now ++ drop LANES dst.old };

    // There are `LANES` of them.
    ghost width: { (v : Self) → length (lanes v) ≡ LANES };

    // So few that an array of them fits in memory.
    ghost at_most: { LANES ≤ 64 };
}

impl<S: LoadLast> LoadStore for S {
    ghost LANES = { S.LANES };

    ghost lanes = { S.lanes };

    ghost width = { S.width };

    ghost at_most = { S.at_most };

    #[inline(always)]
    fn load(src: &[u8]) -> S {
        S::loadu(src)
    }

    #[inline(always)]
    fn load_last(src: &[u8], count: usize) -> S {
        S::loadu_last(src, count)
    }

    #[inline(always)]
    fn put(&self, dst: &mut [u8]) {
        self.storeu(dst);
    }
}
