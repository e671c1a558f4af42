//! A truth value for each lane of a vector: what a comparison returns.
ghost use Rattle.std.specs.Prelude.{◌≡◌, Bool, List, length, ◌||◌, ◌&&◌};
ghost use Rattle.std.specs.Simd.Lanes.{zip2};

use crate::simd::traits::BitMask;
use std::ops::{BitAnd, BitOr, BitOrAssign};

/// The result of a comparison of two vectors, lane by lane.
///
/// A contract sees a truth value for each lane, as many as the mask's bit mask has. The operators
/// act lane by lane: `a | b` has the lanes of either, `a & b` the lanes of both.
pub trait Mask: Sized
    + Drop
    + BitOr<Self, Output = Self>
    + BitOrAssign
    + BitAnd<Self, Output = Self> {
    /// The type of one element of the vectors that are compared.
    type Element;

    /// The same truth values, as a number.
    type BitMask: BitMask;

    // The truth values, lane by lane.
    ghost truths: { Self → List Bool };

    /// Returns the bit mask with the same truth values.
    fn bitmask(self) -> Self::BitMask
        ensures { Self.BitMask.bits result ≡ truths self };

    // There are as many as the bit mask has.
    ghost width: { (m : Self) → length (truths m) ≡ Self.BitMask.LEN };

    // The operators may always be used, and act lane by lane.
    ghost can_or: { (a b : Self) → Self.can_bitor a b };

    ghost or_is: { (a b c : Self) → Self.bitor_gives a b c → truths c ≡ zip2 ◌||◌ (truths a) (truths b) };

    ghost can_or_assign: { (a b : Self) → Self.can_bitor_assign a b };

    ghost or_assign_is: { (a b c : Self) → Self.bitor_assign_gives a b c
        → truths c ≡ zip2 ◌||◌ (truths a) (truths b) };

    ghost can_and: { (a b : Self) → Self.can_bitand a b };

    ghost and_is: { (a b c : Self) → Self.bitand_gives a b c → truths c ≡ zip2 ◌&&◌ (truths a) (truths b) };
}
