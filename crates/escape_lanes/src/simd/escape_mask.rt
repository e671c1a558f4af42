//! The mask that knows its bytes, and the classifiers, which alone make one.
ghost use Rattle.std.specs.Prelude.{◌≡◌, ℕ, ◌+◌, ◌*◌, ◌<◌, ◌≤◌, ◌&&◌, List, [], false, length, take, drop, slice_index_or};
ghost use Rattle.std.specs.Borrow.{ftrue};
ghost use Rattle.escape_lanes.specs.Bits.{bits_of, first_set};
ghost use Rattle.escape_lanes.specs.Masks.{is_clear, lanes_of_mask, mask_from, used_up, whole_mask};
ghost use Rattle.escape_lanes.specs.Mode.{mode_numbered};

use crate::simd::classifier::Classifier;
use crate::simd::lane_bits::{clear_first_flag, shift_lanes};
use crate::simd::ticks::{Tally, Ticks};
use crate::simd::traits::BitMask;
use std::marker::Model;

/// The bytes that a mask is of, and the first of them that it tells of. It takes no memory, and nothing runs
/// to make it.
#[derive(Drop)]
struct Known {
    ghost bytes: { List ℕ },
    ghost from: { ℕ },
}

impl Model for Known {
    ghost also_owns = { λ _. ftrue };
}

impl Known {
    // All of these bytes.
    #[inline(always)]
    fn of(_bytes: &[u8]) -> Known
        ensures { (result.bytes ≡ _bytes.now) × (result.from ≡ 0) }
    {
        Known {}
    }

    // At most `_count` of the bytes, from `_skip` on. The mask tells of those from `_from` on.
    #[inline(always)]
    fn part(_whole: &Known, _skip: usize, _count: usize, _from: usize) -> Known
        ensures { (result.bytes ≡ take _count (drop _skip _whole.now.bytes)) × (result.from ≡ _from) }
    {
        Known {}
    }
}

/// Which of at most 64 bytes need an escape (script: also e2): bit `i` is set if byte `i` does, and the mask
/// still tells of it.
///
/// A contract sees the bytes, from which of them on the mask tells, and whether a vector was stored by it.
/// Only a classifier makes a mask by which none was: of a vector, or, in [`rest`](Self::rest), of what is left
/// of one. It can't be cloned, and in `escape_simd` each store of a vector uses up the mask that tells its bytes.
#[derive(Drop)]
pub struct EscapeMask<const MODE: u8> {
    bits: u64,
    of: Known,
    stored: Tally,
}

impl<const MODE: u8> Model for EscapeMask<MODE> {
    ghost use Rattle.std.specs.Prelude.{◌≡◌};
    ghost use Rattle.escape_lanes.specs.Bits.{bits_of};
    ghost use Rattle.escape_lanes.specs.Masks.{MaskOf, lanes_of_mask, mask_from};
    ghost use Rattle.escape_lanes.specs.Mode.{mode_numbered};

    ghost Value = { MaskOf };

    ghost view = { λ m. mask_from m.of.bytes m.of.from m.stored.count };

    ghost invariant = { λ m. bits_of 64 m.bits
        ≡ lanes_of_mask (mode_numbered MODE) (mask_from m.of.bytes m.of.from m.stored.count) };
}

impl<const MODE: u8> EscapeMask<MODE> {
    /// Returns the mask of no bytes. No vector can be stored by it.
    #[inline(always)]
    pub fn empty() -> Self
        ensures { result ≡ mask_from [] 0 1 }
    {
        let mut stored = Tally::new();
        stored.raise_by(1);
        EscapeMask {
            bits: 0,
            of: Known::of(&[]),
            stored,
        }
    }

    /// Counts the one vector that is stored by the mask.
    #[inline(always)]
    pub fn count_store(&mut self)
        requires { self.old.stored ≡ 0 }
        ensures { self.new ≡ used_up self.old }
    {
        self.stored.raise_by(1);
    }

    /// Returns the mask as a number.
    #[inline(always)]
    pub fn bits(&self) -> u64
        ensures { bits_of 64 result ≡ lanes_of_mask (mode_numbered MODE) self.now }
    {
        self.bits
    }

    /// Returns whether no byte is flagged.
    #[inline(always)]
    pub fn is_clear(&self) -> bool
        ensures { result ≡ is_clear (mode_numbered MODE) self.now }
    {
        self.bits.all_zero()
    }

    /// Returns the place of the first flagged byte, and 64 where none is.
    #[inline(always)]
    pub fn first_offset(&self) -> usize
        ensures { result ≡ first_set (lanes_of_mask (mode_numbered MODE) self.now) }
    {
        self.bits.first_offset()
    }

    /// Returns whether the byte at `at`, which is one of the mask's, is flagged.
    #[inline(always)]
    pub fn is_flagged(&self, at: usize) -> bool
        requires { at < length self.now.bytes }
        ensures { result ≡ slice_index_or (lanes_of_mask (mode_numbered MODE) self.now) at false }
    {
        shift_lanes(self.bits, at) % 2 == 1
    }

    /// Clears the first flag: the mask then tells only of the bytes after it. Some byte is flagged.
    #[inline(always)]
    pub fn clear_first_flag(&mut self)
        requires { is_clear (mode_numbered MODE) self.old ≡ false }
        ensures { self.new
            ≡ mask_from self.old.bytes (first_set (lanes_of_mask (mode_numbered MODE) self.old) + 1)
            self.old.stored }
    {
        let next = self.first_offset() + 1;
        let bits = clear_first_flag(self.bits);
        let of = Known::part(&self.of, 0, 64, next);
        (self.bits, self.of) = (bits, of);
    }

    /// Returns the mask of what is left of the bytes from `from` on, by which no vector was stored: so a further
    /// one can be. This is a classification, by the flags that are left: it ticks once.
    ///
    /// A vector was stored by the mask. Some byte is left, and none before `from` is flagged.
    #[inline(always)]
    pub fn rest(self, from: usize, ticks: &mut Ticks) -> Self
        requires { (self.stored ≡ 1)
            × (from < length self.bytes)
            × (self.from ≤ from)
            × (from ≤ first_set (lanes_of_mask (mode_numbered MODE) self)) }
        ensures told { result ≡ mask_from self.entry.bytes from 0 }
        ensures lanes { lanes_of_mask (mode_numbered MODE) result
            ≡ lanes_of_mask (mode_numbered MODE) self.entry }
        ensures tick { ticks.new ≡ ticks.old + 1 }
    {
        ticks.tick();
        EscapeMask {
            bits: self.bits,
            of: Known::part(&self.of, 0, 64, from),
            stored: Tally::new(),
        }
    }

    /// Returns the mask of the bytes from `count` on. `count` is below 64, and the mask tells of all of its
    /// bytes.
    #[inline(always)]
    pub fn skip(self, count: usize) -> Self
        requires { (self.from ≡ 0) × (count < 64) × (count ≤ length self.bytes) }
        ensures { result ≡ mask_from (drop count self.entry.bytes) 0 self.entry.stored }
    {
        EscapeMask {
            bits: shift_lanes(self.bits, count),
            of: Known::part(&self.of, count, 64, 0),
            stored: self.stored,
        }
    }

    /// Returns the mask of the first `count` bytes. The mask tells of all of its bytes.
    #[inline(always)]
    pub fn cut(self, count: usize) -> Self
        requires { (self.from ≡ 0) × (count ≤ length self.bytes) }
        ensures { result ≡ mask_from (take count self.entry.bytes) 0 self.entry.stored }
    {
        EscapeMask {
            bits: self.bits.clear_high_bits(64 - count),
            of: Known::part(&self.of, 0, count, 0),
            stored: self.stored,
        }
    }
}

/// Returns the mask of the text's vector at `at`. Ticks once.
#[inline(always)]
pub fn classify<V: Classifier<MODE, N>, const MODE: u8, const N: usize>(
    text: &[u8],
    at: usize,
    ticks: &mut Ticks,
) -> EscapeMask<MODE>
    requires { at + N ≤ length text.now }
    ensures told { result ≡ whole_mask (take N (drop at text.now)) }
    ensures tick { ticks.new ≡ ticks.old + 1 }
{
    let bytes = &text[at..at + N];
    EscapeMask {
        bits: V::load(bytes).escape_bits(ticks),
        of: Known::of(bytes),
        stored: Tally::new(),
    }
}

/// Returns the mask of `bytes`, of which there are some: `v` begins with them. Ticks once.
#[inline(always)]
pub fn classify_front<V: Classifier<MODE, N>, const MODE: u8, const N: usize>(
    v: &V,
    bytes: &[u8],
    ticks: &mut Ticks,
) -> EscapeMask<MODE>
    requires { (0 < length bytes.now)
        × (length bytes.now ≤ N)
        × (take (length bytes.now) (V.lanes v.now) ≡ bytes.now) }
    ensures told { result ≡ whole_mask bytes.now }
    ensures tick { ticks.new ≡ ticks.old + 1 }
{
    EscapeMask {
        bits: v.escape_bits(ticks).clear_high_bits(64 - bytes.len()),
        of: Known::of(bytes),
        stored: Tally::new(),
    }
}

/// Returns the masks of the text's four vectors from `at` on, and whether no byte of them is flagged. Ticks four
/// times.
#[inline(always)]
pub fn classify_four<V: Classifier<MODE, N>, const MODE: u8, const N: usize>(
    text: &[u8],
    at: usize,
    ticks: &mut Ticks,
) -> (
    EscapeMask<MODE>,
    EscapeMask<MODE>,
    EscapeMask<MODE>,
    EscapeMask<MODE>,
    bool,
)
    requires { at + 4 * N ≤ length text.now }
    ensures first { result.0 ≡ whole_mask (take N (drop at text.now)) }
    ensures second { result.1 ≡ whole_mask (take N (drop (at + N) text.now)) }
    ensures third { result.2 ≡ whole_mask (take N (drop (at + 2 * N) text.now)) }
    ensures fourth { result.3 ≡ whole_mask (take N (drop (at + 3 * N) text.now)) }
    ensures clear { result.4
        ≡ (is_clear (mode_numbered MODE) result.0 && is_clear (mode_numbered MODE) result.1)
        && (is_clear (mode_numbered MODE) result.2 && is_clear (mode_numbered MODE) result.3) }
    ensures ticks { ticks.new ≡ ticks.old + 4 }
{
    let first = classify::<V, MODE, N>(text, at, ticks);
    let second = classify::<V, MODE, N>(text, at + N, ticks);
    let third = classify::<V, MODE, N>(text, at + 2 * N, ticks);
    let fourth = classify::<V, MODE, N>(text, at + 3 * N, ticks);
    let front = first.is_clear() & second.is_clear();
    let last = third.is_clear() & fourth.is_clear();
    (first, second, third, fourth, front & last)
}
