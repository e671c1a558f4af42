//! What a kernel writes to a target: vectors, escapes, blocks of eight bytes and quotes.
ghost use Rattle.std.specs.Prelude.{◌≡◌, ◌+◌, ◌<◌, ◌≤◌, length, take, slice_set};
ghost use Rattle.std.proofs.Math.Seq.{paste};
ghost use Rattle.escape_lanes.specs.Bits.{bits_of};
ghost use Rattle.escape_lanes.specs.Spread.{IsBlock};
ghost use Rattle.escape_lanes.specs.Written.{bytes_of, stored_of, escaped_of, quotes_of, IsSameSlice};

use crate::simd::target::Target;
use crate::simd::traits::LoadStore;
use crate::tables::spread_row;
use std::simd::prelude::*;

/// The first eight lanes of a vector, and the first eight of another.
const FIRST_HALVES: [usize; 16] = [0, 1, 2, 3, 4, 5, 6, 7, 16, 17, 18, 19, 20, 21, 22, 23];

impl<'a, const N: usize> Target<'a, N> {
    /// Writes the `N` lanes of `v` at `at`.
    ///
    /// The vector has `N` lanes, and the target `N` bytes from `at` on. A vector of your own needs
    /// [`Simd`](crate::simd::traits::Simd) and [`LoadLast`](crate::simd::traits::LoadLast).
    #[inline(always)]
    pub fn store<S: LoadStore>(&mut self, at: usize, v: &S)
        requires lanes { S.LANES ≡ N }
        requires room { at + N ≤ length (bytes_of self.old) }
        ensures same_slice { IsSameSlice self.old self.new }
        ensures bytes { bytes_of self.new ≡ paste (bytes_of self.old) at (S.lanes v.now) N }
        ensures stored { stored_of self.new ≡ stored_of self.old + 1 }
        ensures escaped { escaped_of self.new ≡ escaped_of self.old }
        ensures quotes { quotes_of self.new ≡ quotes_of self.old }
    {
        self.store_front(at, v, N);
    }

    /// Writes exactly the first `k` lanes of `v` at `at`.
    ///
    /// The vector has `N` lanes, `k` of which are written, and the target `k` bytes from `at` on.
    #[inline(always)]
    pub fn store_front<S: LoadStore>(&mut self, at: usize, v: &S, k: usize)
        requires lanes { S.LANES ≡ N }
        requires count { k ≤ N }
        requires room { at + k ≤ length (bytes_of self.old) }
        ensures same_slice { IsSameSlice self.old self.new }
        ensures bytes { bytes_of self.new ≡ paste (bytes_of self.old) at (S.lanes v.now) k }
        ensures stored { stored_of self.new ≡ stored_of self.old + 1 }
        ensures escaped { escaped_of self.new ≡ escaped_of self.old }
        ensures quotes { quotes_of self.new ≡ quotes_of self.old }
    {
        let mut lanes = [0u8; N];
        v.put(&mut lanes);
        self.write(at, &lanes[..k], 1, 0, 0);
    }

    /// Writes the eight bytes of an entry at `at`: one escape.
    ///
    /// The target has eight bytes from `at` on.
    #[inline(always)]
    pub fn escape(&mut self, at: usize, entry: &[u8; 8])
        requires { at + 8 ≤ length (bytes_of self.old) }
        ensures same_slice { IsSameSlice self.old self.new }
        ensures bytes { bytes_of self.new ≡ paste (bytes_of self.old) at entry.now 8 }
        ensures stored { stored_of self.new ≡ stored_of self.old }
        ensures escaped { escaped_of self.new ≡ escaped_of self.old + 1 }
        ensures quotes { quotes_of self.new ≡ quotes_of self.old }
    {
        self.write(at, entry, 0, 1, 0);
    }

    /// Writes the first eight bytes of `block` at `at`, a reverse solidus before each that is flagged, and
    /// after them reverse solidi up to 16 bytes. The flag of the first byte is the lowest. Returns the place
    /// after the eight bytes.
    ///
    /// Each flag is an escape. A block with none counts as a vector stored. The target has 16 bytes from `at`
    /// on.
    #[inline(always)]
    pub fn escape_block(&mut self, at: usize, block: u8x16, flags: u8) -> usize
        requires whole { length block ≡ 16 }
        requires room { at + 16 ≤ length (bytes_of self.old) }
        ensures { IsBlock (bits_of 8 flags) (take 8 block) self.old self.new at result }
    {
        let solidi = block.shuffle(u8x16::splat(b'\\'), FIRST_HALVES);
        let places = u8x16::from_array(*spread_row(flags));
        let escapes = flags.count_ones() as usize;
        let bytes = solidi.swizzle_dyn(places).to_array();
        self.write(at, &bytes, (escapes == 0) as usize, escapes, 0);
        at + 8 + escapes
    }

    /// Writes a quotation mark, 0x22, at `at`.
    ///
    /// The target has a byte at `at`.
    #[inline(always)]
    pub fn quote(&mut self, at: usize)
        requires { at < length (bytes_of self.old) }
        ensures same_slice { IsSameSlice self.old self.new }
        ensures bytes { bytes_of self.new ≡ slice_set (bytes_of self.old) at 0x22 }
        ensures stored { stored_of self.new ≡ stored_of self.old }
        ensures escaped { escaped_of self.new ≡ escaped_of self.old }
        ensures quotes { quotes_of self.new ≡ quotes_of self.old + 1 }
    {
        self.write(at, b"\"", 0, 0, 1);
    }
}
