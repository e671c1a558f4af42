//! The bytes that a kernel writes to, and how often it did.
ghost use Rattle.std.specs.Prelude.{◌≡◌, ◌+◌, ◌<◌, ◌≤◌, length, max};
ghost use Rattle.escape_lanes.specs.Written.{bytes_of, stored_of, escaped_of, quotes_of, IsOver, Writes};

use crate::simd::front::copy_lanes;
use crate::simd::ticks::Tally;
pub use crate::simd::ticks::Ticks;

/// The one slice that a kernel with vectors of `N` bytes writes to.
///
/// A contract sees its bytes and three counts: of the vectors stored, the escapes and the quotes. The
/// counts take no bytes, so a target is as large as the reference that it holds. Each call that writes
/// changes its own range and raises one count, and leaves the rest.
///
/// ```rust
/// let mut target = Target::<16>::new(&mut dst);
/// target.quote(0); // "
/// ```
#[derive(Drop)]
pub struct Target<'a, const N: usize> {
    slice: &'a mut [u8],
    stored: Tally,
    escaped: Tally,
    quotes: Tally,
}

impl<'a, const N: usize> Target<'a, N> {
    /// Returns a target over `dst`, with its bytes and all counts at 0.
    #[inline(always)]
    pub fn new(dst: &'a mut [u8]) -> Self
        ensures over { IsOver result dst.entry }
        ensures bytes { bytes_of result ≡ dst.old }
        ensures stored { stored_of result ≡ 0 }
        ensures escaped { escaped_of result ≡ 0 }
        ensures quotes { quotes_of result ≡ 0 }
    {
        Target {
            slice: dst,
            stored: Tally::new(),
            escaped: Tally::new(),
            quotes: Tally::new(),
        }
    }

    /// Returns the number of bytes, which never changes.
    #[inline(always)]
    pub fn len(&self) -> usize
        ensures { result ≡ length (bytes_of self.now) }
    {
        self.slice.len()
    }

    /// Writes the bytes at `at`, at most a vector's `N` or a block's 16, and counts them as so many vectors,
    /// escapes and quotation marks, at least one of these. Nothing else writes to the slice: its field is private
    /// to this file.
    #[inline(always)]
    pub(super) fn write(
        &mut self,
        at: usize,
        bytes: &[u8],
        vectors: usize,
        escapes: usize,
        quotes: usize,
    )
        requires few { (length bytes.now ≤ max N 16) × (length bytes.now ≤ 64) }
        requires room { at + length bytes.now ≤ length (bytes_of self.old) }
        requires counted { 0 < vectors + escapes + quotes }
        ensures { Writes vectors escapes quotes self.old self.new at bytes.now }
    {
        copy_lanes(&mut self.slice[at..at + bytes.len()], bytes);
        self.stored.raise_by(vectors);
        self.escaped.raise_by(escapes);
        self.quotes.raise_by(quotes);
    }
}
