//! How far a run of escapes goes: as its mask tells, or its bytes.
ghost use Rattle.std.specs.Prelude.{◌≡◌, ℕ, ◌+◌, ◌<◌, ◌≤◌, true, false, List, length, drop};
ghost use Rattle.escape_simd.specs.Modes.{mode_numbered};
ghost use Rattle.escape_simd.specs.Output.{source_len};
ghost use Rattle.escape_simd.specs.Stretch.{IsFlaggedAt, IsRunAt, IsRunEnd, run_end};
ghost use Rattle.escape_simd.specs.RunLaws.{entry-flagged};

use escape_lanes::simd::escape_mask::EscapeMask;
use escape_lanes::simd::mode::entry;

/// What tells whether a run goes on.
pub(crate) trait RunEnd<const MODE: u8>: Drop {
    // The run goes on at a place of a text, the last number. The number before is the place up to which `self` tells.
    ghost goes: { Self → List ℕ → ℕ → ℕ → Type 0 };

    // It has ended there.
    ghost ends: { Self → List ℕ → ℕ → ℕ → Type 0 };

    /// Returns whether the run goes on at `next`, the place after what was escaped last: before `stop` alone.
    fn goes_on(&mut self, src: &[u8], stop: usize, next: usize) -> bool
        requires { (at : ℕ) × goes self.old src.now stop at
            × (next ≡ at + source_len (mode_numbered MODE) (drop at src.now))
            × (next ≤ length src.now) }
        ensures goes { result ≡ true → goes self.new src.now stop next }
        ensures ends { result ≡ false → ends self.new src.now stop next };

    // Where it goes on, a byte needs an escape.
    ghost flagged: { (f : Self) (src : List ℕ) (stop at : ℕ) → goes f src stop at
        → IsFlaggedAt (mode_numbered MODE) src at × (at < stop) × (stop ≤ length src) };
}

impl<const MODE: u8> RunEnd<MODE> for EscapeMask<MODE> {
    ghost goes = { λ mask src stop at. IsRunAt (mode_numbered MODE) src stop at mask };

    ghost ends = { λ mask src stop at. IsRunEnd (mode_numbered MODE) src stop at mask };

    #[inline(always)]
    fn goes_on(&mut self, _: &[u8], _: usize, next: usize) -> bool {
        // Whether no flag is left is asked first: most vectors have one run, and leave here.
        self.clear_first_flag();
        !self.is_clear() && self.is_flagged(next)
    }

    ghost flagged = { λ _ src stop at goes. (goes.flagged, goes.before, goes.inside) };
}

/// A text's bytes, looked up one by one.
#[derive(Drop)]
pub(crate) struct Entries;

impl<const MODE: u8> RunEnd<MODE> for Entries {
    ghost goes = { λ _ src stop at. (stop ≡ length src) × IsFlaggedAt (mode_numbered MODE) src at };

    ghost ends = { λ _ src _ at. run_end (mode_numbered MODE) src at ≡ at };

    #[inline(always)]
    fn goes_on(&mut self, src: &[u8], stop: usize, next: usize) -> bool {
        next < stop && entry::<MODE>(src[next]).0 != 0
    }

    ghost flagged = { λ _ src stop at goes. entry-flagged (mode_numbered MODE) src stop at goes };
}
